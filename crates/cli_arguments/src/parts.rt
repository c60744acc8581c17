//! The files among the arguments, and the last argument if it is none of them.
ghost use Rattle.std.specs.Prelude.{◌≡◌, map, option_map};
ghost use Rattle.clap.specs.Words.{found_of, rows_of};
ghost use Rattle.cli_arguments.specs.Asked.{AreParts, ends_in, has_files, is_assembly, is_part, is_path, is_plain_word};

use crate::arguments::flag;
use crate::asked::Subcommand;
use clap::ArgMatches;

/// Takes the last of the arguments that name files, if it is none of them but says what to print of them.
pub(crate) fn take_part<'a>(
    subcommand: Subcommand,
    given: &ArgMatches<'a>,
    words: &mut Vec<&'a str>,
) -> Option<&'a str>
    ensures { AreParts subcommand (rows_of (found_of given.now)) (map (λ word. word.now) words.old.items)
        (map (λ word. word.now) words.new.items) (option_map (λ word. word.now) result) }
{
    let Some((last, before)) = words.as_slice().split_last() else {
        return None;
    };
    if !is_part(subcommand, has_files(given, before), last) {
        return None;
    }
    let (part, count) = (*last, before.len());
    words.truncate(count);
    Some(part)
}

/// Whether there are files: these arguments, or those of a list.
fn has_files(given: &ArgMatches<'_>, words: &[&str]) -> bool
    ensures { result ≡ has_files (rows_of (found_of given.now)) (map (λ word. word.now) words.now) }
{
    given.get_str("files-from").is_some() | flag(given, "null") | !words.is_empty()
}

/// Whether the last argument says what to print of files, if there are any besides.
fn is_part(subcommand: Subcommand, has_files: bool, word: &str) -> bool
    ensures { result ≡ is_part subcommand has_files word.now }
{
    match subcommand {
        Subcommand::Show => has_files && is_plain_word(word),
        Subcommand::Outline | Subcommand::Refs => has_files && !is_path(word),
        Subcommand::Where => true,
        _ => false,
    }
}

/// Whether a word has no dash, dot or slash.
fn is_plain_word(word: &str) -> bool
    ensures { result ≡ is_plain_word word.now }
{
    let word = word.as_bytes();
    word.iter().all(|byte| !matches!(byte, b'-' | b'.' | b'/'))
}

/// Whether a word has the form of a path: that of the standard input, one that begins in a directory, or an assembly's.
fn is_path(word: &str) -> bool
    ensures { result ≡ is_path word.now }
{
    let word = word.as_bytes();
    word == b"-".as_slice()
        || word.starts_with(b"/")
        || word.starts_with(b"./")
        || word.starts_with(b"../")
        || is_assembly(word)
}

/// Whether a word ends like the name of an assembly.
fn is_assembly(word: &[u8]) -> bool
    ensures { result ≡ is_assembly word.now }
{
    ends_in(word, b".dll")
        || ends_in(word, b".exe")
        || ends_in(word, b".winmd")
        || ends_in(word, b".netmodule")
}

/// Whether a word ends with these small letters, in any case.
fn ends_in(word: &[u8], ending: &[u8]) -> bool
    ensures { result ≡ ends_in ending.now word.now }
{
    let (_, last) = word.split_at(word.len().saturating_sub(ending.len()));
    last.eq_ignore_ascii_case(ending)
}
