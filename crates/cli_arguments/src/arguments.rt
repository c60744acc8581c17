//! The command line, and what its arguments ask for.
ghost use Rattle.std.specs.Prelude.{◌≡◌, IfOk, Some, [], false, map, true, unwrap_or};
ghost use Rattle.clap.specs.Words.{FailsBy, HasMatchesOf, all_of, app_of, fault_of, found_of, has_subcommand, rows_of, shape_of, subcommand_of};
ghost use Rattle.clap.specs.declared.Command.TheViews.{out-Command as fields_of};
ghost use Rattle.cli_arguments.specs.Asked.{Gives, has_flag};
ghost use Rattle.cli_arguments.specs.CommandLine as line;

use crate::argument::arg_of;
use crate::asked::{Ask, Subcommand};
use crate::help::HELP;
use crate::parts::take_part;
use crate::subcommands::{output_of, usage_of};
use clap::{ArgMatches, Command, Error};
use std::alloc::{AllocError, Global};

/// What `--version` prints after the name of the program: its version, and what it is proved and built with: the logic that
/// `rt version` names.
const LONG_VERSION: &str = "0.1.0\nproved and built by Rattle, logic dac8208d650f15bf";

/// Parses the arguments of a command line, the program name first.
///
/// # Errors
///
/// The error that `clap` makes for arguments that the command line does not accept, and for a request for help or the
/// version (`use_stderr` distinguishes them). Out of memory has the kind `OutOfMemory`. `Display` gives the text for
/// the user.
pub fn ask<'a>(alloc: Global, words: &'a [&'a str]) -> Result<Ask<'a>, Error>
    ensures given { IfOk result (Gives (map (λ word. word.now) words.entry.now)) }
    ensures refused { FailsBy (fault_of line.clim (map (λ word. word.now) words.entry.now)) result }
{
    let matches = matches_of(alloc, words)?;
    let (name, given) = matches.subcommand().unwrap();
    let subcommand = Subcommand::named(name).unwrap();
    Ok(asked(alloc, subcommand, given)?)
}

/// What `clap` finds in the arguments.
fn matches_of<'a>(alloc: Global, words: &'a [&'a str]) -> Result<ArgMatches<'a>, Error>
    ensures matches { IfOk result (HasMatchesOf line.clim (map (λ word. word.now) words.entry.now)) }
    ensures subcommand { IfOk result (λ matches. has_subcommand matches ≡ true) }
    ensures refused { FailsBy (fault_of line.clim (map (λ word. word.now) words.entry.now)) result }
{
    command(alloc)?.try_get_matches_from(words)
}

/// What the arguments of the subcommand ask for.
fn asked<'a>(
    alloc: Global,
    subcommand: Subcommand,
    given: &ArgMatches<'a>,
) -> Result<Ask<'a>, AllocError>
    ensures { IfOk result (λ ask. (words : _) → subcommand_of line.clim words ≡ Some (line.name_of subcommand, rows_of (found_of given.now))
        → Gives words ask) }
{
    let mut files = list(alloc, given, "FILE")?;
    let part = take_part(subcommand, given, &mut files);
    Ok(Ask {
        subcommand,
        bare: flag(given, "bare"),
        file: given.get_str("FILE"),
        second: given.get_str("second"),
        tokens: list(alloc, given, "HEX")?,
        ignored: list(alloc, given, "ignore")?,
        budget: given.get_one::<u64>("budget"),
        part,
        json: flag(given, "json"),
        codes: list(alloc, given, "CODE")?,
        files,
        files_from: given.get_str("files-from"),
        null: flag(given, "null"),
        quiet: flag(given, "quiet"),
        names: flag(given, "names"),
        until_fault: flag(given, "until-fault"),
        locates: flag(given, "where"),
        root: given.get_str("root"),
        unsigned: flag(given, "unsigned"),
        recursive: flag(given, "recursive"),
        extract: given.get_str("extract"),
        no_tokens: flag(given, "no-tokens"),
        public: flag(given, "public"),
        sorted: flag(given, "sorted"),
    })
}

/// Whether the flag was given.
pub(crate) fn flag(given: &ArgMatches<'_>, id: &str) -> bool
    ensures { result ≡ has_flag (rows_of (found_of given.now)) id.now }
{
    given.get_one::<bool>(id).unwrap_or(false)
}

/// All values of the argument, in the order given; none if it was not used. Fails only if out of memory.
fn list<'a>(alloc: Global, given: &ArgMatches<'a>, id: &str) -> Result<Vec<&'a str>, AllocError>
    ensures { IfOk result (λ values. map (λ word. word.now) values.items ≡ unwrap_or (all_of id.now (rows_of (found_of given.now))) []) }
{
    match given.get_raw(id) {
        Some(values) => Vec::from_slice(alloc, values),
        None => Ok(Vec::new(alloc)),
    }
}

/// The command line as `clap` parses it and shows it in help.
fn command<'a>(alloc: Global) -> Result<Command<'a>, AllocError>
    ensures { IfOk result (λ command. app_of command ≡ line.clim) }
{
    let mut program = Command::new(alloc, "clim")
        .version("0.1.0")
        .long_version(LONG_VERSION)
        .override_help(HELP)
        .subcommand_required(true);
    for subcommand in Subcommand::ALL {
        program = program.subcommand(command_of(alloc, *subcommand)?)?;
    }
    Ok(program)
}

/// A subcommand, with its arguments and its help.
fn command_of<'a>(alloc: Global, subcommand: Subcommand) -> Result<Command<'a>, AllocError>
    ensures shape { IfOk result (λ command. shape_of command ≡ line.shape_of subcommand) }
    ensures local { IfOk result (λ command. (fields_of command).has_globals ≡ false) }
{
    let usage = usage_of(subcommand);
    let mut command = Command::new(alloc, usage.name)
        .about(usage.about)
        .after_long_help(output_of(subcommand));
    for argument in usage.arguments {
        command = command.arg(arg_of(alloc, argument))?;
    }
    Ok(command)
}
