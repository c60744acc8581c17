//! What the arguments ask the program to do.
ghost use Rattle.std.specs.Prelude.{◌≡◌, if◌then◌else◌};
ghost use Rattle.cli.specs.Tasks.{IsCompareTask, IsExplainTask, IsOutline, IsRefs, IsShow, IsTask, IsTokens, IsWhere, NamesSubject, embed_task, form_of, input_of, naming_of, options_of, paths_of, report_task, request_of, resources_task, show_of};

use crate::columns::columns_of;
use cli_arguments::{Ask, Subcommand};
use cli_cells::Names;
use cli_faults::{Failure, UsageError};
use cli_files::Input;
use cli_lines::Form;
use cli_names::{code_of, offset_of, row_of, table_of, token_of};
use cli_nearest::{nearest_code, nearest_column, nearest_table};
use cli_outline::{OutlineOptions, Rows, Sorting, Subject, Tokens};
use cli_roots::{CompareOptions, EmbedOptions, Output};
use cli_runs::{Directories, Listing, Naming, Report, Request, Separator, Verdict};
use embedding::StrongName;
use packed::FaultCode;
use std::alloc::Global;
use table_schema::TableId;

/// What stands for the standard output in the place of OUT.
const STANDARD_OUTPUT: &str = "-";

/// What to do.
#[derive(Drop)]
pub(crate) enum Task<'a> {
    /// Report on the files that the arguments name.
    OnFiles(Request<'a>),
    /// Report on the files of the list with this path, or of the standard input, with this after each name.
    OnList(Request<'a>, Option<&'a str>, Separator),
    /// Write the canonical root of a file to the path after it.
    Rewrite(&'a str, &'a str),
    /// Write a copy of a file with its canonical root, or with another.
    Embed(&'a str, EmbedOptions<'a>),
    /// Write the content of the resource of a file that has this name.
    Extract(&'a str, &'a str),
    /// Print what differs between two files.
    Compare(&'a str, &'a str, CompareOptions),
    /// Explain these rules, or list all if there is none.
    Explain(Vec<FaultCode>),
}

/// The task of the arguments. It is known before a file is read. A value that is missing is a usage error.
pub(crate) fn task_of<'a>(alloc: Global, ask: &'a Ask<'a>) -> Result<Task<'a>, Failure<'a>>
    ensures { IsTask ask.now.subcommand ask.now result }
{
    match ask.subcommand {
        Subcommand::Root => {
            let report = choose(ask.until_fault, Report::RootUntilFault, Report::Root);
            on_files(ask, Ok(report))
        }
        Subcommand::Info => on_files(ask, Ok(Report::Info)),
        Subcommand::Check => {
            let loud = choose(ask.locates, Verdict::Explained, Verdict::Line);
            let verdict = choose(ask.quiet, Verdict::Quiet, loud);
            on_files(ask, Ok(Report::Check(verdict)))
        }
        Subcommand::Show => on_files(ask, show_of(alloc, ask)),
        Subcommand::Types => on_files(ask, Ok(Report::Listing(Listing::Types))),
        Subcommand::Outline => on_files(ask, Ok(outline_of(ask.part, options_of(ask)))),
        Subcommand::Refs => on_files(ask, Ok(refs_of(ask.part))),
        Subcommand::Resources => resources_of(ask),
        Subcommand::Strings => on_files(ask, Ok(Report::Strings)),
        Subcommand::Token => on_files(ask, tokens_of(alloc, ask.tokens.as_slice())),
        Subcommand::Where => on_files(ask, where_of(ask.part)),
        Subcommand::Rewrite => {
            let (file, out) = paths_of(ask.file, ask.second)?;
            Ok(Task::Rewrite(file, out))
        }
        Subcommand::Embed => embed_of(ask),
        Subcommand::Digest => on_files(ask, Ok(Report::Digest)),
        Subcommand::Compare => compare_of(alloc, ask),
        Subcommand::Explain => explain_of(alloc, ask.codes.as_slice()),
    }
}

/// The first of two values if the test holds, and else the second.
fn choose<T: Drop>(test: bool, first: T, second: T) -> T
    ensures { result ≡ (if test then first else second) }
{
    if test { first } else { second }
}

/// The form that the arguments ask for.
pub(crate) fn form_of(json: bool) -> Form
    ensures { result ≡ form_of json }
{
    if json { Form::JsonLines } else { Form::Text }
}

/// What the arguments say of the files.
pub(crate) fn input_of(bare: bool) -> Input
    ensures { result ≡ input_of bare }
{
    if bare { Input::BareRoot } else { Input::File }
}

/// Whether files are named: not the only one, unless it may be a directory or the check is quiet.
fn naming_of(is_quiet: bool, is_recursive: bool, files: &[&str]) -> Naming
    ensures { result ≡ naming_of is_quiet is_recursive files.now }
{
    match files {
        [_] if !is_quiet && !is_recursive => Naming::Alone,
        _ => Naming::Named,
    }
}

/// What is asked of each file.
fn request_of<'a>(ask: &Ask<'_>, naming: Naming, report: Report<'a>) -> Request<'a>
    ensures { result ≡ request_of ask.now naming report.entry }
{
    Request {
        report,
        form: form_of(ask.json),
        naming,
        directories: choose(ask.recursive, Directories::Walked, Directories::Refused),
        input: input_of(ask.bare),
        budget: ask.budget,
    }
}

/// The task of a report on the files that the arguments name, or on those of a list, besides which no file may be named.
fn on_files<'a>(
    ask: &'a Ask<'a>,
    report: Result<Report<'a>, Failure<'a>>,
) -> Result<Task<'a>, Failure<'a>>
    ensures { result ≡ report_task ask.now report.entry }
{
    let report = report?;
    let is_listed = ask.null | ask.files_from.is_some();
    match (is_listed, ask.files.is_empty()) {
        (false, true) => Err(Failure::Usage(UsageError::NoFile)),
        (false, false) => {
            let naming = naming_of(ask.quiet, ask.recursive, ask.files.as_slice());
            Ok(Task::OnFiles(request_of(ask, naming, report)))
        }
        (true, true) => {
            let separator = choose(ask.null, Separator::Nul, Separator::LineFeed);
            let request = request_of(ask, Naming::Named, report);
            Ok(Task::OnList(request, ask.files_from, separator))
        }
        (true, false) => Err(Failure::Usage(UsageError::FilesAndList)),
    }
}

/// The task of `resources`: to print where those of files are, or to write the content of one of a file, which takes one file,
/// and no other form.
fn resources_of<'a>(ask: &'a Ask<'a>) -> Result<Task<'a>, Failure<'a>>
    ensures { result ≡ resources_task ask.now.extract ask.now.files.items ask.now }
{
    let Some(name) = ask.extract else {
        return on_files(ask, Ok(Report::Resources));
    };
    let is_plural = ask.json | ask.null | ask.recursive | ask.files_from.is_some();
    match ask.files.as_slice() {
        [file] if !is_plural => Ok(Task::Extract(file, name)),
        _ => Err(Failure::Usage(UsageError::ExtractAlone)),
    }
}

/// The report of `show`: the table that the argument names, or all if there is no argument.
fn show_of<'a>(alloc: Global, ask: &'a Ask<'a>) -> Result<Report<'a>, Failure<'a>>
    ensures { IsShow ask.now.part ask.now result }
{
    let Some(word) = ask.part else {
        return Ok(shown(ask, None));
    };
    match table_of(word) {
        Some(table) => Ok(shown(ask, Some(table))),
        None => Err(Failure::Usage(UsageError::NoTable(word, nearest_table(alloc, word)))),
    }
}

/// The report of `show` on a table, or on all.
fn shown<'a>(ask: &Ask<'_>, table: Option<TableId>) -> Report<'a>
    ensures { result ≡ show_of ask.now table }
{
    let names = choose(ask.names, Names::Shown, Names::Hidden);
    if ask.until_fault {
        Report::ShowUntilFault(table, names)
    } else {
        Report::Listing(Listing::Show(table, names))
    }
}

/// What an outline shows.
fn options_of(ask: &Ask<'_>) -> OutlineOptions
    ensures { result ≡ options_of ask.now.no_tokens ask.now.public ask.now.sorted }
{
    OutlineOptions {
        tokens: choose(ask.no_tokens, Tokens::Hidden, Tokens::Shown),
        rows: choose(ask.public, Rows::Visible, Rows::All),
        sorting: choose(ask.sorted, Sorting::ByName, Sorting::ByRow),
        entry: None,
    }
}

/// The report of `outline`: the type or the other row that the argument names, or all if there is no argument.
fn outline_of<'a>(part: Option<&'a str>, options: OutlineOptions) -> Report<'a>
    ensures { IsOutline options part.entry result }
{
    match part {
        Some(word) => Report::OutlineOf(subject_named(word), options),
        None => Report::Outline(options),
    }
}

/// The report of `refs`: the type that the argument names, or all if there is no argument.
fn refs_of<'a>(part: Option<&'a str>) -> Report<'a>
    ensures { IsRefs part.entry result }
{
    match part {
        Some(word) => Report::RefsOf(subject_named(word)),
        None => Report::Listing(Listing::Refs),
    }
}

/// The row that an argument names: by its token, or else that of a type by its path.
fn subject_named<'a>(word: &'a str) -> Subject<'a>
    ensures { NamesSubject word.now result }
{
    match row_of(word) {
        Some(token) => Subject::Row(token),
        None => Subject::Path(word),
    }
}

/// The report of `token`: what each of the tokens names.
///
/// # Errors
///
/// The first argument that is no token; or out of memory.
fn tokens_of<'a>(alloc: Global, words: &[&'a str]) -> Result<Report<'a>, Failure<'a>>
    ensures { IsTokens words.now result }
{
    let mut numbers = Vec::new(alloc);
    for word in words {
        let Some(number) = token_of(word) else {
            return Err(Failure::Usage(UsageError::NoToken(word)));
        };
        let Ok(()) = numbers.push(number) else {
            return Err(Failure::OutOfMemory);
        };
    }
    Ok(Report::Tokens(numbers))
}

/// The report of `where` for this argument.
fn where_of<'a>(word: Option<&'a str>) -> Result<Report<'a>, Failure<'a>>
    ensures { IsWhere word.entry result }
{
    let Some(word) = word else {
        return Err(Failure::Usage(UsageError::NoFile));
    };
    match offset_of(word) {
        Some(offset) => Ok(Report::Where(offset)),
        None => Err(Failure::Usage(UsageError::NoOffset(word))),
    }
}

/// The file to read and the file to write. The standard output takes the line with the length, so it cannot be OUT.
fn paths_of<'a>(
    file: Option<&'a str>,
    out: Option<&'a str>,
) -> Result<(&'a str, &'a str), Failure<'a>>
    ensures { result ≡ paths_of file.entry out.entry }
{
    match (file, out) {
        (_, Some(out)) if out == STANDARD_OUTPUT => Err(Failure::Usage(UsageError::OutputIsDash)),
        (Some(file), Some(out)) => Ok((file, out)),
        _ => Err(Failure::Usage(UsageError::NoFile)),
    }
}

/// The task of `embed`.
fn embed_of<'a>(ask: &'a Ask<'a>) -> Result<Task<'a>, Failure<'a>>
    ensures { result ≡ embed_task ask.now }
{
    let (file, path) = paths_of(ask.file, ask.second)?;
    let options = EmbedOptions {
        path,
        root: ask.root,
        strong_name: choose(ask.unsigned, StrongName::Clear, StrongName::Keep),
        form: form_of(ask.json),
    };
    Ok(Task::Embed(file, options))
}

/// The task of `compare`, which leaves out the columns that arguments name.
fn compare_of<'a>(alloc: Global, ask: &'a Ask<'a>) -> Result<Task<'a>, Failure<'a>>
    ensures { IsCompareTask ask.now result }
{
    let (Some(file), Some(other)) = (ask.file, ask.second) else {
        return Err(Failure::Usage(UsageError::NoFile));
    };
    match columns_of(ask.ignored.as_slice()) {
        Ok(ignored) => {
            let options = CompareOptions {
                input: input_of(ask.bare),
                output: choose(ask.quiet, Output::Quiet, Output::Lines(form_of(ask.json))),
                ignored,
                budget: ask.budget,
            };
            Ok(Task::Compare(file, other, options))
        }
        Err(word) => Err(Failure::Usage(UsageError::NoColumn(word, nearest_column(alloc, word)))),
    }
}

/// The task of `explain`: explain the rules that these arguments name, or list all if there is none.
///
/// # Errors
///
/// The first argument that names no rule; or out of memory.
fn explain_of<'a>(alloc: Global, words: &[&'a str]) -> Result<Task<'a>, Failure<'a>>
    ensures { IsExplainTask words.now result }
{
    let mut rules = Vec::new(alloc);
    for word in words {
        let Some(rule) = code_of(word) else {
            return Err(Failure::Usage(UsageError::NoCode(word, nearest_code(alloc, word))));
        };
        let Ok(()) = rules.push(rule) else {
            return Err(Failure::OutOfMemory);
        };
    }
    Ok(Task::Explain(rules))
}
