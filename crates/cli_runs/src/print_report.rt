//! The lines of each report.
ghost use Rattle.std.specs.Prelude.{◌≡◌, IfErr, IfOk, Option};
ghost use Rattle.cli_header.specs.declared.header.CliHeader.{CliHeader as Header};
ghost use Rattle.cli_files.specs.Checked.{IsModelOf, IsWhole, rules_of};
ghost use Rattle.cli_info.specs.InfoLines.{AreFacts};
ghost use Rattle.cli_lines.specs.Printed.{Prints};
ghost use Rattle.cli_runs.specs.Printing.{HasPrinted, UnlessFailed};
ghost use Rattle.cli_runs.specs.Reports.{IsEntryOf, IsListed, tables_of};
ghost use Rattle.cli_runs.specs.declared.report.Report.TheVariants as report;
ghost use Rattle.metadata.specs.Metadata.{Metadata};
ghost use Rattle.metadata.specs.Model.{IsModel};
ghost use Rattle.packed.specs.Rule.{FirstBroken};

use crate::print_check::print_check;
use crate::report::{Ended, Job, Listing, Report};
use cli_cells::{Names, print_show, print_tokens, print_until_fault};
use cli_faults::{Failure, Stop};
use cli_files::open;
use cli_header::CliHeader;
use cli_info::{open_facts, print_info, print_resources};
use cli_lines::Printer;
use cli_outline::{
    Outcome, OutlineOptions, Rows, Sorting, Subject, Tokens, print_outline, print_outline_of,
    print_refs, print_refs_of,
};
use cli_print::{print_digest, print_root, print_root_until_fault, print_types};
use cli_roots::canonical_root;
use cli_where::{Found, print_strings, print_where};
use comparison::digest;
use opening::{Token, View};
use packed::Fault;
use std::alloc::Global;
use std::io::Write;
use std::slice;
use table_schema::TableId;

/// The options of an outline that shows everything, in the order of the rows.
const EVERYTHING: OutlineOptions = OutlineOptions {
    tokens: Tokens::Shown,
    rows: Rows::All,
    sorting: Sorting::ByRow,
    entry: None,
};

/// Prints a report on the bytes of the file with this name.
pub(crate) fn print_report<'a, W: Write>(job: &Job<'_>, out: &mut Printer<'_, W>) -> Ended<'a>
    ensures { HasPrinted job.now out.old out.new job.now.request.now.report result }
{
    let (request, bytes, input) = (job.request, job.bytes, job.request.input);
    match &request.report {
        Report::Root => match print_root(bytes, input, out) {
            Ok(()) => Ended::Printed,
            Err(fault) => Ended::Refused(Stop::Failed(Failure::Fault(fault))),
        },
        Report::RootUntilFault => match print_root_until_fault(bytes, input, out) {
            Ok(()) => Ended::Printed,
            Err(fault) => Ended::Stopped(Stop::Failed(Failure::Fault(fault))),
        },
        Report::Info => match print_info(job.alloc, bytes, input, out) {
            Ok(()) => Ended::Printed,
            Err(fault) => Ended::Refused(Stop::Failed(Failure::Fault(fault))),
        },
        Report::Strings => print_user_strings(job, out),
        Report::Resources => match print_resources(bytes, out) {
            Ok(()) => Ended::Printed,
            Err(stop) => Ended::Refused(stop),
        },
        Report::Listing(listing) => print_listing(job, *listing, out),
        Report::Check(verdict) => print_check(job, *verdict, out),
        Report::ShowUntilFault(table, names) => print_first_rows(job, table, *names, out),
        Report::Outline(options) => print_all(job, *options, out),
        Report::OutlineOf(subject, options) => print_row(job, *subject, *options, out),
        Report::RefsOf(subject) => print_type_refs(job, *subject, out),
        Report::Tokens(numbers) => print_named(job, numbers, out),
        Report::Where(offset) => print_at(job, *offset, out),
        Report::Digest => print_digest_of(job, out),
    }
}

/// Prints the lines of a listing.
fn print_listing<'a, W: Write>(
    job: &Job<'_>,
    listing: Listing,
    out: &mut Printer<'_, W>,
) -> Ended<'a>
    ensures { HasPrinted job.now out.old out.new (report.Listing listing) result }
{
    match open(job.bytes, job.request.input) {
        Ok(view) => {
            print_view(job.alloc, listing, &view, out);
            Ended::Printed
        }
        Err(fault) => Ended::Refused(Stop::Failed(Failure::Fault(fault))),
    }
}

/// Prints the lines of a listing of a view.
fn print_view<W: Write>(alloc: Global, listing: Listing, view: &View<'_>, out: &mut Printer<'_, W>)
    ensures { (model : Metadata) → IsModel view.now model → IsListed (Prints out.old out.new) (UnlessFailed out.new) listing model }
{
    match listing {
        Listing::Show(table, names) => print_show(alloc, view, tables_of(&table), names, out),
        Listing::Types => print_types(view, out),
        Listing::Refs => print_refs(alloc, view, EVERYTHING, out),
    }
}

/// The tables of `show`: one, or all.
fn tables_of(table: &Option<TableId>) -> &[TableId]
    ensures { result.now ≡ tables_of table.now }
{
    match table {
        Some(table) => slice::from_ref(table),
        None => TableId::all(),
    }
}

/// Prints the user strings.
fn print_user_strings<'a, W: Write>(job: &Job<'_>, out: &mut Printer<'_, W>) -> Ended<'a>
    ensures { HasPrinted job.now out.old out.new report.Strings result }
{
    match print_strings(job.alloc, job.bytes, job.request.input, out) {
        Ok(()) => Ended::Printed,
        Err(Failure::Fault(fault)) => Ended::Refused(Stop::Failed(Failure::Fault(fault))),
        Err(_) => Ended::Refused(Stop::Failed(Failure::OutOfMemory)),
    }
}

/// Prints the rows that come before the first broken rule.
fn print_first_rows<'a, W: Write>(
    job: &Job<'_>,
    table: &Option<TableId>,
    names: Names,
    out: &mut Printer<'_, W>,
) -> Ended<'a>
    ensures { HasPrinted job.now out.old out.new (report.ShowUntilFault table.now names) result }
{
    let tables = tables_of(table);
    match print_until_fault(job.alloc, job.bytes, job.request.input, tables, names, out) {
        Ok(()) => Ended::Printed,
        Err(fault) => Ended::Stopped(Stop::Failed(Failure::Fault(fault))),
    }
}

/// The flag of a native entry point, which is no token (II.25.3.3.1).
const NATIVE_ENTRY_POINT: u32 = 0x10;

/// The entry point that a CLI header names, unless it is native.
fn entry_in(header: &Option<CliHeader>) -> Option<Token>
    ensures { IsEntryOf header.now result }
{
    let Some(header) = header else {
        return None;
    };
    if header.flags / NATIVE_ENTRY_POINT % 2 == 1 {
        return None;
    }
    Token::from_u32(header.entry_point_token)
}

/// Opens the metadata of the bytes, and finds the entry point that their CLI header names.
fn open_entered<'a>(job: &Job<'a>) -> Result<(Option<Token>, View<'a>), Fault>
    ensures whole { IfOk result (λ _. IsWhole job.now.request.now.input job.now.bytes.now) }
    ensures models { IfOk result (λ opened. (model : Metadata) → IsModelOf job.now.request.now.input job.now.bytes.now model → IsModel opened.1 model) }
    ensures entered { IfOk result (λ opened. (header : Option Header) (model : Metadata) → AreFacts job.now.request.now.input job.now.bytes.now header model
        → IsEntryOf header opened.0 × IsModel opened.1 model) }
    ensures first_error { IfErr result (FirstBroken (rules_of job.now.request.now.input job.now.bytes.now)) }
{
    let (header, view) = open_facts(job.bytes, job.request.input)?;
    Ok((entry_in(&header), view))
}

/// Prints the declarations.
#[tactic(auto, using(crate::proofs::Reporting::some_declared))]
fn print_all<'a, W: Write>(
    job: &Job<'_>,
    options: OutlineOptions,
    out: &mut Printer<'_, W>,
) -> Ended<'a>
    ensures { HasPrinted job.now out.old out.new (report.Outline options) result }
{
    match open_entered(job) {
        Ok((entry, view)) => {
            print_outline(job.alloc, &view, OutlineOptions { entry, ..options }, out);
            Ended::Printed
        }
        Err(fault) => Ended::Refused(Stop::Failed(Failure::Fault(fault))),
    }
}

/// Prints the declarations of one type, or of another row.
fn print_row<'a, W: Write>(
    job: &Job<'_>,
    subject: Subject<'_>,
    options: OutlineOptions,
    out: &mut Printer<'_, W>,
) -> Ended<'a>
    ensures { HasPrinted job.now out.old out.new (report.OutlineOf subject.entry options) result }
{
    match open_entered(job) {
        Ok((entry, view)) => {
            let options = OutlineOptions { entry, ..options };
            match print_outline_of(job.alloc, &view, subject, options, out) {
                Outcome::Printed => Ended::Printed,
                Outcome::NoSuchType => Ended::Refused(Stop::NoSuchType),
                Outcome::OutOfMemory => Ended::Refused(Stop::Failed(Failure::OutOfMemory)),
            }
        }
        Err(fault) => Ended::Refused(Stop::Failed(Failure::Fault(fault))),
    }
}

/// Prints what is referred to of one type of other modules.
#[tactic(auto, using(crate::proofs::Reporting::declared))]
fn print_type_refs<'a, W: Write>(
    job: &Job<'_>,
    subject: Subject<'_>,
    out: &mut Printer<'_, W>,
) -> Ended<'a>
    ensures { HasPrinted job.now out.old out.new (report.RefsOf subject.entry) result }
{
    match open(job.bytes, job.request.input) {
        Ok(view) => match print_refs_of(job.alloc, &view, subject, EVERYTHING, out) {
            Outcome::Printed => Ended::Printed,
            Outcome::NoSuchType => Ended::Refused(Stop::NoSuchType),
            Outcome::OutOfMemory => Ended::Refused(Stop::Failed(Failure::OutOfMemory)),
        },
        Err(fault) => Ended::Refused(Stop::Failed(Failure::Fault(fault))),
    }
}

/// Prints what tokens name.
fn print_named<'a, W: Write>(
    job: &Job<'_>,
    numbers: &Vec<u32>,
    out: &mut Printer<'_, W>,
) -> Ended<'a>
    ensures { HasPrinted job.now out.old out.new (report.Tokens numbers.now) result }
{
    match open(job.bytes, job.request.input) {
        Ok(view) => match print_tokens(job.alloc, &view, numbers.as_slice(), out) {
            Ok(()) => Ended::Printed,
            Err(Failure::NoSuchRow) => Ended::Stopped(Stop::Failed(Failure::NoSuchRow)),
            Err(_) => Ended::Refused(Stop::Failed(Failure::OutOfMemory)),
        },
        Err(fault) => Ended::Refused(Stop::Failed(Failure::Fault(fault))),
    }
}

/// Prints the digest of the canonical root.
fn print_digest_of<'a, W: Write>(job: &Job<'_>, out: &mut Printer<'_, W>) -> Ended<'a>
    ensures { HasPrinted job.now out.old out.new report.Digest result }
{
    match canonical_root(job.alloc, job.bytes, job.request.input) {
        Ok(root) => {
            print_digest(job.alloc, &digest(&root), job.name, out);
            Ended::Printed
        }
        Err(failure) => Ended::Refused(Stop::Failed(failure)),
    }
}

/// Prints what has the byte at an offset.
fn print_at<'a, W: Write>(job: &Job<'_>, offset: u64, out: &mut Printer<'_, W>) -> Ended<'a>
    ensures { HasPrinted job.now out.old out.new (report.Where offset) result }
{
    match print_where(job.alloc, job.bytes, job.request.input, offset, out) {
        Ok(Found::Something) => Ended::Printed,
        Ok(Found::Nothing) => Ended::Stopped(Stop::NothingAt(offset)),
        Err(Failure::Fault(fault)) => Ended::Stopped(Stop::Failed(Failure::Fault(fault))),
        Err(_) => Ended::Refused(Stop::Failed(Failure::OutOfMemory)),
    }
}
