//! `clim show --until-fault`: the rows of a file up to its first fault.
ghost use Rattle.std.specs.Prelude.{List, IfErr, OnErr, OnOk, ◌≡◌, ◌≤◌, ◌<◌, ◌^◌, IfSome, length};
ghost use Rattle.cli_cells.specs.Words.{FirstBroken, Metadata, IsModelOf, IsWhole, rules_of, Part, Prints, Shows, IsFirstBroken};
ghost use Rattle.cli_cells.specs.Before.{AreLinesBefore};
ghost use Rattle.cli_cells.specs.RowLines.{show_lines};
ghost use Rattle.table_schema.specs.declared.column.ColumnKind.TheVariants.{Signature};
ghost use Rattle.cli_cells.specs.MetRows.{rows_before};
ghost use Rattle.cli_cells.specs.Shown.{content_at, signature_at};

use crate::row_lines::{Names, print_show, print_tables};
use crate::shown_rows::ShownRows;
use checks::{BrokenRow, first_broken_row};
use cli_files::{Input, open, rows_of};
use cli_lines::Printer;
use heap_entries::blob;
use packed::Fault;
use reading::{CellRef, KnownRuns, RunCursors, Source, cell_onward, column_at, known_runs};
use sig_recogniser::recognise;
use std::alloc::Global;
use std::io::Write;
use std::marker::Model;
use table_schema::{ColumnKind, SigKind, TableId, column_of_cell};

/// Prints these tables as [`print_show`] does if the bytes break no rule. Otherwise it prints the rows before the first
/// broken rule, and returns the fault of that rule.
///
/// Rules are in the order of the checks: for headers, the metadata root and the table stream, then for the cells of each
/// row by table and row, then all others (II.22 to II.25). So it prints
///
/// - no row if the broken rule comes before those for cells;
/// - the rows before the first row that breaks a rule for cells; of a table without such rows it prints no line;
/// - all rows if no row breaks a rule for cells.
///
/// A signature follows no rule for cells: the blob of one that is not valid is printed as bytes. The cells are checked
/// twice, so its time is that of checking and of printing.
///
/// # Errors
///
/// The fault of the first rule that fails; then the rows before it have been printed.
pub fn print_until_fault<W: Write>(
    alloc: Global,
    bytes: &[u8],
    input: Input,
    tables: &[TableId],
    names: Names,
    out: &mut Printer<'_, W>,
) -> Result<(), Fault>
    // If it succeeds, the bytes break no rule, and the tables were printed.
    ensures sound { OnOk result (IsWhole input bytes.now) }
    ensures whole { OnOk result ((model : Metadata) → IsModelOf input bytes.now model → Prints out.old out.new (show_lines names model tables.now)) }
    // Otherwise the rows before the first broken rule were printed.
    ensures first_error { IfErr result (FirstBroken (rules_of input bytes.now)) }
    ensures before { OnErr result ((lines : List (List Part)) × AreLinesBefore names input bytes.now tables.now lines × Prints out.old out.new lines) }
{
    cli_lines::laws::lines_follow::<W>();
    match open(bytes, input) {
        Ok(view) => {
            print_show(alloc, &view, tables, names, out);
            Ok(())
        }
        Err(fault) => {
            let Ok(source) = rows_of(bytes, input) else {
                return Err(fault);
            };
            let mut rows = MetRows::new(&source);
            print_tables(alloc, names, &mut rows, tables, out);
            Err(fault)
        }
    }
}

/// The rows of a root that precede the first row that breaks a rule for cells (II.22), for a pass over them in ascending
/// order.
///
/// It does not allocate. A list value is read at most once in such a pass.
#[derive(Drop)]
pub(crate) struct MetRows<'s, 'a> {
    source: &'s Source<'a>,
    broken: Option<BrokenRow>,
    known: KnownRuns,
    cursors: RunCursors,
}

impl<'s, 'a> Model for MetRows<'s, 'a> {
    ghost use Rattle.cli_cells.specs.MetRows.{AreMet, Met, met_seen};

    ghost Value = { Met };

    ghost view = { met_seen };

    ghost invariant = { AreMet };
}

impl<'s, 'a> MetRows<'s, 'a> {
    /// The rows of a source. All cells are checked up to the first that breaks a rule.
    pub(crate) fn new(source: &'s Source<'a>) -> MetRows<'s, 'a>
        ensures here { result.here ≡ source.now }
        ensures broken { IsFirstBroken source.now result.broken }
    {
        MetRows {
            source,
            broken: first_broken_row(source),
            known: known_runs(source),
            cursors: RunCursors::new(),
        }
    }
}

impl<'a> ShownRows<'a> for MetRows<'_, 'a> {
    ghost shows = { λ rows content. content ≡ content_at rows.here.source };

    ghost ready_rows = { λ rows. rows_before rows.here.source rows.broken };

    fn count(&self, table: TableId) -> u32 {
        self.source.count(table)
    }

    fn ready(&self, table: TableId) -> u32 {
        rows_before(self.source, self.broken, table)
    }

    fn cell(&mut self, table: TableId, row: u32, cell_index: usize) -> CellRef<'a> {
        packed::laws::numbers_are_read();
        packed::laws::shortest_forms_encode();
        table_schema::laws::cells_have_columns();
        table_schema::laws::tables_stand();
        table_schema::laws::tags_fit();
        let source = self.source;
        let column = column_of_cell(table, cell_index);
        match column_at(table, column).kind {
            ColumnKind::Signature(kind) => {
                let Ok(blob) = blob(source.blobs(), source.number(table, row, column)) else {
                    unreachable!();
                };
                blob_cell(kind, blob)
            }
            _ => cell_onward(source, &self.known, &mut self.cursors, table, row, column),
        }
    }
}

/// The number of rows of a table before a broken row; all of them if there is none.
fn rows_before(source: &Source, broken: Option<BrokenRow>, table: TableId) -> u32
    requires { IfSome broken (λ at. 1 ≤ at.row) }
    ensures { result ≡ rows_before source.now.source broken table }
{
    let Some(broken) = broken else {
        return source.count(table);
    };
    if table.table_index() < broken.table_index {
        source.count(table)
    } else if table.table_index() == broken.table_index {
        broken.row - 1
    } else {
        0
    }
}

/// The cell of a blob in a column of signatures (II.23.2). A blob that is none is bytes.
fn blob_cell(kind: SigKind, blob: &[u8]) -> CellRef<'_>
    requires { length blob.now < 2 ^ 29 }
    ensures { Shows (Signature kind) result (signature_at kind blob.now) }
{
    sig_grammar::laws::signatures_are_read();
    if recognise(blob, kind) {
        CellRef::Sig(blob)
    } else {
        CellRef::Bytes(blob)
    }
}
