//! The values of cells, the texts of signatures (II.15.3), and the names of columns.
ghost use Rattle.std.specs.Prelude.{◌≡◌, ◌≢◌, ◌≤◌, ◌<◌, ◌∷◌, [], IfOk, is_some, is_ok};
ghost use Rattle.cli_cells.specs.Words.{cell_count, Body, Encodes, short, Cell, Shows, column_name, Adds};
ghost use Rattle.reading.specs.declared.cell_ref.CellRef.TheVariants as seen;
ghost use Rattle.table_schema.specs.declared.column.ColumnKind.{ColumnKind as Kind};
ghost use Rattle.cli_lines.specs.Shown.{shown_value};
ghost use Rattle.cli_lines.specs.Lines as line;
ghost use Rattle.cli_cells.specs.RowLines.{cell_part, cell_value};
ghost use Rattle.cli_cells.specs.Shown.{Content};
ghost use Rattle.cli_cells.specs.SignatureText.{signature_text};
ghost use Rattle.sig_text.specs.Refused.{refused_after};

use crate::row_lines::Names;
use crate::shown_rows::ShownRows;
use cli_lines::Part::{Field, Spaced};
use cli_lines::Value::{self, Bytes, Guid, Number, Quoted, Reference, Signature, Start};
use cli_lines::{Form, Name, Printer, push_token};
use itoa::Buffer;
use metadata_source::kind_of;
use opening::{CellRef, TableId};
use schema::column_names;
use sig_text::{TextSink, Token, write_encoded};
use signatures::{canonical_encoding, is_plainly_canonical};
use std::alloc::{AllocError, Global};
use std::io::Write;
use table_schema::{ColumnKind, SigKind, column_of_cell};

/// Adds the value of a cell, after a space if columns are not named: a number in decimal, a text in quotes, bytes in hexadecimal, a GUID, a token, or the row of a
/// start. A signature is its canonical encoding (II.23.2), and in JSON also its text. In JSON the value is a member with
/// this name.
#[inline(always)]
pub fn print_cell<'a, R: ShownRows<'a>, W: Write>(
    alloc: Global,
    names: Names,
    name: Name,
    rows: &mut R,
    row: Token,
    cell_index: usize,
    out: &mut Printer<'_, W>,
)
    requires first { 1 ≤ row.row }
    requires last { row.row ≤ R.ready_rows rows.old row.table }
    requires cell_index { cell_index < cell_count row.table }
    ensures same { rows.new ≡ rows.old }
    ensures part { (content : Content) → R.shows rows.old content
        → Adds out.old out.new (cell_part names name (cell_value (content.cell row.table row.row cell_index)) ∷ []) }
{
    let value = rows.cell(row.table, row.row, cell_index);
    let kind = kind_of(row.table, cell_index);
    print_value(alloc, names, name, kind, value, out);
}

/// Adds the value of a cell in a column of a kind.
#[inline(always)]
fn print_value<W: Write>(
    alloc: Global,
    names: Names,
    name: Name,
    kind: ColumnKind,
    value: CellRef<'_>,
    out: &mut Printer<'_, W>,
)
    requires { ¬ (¬ ((cell : Cell) × Shows kind value cell)) }
    ensures { (cell : Cell) → Shows kind value.entry cell → Adds out.old out.new (cell_part names name (cell_value cell) ∷ []) }
{
    match value {
        CellRef::Sig(blob) => match kind {
            ColumnKind::Signature(kind) => print_signature(alloc, names, name, kind, blob, out),
            _ => unreachable!(),
        },
        _ => print_part(names, name, value_of(value), out),
    }
}

/// The value of a cell that is no signature.
#[inline(always)]
fn value_of(cell: CellRef<'_>) -> Value<'_>
    ensures { (kind : Kind) (held : Cell) → ((blob : _) → cell.entry ≢ seen.Sig blob) → Shows kind cell.entry held
        → shown_value result ≡ cell_value held }
{
    match cell {
        CellRef::Number(number) => Number(number as u64),
        CellRef::Text(text) => Quoted(text),
        CellRef::Bytes(bytes) | CellRef::Sig(bytes) => Bytes(bytes),
        CellRef::Guid(guid) => Guid(guid),
        CellRef::Ref(token) => Reference(token),
        CellRef::Start(start) => Start(start as u64),
    }
}

/// Adds a value, after a space if columns are not named.
fn print_part<W: Write>(names: Names, name: Name, value: Value<'_>, out: &mut Printer<'_, W>)
    ensures { Adds out.old out.new (cell_part names name (shown_value value.entry) ∷ []) }
{
    match names {
        Names::Hidden => out.part(&Spaced(name, value)),
        Names::Shown => out.part(&Field(name, value)),
    }
}

/// Adds the canonical encoding of the signature in a blob (II.23.2). Most blobs are their canonical encoding themselves.
fn print_signature<W: Write>(
    alloc: Global,
    names: Names,
    name: Name,
    kind: SigKind,
    blob: &[u8],
    out: &mut Printer<'_, W>,
)
    requires { ¬ (¬ ((signature : Body) × Encodes kind signature blob.now)) }
    ensures { (signature : Body) → Encodes kind signature blob.now
        → Adds out.old out.new (cell_part names name (line.signature (short signature) (signature_text signature)) ∷ []) }
{
    if is_plainly_canonical(blob) {
        return print_encoding(alloc, names, name, kind, blob, blob, out);
    }
    match canonical_encoding(alloc, blob, kind) {
        Ok(encoding) => print_encoding(alloc, names, name, kind, blob, &encoding, out),
        Err(_) => out.fail(),
    }
}

/// Adds the encoding of the signature in a blob, and in JSON its text, which is made for JSON alone.
fn print_encoding<W: Write>(
    alloc: Global,
    names: Names,
    name: Name,
    kind: SigKind,
    blob: &[u8],
    encoding: &[u8],
    out: &mut Printer<'_, W>,
)
    ensures { (signature : Body) → Encodes kind signature blob.now
        → Adds out.old out.new (cell_part names name (line.signature encoding.now (signature_text signature)) ∷ []) }
{
    match out.form() {
        Form::Text | Form::Letters => print_part(names, name, Bytes(encoding), out),
        Form::JsonLines => match signature_text(alloc, kind, blob) {
            Ok(text) => print_part(names, name, Signature(encoding, &text), out),
            Err(_) => out.fail(),
        },
    }
}

/// The name of a cell's column (II.22).
pub fn column_name(table: TableId, cell_index: usize) -> &'static str
    requires { cell_index < cell_count table }
    ensures { result.now ≡ column_name table cell_index }
{
    table_schema::laws::cells_have_columns();
    column_names(table)[column_of_cell(table, cell_index)]
}

/// The room for the text of a signature that is taken at once, in bytes. Most texts are shorter.
const ROOM: usize = 128;

/// A sink that keeps the text of a signature. A type is named by its token.
#[derive(Drop)]
struct SignatureText {
    /// For the digits of tokens.
    alloc: Global,
    /// The text so far.
    text: Vec<u8>,
    /// Whether memory ran out.
    refused: bool,
}

/// The result of a sink's call from that of its text. It records whether memory ran out.
fn answer(refused: &mut bool, pushed: Result<(), AllocError>) -> Option<()>
    ensures words { refused.new ≡ refused_after result refused.old }
    ensures taken { is_some result ≡ is_ok pushed }
{
    if pushed.is_err() {
        *refused = true;
        return None;
    }
    Some(())
}

impl TextSink for SignatureText {
    ghost use Rattle.std.specs.Prelude.{◌≡◌, ◌++◌, true};
    ghost use Rattle.cli_cells.specs.SignatureText.{piece_bytes};

    ghost refused = { λ s. s.refused };

    ghost gives = { λ s piece taken t. taken ≡ true → t.text.items ≡ s.text.items ++ piece_bytes piece };

    fn text(&mut self, text: &str) -> Option<()> {
        let pushed = self.text.extend_from_slice(text.as_bytes());
        answer(&mut self.refused, pushed)
    }

    fn number(&mut self, number: u32) -> Option<()> {
        let mut digits = Buffer::new();
        self.text(digits.format(number))
    }

    fn signed(&mut self, value: i64) -> Option<()> {
        let mut digits = Buffer::new();
        self.text(digits.format(value))
    }

    fn name(&mut self, token: Token) -> Option<()> {
        let pushed = push_token(self.alloc, token, &mut self.text);
        answer(&mut self.refused, pushed)
    }
}

/// The text of the signature in a blob.
///
/// # Errors
///
/// Out of memory.
pub(crate) fn signature_text(
    alloc: Global,
    kind: SigKind,
    blob: &[u8],
) -> Result<Vec<u8>, AllocError>
    ensures { (signature : Body) → Encodes kind signature blob.now → IfOk result (λ text. text.items ≡ signature_text signature) }
{
    let text = Vec::with_capacity(alloc, ROOM)?;
    let mut sink = SignatureText {
        alloc,
        text,
        refused: false,
    };
    match write_encoded(&mut sink, blob, kind) {
        Some(()) => Ok(sink.text),
        None => Err(AllocError),
    }
}
