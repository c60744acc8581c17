ghost use Rattle.std.specs.Prelude.{◌≡◌, IfOk, IfErr};
ghost use Rattle.tables.specs.Said.{said};
ghost use Rattle.packed.specs.Rule.{FirstBroken};
ghost use Rattle.c_values.specs.declared.cell_kind.CellKind.TheVariants.{Row, Signature, Text as TextKind};
ghost use Rattle.c_values.specs.Cells.{IsCell, kind_number};
ghost use Rattle.c_values.specs.Refused.{MatchNoRoot, rules_of_cell};

use crate::cell::ClimCell;
use crate::cell_kind::CellKind;
use crate::no_root::NoRoot;
use metadata::Refusal;
use packed::FaultCode;
use signatures::{SigError, decode};
use std::alloc::{AllocError, Global};
use std::str;
use table_schema::{ColumnKind, SigKind, TableId, Token, cell_count, column_of_cell, columns};
use tables::{Bytes, Cell, Text};

/// The cell of a row, by its index in the row.
#[derive(Clone, Copy)]
pub struct Position {
    /// The table of the row.
    pub table: TableId,
    /// The row, counted from 1.
    pub row: u32,
    /// The index of the cell in the row, counted from 0.
    pub column: usize,
}

impl Position {
    ghost use Rattle.std.specs.Prelude.{◌≡◌, IfSome, IfNone};
    ghost use Rattle.table_schema.specs.declared.column.SigKind.{SigKind as Kind};
    ghost use Rattle.table_schema.specs.Tables.{table_number};
    ghost use Rattle.c_values.specs.declared.no_root.NoRoot.TheVariants.{Refused};
    ghost use Rattle.c_values.specs.Cells.{HasSignatures};
    ghost use Rattle.c_values.specs.Refused.{refusal_at};
    ghost use Rattle.packed.specs.declared.code.FaultCode.TheVariants.{BadCell};

    /// The refusal of the cell by a rule.
    fn refused(self, code: FaultCode) -> NoRoot
        ensures { result ≡ Refused (refusal_at code (table_number self.table) self.row self.column) }
    {
        NoRoot::Refused(Refusal::new(code, self.table.number(), self.row, self.column))
    }

    /// The kind of the signatures in the column of the cell; `None` if it has none, or there is no such column.
    fn signatures(self) -> Option<SigKind>
        ensures sound { IfSome result (λ kind. HasSignatures self.table self.column kind) }
        ensures none { IfNone result ((kind : Kind) → ¬ HasSignatures self.table self.column kind) }
    {
        if self.column >= cell_count(self.table) {
            return None;
        }
        match columns(self.table)[column_of_cell(self.table, self.column)].kind {
            ColumnKind::Signature(kind) => Some(kind),
            _ => None,
        }
    }
}

/// Reads a text, which is UTF-8 (II.24.2.3).
fn read_text(alloc: Global, given: &ClimCell, position: Position) -> Result<Cell, NoRoot>
    requires { kind_number TextKind ≡ given.now.kind }
    ensures read { IfOk result (λ cell. IsCell position.table position.column given.now (said cell)) }
    ensures refused { IfErr result (MatchNoRoot (FirstBroken (rules_of_cell position.table position.row position.column given.now)) ⊥) }
{
    let Ok(text) = str::from_utf8(given.bytes) else {
        return Err(position.refused(FaultCode::BadCell));
    };
    Ok(Cell::Text(Text::from(String::from_str(alloc, text)?)))
}

/// Reads a row of a table, by their numbers.
fn read_reference(given: &ClimCell, position: Position) -> Result<Cell, NoRoot>
    requires { kind_number Row ≡ given.now.kind }
    ensures read { IfOk result (λ cell. IsCell position.table position.column given.now (said cell)) }
    ensures refused { IfErr result (MatchNoRoot (FirstBroken (rules_of_cell position.table position.row position.column given.now)) ⊥) }
{
    let Some(table) = TableId::from_number(given.table) else {
        return Err(position.refused(FaultCode::BadCell));
    };
    Ok(Cell::Ref(Some(Token {
        table,
        row: given.number,
    })))
}

/// Reads a signature from its blob, in a column of signatures (II.23.2).
fn read_signature(alloc: Global, given: &ClimCell, position: Position) -> Result<Cell, NoRoot>
    requires { kind_number Signature ≡ given.now.kind }
    ensures read { IfOk result (λ cell. IsCell position.table position.column given.now (said cell)) }
    ensures refused { IfErr result (MatchNoRoot (FirstBroken (rules_of_cell position.table position.row position.column given.now)) ⊥) }
{
    let Some(kind) = position.signatures() else {
        return Err(position.refused(FaultCode::BadCell));
    };
    match decode(alloc, given.bytes, kind) {
        Ok(signature) => Ok(Cell::Sig(signature)),
        Err(SigError::Bad) => Err(position.refused(FaultCode::BadSignature)),
        Err(SigError::Memory) => Err(NoRoot::Memory),
    }
}

/// Reads a cell, with a copy of its text, blob or signature.
///
/// # Errors
///
/// `BadCell` if no kind has its number, its text is not UTF-8, no table has its table number, or it is a signature in a
/// column without signatures. `BadSignature` if its bytes encode no signature that its column holds.
pub fn read_cell(alloc: Global, given: &ClimCell, position: Position) -> Result<Cell, NoRoot>
    ensures read { IfOk result (λ cell. IsCell position.table position.column given.now (said cell)) }
    ensures refused { IfErr result (MatchNoRoot (FirstBroken (rules_of_cell position.table position.row position.column given.now)) ⊥) }
{
    let Some(kind) = CellKind::from_number(given.kind) else {
        return Err(position.refused(FaultCode::BadCell));
    };
    match kind {
        CellKind::Number => Ok(Cell::Number(given.number)),
        CellKind::Text => read_text(alloc, given, position),
        CellKind::Blob => Ok(Cell::Bytes(Bytes::from(given.bytes.to_vec(alloc)?))),
        CellKind::NullGuid => Ok(Cell::Guid(None)),
        CellKind::Guid => Ok(Cell::Guid(Some(given.guid))),
        CellKind::NullRow => Ok(Cell::Ref(None)),
        CellKind::Row => read_reference(given, position),
        CellKind::Start => Ok(Cell::Start(given.number)),
        CellKind::Signature => read_signature(alloc, given, position),
    }
}
