//! References to methods and fields with their signatures (II.15.3, II.22.25).
ghost use Rattle.std.specs.Prelude.{◌≤◌, ℕ, List, OnOk};
ghost use Rattle.table_schema.specs.declared.table.TableId.TheVariants.{MemberRef, MethodDef};
ghost use Rattle.metadata.specs.Metadata.{Metadata};
ghost use Rattle.full_names.specs.Names.{Wrote};
ghost use Rattle.full_names.specs.declared.limit.Scopes.{Scopes};
ghost use Rattle.full_names.specs.RowNames.{IsRowNameBy};
ghost use Rattle.declarations.specs.Declarations.{IsClassOf, IsReference, IsReferenceBy};

use crate::method_text::Declared;
use crate::methods::{METHOD_NAME, METHOD_SIGNATURE, write_declared};
use full_names::{Limit, TextError, bytes_of, member_parent, write_row_name};
use navigation::{ReadCells, cells, type_of_method};
use std::alloc::Global;
use std::fmt;
use table_schema::{SigKind, TableId, Token};

/// The cell of the name of a MemberRef (II.22.25).
const MEMBER_NAME: usize = 1;

/// The cell of the signature of a MemberRef (II.22.25).
const MEMBER_SIGNATURE: usize = 2;

/// The type or the module before the name of a MemberRef: its parent, or the type of its parent, a method.
fn class_of_member<S: ReadCells>(source: &S, row: u32) -> Token
    requires first { 1 ≤ row }
    requires last { row ≤ S.row_count source.now MemberRef }
    ensures class { (model : Metadata) → S.shows source.now model → IsClassOf model MemberRef row result }
    ensures named { (model : Metadata) → S.shows source.now model → (scopes : Scopes) → (text : List ℕ) × IsRowNameBy scopes model result text }
{
    source.holds_one();
    let parent = member_parent(source, row);
    match parent.table {
        TableId::MethodDef => Token {
            table: TableId::TypeDef,
            row: type_of_method(source, parent.row),
        },
        _ => parent,
    }
}

/// Writes a reference to a method of this module.
#[tactic(auto, unfolding(table_schema::specs::CellColumns::cell_columns))]
fn write_method_reference<S: ReadCells, W: fmt::Write, L: Limit<W>>(
    alloc: Global,
    source: &S,
    row: u32,
    limit: &L,
    out: &mut W,
) -> Result<(), TextError>
    requires first { 1 ≤ row }
    requires last { row ≤ S.row_count source.now MethodDef }
    ensures { (model : Metadata) → S.shows source.now model → OnOk result (Wrote W.write_str_gives out.old (IsReferenceBy L.scopes model MethodDef row 3 4) out.new) }
{
    sig_grammar::laws::shortest_encodes();
    source.holds_one();
    let kind = SigKind::MethodDef;
    let bytes = source.signature(alloc, kind, TableId::MethodDef, row, METHOD_SIGNATURE)?;
    let of = Declared {
        class: Token {
            table: TableId::TypeDef,
            row: type_of_method(source, row),
        },
        name: cells::text(source, TableId::MethodDef, row, METHOD_NAME),
        first: 0,
        past: 0,
    };
    write_declared(alloc, source, None, of, bytes_of(&bytes), limit, out)
}

/// Writes a reference to a method or a field by a MemberRef.
#[tactic(auto, unfolding(table_schema::specs::CellColumns::cell_columns))]
fn write_member_reference<S: ReadCells, W: fmt::Write, L: Limit<W>>(
    alloc: Global,
    source: &S,
    row: u32,
    limit: &L,
    out: &mut W,
) -> Result<(), TextError>
    requires first { 1 ≤ row }
    requires last { row ≤ S.row_count source.now MemberRef }
    ensures { (model : Metadata) → S.shows source.now model → OnOk result (Wrote W.write_str_gives out.old (IsReferenceBy L.scopes model MemberRef row 1 2) out.new) }
{
    sig_grammar::laws::shortest_encodes();
    source.holds_one();
    let kind = SigKind::MemberRef;
    let bytes = source.signature(alloc, kind, TableId::MemberRef, row, MEMBER_SIGNATURE)?;
    let of = Declared {
        class: class_of_member(source, row),
        name: cells::text(source, TableId::MemberRef, row, MEMBER_NAME),
        first: 0,
        past: 0,
    };
    write_declared(alloc, source, None, of, bytes_of(&bytes), limit, out)
}

/// Writes a reference to a row, up to a limit: to a method or a field with its signature (II.15.3), so that overloads differ.
///
/// | row | reference |
/// |---|---|
/// | a method, or a MemberRef that is one | `instance void Hello.Greeter::Greet(int32, string)`, as it is declared, without the names and the flags of parameters |
/// | a MemberRef that is a field | `int32 Hello.Greeter::times`, its type and its name |
/// | any other row, and one that does not exist | as [`write_row_name`] writes it |
///
/// When the limit is reached, what follows is passed over. It allocates only the bytes of signatures that are held as values.
///
/// # Errors
///
/// `Writer` if the writer refused a part of the text. `Memory` if out of memory.
pub fn write_reference<S: ReadCells, W: fmt::Write, L: Limit<W>>(
    alloc: Global,
    source: &S,
    token: Token,
    limit: &L,
    out: &mut W,
) -> Result<(), TextError>
    ensures { (model : Metadata) → S.shows source.now model → OnOk result (Wrote W.write_str_gives out.old (IsReference L.scopes model token) out.new) }
{
    source.holds_one();
    if token.row == 0 || token.row > source.count(token.table) {
        return write_row_name(alloc, source, token, limit, out);
    }
    match token.table {
        TableId::MethodDef => write_method_reference(alloc, source, token.row, limit, out),
        TableId::MemberRef => write_member_reference(alloc, source, token.row, limit, out),
        _ => write_row_name(alloc, source, token, limit, out),
    }
}
