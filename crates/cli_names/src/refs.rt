//! The types of other modules that an argument means, and what belongs to them (II.22.25, II.22.38).
ghost use Rattle.std.specs.Prelude.{◌≡◌, ◌≤◌, ◌↔◌, IfOk, IsTrue};
ghost use Rattle.table_schema.specs.declared.table.TableId.TheVariants.{TypeRef, TypeSpec};
ghost use Rattle.metadata.specs.Lookups.{HasRow};
ghost use Rattle.metadata.specs.Metadata.{Metadata, cell_in};
ghost use Rattle.metadata.specs.Model.{IsModel};
ghost use Rattle.opening.specs.Views.{row_count};
ghost use Rattle.cli_names.specs.Refs.{BelongsTo, HasSome, IsWantedRef, Wants, generic_at, generic_in, type_of_parent, type_of_ref};

use crate::path::{has_parts, parts_of};
use crate::subject::Subject;
use full_names::member_parent;
use opening::{CellRef, ReadMetadata, TableId, Token, View};
use sig_grammar::element_type::GENERICINST;
use sig_recogniser::{byte, index};
use std::alloc::{AllocError, Global};

/// The cell of the signature of a TypeSpec (II.22.39).
const TYPE_SIGNATURE: usize = 0;

/// Types of other modules, as [`wanted_types`] takes an argument apart.
#[derive(Drop)]
pub enum Wanted<'p> {
    /// Those with this path, whose parts these are.
    Path(Vec<&'p str>),
    /// The one with this token.
    Row(Token),
}

/// The types of other modules that an argument means: those with a path as in `Namespace.Outer/Inner`, whatever their scopes,
/// or the one with a token (II.22.38).
///
/// # Errors
///
/// Out of memory.
pub fn wanted_types<'p>(alloc: Global, subject: Subject<'p>) -> Result<Wanted<'p>, AllocError>
    ensures { IfOk result (λ found. (model : Metadata) → Wants model subject.entry found) }
{
    match subject {
        Subject::Path(path) => Ok(Wanted::Path(parts_of(alloc, path)?)),
        Subject::Row(token) => Ok(Wanted::Row(token)),
    }
}

/// Whether a TypeRef exists and is wanted.
#[tactic(auto, unfolding(table_schema::specs::CellColumns::cell_columns))]
fn is_wanted(view: &View<'_>, wanted: &Wanted<'_>, row: u32) -> bool
    ensures { (model : Metadata) → IsModel view.now model → IsTrue result ↔ (HasRow model TypeRef row × IsWantedRef model wanted.now row) }
{
    metadata::laws::models_are_read();
    if row == 0 || row > view.count(TableId::TypeRef) {
        return false;
    }
    match wanted {
        Wanted::Path(parts) => has_parts(view, TableId::TypeRef, parts.as_slice(), row),
        Wanted::Row(token) => match token.table {
            TableId::TypeRef => token.row == row,
            _ => false,
        },
    }
}

/// Whether some TypeRef is wanted. It takes time in proportion to the number of TypeRefs and the bytes of the path.
pub fn finds(view: &View<'_>, wanted: &Wanted<'_>) -> bool
    ensures { (model : Metadata) → IsModel view.now model → IsTrue result ↔ HasSome model (IsWantedRef model wanted.now) }
{
    for earlier in 0..view.count(TableId::TypeRef) {
        if is_wanted(view, wanted, earlier + 1) {
            return true;
        }
    }
    false
}

/// The generic type of which a type is an instance, by the bytes of its signature (II.23.2.14). It reads the first bytes alone.
fn generic_at(blob: &[u8]) -> Option<Token>
    ensures { result ≡ generic_at blob.now }
{
    let (head, tail) = byte(blob)?;
    let (_, tail) = byte(tail)?;
    if head != GENERICINST {
        return None;
    }
    let (of, _) = index(tail)?;
    Some(of)
}

/// The same of the type that a TypeSpec is.
#[tactic(auto, unfolding(table_schema::specs::CellColumns::cell_columns))]
fn generic_of(view: &View<'_>, row: u32) -> Option<Token>
    requires first { 1 ≤ row }
    requires last { row ≤ row_count view.now TypeSpec }
    ensures { (model : Metadata) → IsModel view.now model → result ≡ generic_in (cell_in model TypeSpec row 0) }
{
    packed::laws::numbers_are_read();
    sig_grammar::laws::indexes_are_read();
    match view.cell(TableId::TypeSpec, row, TYPE_SIGNATURE) {
        CellRef::Sig(blob) => generic_at(blob),
        _ => None,
    }
}

/// The type to which the members of a parent belong.
fn type_of_parent(view: &View<'_>, parent: Token) -> Option<Token>
    requires first { 1 ≤ parent.row }
    requires last { parent.row ≤ row_count view.now parent.table }
    ensures { (model : Metadata) → IsModel view.now model → result ≡ type_of_parent model parent.table parent.row }
{
    match parent.table {
        TableId::TypeSpec => generic_of(view, parent.row),
        _ => Some(parent),
    }
}

/// The type to which a reference belongs.
fn type_of_ref(view: &View<'_>, of: Token) -> Option<Token>
    requires first { 1 ≤ of.row }
    requires last { of.row ≤ row_count view.now of.table }
    ensures { (model : Metadata) → IsModel view.now model → result ≡ type_of_ref model of.table of.row }
{
    match of.table {
        TableId::MemberRef => type_of_parent(view, member_parent(view, of.row)),
        _ => Some(of),
    }
}

/// Whether a reference belongs to a TypeRef that is wanted: it is one, or a member of one or of an instance of one (II.22.25). It
/// takes time in proportion to the bytes of the path.
pub fn belongs(view: &View<'_>, wanted: &Wanted<'_>, of: Token) -> bool
    requires first { 1 ≤ of.row }
    requires last { of.row ≤ row_count view.now of.table }
    ensures { (model : Metadata) → IsModel view.now model → IsTrue result ↔ BelongsTo model (IsWantedRef model wanted.now) of }
{
    let Some(found) = type_of_ref(view, of) else {
        return false;
    };
    match found.table {
        TableId::TypeRef => is_wanted(view, wanted, found.row),
        _ => false,
    }
}
