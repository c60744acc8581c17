//! The underlying types of enums (II.14.3).
ghost use Rattle.std.specs.Prelude.{◌≡◌, ◌≤◌, ◌-◌, min};
ghost use Rattle.table_schema.specs.declared.table.TableId.TheVariants.{Field, TypeDef};
ghost use Rattle.table_schema.specs.declared.column.SigKind.TheVariants as column;
ghost use Rattle.sig_grammar.specs.Syntax.{Body};
ghost use Rattle.sig_grammar.specs.Encodes.{Encodes};
ghost use Rattle.sig_items.specs.ItemsOf.{items_of};
ghost use Rattle.metadata.specs.Metadata.{Metadata, cell_in};
ghost use Rattle.metadata.specs.Model.{IsModel};
ghost use Rattle.opening.specs.Views.{row_count};
ghost use Rattle.custom_attributes.specs.Signatures.{items_in};
ghost use Rattle.custom_attributes.specs.Types.{enum_at, enum_type, field_type, instance_type, is_enum, is_static, is_underlying, most_fields, underlying_type};

use crate::read_view::ReadView;
use crate::system_types::{has_row, is_system_type};
use metadata_source::{MemberList, members_of};
use navigation::cells;
use opening::{CellRef, TableId, Token, View};
use sig_grammar::Element;
use sig_items::{Item, Items};
use table_schema::SigKind;

/// The index of the cell with the type that a type extends (II.22.37).
const EXTENDS: usize = 3;

/// The indexes of the cells with the flags and the signature of a field (II.22.15).
const FLAGS: usize = 0;

const SIGNATURE: usize = 2;

/// Static, a flag of fields (II.23.1.5).
const STATIC: u32 = 0x10;

/// The number of fields among which that of an enum is looked for.
const MOST_FIELDS: u32 = 16;

/// No signature of two items has more bytes: each item has at most 64.
const LONGEST: usize = 128;

/// Whether a field is static.
#[tactic(auto, unfolding(table_schema::specs::CellColumns::cell_columns))]
fn is_static<S: ReadView>(source: &S, field: u32) -> bool
    requires first { 1 ≤ field }
    requires last { field ≤ S.row_count source.now Field }
    ensures { (model : Metadata) → S.shows source.now model → result ≡ is_static (cell_in model Field field 0) }
{
    cells::number(source, TableId::Field, field, FLAGS) / STATIC % 2 == 1
}

/// Whether an enum may have this type, and there are values of it.
fn is_underlying(of: Element) -> bool
    ensures { result ≡ is_underlying of }
{
    matches!(
        of,
        Element::Boolean
            | Element::Char
            | Element::I1
            | Element::U1
            | Element::I2
            | Element::U2
            | Element::I4
            | Element::U4
            | Element::I8
            | Element::U8
    )
}

/// The type of a field by the items of its signature, if it is one that an enum may have.
fn field_type(mut items: Items<'_>) -> Option<Element>
    ensures { result ≡ field_type items.entry }
{
    let Item::Field = items.next()? else {
        return None;
    };
    let Item::Simple(of) = items.next()? else {
        return None;
    };
    if items.next().is_some() || !is_underlying(of) {
        return None;
    }
    Some(of)
}

/// The same of the signature in a blob. A longer one has too many items.
fn type_in(blob: &[u8]) -> Option<Element>
    ensures { (signature : Body) → Encodes column.Field signature blob.now → result ≡ field_type (items_of signature) }
{
    sig_grammar::laws::encoded_is_encodable();
    sig_items::laws::items_are_encoded();
    if blob.len() > LONGEST {
        return None;
    }
    match Items::of(blob, SigKind::Field) {
        Some(items) => field_type(items),
        None => None,
    }
}

/// The same of a field.
#[tactic(auto, unfolding(table_schema::specs::CellColumns::cell_columns))]
fn type_of_field(view: &View<'_>, field: u32) -> Option<Element>
    requires first { 1 ≤ field }
    requires last { field ≤ row_count view.now Field }
    ensures { (model : Metadata) → IsModel view.now model → result ≡ field_type (items_in (cell_in model Field field 2)) }
{
    match view.cell(TableId::Field, field, SIGNATURE) {
        CellRef::Sig(blob) => type_in(blob),
        _ => None,
    }
}

/// Of the first fields from one on and before another, the type of the first that is not static.
fn instance_type<S: ReadView>(source: &S, first: u32, past: u32) -> Option<Element>
    ensures { (model : Metadata) → S.shows source.now model → result ≡ instance_type model (min most_fields (past - first)) first }
{
    let count = MOST_FIELDS.min(past.saturating_sub(first));
    for done in 0..count {
        let field = first + done;
        if !has_row(source, TableId::Field, field) {
            return None;
        }
        if !is_static(source, field) {
            return type_of_field(source.view(), field);
        }
    }
    None
}

/// Whether a reference is to System.Enum.
fn is_enum<S: ReadView>(source: &S, base: Option<Token>) -> bool
    ensures { (model : Metadata) → S.shows source.now model → result ≡ is_enum model base }
{
    match base {
        Some(base) => is_system_type(source, "Enum", base),
        None => false,
    }
}

/// The underlying type of a type, if it is an enum and its instance field is among its first fields.
#[tactic(auto, using(crate::proofs::TypeLemmas::no_enum), unfolding(table_schema::specs::CellColumns::cell_columns))]
fn underlying_type<S: ReadView>(source: &S, row: u32) -> Option<Element>
    requires first { 1 ≤ row }
    requires last { row ≤ S.row_count source.now TypeDef }
    ensures { (model : Metadata) → S.shows source.now model → result ≡ underlying_type model row }
{
    source.holds_one();
    let base = cells::reference(source, TableId::TypeDef, row, EXTENDS);
    if !is_enum(source, base) {
        return None;
    }
    let fields = members_of(source, MemberList::Fields, row);
    instance_type(source, fields.start, fields.end)
}

/// The underlying type of the enum in a row of TypeDef, if it exists.
fn enum_in<S: ReadView>(source: &S, row: u32) -> Option<Element>
    ensures { (model : Metadata) → S.shows source.now model → result ≡ enum_at model TypeDef row }
{
    if !has_row(source, TableId::TypeDef, row) {
        return None;
    }
    underlying_type(source, row)
}

/// The underlying type of an enum of this file.
#[tactic(auto, using(crate::proofs::TypeLemmas::other_enum))]
pub(crate) fn enum_type<S: ReadView>(source: &S, of: Token) -> Option<Element>
    ensures { (model : Metadata) → S.shows source.now model → result ≡ enum_type model of }
{
    match of.table {
        TableId::TypeDef => enum_in(source, of.row),
        _ => None,
    }
}
