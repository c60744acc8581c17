//! The data of fields in a file, and its size (II.22.8, II.22.18).
ghost use Rattle.std.specs.Prelude.{◌≡◌, ◌≤◌, ◌^◌, IfSome, length};
ghost use Rattle.table_schema.specs.declared.table.TableId.TheVariants.{ClassLayout, Field, TypeDef};
ghost use Rattle.metadata.specs.Metadata.{Metadata, cell_in};
ghost use Rattle.metadata.specs.Model.{IsModel};
ghost use Rattle.opening.specs.Views.{row_count};
ghost use Rattle.custom_attributes.specs.Signatures.{items_in};
ghost use Rattle.cli_values.specs.Constants.{size_of};
ghost use Rattle.cli_contents.specs.FieldData.{class_size, data_in, data_of, data_size, field_type, layout_size, type_size};

use crate::bodies::Body;
use navigation::{Link, Neighbours};
use opening::{CellRef, TableId, Token, View, number_or_zero};
use pe::Pe;
use sig_grammar::Element;
use sig_items::{Item, Items};
use table_schema::SigKind;

/// The cell of the address of data (II.22.18).
const RVA: usize = 0;

/// The cell of the size of a type (II.22.8).
const CLASS_SIZE: usize = 1;

/// The cell of the signature of a field (II.22.15).
const SIGNATURE: usize = 2;

/// No signature of two items has more bytes: each item has at most 64.
const LONGEST: usize = 128;

/// The size of a value of a simple type in bytes (II.23.1.16); 0 if it depends on the machine, or if the value is elsewhere.
fn element_size(of: Element) -> u32
    ensures { result ≡ size_of of }
{
    match of {
        Element::Boolean | Element::I1 | Element::U1 => 1,
        Element::Char | Element::I2 | Element::U2 => 2,
        Element::I4 | Element::U4 | Element::R4 => 4,
        Element::I8 | Element::U8 | Element::R8 => 8,
        Element::String | Element::I | Element::U | Element::Object => 0,
    }
}

/// ClassSize in a row of ClassLayout; 0 if there is no row.
#[tactic(auto, unfolding(table_schema::specs::CellColumns::cell_columns))]
fn layout_size(view: &View<'_>, layout: Option<u32>) -> u32
    requires { IfSome layout (λ row. (1 ≤ row) × (row ≤ row_count view.now ClassLayout)) }
    ensures { (model : Metadata) → IsModel view.now model → result ≡ layout_size model layout }
{
    match layout {
        Some(row) => number_or_zero(view, TableId::ClassLayout, row, CLASS_SIZE),
        None => 0,
    }
}

/// The size of a type of this file, by its row of ClassLayout; 0 if it is not known.
fn class_size(source: &Neighbours<'_, '_>, of: Token) -> u32
    ensures { (model : Metadata) → IsModel source.now.view.now model → result ≡ class_size model of.table of.row }
{
    let TableId::TypeDef = of.table else {
        return 0;
    };
    let (table, row) = (TableId::TypeDef, of.row);
    if row > source.view.count(table) {
        return 0;
    }
    let layout = source.first_linked(Link::TypeLayouts, Token { table, row });
    layout_size(source.view, layout)
}

/// The type of a field by the items of its signature, if it is one item.
fn field_type(mut items: Items<'_>) -> Option<Item>
    ensures { result ≡ field_type items.entry }
{
    let Item::Field = items.next()? else {
        return None;
    };
    let of = items.next()?;
    match items.next() {
        Some(_) => None,
        None => Some(of),
    }
}

/// The same of a field. A signature that is longer has too many items.
#[tactic(auto, unfolding(table_schema::specs::CellColumns::cell_columns))]
fn type_of_field(view: &View<'_>, field: u32) -> Option<Item>
    requires first { 1 ≤ field }
    requires last { field ≤ row_count view.now Field }
    ensures { (model : Metadata) → IsModel view.now model → result ≡ field_type (items_in (cell_in model Field field 2)) }
{
    sig_grammar::laws::encoded_is_encodable();
    sig_items::laws::items_are_encoded();
    match view.cell(TableId::Field, field, SIGNATURE) {
        CellRef::Sig(blob) => {
            if blob.len() > LONGEST {
                return None;
            }
            field_type(Items::of(blob, SigKind::Field)?)
        }
        _ => None,
    }
}

/// The size of a type; 0 if it is not known.
fn type_size(source: &Neighbours<'_, '_>, of: Option<Item>) -> u32
    ensures { (model : Metadata) → IsModel source.now.view.now model → result ≡ type_size model of }
{
    match of {
        Some(Item::Simple(of)) => element_size(of),
        Some(Item::Value(of)) => class_size(source, of),
        _ => 0,
    }
}

/// The number of bytes of a field by its type; 0 if it is not known.
fn data_size(source: &Neighbours<'_, '_>, field: u32) -> u32
    requires first { 1 ≤ field }
    requires last { field ≤ row_count source.now.view.now Field }
    ensures { (model : Metadata) → IsModel source.now.view.now model → result ≡ data_size model field }
{
    type_size(source, type_of_field(source.view, field))
}

/// The data of a field at an address, if its first byte is in the file.
fn data_in(pe: &Pe<'_>, field: u32, rva: u32, size: u32) -> Option<Body>
    requires { length pe.now.bytes ≤ 2 ^ 30 }
    ensures of { result ≡ data_in pe.now field rva size }
    ensures row { IfSome result (λ of. of.row ≡ field) }
{
    let range = pe.range(rva, 1)?;
    Some(Body {
        row: field,
        start: range.start,
        size: size as usize,
    })
}

/// The data of a field, if it has data in the file. If it has more than one row of FieldRVA, it is that of the first.
#[tactic(auto, unfolding(table_schema::specs::CellColumns::cell_columns))]
pub(crate) fn data_of(pe: &Pe<'_>, source: &Neighbours<'_, '_>, field: u32) -> Option<Body>
    requires small { length pe.now.bytes ≤ 2 ^ 30 }
    requires first { 1 ≤ field }
    requires last { field ≤ row_count source.now.view.now Field }
    ensures data { (model : Metadata) → IsModel source.now.view.now model → result ≡ data_of pe.now model field }
    ensures row { IfSome result (λ of. of.row ≡ field) }
{
    let table = TableId::Field;
    // The table has at most 0xFFFFFF rows.
    let _count = source.view.count(table);
    let row = source.first_linked(Link::FieldData, Token { table, row: field })?;
    let rva = number_or_zero(source.view, TableId::FieldRVA, row, RVA);
    data_in(pe, field, rva, data_size(source, field))
}
