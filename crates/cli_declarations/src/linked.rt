//! Appends what rows add to the row that they refer to: the first of them, or all in the head of a type (II.10.1.7, II.12.2).
ghost use Rattle.std.specs.Prelude.{◌≡◌, ◌≤◌, ◌++◌, string_bytes, OnOk};
ghost use Rattle.cli_declarations.specs.Words.{Metadata, IsModel, descriptor_in, descriptor_text, first_linked, linked, row_count};
ghost use Rattle.blob_values.specs.DescriptorViews.{view};
ghost use Rattle.cli_declarations.specs.Parts.{IsHeadList, address_text, cut_text, layout_text, linked_text, marshal_content, marshal_text, offset_text, referring_text, value_text};
ghost use Rattle.cli_declarations.specs.Texts.{Gains};

use crate::declared::{Declared, Pushed, TextLimit, begin_text, end_text, push_plain};
use blob_values::Descriptor;
use cli_values::{push_constant, push_value_bytes};
use declarations::{descriptor_in, write_descriptor};
use navigation::{Link, Neighbours};
use opening::{TableId, Token, View, bytes_or_empty, number_or_zero};
use std::alloc::AllocError;
use std::fmt::Write;
use type_heads::write_items;

/// Appends the value of a constant.
fn push_value(code: u32, value: &[u8], declared: &mut Declared) -> Pushed
    ensures { OnOk result (string_bytes declared.new.text ≡ string_bytes declared.old.text ++ value_text code value.now) }
{
    push_plain(" = ", declared)?;
    push_constant(code, value, &mut declared.text)
}

/// Appends the packing and the size of a type.
fn push_layout(packing: u32, size: u32, declared: &mut Declared) -> Pushed
    ensures { OnOk result (string_bytes declared.new.text ≡ string_bytes declared.old.text ++ layout_text packing size) }
{
    write!(declared.text, " {{ .pack {packing} .size {size} }}").map_err(|_| AllocError)
}

/// Appends the offset of a field.
fn push_offset(offset: u32, declared: &mut Declared) -> Pushed
    ensures { OnOk result (string_bytes declared.new.text ≡ string_bytes declared.old.text ++ offset_text offset) }
{
    write!(declared.text, " [{offset}]").map_err(|_| AllocError)
}

/// Appends the address of the data of a field.
fn push_address(address: u32, declared: &mut Declared) -> Pushed
    ensures { OnOk result (string_bytes declared.new.text ≡ string_bytes declared.old.text ++ address_text address) }
{
    write!(declared.text, " at D_{address:08x}").map_err(|_| AllocError)
}

/// Appends a descriptor, up to the limit.
fn push_descriptor(of: Descriptor<'_>, declared: &mut Declared) -> Pushed
    ensures { OnOk result (string_bytes declared.new.text ≡ string_bytes declared.old.text ++ cut_text (descriptor_text (view of.entry))) }
{
    begin_text(declared);
    let written = write_descriptor(declared, of, &TextLimit);
    end_text(written, declared)
}

/// Appends the descriptor that a blob is, or its bytes if it is none.
fn push_content(blob: &[u8], declared: &mut Declared) -> Pushed
    ensures { OnOk result (string_bytes declared.new.text ≡ string_bytes declared.old.text ++ marshal_content (descriptor_in blob.now) blob.now) }
{
    match descriptor_in(blob) {
        Some(of) => push_descriptor(of, declared),
        None => push_value_bytes(blob, &mut declared.text),
    }
}

/// Appends how a field is marshalled, by the blob of its row of FieldMarshal.
fn push_marshal(blob: &[u8], declared: &mut Declared) -> Pushed
    ensures { OnOk result (string_bytes declared.new.text ≡ string_bytes declared.old.text ++ marshal_text blob.now) }
{
    push_plain(" marshal(", declared)?;
    push_content(blob, declared)?;
    push_plain(")", declared)
}

/// Appends what a row of a table adds to the row that it refers to: the value of a constant (II.22.9), the layout of a type (II.22.8),
/// and of a field the offset (II.22.16), the address of its data (II.22.18) or how it is marshalled (II.22.17).
#[tactic(auto, unfolding(table_schema::specs::CellColumns::cell_columns))]
fn push_referring(view: &View<'_>, table: TableId, row: u32, declared: &mut Declared) -> Pushed
    requires first { 1 ≤ row }
    requires last { row ≤ row_count view.now table }
    ensures { (model : Metadata) → IsModel view.now model
        → OnOk result (string_bytes declared.new.text ≡ string_bytes declared.old.text ++ referring_text model table row) }
{
    match table {
        TableId::Constant => {
            let code = number_or_zero(view, TableId::Constant, row, 0);
            let value = bytes_or_empty(view, TableId::Constant, row, 2);
            push_value(code, value, declared)
        }
        TableId::ClassLayout => {
            let packing = number_or_zero(view, TableId::ClassLayout, row, 0);
            let size = number_or_zero(view, TableId::ClassLayout, row, 1);
            push_layout(packing, size, declared)
        }
        TableId::FieldLayout => {
            let offset = number_or_zero(view, TableId::FieldLayout, row, 0);
            push_offset(offset, declared)
        }
        TableId::FieldRVA => {
            let address = number_or_zero(view, TableId::FieldRVA, row, 0);
            push_address(address, declared)
        }
        TableId::FieldMarshal => {
            let blob = bytes_or_empty(view, TableId::FieldMarshal, row, 1);
            push_marshal(blob, declared)
        }
        _ => Ok(()),
    }
}

/// Appends what the first row that refers to a row adds to it, or nothing if there is none.
pub(crate) fn push_linked(
    source: &Neighbours<'_, '_>,
    link: Link,
    token: Token,
    declared: &mut Declared,
) -> Pushed
    requires { token.row ≤ row_count source.now.view.now token.table }
    ensures { (model : Metadata) → IsModel source.now.view.now model
        → OnOk result (string_bytes declared.new.text ≡ string_bytes declared.old.text ++ linked_text model link (first_linked model link token)) }
{
    // The table has at most 0xFFFFFF rows.
    let _count = source.view.count(token.table);
    match source.first_linked(link, token) {
        Some(referring) => push_referring(source.view, link.table(), referring, declared),
        None => Ok(()),
    }
}

/// Appends what the rows that refer to a row are in its head, up to the limit, between two words; nothing if there are none.
pub(crate) fn push_listed(
    source: &Neighbours<'_, '_>,
    link: Link,
    before: &str,
    after: &str,
    token: Token,
    declared: &mut Declared,
) -> Pushed
    requires { token.row ≤ row_count source.now.view.now token.table }
    ensures { (model : Metadata) → IsModel source.now.view.now model → OnOk result (Gains (IsHeadList model link before.now after.now (linked model link token)) declared.old declared.new) }
{
    // The table has at most 0xFFFFFF rows.
    let _count = source.view.count(token.table);
    let rows = source.linked(link, link.number_to(token));
    if rows.is_empty() {
        return Ok(());
    }
    push_plain(before, declared)?;
    begin_text(declared);
    let written = write_items(declared.alloc, source, link, rows, &TextLimit, declared);
    end_text(written, declared)?;
    push_plain(after, declared)
}
