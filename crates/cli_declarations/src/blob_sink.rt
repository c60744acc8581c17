//! Appends what the blob of a row says: the signature of a field (II.7.1), the declaration of a method (II.15.3) or a property (II.17),
//! with the full names of types, or the value of a custom attribute (II.21, II.22.10).
ghost use Rattle.std.specs.Prelude.{◌≡◌, ◌≤◌, ◌++◌, Some, string_bytes, OnOk};
ghost use Rattle.cli_declarations.specs.Words.{CustomAttribute, Field, AttributeValue as TheValue, Metadata, cell_in, IsModel, row_count};
ghost use Rattle.blob_values.specs.Items.{items_of};
ghost use Rattle.cli_declarations.specs.Parts.{IsAttributeText, IsDeclarationAt, IsSignatureOf, IsValueText, bytes_value, decoded_value, params_for};
ghost use Rattle.cli_declarations.specs.Texts.{Gains};

use crate::declared::{Declared, Pushed, TextLimit, begin_text, end_text, push_plain};
use blob_values::{ArgumentType, Items};
use cli_values::push_value_bytes;
use custom_attributes::{Params, constructor, params_of, write_value};
use declarations::{write_method_of, write_property_within, write_signature_text};
use navigation::Neighbours;
use opening::{CellRef, TableId, View, bytes_or_empty};
use table_schema::SigKind;

/// The index of the cell with the signature of a field (II.22.15).
const SIGNATURE: usize = 2;

/// The index of the cell with the value of an attribute (II.22.10).
const VALUE: usize = 2;

/// The largest value that is decoded, in bytes.
const VALUE_LIMIT: usize = 1 << 16;

/// Appends the text of the signature of a field.
#[tactic(auto, unfolding(table_schema::specs::CellColumns::cell_columns))]
fn push_signature(view: &View<'_>, row: u32, declared: &mut Declared) -> Pushed
    requires first { 1 ≤ row }
    requires last { row ≤ row_count view.now Field }
    ensures { (model : Metadata) → IsModel view.now model → OnOk result (Gains (IsSignatureOf model (cell_in model Field row 2)) declared.old declared.new) }
{
    let CellRef::Sig(blob) = view.cell(TableId::Field, row, SIGNATURE) else {
        return Ok(());
    };
    begin_text(declared);
    let (alloc, kind) = (declared.alloc, SigKind::Field);
    let written = write_signature_text(alloc, view, blob, kind, &TextLimit, declared);
    end_text(written, declared)
}

/// Appends the bytes of a value in hexadecimal, up to the limit.
fn push_bytes_value(blob: &[u8], declared: &mut Declared) -> Pushed
    ensures { OnOk result (string_bytes declared.new.text ≡ string_bytes declared.old.text ++ bytes_value blob.now) }
{
    push_plain(" = (", declared)?;
    push_value_bytes(blob, &mut declared.text)?;
    push_plain(")", declared)
}

/// Appends a value by its items, up to the limit.
fn push_decoded(items: Items<'_, '_>, declared: &mut Declared) -> Pushed
    ensures { (v : TheValue) → items.entry ≡ items_of v
        → OnOk result (string_bytes declared.new.text ≡ string_bytes declared.old.text ++ decoded_value v) }
{
    push_plain(" = {", declared)?;
    begin_text(declared);
    let written = write_value(declared, items, &TextLimit);
    end_text(written, declared)?;
    push_plain(" }", declared)
}

/// Appends a value for a constructor with these types of parameters, or its bytes if it is none.
fn push_value(params: &[ArgumentType], blob: &[u8], declared: &mut Declared) -> Pushed
    ensures { OnOk result (Gains (IsValueText (Some params.now) blob.now) declared.old declared.new) }
{
    match Items::of(blob, params) {
        Some(items) => push_decoded(items, declared),
        None => push_bytes_value(blob, declared),
    }
}

/// The types of the parameters of an attribute's constructor, if its value is read.
fn params_for(source: &Neighbours<'_, '_>, row: u32, blob: &[u8]) -> Option<Params>
    requires first { 1 ≤ row }
    requires last { row ≤ row_count source.now.view.now CustomAttribute }
    ensures { (model : Metadata) → IsModel source.now.view.now model → result ≡ params_for model row blob.now }
{
    if blob.len() > VALUE_LIMIT {
        return None;
    }
    let of = constructor(source.view, row)?;
    params_of(source, of)
}

/// Appends the value of the attribute in a row.
#[tactic(auto, unfolding(table_schema::specs::CellColumns::cell_columns))]
fn push_attribute(source: &Neighbours<'_, '_>, row: u32, declared: &mut Declared) -> Pushed
    requires first { 1 ≤ row }
    requires last { row ≤ row_count source.now.view.now CustomAttribute }
    ensures { (model : Metadata) → IsModel source.now.view.now model → OnOk result (Gains (IsAttributeText model row) declared.old declared.new) }
{
    let blob = bytes_or_empty(source.view, TableId::CustomAttribute, row, VALUE);
    match params_for(source, row, blob) {
        Some(params) => push_value(params.as_slice(), blob, declared),
        None => push_bytes_value(blob, declared),
    }
}

/// Appends the signature of the field that a row is; the declaration of the method, with its full name, its generic parameters and
/// the names of its parameters; that of the property, with its full name; or the value of the attribute; nothing if it is of
/// another table.
pub(crate) fn push_declaration(
    source: &Neighbours<'_, '_>,
    table: TableId,
    row: u32,
    declared: &mut Declared,
) -> Pushed
    requires first { 1 ≤ row }
    requires last { row ≤ row_count source.now.view.now table }
    ensures { (model : Metadata) → IsModel source.now.view.now model → OnOk result (Gains (IsDeclarationAt model table row) declared.old declared.new) }
{
    metadata::laws::models_are_read();
    metadata::laws::models_of_roots_are_valid();
    match table {
        TableId::Field => push_signature(source.view, row, declared),
        TableId::MethodDef => {
            begin_text(declared);
            let written = write_method_of(declared.alloc, source, row, &TextLimit, declared);
            end_text(written, declared)
        }
        TableId::Property => {
            begin_text(declared);
            let alloc = declared.alloc;
            let written = write_property_within(alloc, source, row, &TextLimit, declared);
            end_text(written, declared)
        }
        TableId::CustomAttribute => push_attribute(source, row, declared),
        _ => Ok(()),
    }
}
