//! The value of the attribute in a row.
ghost use Rattle.std.specs.Prelude.{◌≡◌, ◌≤◌, ◌<◌, ◌^◌, IfNone, IfSome, length};
ghost use Rattle.table_schema.specs.declared.table.TableId.TheVariants.{CustomAttribute};
ghost use Rattle.metadata.specs.Metadata.{Metadata};
ghost use Rattle.metadata.specs.Model.{IsModel};
ghost use Rattle.opening.specs.Views.{row_count};
ghost use Rattle.blob_values.specs.Items.{items_of};
ghost use Rattle.blob_values.specs.Values.{AttributeValue};
ghost use Rattle.c_values.specs.Items.{AreItems};
ghost use Rattle.c_values.specs.Values.{IsValueAt, params_at};

use crate::item::ClimAttributeItem;
use crate::reported::reported;
use blob_values::Items;
use custom_attributes::{Params, constructor, params_of};
use opening::{TableId, View, bytes_or_empty};

/// `CLIM_NOT_DECODED`: the value of the attribute is not decoded.
pub const NOT_DECODED: usize = usize::MAX - 8;

/// The index of the cell with the value of an attribute (II.22.10).
const VALUE: usize = 2;

/// The types of the parameters of an attribute's constructor.
fn params_at(view: &View<'_>, row: u32) -> Option<Params>
    requires first { 1 ≤ row }
    requires last { row ≤ row_count view.now CustomAttribute }
    ensures { (model : Metadata) → IsModel view.now model → result ≡ params_at model row }
{
    let of = constructor(view, row)?;
    params_of(view, of)
}

/// Writes items, up to the length of the array, and returns the number of all of them.
fn write_items<'a>(found: Items<'a, '_>, items: &mut [ClimAttributeItem<'a>]) -> usize
    requires { length found < 2 ^ 63 }
    ensures count { result ≡ length found.entry }
    ensures written { AreItems found.entry items.old items.new }
{
    let mut count = 0;
    for item in found {
        if count < items.len() {
            items[count] = reported(item);
        }
        count += 1;
    }
    count
}

/// Writes the items of the value of the attribute in a row, up to the length of `items`, and returns the number of all of
/// them, which is at least 1 (II.22.10, II.23.3). The other elements are unchanged.
///
/// `None` if the value is not decoded: a parameter of the constructor, or a value in an object or of a named argument, has
/// a type that is not read, such as an enum of another file; there are more than 64 parameters; or the blob is no value.
#[tactic(auto, unfolding(table_schema::specs::CellColumns::cell_columns))]
pub fn write_value<'a>(
    view: &View<'a>,
    row: u32,
    items: &mut [ClimAttributeItem<'a>],
) -> Option<usize>
    requires first { 1 ≤ row }
    requires last { row ≤ row_count view.now CustomAttribute }
    ensures sound { IfSome result (λ count. (model : Metadata) → IsModel view.now model
        → (v : AttributeValue) × IsValueAt model row v × (count ≡ length (items_of v)) × AreItems (items_of v) items.old items.new) }
    ensures complete { IfNone result ((model : Metadata) → IsModel view.now model → (v : AttributeValue) → ¬ IsValueAt model row v) }
    ensures within { IfSome result (λ count. (1 ≤ count) × (count < 2 ^ 63)) }
    ensures same { IfNone result (items.new ≡ items.old) }
{
    let params = params_at(view, row)?;
    let blob = bytes_or_empty(view, TableId::CustomAttribute, row, VALUE);
    let found = Items::of(blob, params.as_slice())?;
    Some(write_items(found, items))
}
