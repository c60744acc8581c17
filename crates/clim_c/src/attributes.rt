ghost use Rattle.std.specs.Prelude.{◌≡◌, ◌<◌, ◌-◌, ◌^◌, ◌⊎◌, length};
ghost use Rattle.clim_c.specs.Words.{AreItems, AttributeValue, IsModel, IsValueAt, Metadata, items_of};
ghost use Rattle.clim_c.specs.Attributes.{IsOpenAttribute};

use crate::opened::seen;
use crate::view::ClimView;
use c_values::{ClimAttributeItem, NOT_DECODED, write_value};
use opening::TableId;

/// Writes the items of the value of the attribute in a row of CustomAttribute, up to the length of `items`, and returns the
/// number of all of them (II.22.10, II.23.3). Returns 0 if the view is not open, or has no such row, and
/// `CLIM_NOT_DECODED` if the value is not decoded; `items` is then unchanged.
#[unsafe(no_mangle)]
pub extern "C" fn clim_attribute_items<'a>(
    view: &ClimView<'a>,
    row: u32,
    items: &mut [ClimAttributeItem<'a>],
) -> usize
    ensures items { 0 < result → result < 2 ^ 63 → (model : Metadata) → IsModel view.now.root.now model
        → (v : AttributeValue) × IsValueAt model row v × (result ≡ length (items_of v)) × AreItems (items_of v) items.old items.new }
    ensures complete { IsOpenAttribute view.now row → (model : Metadata) → IsModel view.now.root.now model
        → (v : AttributeValue) → IsValueAt model row v → (0 < result) × (result < 2 ^ 63) }
    ensures there { 0 < result → IsOpenAttribute view.now row }
    ensures within { (result < 2 ^ 63) ⊎ (result ≡ 2 ^ 64 - 9) }
    ensures open { IsOpenAttribute view.now row → 0 < result }
    ensures same { (result ≡ 0) ⊎ (result ≡ 2 ^ 64 - 9) → items.new ≡ items.old }
{
    let Some(seen) = seen(view) else {
        return 0;
    };
    if row < 1 || row > seen.count(TableId::CustomAttribute) {
        return 0;
    }
    match write_value(&seen, row, items) {
        Some(count) => count,
        None => NOT_DECODED,
    }
}
