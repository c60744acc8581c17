ghost use Rattle.std.specs.Prelude.{◌≡◌, OnOk};
ghost use Rattle.std.specs.Fmt.{WritesInCalls};
ghost use Rattle.blob_values.specs.Items.{items_of};
ghost use Rattle.blob_values.specs.Values.{AttributeValue};
ghost use Rattle.blob_values.specs.Views.{view};
ghost use Rattle.custom_attributes.specs.Texts.{value_text};
ghost use Rattle.custom_attributes.specs.ItemTexts.{entry_end, item_text, items_text, left_after};

use crate::arguments::{entries_in, write_argument, write_intro};
use crate::scalars::write_entry;
use blob_values::{Item, Items};
use full_names::{Limit, write_text};
use std::fmt;

/// What follows an element of an array, if this many remain with it.
fn entry_end(left: u32) -> &'static str
    ensures { result.now ≡ entry_end left }
{
    if left == 1 { ")" } else { " " }
}

/// Writes an item, if this many elements of an array remain with it: an argument without the elements of its array, or one of
/// these and what follows it.
fn write_item<W: fmt::Write, L: Limit<W>>(
    out: &mut W,
    item: Item<'_>,
    left: u32,
    limit: &L,
) -> fmt::Result
    ensures { OnOk result (WritesInCalls W.write_str_gives out.old (item_text left (view item.entry)) out.new) }
{
    match item {
        Item::Fixed(argument) => {
            write!(out, " ")?;
            write_argument(out, argument, limit)
        }
        Item::Element(value) => {
            write_entry(out, value, limit)?;
            write_text(out, entry_end(left))
        }
        Item::NamedCount(_) => Ok(()),
        Item::Named(member, name, argument) => {
            write_intro(out, member, name, argument, limit)?;
            write_argument(out, argument, limit)
        }
    }
}

/// The number of elements of an array that remain after an item.
fn left_after(item: Item<'_>, left: u32) -> u32
    ensures { result ≡ left_after left (view item.entry) }
{
    match item {
        Item::Fixed(argument) | Item::Named(_, _, argument) => entries_in(argument),
        Item::Element(_) => left.saturating_sub(1),
        Item::NamedCount(_) => 0,
    }
}

/// Writes the items of a value.
fn write_items<W: fmt::Write, L: Limit<W>>(
    out: &mut W,
    items: Items<'_, '_>,
    limit: &L,
) -> fmt::Result
    ensures { OnOk result (WritesInCalls W.write_str_gives out.old (items_text 0 items.entry) out.new) }
{
    let mut left = 0;
    for item in items {
        if limit.is_reached(out) {
            return Ok(());
        }
        write_item(out, item, left, limit)?;
        left = left_after(item, left);
    }
    Ok(())
}

/// Writes the value of a custom attribute (II.21, II.23.3) by its items: the fixed arguments and then the named ones, a space
/// before each. When the limit is reached, the other items are not read.
///
/// # Errors
///
/// The writer refused a part of the text.
pub fn write_value<W: fmt::Write, L: Limit<W>>(
    out: &mut W,
    items: Items<'_, '_>,
    limit: &L,
) -> fmt::Result
    ensures { (v : AttributeValue) → items.entry ≡ items_of v → OnOk result (WritesInCalls W.write_str_gives out.old (value_text v) out.new) }
{
    write_items(out, items, limit)
}
