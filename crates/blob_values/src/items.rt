ghost use Rattle.std.specs.Prelude.{◌≡◌, ◌≤◌, false, true, length, IfNone, IfSome, IsSomeAnd};
ghost use Rattle.blob_values.specs.Items.{items_of};
ghost use Rattle.blob_values.specs.Parts.{IsAttributeValue};
ghost use Rattle.blob_values.specs.Steps.{all_at, ends, left_at, value_items};
ghost use Rattle.blob_values.specs.Values.{AttributeValue};

use crate::item::Item;
use crate::numbers::two_bytes;
use crate::step::{Arguments, Left, is_whole, next_step};
use crate::types::ArgumentType;
use std::marker::Model;

/// The number that begins each value.
const PROLOG: u16 = 1;

/// What remains after the prolog of a value, and its bytes, if they are all that remains.
#[tactic(auto, unfolding(crate::specs::Steps::all_at))]
fn after_prolog<'a, 'p>(blob: &'a [u8], params: &'p [ArgumentType]) -> Option<(&'a [u8], Left<'p>)>
    ensures same { IfSome result (λ x. left_at x.1 x.0.now ≡ all_at params.now blob.now) }
    ensures whole { IfSome result (λ _. ends (all_at params.now blob.now) ≡ true) }
    ensures none { IfNone result (ends (all_at params.now blob.now) ≡ false) }
{
    let (prolog, bytes) = two_bytes(blob)?;
    let left = Left::only(Arguments::Fixed(params));
    if prolog != PROLOG || !is_whole(bytes, left) {
        return None;
    }
    Some((bytes, left))
}

/// The items of the value of a custom attribute (II.23.3), in the order of its blob. It does not allocate.
///
/// Contracts see the list of the items that remain.
#[derive(Drop)]
pub struct Items<'a, 'p> {
    bytes: &'a [u8],
    left: Left<'p>,
}

impl<'a, 'p> Model for Items<'a, 'p> {
    ghost use Rattle.std.specs.Prelude.{◌≡◌, List, is_some, true};
    ghost use Rattle.blob_values.specs.Items.{Item as Shown};
    ghost use Rattle.blob_values.specs.Steps.{items_in, left_at};

    ghost Value = { List Shown };

    ghost view = { λ s. items_in (left_at s.left s.bytes.now) };

    ghost invariant = { λ s. is_some (left_at s.left s.bytes.now) ≡ true };
}

impl<'a, 'p> Items<'a, 'p> {
    /// The items of the value that the whole blob is, for a constructor with parameters of these types; `None` if it
    /// is none. It takes time in proportion to the blob.
    #[tactic(auto, using(crate::proofs::StepLemmas::whole_some, crate::proofs::StepLemmas::whole_read, crate::proofs::StepLemmas::none_read))]
    pub fn of(blob: &'a [u8], params: &'p [ArgumentType]) -> Option<Items<'a, 'p>>
        // The items are those of a value that the blob is.
        ensures sound { IfSome result (λ items. (v : AttributeValue) × IsAttributeValue params.now v blob.now × (items ≡ items_of v)) }
        // If the blob is a value, the items are those of this value.
        ensures complete { (v : AttributeValue) → IsAttributeValue params.now v blob.now → IsSomeAnd result (λ items. items ≡ items_of v) }
        // The same as a function of the blob.
        ensures read { result ≡ value_items params.now blob.now }
        // Each item has a byte of its own.
        ensures few { IfSome result (λ items. length items ≤ length blob.now) }
    {
        packed::laws::numbers_are_read();
        let (bytes, left) = after_prolog(blob, params)?;
        Some(Items { bytes, left })
    }
}

impl<'a> Iterator for Items<'a, '_> {
    ghost use Rattle.std.specs.Iterator.{YieldsFirstBy, item_count};
    ghost use Rattle.blob_values.specs.Views.{view};

    type Item = Item<'a>;

    ghost next_gives = { YieldsFirstBy view (λ s. s) };

    ghost remaining = { item_count (λ s. s) };

    /// The next item; `None` after the last. It reads only the bytes of that item.
    #[tactic(auto, using(crate::proofs::StepLemmas::done_items))]
    fn next(&mut self) -> Option<Item<'a>> {
        if self.left.is_done() {
            return None;
        }
        let step = next_step(self.bytes, self.left)?;
        self.bytes = step.tail;
        self.left = step.left;
        Some(step.item)
    }
}
