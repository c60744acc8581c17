ghost use Rattle.std.specs.Prelude.{◌≡◌, ◌≤◌, ◌∷◌, [], ℕ, Some};
ghost use Rattle.sig_items.specs.Positions.{item_then, position_at, position_depth};
ghost use Rattle.sig_items.specs.Steps.{reported_by, IsWithin};

use crate::item::Item;
use crate::position::{Frame, Position};

/// The result of reading at a position: an item, and what remains.
#[derive(Clone, Copy)]
pub struct Step<'a> {
    /// The item.
    pub item: Item,
    /// The frame to push; `None` if there is nothing new to read later.
    pub frame: Option<Frame>,
    /// The next position; `None` if the current part is read to its end.
    pub position: Option<Position>,
    /// The bytes after the item.
    pub tail: &'a [u8],
}

impl<'a> Step<'a> {
    /// A step to an item without parts.
    pub fn leaf(item: Item, tail: &'a [u8]) -> Step<'a>
        ensures reported { reported_by result ≡ Some (item ∷ [], tail.now) }
        ensures within { (depth : ℕ) → IsWithin depth result }
    {
        Step {
            item,
            frame: None,
            position: None,
            tail,
        }
    }

    /// A step to an item that is followed by a position.
    pub fn before(item: Item, position: Position, tail: &'a [u8]) -> Step<'a>
        ensures reported { reported_by result ≡ item_then item (position_at position tail.now) }
        ensures within { (depth : ℕ) → position_depth position ≤ depth → IsWithin depth result }
    {
        Step {
            item,
            frame: None,
            position: Some(position),
            tail,
        }
    }
}
