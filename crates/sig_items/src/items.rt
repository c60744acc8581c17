ghost use Rattle.std.specs.Prelude.{◌≡◌, IfSome, IsSomeAnd};
ghost use Rattle.sig_grammar.specs.Syntax.{Body};
ghost use Rattle.sig_grammar.specs.Encodes.{Encodes};
ghost use Rattle.sig_items.specs.ItemsOf.{items_of};
ghost use Rattle.sig_items.specs.Positions.{position_at, position_depth};
ghost use Rattle.sig_items.specs.Steps.{reported, IsWithin};

use crate::bodies::body;
use crate::follow::followed;
use crate::frames::Frames;
use crate::item::Item;
use crate::methods::method;
use crate::position::Position;
use crate::shape::{low_bound, low_count, shape, size};
use crate::step::Step;
use crate::types::{local, marked, ret, slot, target, typed};
use sig_recogniser::recognise;
use std::marker::Model;
use table_schema::SigKind;

/// The first item at a position.
#[tactic(auto, unfolding(crate::specs::Positions::position_at))]
fn first_item(position: Position, bytes: &[u8]) -> Option<Step<'_>>
    ensures reported { reported result ≡ position_at position bytes.now }
    ensures within { IfSome result (IsWithin (position_depth position)) }
{
    match position {
        Position::Body(kind) => body(bytes, kind),
        Position::Method { depth } => method(bytes, true, depth),
        Position::Typed { depth } => typed(bytes, depth),
        Position::Target { depth } => target(bytes, depth),
        Position::Slot { depth } => slot(bytes, depth),
        Position::Ret { depth } => ret(bytes, depth),
        Position::Local { depth } => local(bytes, depth),
        Position::Marked { depth } => marked(bytes, depth),
        Position::Shape => shape(bytes),
        Position::Sizes { further, rank } => size(bytes, further, rank),
        Position::LowCount { rank } => low_count(bytes, rank),
        Position::LowBounds { further } => low_bound(bytes, further),
    }
}

/// The items of a signature (II.23.2), in encoded order, read from its bytes. It does not allocate.
///
/// Contracts see the list of the items that remain.
#[derive(Drop)]
pub struct Items<'a> {
    bytes: &'a [u8],
    position: Option<Position>,
    frames: Frames,
}

impl<'a> Model for Items<'a> {
    ghost use Rattle.std.specs.Prelude.{List};
    ghost use Rattle.sig_items.specs.declared.item.Item.{Item};
    ghost use Rattle.sig_items.specs.Steps.{items_left, IsReady};

    ghost Value = { List Item };

    ghost view = { λ s. items_left s.position s.frames s.bytes.now };

    ghost invariant = { λ s. IsReady s.position s.frames s.bytes.now };
}

impl<'a> Items<'a> {
    /// The items of the signature that all the bytes together encode, in a column of this kind; `None` if they
    /// encode none. The row of a type index need not exist.
    pub fn of(bytes: &'a [u8], kind: SigKind) -> Option<Items<'a>>
        ensures sound { IfSome result (λ items. (signature : Body) × Encodes kind signature bytes.now × (items ≡ items_of signature)) }
        ensures complete { (signature : Body) → Encodes kind signature bytes.now → IsSomeAnd result (λ items. items ≡ items_of signature) }
    {
        sig_grammar::laws::signatures_are_read();
        if !recognise(bytes, kind) {
            return None;
        }
        Some(Items {
            bytes,
            position: Some(Position::Body(kind)),
            frames: Frames::new(),
        })
    }
}

impl<'a> Iterator for Items<'a> {
    ghost use Rattle.std.specs.Iterator.{YieldsFirst, item_count};

    type Item = Item;

    ghost next_gives = { YieldsFirst (λ s. s) };

    ghost remaining = { item_count (λ s. s) };

    /// The next item; `None` after the last. It reads only the bytes of that item.
    fn next(&mut self) -> Option<Item> {
        let step = first_item(self.position?, self.bytes)?;
        self.position = followed(&mut self.frames, step);
        self.bytes = step.tail;
        Some(step.item)
    }
}
