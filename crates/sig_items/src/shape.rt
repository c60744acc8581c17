ghost use Rattle.std.specs.Prelude.{◌≡◌, ℕ, List, None, IfSome};
ghost use Rattle.sig_items.specs.declared.position.Position.TheVariants as position;
ghost use Rattle.sig_items.specs.Positions.{position_at, sizes_at, bounds_at, next_at, position_depth};
ghost use Rattle.sig_items.specs.Steps.{reported, IsWithin};

use crate::item::Item;
use crate::position::Position;
use crate::step::Step;
use sig_recogniser::{number, signed};

/// The position of `count` sizes of an array, and then its lower bounds.
#[tactic(auto, using(crate::proofs::Heads::sizes_zero, crate::proofs::Heads::sizes_more))]
fn sizes_position(count: u32, rank: u32) -> Position
    ensures reported { (b : List ℕ) → position_at result b ≡ sizes_at count rank b }
    ensures flat { position_depth result ≡ 0 }
{
    if count == 0 {
        return Position::LowCount { rank };
    }
    Position::Sizes {
        further: count - 1,
        rank,
    }
}

/// The position of `count` lower bounds of an array; `None` if there are none.
#[tactic(auto, using(crate::proofs::Heads::bounds_more), unfolding(crate::specs::Positions::bounds_at, sig_grammar::specs::Reading::many_at))]
fn bounds_position(count: u32) -> Option<Position>
    ensures reported { (b : List ℕ) → next_at None result b ≡ bounds_at count b }
    ensures flat { IfSome result (λ p. position_depth p ≡ 0) }
{
    if count == 0 {
        return None;
    }
    Some(Position::LowBounds { further: count - 1 })
}

/// Reads the shape of an array (II.23.2.13).
#[tactic(auto, using(crate::proofs::Heads::shape_is), unfolding(crate::specs::Positions::position_at, sig_grammar::specs::Reading::shape_at, sig_grammar::specs::Reading::both, sig_grammar::specs::Reading::counted_within))]
pub fn shape(bytes: &[u8]) -> Option<Step<'_>>
    ensures reported { reported result ≡ position_at position.Shape bytes.now }
    ensures within { IfSome result (IsWithin 0) }
{
    let (rank, tail) = number(bytes)?;
    if rank == 0 {
        return None;
    }
    let (sizes, tail) = number(tail)?;
    if rank < sizes {
        return None;
    }
    Some(Step::before(
        Item::Shape { rank, sizes },
        sizes_position(sizes, rank),
        tail,
    ))
}

/// Reads a size, with `further` sizes after it.
#[tactic(auto, using(crate::proofs::Heads::size_is), unfolding(crate::specs::Positions::position_at, crate::specs::Positions::sizes_at, sig_grammar::specs::Reading::both, sig_grammar::specs::Reading::many_at))]
pub fn size(bytes: &[u8], further: u32, rank: u32) -> Option<Step<'_>>
    ensures reported { reported result ≡ position_at (position.Sizes further rank) bytes.now }
    ensures within { IfSome result (IsWithin 0) }
{
    let (size, tail) = number(bytes)?;
    Some(Step::before(Item::Size(size), sizes_position(further, rank), tail))
}

/// Reads the number of lower bounds of an array of this rank.
#[tactic(auto, using(crate::proofs::Heads::low_is), unfolding(crate::specs::Positions::position_at, sig_grammar::specs::Reading::counted_within))]
pub fn low_count(bytes: &[u8], rank: u32) -> Option<Step<'_>>
    ensures reported { reported result ≡ position_at (position.LowCount rank) bytes.now }
    ensures within { IfSome result (IsWithin 0) }
{
    let (count, tail) = number(bytes)?;
    if rank < count {
        return None;
    }
    Some(Step {
        item: Item::LowBounds(count),
        frame: None,
        position: bounds_position(count),
        tail,
    })
}

/// Reads a lower bound, with `further` lower bounds after it.
#[tactic(auto, using(crate::proofs::Heads::bound_is), unfolding(crate::specs::Positions::position_at, crate::specs::Positions::bounds_at, sig_grammar::specs::Reading::many_at))]
pub fn low_bound(bytes: &[u8], further: u32) -> Option<Step<'_>>
    ensures reported { reported result ≡ position_at (position.LowBounds further) bytes.now }
    ensures within { IfSome result (IsWithin 0) }
{
    let (bound, tail) = signed(bytes)?;
    Some(Step {
        item: Item::LowBound(bound),
        frame: None,
        position: bounds_position(further),
        tail,
    })
}
