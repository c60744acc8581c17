ghost use Rattle.std.specs.Prelude.{◌≡◌};
ghost use Rattle.sig_grammar.specs.Reading.{number_at, signed_at, many_at, counted_within, shape_at};
ghost use Rattle.sig_grammar.specs.Views.{shape_of};
ghost use Rattle.signatures.specs.Gives.{Gives};

use crate::error::SigError;
use crate::head::{number, signed, with_room};
use sig_grammar::Shape;
use std::alloc::Global;

/// Builds `count` numbers.
fn numbers(alloc: Global, bytes: &[u8], count: u32) -> Result<(Vec<u32>, &[u8]), SigError>
    ensures { Gives (λ x. (x.0.items, x.1.now)) result (many_at number_at count bytes.now) }
{
    let mut all = with_room(alloc, bytes, count)?;
    let mut tail = bytes;
    for done in 0..count {
        let (one, next) = number(tail)?;
        all.push(one)?;
        tail = next;
    }
    Ok((all, tail))
}

/// Builds `count` signed numbers.
fn signed_numbers(alloc: Global, bytes: &[u8], count: u32) -> Result<(Vec<i32>, &[u8]), SigError>
    ensures { Gives (λ x. (x.0.items, x.1.now)) result (many_at signed_at count bytes.now) }
{
    let mut all = with_room(alloc, bytes, count)?;
    let mut tail = bytes;
    for done in 0..count {
        let (one, next) = signed(tail)?;
        all.push(one)?;
        tail = next;
    }
    Ok((all, tail))
}

/// Builds the sizes of an array, at most `most`, after their count.
#[tactic(auto, unfolding(sig_grammar::specs::Reading::counted_within))]
fn sizes(alloc: Global, bytes: &[u8], most: u32) -> Result<(Vec<u32>, &[u8]), SigError>
    ensures { Gives (λ x. (x.0.items, x.1.now)) result (counted_within number_at most bytes.now) }
{
    let (count, tail) = number(bytes)?;
    if most < count {
        return Err(SigError::Bad);
    }
    numbers(alloc, tail, count)
}

/// Builds the lower bounds of an array, at most `most`, after their count.
#[tactic(auto, unfolding(sig_grammar::specs::Reading::counted_within))]
fn low_bounds(alloc: Global, bytes: &[u8], most: u32) -> Result<(Vec<i32>, &[u8]), SigError>
    ensures { Gives (λ x. (x.0.items, x.1.now)) result (counted_within signed_at most bytes.now) }
{
    let (count, tail) = number(bytes)?;
    if most < count {
        return Err(SigError::Bad);
    }
    signed_numbers(alloc, tail, count)
}

/// Builds the shape of an array (II.23.2.13).
#[tactic(auto, unfolding(sig_grammar::specs::Reading::shape_at, sig_grammar::specs::Reading::both))]
pub fn shape(alloc: Global, bytes: &[u8]) -> Result<(Shape, &[u8]), SigError>
    ensures { Gives (λ x. (shape_of x.0, x.1.now)) result (shape_at bytes.now) }
{
    let (rank, tail) = number(bytes)?;
    if rank == 0 {
        return Err(SigError::Bad);
    }
    let (sizes, tail) = sizes(alloc, tail, rank)?;
    let (low, tail) = low_bounds(alloc, tail, rank)?;
    Ok((Shape { rank, sizes, low }, tail))
}
