ghost use Rattle.std.specs.Prelude.{◌≡◌, ◌<◌, ◌^◌, length, option_map};
ghost use Rattle.sig_recogniser.specs.Skips.{left, skip_many, skip_number, skip_bounds, skip_shape};

use crate::position::{Position, after_number, number};

/// The position after `count` numbers.
#[tactic(auto, using(crate::proofs::Loops::skip_many_next, crate::proofs::Loops::skip_many_end))]
fn after_numbers(bytes: &[u8], here: Position, count: u32) -> Option<Position>
    requires { length bytes.now < 2 ^ 29 }
    ensures { option_map (left bytes.now) result ≡ skip_many skip_number count (left bytes.now here) }
{
    let mut here = here;
    for done in 0..count {
        here = after_number(bytes, here)?;
    }
    Some(here)
}

/// The position after a count, at most `most`, and that number of values. A signed number has the same number
/// of bytes as an unsigned one, so this serves both sizes and lower bounds.
#[tactic(auto, unfolding(crate::specs::Skips::skip_bounds))]
fn after_bounds(bytes: &[u8], here: Position, most: u32) -> Option<Position>
    requires { length bytes.now < 2 ^ 29 }
    ensures { option_map (left bytes.now) result ≡ skip_bounds most (left bytes.now here) }
{
    let (count, here) = number(bytes, here)?;
    if most < count {
        return None;
    }
    after_numbers(bytes, here, count)
}

/// The position after the shape of an array (II.23.2.13).
#[tactic(auto, unfolding(crate::specs::Skips::skip_shape))]
pub fn after_shape(bytes: &[u8], here: Position) -> Option<Position>
    requires { length bytes.now < 2 ^ 29 }
    ensures { option_map (left bytes.now) result ≡ skip_shape (left bytes.now here) }
{
    let (rank, here) = number(bytes, here)?;
    if rank == 0 {
        return None;
    }
    let here = after_bounds(bytes, here, rank)?;
    after_bounds(bytes, here, rank)
}
