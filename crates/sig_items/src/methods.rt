ghost use Rattle.std.specs.Prelude.{◌≡◌, ◌&&◌, ◌/◌, ◌%◌, ◌==◌, ℕ, suc, List, None, IfSome, option_map};
ghost use Rattle.sig_grammar.specs.Reading.{generic_at, takes_sentinel as kind_takes_sentinel};
ghost use Rattle.sig_items.specs.Positions.{next_at, params_reported, method_reported, frame_depth};
ghost use Rattle.sig_items.specs.Steps.{reported, IsWithin};

use crate::item::{Item, MethodHead};
use crate::position::{Frame, Position};
use crate::step::Step;
use sig_grammar::CallingConvention;
use sig_grammar::method_byte::{
    begins_method, has_explicit_this, has_this, is_generic, may_have_sentinel,
};
use sig_recogniser::{byte, number};

/// The frame of `count` parameters, with SENTINEL before one of them if it is allowed.
#[tactic(auto, using(crate::proofs::Counts::params_more), unfolding(crate::specs::Positions::params_reported, sig_grammar::specs::Reading::params_at))]
pub fn params(count: u32, allowed: bool, depth: u8) -> Option<Frame>
    ensures reported { (b : List ℕ) → next_at result None b ≡ params_reported count allowed depth b }
    ensures within { IfSome result (λ f. frame_depth f ≡ depth) }
{
    if count == 0 {
        return None;
    }
    Some(Frame::Params {
        further: count - 1,
        allowed,
        depth,
    })
}

/// The number of generic parameters, if the first byte of the method says that the method is generic.
#[tactic(auto, unfolding(sig_grammar::specs::Reading::generic_at))]
fn generic(bytes: &[u8], code: u8) -> Option<(Option<u32>, &[u8])>
    ensures { option_map (λ x. (x.0, x.1.now)) result ≡ generic_at (code / 16 % 2 == 1) bytes.now }
{
    if !is_generic(code) {
        return Some((None, bytes));
    }
    let (count, tail) = number(bytes)?;
    Some((Some(count), tail))
}

/// Whether SENTINEL is allowed in a method with this first byte: its calling convention is C or vararg, and
/// `own` allows it.
fn takes_sentinel(code: u8, own: bool) -> bool
    ensures { result ≡ (own && kind_takes_sentinel (code % 16)) }
{
    own && may_have_sentinel(code)
}

/// The head of a method; `own` says whether it may have a SENTINEL (II.23.2.1 to II.23.2.3).
#[tactic(auto, unfolding(crate::specs::Positions::method_reported, sig_grammar::specs::Reading::method_at, sig_grammar::specs::Reading::method_from))]
pub fn method(bytes: &[u8], own: bool, depth: u8) -> Option<Step<'_>>
    ensures reported { reported result ≡ method_reported own depth bytes.now }
    ensures within { IfSome result (IsWithin (suc depth)) }
{
    let (code, tail) = byte(bytes)?;
    if !begins_method(code) {
        return None;
    }
    let (generic, tail) = generic(tail, code)?;
    let (count, tail) = number(tail)?;
    let head = MethodHead {
        convention: CallingConvention::in_first_byte(code),
        this: has_this(code),
        explicit: has_explicit_this(code),
        generic,
        params: count,
    };
    Some(Step {
        item: Item::Method(head),
        frame: params(count, takes_sentinel(code, own), depth),
        position: Some(Position::Ret { depth }),
        tail,
    })
}
