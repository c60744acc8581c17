ghost use Rattle.std.specs.Prelude.{◌≡◌, ◌<◌, [], suc, false, length, IfSome};
ghost use Rattle.blob_values.specs.Reading.{after, entries_at, fixed_left, named_left};
ghost use Rattle.blob_values.specs.Steps.{arguments_at, ends, is_done, left_at, reported};
ghost use Rattle.blob_values.specs.Views.{head_view};

use crate::arguments::{argument, introduction};
use crate::item::{Argument, Item};
use crate::numbers::two_bytes;
use crate::scalars::element;
use crate::types::{ArgumentType, ElementType};

/// The arguments that remain.
#[derive(Clone, Copy)]
pub(crate) enum Arguments<'a> {
    /// Fixed arguments of these types, and then the named ones.
    Fixed(&'a [ArgumentType]),
    /// Named arguments of this number.
    Named(u16),
}

/// What remains of a value: elements of an array, and then arguments.
#[derive(Clone, Copy)]
pub(crate) struct Left<'a> {
    pub(crate) count: u32,
    pub(crate) of: ElementType,
    pub(crate) arguments: Arguments<'a>,
}

/// An item, what remains after it, and its bytes.
#[derive(Clone, Copy)]
pub(crate) struct Step<'a, 'p> {
    pub(crate) item: Item<'a>,
    pub(crate) left: Left<'p>,
    pub(crate) tail: &'a [u8],
}

impl<'a> Left<'a> {
    ghost use Rattle.std.specs.Prelude.{◌≡◌, ℕ, List};
    ghost use Rattle.blob_values.specs.Reading.{after};
    ghost use Rattle.blob_values.specs.Steps.{arguments_at, is_done, left_at};
    ghost use Rattle.blob_values.specs.Views.{head_view};

    /// Arguments, and no elements before them.
    #[tactic(auto, unfolding(crate::specs::Reading::entries_at))]
    pub(crate) fn only(arguments: Arguments<'a>) -> Left<'a>
        ensures { (b : List ℕ) → left_at result b ≡ arguments_at arguments.entry b }
    {
        Left {
            count: 0,
            of: ElementType::SystemType,
            arguments,
        }
    }

    /// What remains after an argument: the elements of its array, if it is one, and then the other arguments.
    #[tactic(auto, unfolding(crate::specs::Reading::after, crate::specs::Reading::entries_at))]
    fn after(value: Argument<'_>, arguments: Arguments<'a>) -> Left<'a>
        ensures { (b : List ℕ) → left_at result b ≡ after (head_view value.entry) (arguments_at arguments.entry) b }
    {
        match value {
            Argument::Vector(of, Some(count)) => Left {
                count,
                of,
                arguments,
            },
            _ => Left::only(arguments),
        }
    }

    /// Whether nothing remains.
    pub(crate) fn is_done(&self) -> bool
        ensures { result ≡ is_done self.now }
    {
        self.count == 0 && matches!(self.arguments, Arguments::Named(0))
    }
}

/// The next element of an array, and what remains after it.
#[tactic(auto, unfolding(crate::specs::Reading::entries_at))]
fn entry<'a, 'p>(bytes: &'a [u8], left: Left<'p>) -> Option<Step<'a, 'p>>
    requires { 0 < left.count }
    ensures reported { reported result ≡ left_at left.entry bytes.now }
    ensures shorter { IfSome result (λ step. length step.tail.now < length bytes.now) }
{
    let (value, tail) = element(bytes, left.of)?;
    let left = Left {
        count: left.count - 1,
        of: left.of,
        arguments: left.arguments,
    };
    Some(Step {
        item: Item::Element(value),
        left,
        tail,
    })
}

/// The number of named arguments, and what remains after it.
#[tactic(auto, unfolding(crate::specs::Reading::fixed_left))]
fn named_count<'a, 'p>(bytes: &'a [u8]) -> Option<Step<'a, 'p>>
    ensures reported { reported result ≡ fixed_left [] bytes.now }
    ensures shorter { IfSome result (λ step. length step.tail.now < length bytes.now) }
{
    let (count, tail) = two_bytes(bytes)?;
    Some(Step {
        item: Item::NamedCount(count),
        left: Left::only(Arguments::Named(count)),
        tail,
    })
}

/// The next fixed argument, or the number of named arguments if there is none, and what remains after it.
#[tactic(auto, unfolding(crate::specs::Reading::fixed_left, crate::specs::Reading::argument_at))]
fn fixed<'a, 'p>(bytes: &'a [u8], params: &'p [ArgumentType]) -> Option<Step<'a, 'p>>
    ensures reported { reported result ≡ fixed_left params.now bytes.now }
    ensures shorter { IfSome result (λ step. length step.tail.now < length bytes.now) }
{
    let Some((of, params)) = params.split_first() else {
        return named_count(bytes);
    };
    let (value, tail) = argument(bytes, *of)?;
    Some(Step {
        item: Item::Fixed(value),
        left: Left::after(value, Arguments::Fixed(params)),
        tail,
    })
}

/// The next named argument, and what remains after it and before `further` others.
#[tactic(auto, unfolding(crate::specs::Reading::named_left, crate::specs::Reading::argument_at))]
fn named<'a, 'p>(bytes: &'a [u8], further: u16) -> Option<Step<'a, 'p>>
    ensures reported { reported result ≡ named_left (suc further) bytes.now }
    ensures shorter { IfSome result (λ step. length step.tail.now < length bytes.now) }
{
    let (intro, tail) = introduction(bytes)?;
    let (value, tail) = argument(tail, intro.of)?;
    Some(Step {
        item: Item::Named(intro.member, intro.name, value),
        left: Left::after(value, Arguments::Named(further)),
        tail,
    })
}

/// The next item, and what remains after it; `None` if the bytes do not begin with one.
#[tactic(auto, using(crate::proofs::StepLemmas::named_next), unfolding(crate::specs::Reading::entries_at, crate::specs::Reading::named_left))]
pub(crate) fn next_step<'a, 'p>(bytes: &'a [u8], left: Left<'p>) -> Option<Step<'a, 'p>>
    requires { is_done left ≡ false }
    ensures reported { reported result ≡ left_at left.entry bytes.now }
    ensures shorter { IfSome result (λ step. length step.tail.now < length bytes.now) }
{
    if left.count > 0 {
        return entry(bytes, left);
    }
    let params = match left.arguments {
        Arguments::Fixed(params) => params,
        Arguments::Named(count) => return named(bytes, count - 1),
    };
    fixed(bytes, params)
}

/// Whether the bytes are what remains, and nothing else.
pub(crate) fn is_whole<'p>(bytes: &[u8], left: Left<'p>) -> bool
    ensures { result ≡ ends (left_at left.entry bytes.now) }
{
    let mut bytes = bytes;
    let mut left = left;
    while !left.is_done() {
        let Some(step) = next_step(bytes, left) else {
            return false;
        };
        bytes = step.tail;
        left = step.left;
    }
    bytes.is_empty()
}
