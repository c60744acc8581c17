ghost use Rattle.std.specs.Prelude.{◌≡◌, ◌∷◌, []};
ghost use Rattle.sig_grammar.specs.Views.{shape_of};
ghost use Rattle.sig_grammar.specs.Grammar.{modifier_parts, prefix_parts, list_parts, shape_parts};
ghost use Rattle.sig_grammar.specs.Parts.{number, signed};
ghost use Rattle.sig_encoder.specs.Run.{after, run};
ghost use Rattle.sig_encoder.specs.Items.{parts_items, rule, is_shape, shape_items};

use crate::sink::PartSink;
use sig_grammar::element_type::{CMOD_OPT, CMOD_REQD, PINNED};
use sig_grammar::{Modifier, Prefix, Shape};

/// Reports to the sink that the value is broken, if the condition does not hold.
pub fn visit_rule<S: PartSink>(sink: &mut S, holds: bool) -> Option<()>
    ensures { after result sink.new ≡ run S.step (rule holds) sink.old }
{
    if holds {
        return Some(());
    }
    sink.broken()
}

/// A value without types in it.
pub trait Leaf {
    ghost use Rattle.std.specs.Prelude.{◌≡◌, List};
    ghost use Rattle.sig_grammar.specs.Parts.{Part};
    ghost use Rattle.sig_encoder.specs.Run.{after, run};
    ghost use Rattle.sig_encoder.specs.Items.{parts_items};

    /// Its parts.
    ghost parts: { Self → List Part };

    /// Passes its parts to a sink.
    fn visit<S: PartSink>(&self, sink: &mut S) -> Option<()>
        ensures { after result sink.new ≡ run S.step (parts_items (parts self.now)) sink.old };
}

/// A modifier (II.23.2.7).
impl Leaf for Modifier {
    ghost parts = { modifier_parts };

    #[tactic(auto, using(crate::proofs::Steps::steps))]
    fn visit<S: PartSink>(&self, sink: &mut S) -> Option<()> {
        sink.byte(u16::from(if self.required { CMOD_REQD } else { CMOD_OPT }))?;
        sink.index(self.of)
    }
}

/// A modifier or PINNED before the type of a local variable (II.23.2.6).
impl Leaf for Prefix {
    ghost parts = { prefix_parts };

    #[tactic(auto, using(crate::proofs::Steps::steps))]
    fn visit<S: PartSink>(&self, sink: &mut S) -> Option<()> {
        match self {
            Prefix::Mod(modifier) => modifier.visit(sink),
            Prefix::Pinned => sink.byte(u16::from(PINNED)),
        }
    }
}

/// The size of a dimension.
impl Leaf for u32 {
    ghost parts = { λ n. number n ∷ [] };

    #[tactic(auto, using(crate::proofs::Steps::steps))]
    fn visit<S: PartSink>(&self, sink: &mut S) -> Option<()> {
        sink.number(*self as usize)
    }
}

/// The lower bound of a dimension.
impl Leaf for i32 {
    ghost parts = { λ z. signed z ∷ [] };

    #[tactic(auto, using(crate::proofs::Steps::steps))]
    fn visit<S: PartSink>(&self, sink: &mut S) -> Option<()> {
        sink.signed(*self)
    }
}

/// Visits values, one after another.
#[tactic(auto, using(crate::proofs::Steps::steps, crate::proofs::Loops::list_steps))]
pub fn visit_leaves<S: PartSink, T: Leaf>(sink: &mut S, leaves: &[T]) -> Option<()>
    ensures { after result sink.new ≡ run S.step (parts_items (list_parts T.parts leaves.now)) sink.old }
{
    for leaf in leaves {
        leaf.visit(sink)?;
    }
    Some(())
}

/// Whether an array may have this shape (II.23.2.13).
fn can_be(shape: &Shape) -> bool
    ensures { result ≡ is_shape (shape_of shape.now) }
{
    0 < shape.rank
        && shape.sizes.len() <= shape.rank as usize
        && shape.low.len() <= shape.rank as usize
}

/// Visits the shape of an array (II.23.2.13).
#[tactic(auto, using(crate::proofs::Steps::steps, crate::proofs::Steps::items_both))]
pub fn visit_shape<S: PartSink>(sink: &mut S, shape: &Shape) -> Option<()>
    ensures { after result sink.new ≡ run S.step (shape_items (shape_of shape.now)) sink.old }
{
    visit_rule(sink, can_be(shape))?;
    sink.number(shape.rank as usize)?;
    sink.number(shape.sizes.len())?;
    visit_leaves(sink, &shape.sizes)?;
    sink.number(shape.low.len())?;
    visit_leaves(sink, &shape.low)
}
