ghost use Rattle.std.specs.Prelude.{◌≡◌, ◌+◌, ◌<◌, ◌≤◌, length, Some, None, IfSome};
ghost use Rattle.sig_items.specs.declared.position.Frame.TheVariants as frame;
ghost use Rattle.sig_items.specs.Positions.{next_at, frame_at, frame_depth, position_depth, and_report, stack_at};
ghost use Rattle.sig_items.specs.Steps.{pushed, all_at, HasRoom, IsStacked, IsRoomy};

use crate::frames::Frames;
use crate::methods::params;
use crate::position::{Frame, Position};
use crate::step::Step;
use crate::types::{types, variables};
use sig_recogniser::sentinel;

/// Pushes a frame, if there is one.
fn push(frames: &mut Frames, frame: Option<Frame>)
    requires { IfSome frame (λ f. length frames.old + frame_depth f < 129) }
    ensures { frames.new ≡ pushed frame frames.old }
{
    if let Some(frame) = frame {
        frames.push(frame);
    }
}

/// The position of the first of several parameters, with SENTINEL if it is allowed, and the frame after it.
#[tactic(auto, using(crate::proofs::Counts::params_opened, crate::proofs::Counts::marked_opened))]
fn first_param(bytes: &[u8], further: u32, allowed: bool, depth: u8) -> (Option<Frame>, Position)
    ensures reported { next_at result.0 (Some result.1) bytes.now ≡ frame_at (frame.Params further allowed depth) bytes.now }
    ensures frame { IfSome result.0 (λ f. frame_depth f ≡ depth) }
    ensures position { position_depth result.1 ≡ depth }
{
    let (marked, _) = sentinel(bytes, allowed);
    if marked {
        return (params(further, false, depth), Position::Marked { depth });
    }
    (params(further, allowed, depth), Position::Slot { depth })
}

/// The first position of a frame, and the frame after it.
#[tactic(auto, using(crate::proofs::Counts::types_opened, crate::proofs::Counts::locals_opened, crate::proofs::Counts::shape_opened))]
fn opened(frame: Frame, bytes: &[u8]) -> (Option<Frame>, Position)
    ensures reported { next_at result.0 (Some result.1) bytes.now ≡ frame_at frame bytes.now }
    ensures frame { IfSome result.0 (λ f. frame_depth f ≤ frame_depth frame) }
    ensures position { position_depth result.1 ≤ frame_depth frame }
{
    match frame {
        Frame::Types { further, depth } => (types(further, depth), Position::Typed { depth }),
        Frame::Params {
            further,
            allowed,
            depth,
        } => first_param(bytes, further, allowed, depth),
        Frame::Locals { further, depth } => (variables(further, depth), Position::Local { depth }),
        Frame::Shape => (None, Position::Shape),
    }
}

/// The next position after the current one is read to its end: the first position of the last frame.
fn resumed(frames: &mut Frames, bytes: &[u8]) -> Option<Position>
    requires { IsStacked 0 frames.old }
    ensures reported { all_at result frames.new bytes.now ≡ all_at None frames.old bytes.now }
    ensures roomy { IsRoomy result frames.new }
{
    let (further, position) = opened(frames.pop()?, bytes);
    push(frames, further);
    Some(position)
}

/// The next position after a step.
pub fn followed(frames: &mut Frames, step: Step<'_>) -> Option<Position>
    requires stacked { IsStacked 0 frames.old }
    requires room { HasRoom frames.old step }
    ensures reported { all_at result frames.new step.entry.tail.now ≡ and_report (stack_at frames.old) (next_at step.entry.frame step.entry.position step.entry.tail.now) }
    ensures roomy { IsRoomy result frames.new }
{
    push(frames, step.frame);
    match step.position {
        Some(position) => Some(position),
        None => resumed(frames, step.tail),
    }
}
