ghost use Rattle.std.specs.Prelude.{◌≡◌, ◌<◌, ◌≤◌, [], ◌∷◌, ◌++◌, List, length, take, MatchOption};
ghost use Rattle.sig_items.specs.declared.position.Frame.{Frame};

use crate::position::Frame;
use std::marker::Model;

/// The greatest number of frames: one for each level of types, and one for the outermost level.
pub const MOST: usize = 129;

/// The stack of frames that are still to be read, the innermost last. Contracts see it as a list.
#[derive(Drop)]
pub struct Frames {
    frames: [Frame; MOST],
    len: usize,
}

impl Model for Frames {
    ghost Value = { List Frame };

    ghost view = { λ s. take s.len s.frames };

    ghost invariant = { λ s. s.len ≤ 129 };
}

impl Frames {
    /// No frames.
    pub fn new() -> Self
        ensures { result ≡ [] }
    {
        Frames {
            frames: [Frame::Shape; MOST],
            len: 0,
        }
    }

    /// Pushes a frame.
    pub fn push(&mut self, frame: Frame)
        requires { length self.old < 129 }
        ensures { self.new ≡ self.old ++ frame ∷ [] }
    {
        self.frames[self.len] = frame;
        self.len += 1;
    }

    /// Pops the last frame.
    pub fn pop(&mut self) -> Option<Frame>
        ensures { MatchOption result ((self.old ≡ []) × (self.new ≡ [])) (λ frame. self.old ≡ self.new ++ frame ∷ []) }
    {
        if self.len == 0 {
            return None;
        }
        self.len -= 1;
        Some(self.frames[self.len])
    }
}
