ghost use Rattle.std.specs.Prelude.{◌≡◌, ◌==◌, ◌<◌, ◌≤◌, [], ◌∷◌, ◌++◌, List, length, take};
ghost use Rattle.blob_values.specs.declared.types.ArgumentType.{ArgumentType as TheType};

use blob_values::{ArgumentType, ElementType};
use std::marker::Model;

/// The greatest number of parameters.
pub(crate) const MOST_PARAMS: usize = 64;

/// The types of the parameters of a constructor, at most 64. Contracts see the list of them.
#[derive(Drop)]
pub struct Params {
    types: [ArgumentType; MOST_PARAMS],
    count: usize,
}

impl Model for Params {
    ghost Value = { List TheType };

    ghost view = { λ s. take s.count s.types };

    ghost invariant = { λ s. s.count ≤ 64 };
}

impl Params {
    /// No parameters.
    pub(crate) fn none() -> Params
        ensures { result ≡ [] }
    {
        Params {
            types: [ArgumentType::One(ElementType::SystemType); MOST_PARAMS],
            count: 0,
        }
    }

    /// Whether there is no room for another parameter.
    pub(crate) fn is_full(&self) -> bool
        ensures { result ≡ (length self.now == 64) }
    {
        self.as_slice().len() == MOST_PARAMS
    }

    /// Appends a parameter.
    pub(crate) fn push(&mut self, of: ArgumentType)
        requires { length self.old < 64 }
        ensures appended { self.new ≡ self.old ++ of ∷ [] }
        ensures few { length self.new ≤ 64 }
    {
        self.types[self.count] = of;
        self.count += 1;
    }

    /// The types, in the order of the parameters.
    pub fn as_slice(&self) -> &[ArgumentType]
        ensures { result.now ≡ self.now }
    {
        self.types.split_at(self.count).0
    }
}
