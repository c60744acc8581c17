ghost use Rattle.std.specs.Prelude.{◌≡◌, ◌<◌, ◌++◌, ◌∷◌, [], ℕ, List, OnOk, IfOk, IfSome, length, slice_index};
ghost use Rattle.cell_numbering.specs.StartGroups.{AreStartGroups};

use crate::last_uses::LastUses;
use std::alloc::{AllocError, Global};

/// Starts of texts in groups. The uses of a group have one start.
#[derive(Drop)]
pub struct StartGroups {
    /// The start of each group, in order of first use.
    pub starts: Vec<u32>,
    /// The group of each use.
    pub of_use: Vec<usize>,
}

/// The group of a start, if it has one.
fn known_group(starts: &[u32], last: &LastUses, start: u32) -> Option<usize>
    ensures { IfSome result (λ group. (group < length starts.now) × (slice_index starts.now group ≡ start)) }
{
    let group = last.get(start)?;
    if *starts.get(group)? == start {
        Some(group)
    } else {
        None
    }
}

impl StartGroups {
    /// Adds the use of a start, to its group or to a new one.
    fn add(&mut self, last: &mut LastUses, start: u32) -> Result<(), AllocError>
        ensures { (starts : List ℕ) → AreStartGroups self.old.starts.items self.old.of_use.items starts
            → OnOk result (AreStartGroups self.new.starts.items self.new.of_use.items (starts ++ start ∷ [])) }
    {
        match known_group(&self.starts, last, start) {
            Some(group) => Ok(self.of_use.push(group)?),
            None => {
                let group = self.starts.len();
                last.note(start, group)?;
                self.starts.push(start)?;
                Ok(self.of_use.push(group)?)
            }
        }
    }

    /// The starts in groups, in linear time.
    pub fn of(alloc: Global, starts: &[u32]) -> Result<StartGroups, AllocError>
        ensures { IfOk result (λ groups. AreStartGroups groups.starts.items groups.of_use.items starts.now) }
    {
        let mut last = LastUses::new(alloc);
        let mut groups = StartGroups {
            starts: Vec::new(alloc),
            of_use: Vec::with_capacity(alloc, starts.len())?,
        };
        for start in starts {
            groups.add(&mut last, *start)?;
        }
        Ok(groups)
    }
}
