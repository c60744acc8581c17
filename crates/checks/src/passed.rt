ghost use Rattle.std.specs.Prelude.{◌≡◌, ◌≢◌, ◌⊎◌, ℕ, IfNone, IfSome, false, true};
ghost use Rattle.checks.specs.Passed.{BeginsIn, Keeps, no_slots, is_kept, keep};

use std::marker::Model;

/// The number of slots for numbers by their low bits.
const RECENT: usize = 1024;

/// The number of the parts of a heap, each with a slot.
const PARTS: usize = 1024;

/// The numbers of blobs that a check accepted, so that it need not walk them again.
///
/// A blob that was just accepted is in the slot of its number's low bits. A long blob, one that ends in a later
/// part of the heap than it begins, is in the slot of the part in which it begins too. A slot without a number has 0.
///
/// Of blobs that do not overlap only one leaves a part. So each of them that is longer than a part is walked once,
/// in any order, and a repeated walk of another one reads less than a part: the heap's bytes / 1024.
#[derive(Drop)]
pub struct Passed {
    recent: [u32; RECENT],
    long: [u32; PARTS],
    /// The number of bytes of a part of the heap.
    part: usize,
}

/// Where a blob begins in its heap.
#[derive(Clone, Copy)]
pub struct Beginning {
    /// The part of the heap.
    part: usize,
    /// The number of bytes before it in this part.
    before: usize,
}

impl Model for Passed {
    ghost use Rattle.std.specs.Prelude.{◌<◌};
    ghost use Rattle.checks.specs.Passed.{Slots};

    ghost Value = { Slots };

    ghost view = { λ passed. record { recent = passed.recent; long = passed.long; part = passed.part } };

    ghost invariant = { λ passed. 0 < passed.part };
}

impl Passed {
    /// No numbers, for a heap of a number of bytes.
    pub fn none(bytes: usize) -> Passed
        ensures value { result ≡ no_slots bytes }
        ensures none { (number : ℕ) → ¬ Keeps result number }
    {
        Passed {
            recent: [0; RECENT],
            long: [0; PARTS],
            part: bytes / PARTS + 1,
        }
    }

    /// Where the blob of a number begins; `None` if the number is kept.
    pub fn beginning_of_new(&self, number: u32) -> Option<Beginning>
        ensures kept { IfNone result (is_kept self.now number ≡ true) }
        ensures new { IfSome result (λ _. is_kept self.now number ≡ false) }
        ensures begins { IfSome result (BeginsIn self.now number) }
    {
        let offset = number as usize;
        if number != 0 && self.recent[offset % RECENT] == number {
            return None;
        }
        let part = offset / self.part;
        if number != 0 && self.long[part % PARTS] == number {
            return None;
        }
        let before = offset - part * self.part;
        Some(Beginning { part, before })
    }

    /// Keeps the number of a blob of a number of bytes, which begins there, in place of others with the same slots.
    pub fn keep(&mut self, number: u32, beginning: Beginning, bytes: usize)
        requires { BeginsIn self.old number beginning }
        ensures value { self.new ≡ keep self.old number bytes }
        ensures kept { number ≢ 0 → Keeps self.new number }
        ensures nothing_else { (other : ℕ) → Keeps self.new other → (other ≡ number) ⊎ Keeps self.old other }
    {
        self.recent[number as usize % RECENT] = number;
        if bytes >= self.part - beginning.before {
            self.long[beginning.part % PARTS] = number;
        }
    }
}
