ghost use Rattle.std.specs.Prelude.{◌≡◌, ◌+◌, ◌<◌, ◌≤◌, ◌^◌, ◌++◌, ◌↔◌, ℕ, ℤ, List, true, length, take, get_or, Some, IfSome};
ghost use Rattle.packed.specs.Fields.{Field, StandAt, AllSay, widths};
ghost use Rattle.packed.specs.Prefix.{unsigned_at, signed_at};
ghost use Rattle.packed.specs.Packed.{IsPacked, IsPackedSigned, FitsBits, fits_bits, short_unsigned, short_signed};
ghost use Rattle.packed.specs.Offsets.{part};

/// A decoded number is encoded by the bytes that it was decoded from. An encoding of a number
/// decodes to this number, whatever bytes follow.
pub fn numbers_are_read()
    ensures unsigned { (bytes : List ℕ) → ((k : ℕ) → get_or bytes k 0 < 2 ^ 8)
        → IfSome (unsigned_at bytes) (λ read. (read.1 ≤ length bytes) × IsPacked read.0 (take read.1 bytes)) }
    ensures unsigned_only { (n : ℕ) (prefix tail : List ℕ) → IsPacked n prefix → unsigned_at (prefix ++ tail) ≡ Some (n, length prefix) }
    ensures signed { (bytes : List ℕ) → ((k : ℕ) → get_or bytes k 0 < 2 ^ 8)
        → IfSome (signed_at bytes) (λ read. (read.1 ≤ length bytes) × IsPackedSigned read.0 (take read.1 bytes)) }
    ensures signed_only { (z : ℤ) (prefix tail : List ℕ) → IsPackedSigned z prefix → signed_at (prefix ++ tail) ≡ Some (z, length prefix) }
{}

/// The shortest form encodes the number, and no encoding is shorter. A number has an encoding if and only
/// if it is below 2^29, or, for signed numbers, if it fits in 29 bits.
#[tactic(auto, using(crate::proofs::ShortLemmas::unsigned_encodes, crate::proofs::ShortLemmas::unsigned_least, crate::proofs::ShortLemmas::unsigned_below, crate::proofs::ShortLemmas::signed_encodes, crate::proofs::ShortLemmas::signed_least, crate::proofs::ShortLemmas::signed_fits, crate::proofs::ShortLemmas::fits_both))]
pub fn shortest_forms_encode()
    ensures unsigned { (n : ℕ) → n < 2 ^ 29 → IsPacked n (short_unsigned n) }
    ensures unsigned_least { (n : ℕ) (bytes : List ℕ) → IsPacked n bytes → length (short_unsigned n) ≤ length bytes }
    ensures unsigned_below { (n : ℕ) (bytes : List ℕ) → IsPacked n bytes → n < 2 ^ 29 }
    ensures signed { (z : ℤ) → FitsBits 29 z → IsPackedSigned z (short_signed z) }
    ensures signed_least { (z : ℤ) (bytes : List ℕ) → IsPackedSigned z bytes → length (short_signed z) ≤ length bytes }
    ensures signed_fits { (z : ℤ) (bytes : List ℕ) → IsPackedSigned z bytes → FitsBits 29 z }
    ensures fits { (w : ℕ) (z : ℤ) → (fits_bits w z ≡ true) ↔ FitsBits w z }
{}

/// Fields are at an offset if and only if they fit in the whole and each has the value of the bytes
/// there. The bytes can be counted in the whole, or in the part of it that the fields cover.
pub fn fields_are_parts()
    ensures said { (whole : List ℕ) (offset : ℕ) (fields : List Field) → StandAt whole offset fields
        → AllSay whole offset fields × (offset + widths fields ≤ length whole) }
    ensures stand { (whole : List ℕ) (offset : ℕ) (fields : List Field) → offset + widths fields ≤ length whole
        → AllSay whole offset fields → StandAt whole offset fields }
    ensures said_of_part { (whole : List ℕ) (offset : ℕ) (fields : List Field) → StandAt whole offset fields
        → AllSay (part whole offset (widths fields)) 0 fields }
    ensures stand_by_part { (whole : List ℕ) (offset : ℕ) (fields : List Field) → offset + widths fields ≤ length whole
        → AllSay (part whole offset (widths fields)) 0 fields → StandAt whole offset fields }
{}
