//! The first byte of a method (II.23.2.1 to II.23.2.3): its calling convention, and one bit each for GENERIC,
//! HASTHIS and EXPLICITTHIS.

ghost use Rattle.std.specs.Prelude.{◌≡◌, ◌/◌, ◌%◌, ◌==◌};
ghost use Rattle.sig_grammar.specs.Reading.{is_method_code, takes_sentinel};

/// The bits of the calling convention.
pub const CALLING_CONVENTION: u8 = 0x0F;

/// GENERIC: the number of generic parameters follows.
pub const GENERIC: u8 = 0x10;

/// HASTHIS: the method is called on an instance.
pub const HASTHIS: u8 = 0x20;

/// EXPLICITTHIS: the instance is the first parameter of the method.
pub const EXPLICITTHIS: u8 = 0x40;

/// The bit that is clear in each first byte.
const RESERVED: u8 = 0x80;

/// The calling convention in a first byte.
#[tactic(auto, using(std::proofs::lemmas::Nat::and_mask))]
pub fn calling_convention(code: u8) -> u8
    ensures { result ≡ code % 16 }
{
    code & CALLING_CONVENTION
}

/// Whether a first byte has GENERIC set.
#[tactic(auto, using(crate::proofs::Masks::masks))]
pub fn is_generic(code: u8) -> bool
    ensures { result ≡ (code / 16 % 2 == 1) }
{
    code & GENERIC != 0
}

/// Whether a first byte has HASTHIS set: the method is called on an instance.
#[tactic(auto, using(crate::proofs::Masks::masks))]
pub fn has_this(code: u8) -> bool
    ensures { result ≡ (code / 32 % 2 == 1) }
{
    code & HASTHIS != 0
}

/// Whether a first byte has EXPLICITTHIS set: the first parameter is the instance.
#[tactic(auto, using(crate::proofs::Masks::masks))]
pub fn has_explicit_this(code: u8) -> bool
    ensures { result ≡ (code / 64 % 2 == 1) }
{
    code & EXPLICITTHIS != 0
}

/// Whether the byte can be the first byte of a method: its calling convention exists, and its highest bit
/// is clear.
#[tactic(auto, using(crate::proofs::Masks::masks))]
pub fn begins_method(code: u8) -> bool
    ensures { result ≡ is_method_code code }
{
    code & RESERVED == 0 && matches!(calling_convention(code), 0..=5 | 9)
}

/// Whether a method with this first byte may have a SENTINEL: its calling convention is C or vararg.
pub fn may_have_sentinel(code: u8) -> bool
    ensures { result ≡ takes_sentinel (code % 16) }
{
    matches!(calling_convention(code), 1 | 5)
}
