//! The codes of element types (II.23.1.16), under the names of the standard.

ghost use Rattle.std.specs.Prelude.{◌≡◌};
ghost use Rattle.sig_grammar.specs.ElementTypes as byte;

/// VOID: no value.
pub const VOID: u8 = 0x01;

/// An unmanaged pointer.
pub const PTR: u8 = 0x0F;

/// A managed reference.
pub const BYREF: u8 = 0x10;

/// A value type; its type index follows.
pub const VALUETYPE: u8 = 0x11;

/// A class; its type index follows.
pub const CLASS: u8 = 0x12;

/// A generic parameter of a type; its number follows.
pub const VAR: u8 = 0x13;

/// An array with a shape (II.23.2.13).
pub const ARRAY: u8 = 0x14;

/// An instance of a generic type.
pub const GENERICINST: u8 = 0x15;

/// A typed reference: a reference together with its type.
pub const TYPEDBYREF: u8 = 0x16;

/// A pointer to a method.
pub const FNPTR: u8 = 0x1B;

/// An array of one dimension with lower bound 0.
pub const SZARRAY: u8 = 0x1D;

/// A generic parameter of a method; its number follows.
pub const MVAR: u8 = 0x1E;

/// A required custom modifier.
pub const CMOD_REQD: u8 = 0x1F;

/// An optional custom modifier.
pub const CMOD_OPT: u8 = 0x20;

/// The variable arguments of a vararg call follow.
pub const SENTINEL: u8 = 0x41;

/// A pinned local variable.
pub const PINNED: u8 = 0x45;

/// Each constant equals the byte of the grammar.
pub fn element_types_are_reported()
    ensures void { VOID ≡ byte.VOID }
    ensures ptr { PTR ≡ byte.PTR }
    ensures byref { BYREF ≡ byte.BYREF }
    ensures valuetype { VALUETYPE ≡ byte.VALUETYPE }
    ensures class { CLASS ≡ byte.CLASS }
    ensures var { VAR ≡ byte.VAR }
    ensures array { ARRAY ≡ byte.ARRAY }
    ensures genericinst { GENERICINST ≡ byte.GENERICINST }
    ensures typedbyref { TYPEDBYREF ≡ byte.TYPEDBYREF }
    ensures fnptr { FNPTR ≡ byte.FNPTR }
    ensures szarray { SZARRAY ≡ byte.SZARRAY }
    ensures mvar { MVAR ≡ byte.MVAR }
    ensures cmod_reqd { CMOD_REQD ≡ byte.CMOD_REQD }
    ensures cmod_opt { CMOD_OPT ≡ byte.CMOD_OPT }
    ensures sentinel { SENTINEL ≡ byte.SENTINEL }
    ensures pinned { PINNED ≡ byte.PINNED }
{}
