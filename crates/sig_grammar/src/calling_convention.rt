ghost use Rattle.std.specs.Prelude.{◌≡◌, ◌%◌};
ghost use Rattle.sig_grammar.specs.Conventions.{convention_of};

use crate::method_byte::calling_convention;

/// How a method is called (II.15.3, II.23.2.1 to II.23.2.3).
#[derive(Clone, Copy, Debug, PartialEq, Eq)]
pub enum CallingConvention {
    /// DEFAULT: a managed call.
    Default,
    /// C: an unmanaged call, as in C, whose caller removes the arguments.
    C,
    /// STDCALL: an unmanaged call, whose callee removes the arguments.
    StdCall,
    /// THISCALL: an unmanaged call of a method of a C++ class.
    ThisCall,
    /// FASTCALL: an unmanaged call with arguments in registers.
    FastCall,
    /// VARARG: a managed call with variable arguments.
    VarArg,
    /// An unmanaged call with the convention of the platform.
    Unmanaged,
}

impl CallingConvention {
    /// The calling convention in the first byte of a method; `Default` if its low four bits are none.
    #[tactic(auto, unfolding(crate::specs::Conventions::convention_of))]
    pub fn in_first_byte(byte: u8) -> CallingConvention
        ensures { result ≡ convention_of (byte % 16) }
    {
        match calling_convention(byte) {
            1 => CallingConvention::C,
            2 => CallingConvention::StdCall,
            3 => CallingConvention::ThisCall,
            4 => CallingConvention::FastCall,
            5 => CallingConvention::VarArg,
            9 => CallingConvention::Unmanaged,
            _ => CallingConvention::Default,
        }
    }
}
