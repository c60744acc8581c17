/// A native type that its code alone encodes (II.23.4).
#[derive(Clone, Copy, Debug, PartialEq, Eq)]
pub enum Native {
    /// BOOLEAN: a truth value of four bytes.
    Boolean,
    /// I1: a signed integer of one byte.
    I1,
    /// U1: an unsigned integer of one byte.
    U1,
    /// I2: a signed integer of two bytes.
    I2,
    /// U2: an unsigned integer of two bytes.
    U2,
    /// I4: a signed integer of four bytes.
    I4,
    /// U4: an unsigned integer of four bytes.
    U4,
    /// I8: a signed integer of eight bytes.
    I8,
    /// U8: an unsigned integer of eight bytes.
    U8,
    /// R4: a floating-point number of four bytes.
    R4,
    /// R8: a floating-point number of eight bytes.
    R8,
    /// LPSTR: a pointer to a text of bytes.
    LpStr,
    /// LPWSTR: a pointer to a text of UTF-16 units.
    LpwStr,
    /// INT: a signed integer of the machine's pointer size.
    Int,
    /// UINT: an unsigned integer of the machine's pointer size.
    Uint,
    /// FUNC: a pointer to a function.
    Func,
    /// CURRENCY. Microsoft's, like all that follow.
    Currency,
    /// BSTR: a text of UTF-16 units with its length.
    BStr,
    /// LPTSTR: a pointer to a text in the encoding of the platform.
    LptStr,
    /// IUNKNOWN: a COM interface.
    IUnknown,
    /// IDISPATCH: a COM interface with late binding.
    IDispatch,
    /// STRUCT: a structure in place.
    Struct,
    /// INTF: a COM interface, by the type of the field or the parameter.
    Interface,
    /// BYVALSTR: a text that Visual Basic passes by reference.
    ByValStr,
    /// ANSIBSTR: a text of bytes with its length.
    AnsiBStr,
    /// TBSTR: a text with its length in the encoding of the platform.
    TBStr,
    /// VARIANTBOOL: a truth value of two bytes.
    VariantBool,
    /// ASANY: by the type of the value.
    AsAny,
    /// LPSTRUCT: a pointer to a structure.
    LpStruct,
    /// ERROR: an HRESULT.
    Error,
    /// IINSPECTABLE: an interface of the Windows Runtime.
    IInspectable,
    /// HSTRING: a text of the Windows Runtime.
    HString,
    /// LPUTF8STR: a pointer to a text in UTF-8.
    LpUtf8Str,
}

impl Native {
    ghost use Rattle.std.specs.Prelude.{◌≡◌};
    ghost use Rattle.blob_values.specs.Codes.{is_interface, native_of};
    ghost use Rattle.blob_values.specs.Words.{native_word};

    /// The type with this code; `None` if there is none.
    #[tactic(auto, unfolding(crate::specs::Codes::native_of))]
    pub(crate) fn from_byte(code: u8) -> Option<Native>
        ensures { result ≡ native_of code }
    {
        match code {
            0x02 => Some(Native::Boolean),
            0x03 => Some(Native::I1),
            0x04 => Some(Native::U1),
            0x05 => Some(Native::I2),
            0x06 => Some(Native::U2),
            0x07 => Some(Native::I4),
            0x08 => Some(Native::U4),
            0x09 => Some(Native::I8),
            0x0A => Some(Native::U8),
            0x0B => Some(Native::R4),
            0x0C => Some(Native::R8),
            0x0F => Some(Native::Currency),
            0x13 => Some(Native::BStr),
            0x14 => Some(Native::LpStr),
            0x15 => Some(Native::LpwStr),
            0x16 => Some(Native::LptStr),
            0x19 => Some(Native::IUnknown),
            0x1A => Some(Native::IDispatch),
            0x1B => Some(Native::Struct),
            0x1C => Some(Native::Interface),
            0x1F => Some(Native::Int),
            0x20 => Some(Native::Uint),
            0x22 => Some(Native::ByValStr),
            0x23 => Some(Native::AnsiBStr),
            0x24 => Some(Native::TBStr),
            0x25 => Some(Native::VariantBool),
            0x26 => Some(Native::Func),
            0x28 => Some(Native::AsAny),
            0x2B => Some(Native::LpStruct),
            0x2D => Some(Native::Error),
            0x2E => Some(Native::IInspectable),
            0x2F => Some(Native::HString),
            0x30 => Some(Native::LpUtf8Str),
            _ => None,
        }
    }

    /// Whether the number of a parameter with an interface's identifier may follow.
    pub(crate) fn is_interface(self) -> bool
        ensures { result ≡ is_interface self }
    {
        matches!(
            self,
            Native::IUnknown | Native::IDispatch | Native::Interface
        )
    }

    /// The word of ILAsm for the type (II.7.4).
    pub fn word(self) -> &'static str
        ensures { result.now ≡ native_word self }
    {
        match self {
            Native::Boolean => "bool",
            Native::I1 => "int8",
            Native::U1 => "unsigned int8",
            Native::I2 => "int16",
            Native::U2 => "unsigned int16",
            Native::I4 => "int32",
            Native::U4 => "unsigned int32",
            Native::I8 => "int64",
            Native::U8 => "unsigned int64",
            Native::R4 => "float32",
            Native::R8 => "float64",
            Native::LpStr => "lpstr",
            Native::LpwStr => "lpwstr",
            Native::Int => "int",
            Native::Uint => "unsigned int",
            Native::Func => "method",
            Native::Currency => "currency",
            Native::BStr => "bstr",
            Native::LptStr => "lptstr",
            Native::IUnknown => "iunknown",
            Native::IDispatch => "idispatch",
            Native::Struct => "struct",
            Native::Interface => "interface",
            Native::ByValStr => "byvalstr",
            Native::AnsiBStr => "ansi bstr",
            Native::TBStr => "tbstr",
            Native::VariantBool => "variant bool",
            Native::AsAny => "as any",
            Native::LpStruct => "lpstruct",
            Native::Error => "error",
            Native::IInspectable => "iinspectable",
            Native::HString => "hstring",
            Native::LpUtf8Str => "lputf8str",
        }
    }
}
