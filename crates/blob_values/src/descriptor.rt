use crate::native::Native;

/// The number of elements of an array (II.23.4).
#[derive(Clone, Copy, Debug, PartialEq, Eq)]
pub enum ArraySize {
    /// Not given.
    Unknown,
    /// ParamNum: the number of the parameter that contains it.
    Param(u32),
    /// ParamNum and NumElem: that number, or 0 for no parameter, and a number of elements that is added.
    ParamAndCount(u32, u32),
    /// The same with Microsoft's flags: there is no parameter if and only if their lowest bit is not set.
    WithFlags(u32, u32, u32),
}

/// How a field, a parameter or a result is passed to native code (II.23.4). The texts are those of the blob.
#[derive(Clone, Copy, Debug, PartialEq, Eq)]
pub enum Descriptor<'a> {
    /// A type that its code alone encodes.
    Native(Native),
    /// ARRAY: a pointer to elements, whose type may be unknown.
    Array(Option<Native>, ArraySize),
    /// IUNKNOWN, IDISPATCH or INTF, and the number of the parameter with the interface's identifier. Microsoft's, like all
    /// that follow.
    InterfaceOf(Native, u32),
    /// FIXEDSYSSTRING: a text in place of this number of characters.
    FixedString(u32),
    /// FIXEDARRAY: an array in place of this number of elements, whose type may be unknown.
    FixedArray(u32, Option<Native>),
    /// SAFEARRAY.
    SafeArray,
    /// SAFEARRAY of a type of VARIANT.
    SafeArrayOf(u32),
    /// The same, and the name of the type of its elements, which may be empty.
    SafeArrayNamed(u32, &'a str),
    /// CUSTOMMARSHALER.
    Custom(Custom<'a>),
}

/// The texts of a custom marshaler.
#[derive(Clone, Copy, Debug, PartialEq, Eq)]
pub struct Custom<'a> {
    /// The GUID of a type library.
    pub guid: &'a str,
    /// The name of an unmanaged type.
    pub unmanaged: &'a str,
    /// The name of the type that marshals.
    pub marshaler: &'a str,
    /// What that type is given.
    pub cookie: &'a str,
}
