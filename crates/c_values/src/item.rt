/// An item of the value of a custom attribute, for C (II.23.3). The fields that do not belong to it are 0 or no bytes.
#[repr(C)]
#[derive(Clone, Copy)]
pub struct ClimAttributeItem<'a> {
    /// The name of the field or the property that a named argument sets.
    pub name: &'a [u8],
    /// A string, or the name of a type.
    pub text: &'a [u8],
    /// A truth value, a character or a number, as an unsigned number; or the number of elements of an array, or of named
    /// arguments.
    pub number: u64,
    /// What the item is: `CLIM_FIXED_ARGUMENT` to `CLIM_PROPERTY_ARGUMENT` of `clim.h`.
    pub kind: u8,
    /// What its value is: `CLIM_PLAIN_VALUE` to `CLIM_ARRAY` of `clim.h`.
    pub form: u8,
    /// The type of its value, or of the elements of its array (II.23.1.16, II.23.3).
    pub of: u8,
    /// Whether its string, type or array is null.
    pub is_null: bool,
}
