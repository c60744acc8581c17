//! What follows the code of a descriptor, form by form. Each reads all bytes that remain.
ghost use Rattle.std.specs.Prelude.{◌≡◌, option_map};
ghost use Rattle.blob_values.specs.DescriptorReading.{array_of, at_end, custom_of, element_of, fixed_array_of, fixed_elements_of, fixed_string_of, native_then, safe_of, size_of};
ghost use Rattle.blob_values.specs.DescriptorViews.{view};

use crate::descriptor::{ArraySize, Custom, Descriptor};
use crate::native::Native;
use crate::readers::{number, text};

/// MAX: the code for elements of an unknown type.
const MAX: u8 = 0x50;

/// A value, if no byte remains.
fn at_end<'a>(value: Descriptor<'a>, tail: &[u8]) -> Option<Descriptor<'a>>
    ensures { option_map view result ≡ at_end (view value.entry) tail.now }
{
    if tail.is_empty() { Some(value) } else { None }
}

/// A type that its code alone encodes, or an interface and a parameter.
pub(crate) fn native<'a>(of: Native, bytes: &[u8]) -> Option<Descriptor<'a>>
    ensures { option_map view result ≡ native_then of bytes.now }
{
    if bytes.is_empty() {
        return Some(Descriptor::Native(of));
    }
    if !of.is_interface() {
        return None;
    }
    let (param, tail) = number(bytes)?;
    at_end(Descriptor::InterfaceOf(of, param), tail)
}

/// The number of elements of an array.
#[tactic(auto, unfolding(crate::specs::DescriptorReading::size_of))]
fn size(bytes: &[u8]) -> Option<ArraySize>
    ensures { result ≡ size_of bytes.now }
{
    if bytes.is_empty() {
        return Some(ArraySize::Unknown);
    }
    let (param, bytes) = number(bytes)?;
    if bytes.is_empty() {
        return Some(ArraySize::Param(param));
    }
    let (count, bytes) = number(bytes)?;
    if bytes.is_empty() {
        return Some(ArraySize::ParamAndCount(param, count));
    }
    let (flags, bytes) = number(bytes)?;
    if bytes.is_empty() {
        return Some(ArraySize::WithFlags(param, count, flags));
    }
    None
}

/// The type of elements with this code.
fn element(code: u8) -> Option<Option<Native>>
    ensures { result ≡ element_of code }
{
    if code == MAX {
        return Some(None);
    }
    let of = Native::from_byte(code)?;
    Some(Some(of))
}

/// An array.
#[tactic(auto, unfolding(crate::specs::DescriptorReading::array_of))]
pub(crate) fn array<'a>(bytes: &[u8]) -> Option<Descriptor<'a>>
    ensures { option_map view result ≡ array_of bytes.now }
{
    let (code, tail) = bytes.split_first()?;
    let of = element(*code)?;
    let size = size(tail)?;
    Some(Descriptor::Array(of, size))
}

/// A text in place.
#[tactic(auto, unfolding(crate::specs::DescriptorReading::fixed_string_of))]
pub(crate) fn fixed_string<'a>(bytes: &[u8]) -> Option<Descriptor<'a>>
    ensures { option_map view result ≡ fixed_string_of bytes.now }
{
    let (count, tail) = number(bytes)?;
    at_end(Descriptor::FixedString(count), tail)
}

/// The elements of an array in place.
fn fixed_elements<'a>(count: u32, bytes: &[u8]) -> Option<Descriptor<'a>>
    ensures { option_map view result ≡ fixed_elements_of count bytes.now }
{
    let Some((code, tail)) = bytes.split_first() else {
        return Some(Descriptor::FixedArray(count, None));
    };
    let of = Native::from_byte(*code)?;
    at_end(Descriptor::FixedArray(count, Some(of)), tail)
}

/// An array in place.
#[tactic(auto, unfolding(crate::specs::DescriptorReading::fixed_array_of))]
pub(crate) fn fixed_array<'a>(bytes: &[u8]) -> Option<Descriptor<'a>>
    ensures { option_map view result ≡ fixed_array_of bytes.now }
{
    let (count, tail) = number(bytes)?;
    fixed_elements(count, tail)
}

/// An array of COM.
#[tactic(auto, unfolding(crate::specs::DescriptorReading::safe_of))]
pub(crate) fn safe_array(bytes: &[u8]) -> Option<Descriptor<'_>>
    ensures { option_map view result ≡ safe_of bytes.now }
{
    if bytes.is_empty() {
        return Some(Descriptor::SafeArray);
    }
    let (of, bytes) = number(bytes)?;
    if bytes.is_empty() {
        return Some(Descriptor::SafeArrayOf(of));
    }
    let (name, tail) = text(bytes)?;
    at_end(Descriptor::SafeArrayNamed(of, name), tail)
}

/// A custom marshaler.
#[tactic(auto, unfolding(crate::specs::DescriptorReading::custom_of))]
pub(crate) fn custom(bytes: &[u8]) -> Option<Descriptor<'_>>
    ensures { option_map view result ≡ custom_of bytes.now }
{
    let (guid, tail) = text(bytes)?;
    let (unmanaged, tail) = text(tail)?;
    let (marshaler, tail) = text(tail)?;
    let (cookie, tail) = text(tail)?;
    let custom = Custom {
        guid,
        unmanaged,
        marshaler,
        cookie,
    };
    at_end(Descriptor::Custom(custom), tail)
}
