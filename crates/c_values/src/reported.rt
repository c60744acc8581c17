//! Items as a C caller receives them.
ghost use Rattle.std.specs.Prelude.{◌≡◌};
ghost use Rattle.blob_values.specs.Parts.{code_of};
ghost use Rattle.blob_values.specs.Views.{element_view, head_view, scalar_view, view};
ghost use Rattle.blob_values.specs.Values.{scalar_type};
ghost use Rattle.c_values.specs.Items.{element_fields, fields_of, head_fields, is_null, item_fields, member_kind, number_in, scalar_fields, text_in};

use crate::item::ClimAttributeItem;
use blob_values::{Argument, Element, ElementType, Item, Member, Scalar, Value};

/// The kinds of items: `CLIM_FIXED_ARGUMENT` to `CLIM_PROPERTY_ARGUMENT` of `clim.h`.
const FIXED: u8 = 1;

const ELEMENT: u8 = 2;

const NAMED_COUNT: u8 = 3;

const FIELD: u8 = 4;

const PROPERTY: u8 = 5;

/// The forms of values: `CLIM_PLAIN_VALUE` to `CLIM_ARRAY` of `clim.h`.
const PLAIN: u8 = 1;

const BOXED: u8 = 2;

const ARRAY: u8 = 3;

/// The codes of System.Type and of an object (II.23.3).
const SYSTEM_TYPE: u8 = 0x50;

const OBJECT: u8 = 0x51;

/// The code of a type.
fn code_of(of: ElementType) -> u8
    ensures { result ≡ code_of of }
{
    match of {
        ElementType::Simple(Element::Object) => OBJECT,
        ElementType::Simple(of) => of.byte(),
        ElementType::SystemType => SYSTEM_TYPE,
    }
}

/// The type of a value; a truth value, a character or a number, otherwise 0; a string or the name of a type, otherwise no
/// bytes; and whether it is a string or a type that is null.
fn parts_of<'a>(value: Scalar<'a>) -> (ElementType, u64, &'a [u8], bool)
    ensures of { result.0 ≡ scalar_type (scalar_view value.entry) }
    ensures number { result.1 ≡ number_in (scalar_view value.entry) }
    ensures text { result.2.now ≡ text_in (scalar_view value.entry) }
    ensures null { result.3 ≡ is_null (scalar_view value.entry) }
{
    let string = ElementType::Simple(Element::String);
    match value {
        Scalar::Number(of, number) => (ElementType::Simple(of), number, &[], false),
        Scalar::String(Some(text)) => (string, 0, text.as_bytes(), false),
        Scalar::String(None) => (string, 0, &[], true),
        Scalar::SystemType(Some(text)) => (ElementType::SystemType, 0, text.as_bytes(), false),
        Scalar::SystemType(None) => (ElementType::SystemType, 0, &[], true),
    }
}

/// An item with a value without its box.
fn of_scalar<'a>(kind: u8, name: &'a [u8], form: u8, value: Scalar<'a>) -> ClimAttributeItem<'a>
    ensures { fields_of result ≡ scalar_fields kind name.now form (scalar_view value.entry) }
{
    let (of, number, text, is_null) = parts_of(value);
    ClimAttributeItem {
        name,
        text,
        number,
        kind,
        form,
        of: code_of(of),
        is_null,
    }
}

/// An item with an element.
fn of_element<'a>(kind: u8, name: &'a [u8], value: Value<'a>) -> ClimAttributeItem<'a>
    ensures { fields_of result ≡ element_fields kind name.now (element_view value.entry) }
{
    match value {
        Value::Plain(value) => of_scalar(kind, name, PLAIN, value),
        Value::Boxed(value) => of_scalar(kind, name, BOXED, value),
    }
}

/// An item with an argument, without the elements of an array.
fn of_argument<'a>(kind: u8, name: &'a [u8], argument: Argument<'a>) -> ClimAttributeItem<'a>
    ensures { fields_of result ≡ head_fields kind name.now (head_view argument.entry) }
{
    match argument {
        Argument::One(value) => of_element(kind, name, value),
        Argument::Vector(of, count) => ClimAttributeItem {
            name,
            text: &[],
            number: u64::from(count.unwrap_or(0)),
            kind,
            form: ARRAY,
            of: code_of(of),
            is_null: count.is_none(),
        },
    }
}

/// The kind of a named argument.
fn member_kind(member: Member) -> u8
    ensures { result ≡ member_kind member }
{
    match member {
        Member::Field => FIELD,
        Member::Property => PROPERTY,
    }
}

/// An item as a C caller receives it.
pub(crate) fn reported<'a>(item: Item<'a>) -> ClimAttributeItem<'a>
    ensures { fields_of result ≡ item_fields (view item.entry) }
{
    match item {
        Item::Fixed(argument) => of_argument(FIXED, &[], argument),
        Item::Element(value) => of_element(ELEMENT, &[], value),
        Item::NamedCount(count) => ClimAttributeItem {
            name: &[],
            text: &[],
            number: u64::from(count),
            kind: NAMED_COUNT,
            form: 0,
            of: 0,
            is_null: false,
        },
        Item::Named(member, name, argument) => {
            of_argument(member_kind(member), name.as_bytes(), argument)
        }
    }
}
