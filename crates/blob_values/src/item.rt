use crate::types::ElementType;
use sig_grammar::Element;

/// A value of one element, without its box.
#[derive(Clone, Copy, Debug, PartialEq)]
pub enum Scalar<'a> {
    /// A truth value, a character or a number: its type, and its bytes as an unsigned number, lowest byte first.
    Number(Element, u64),
    /// A string; `None` is null.
    String(Option<&'a str>),
    /// The name of a type, in the notation of `System.Type`; `None` is null.
    SystemType(Option<&'a str>),
}

/// An element (II.23.3).
#[derive(Clone, Copy, Debug, PartialEq)]
pub enum Value<'a> {
    /// A value of the type that the argument has.
    Plain(Scalar<'a>),
    /// An object, which boxes this value.
    Boxed(Scalar<'a>),
}

/// An argument, without the elements of an array.
#[derive(Clone, Copy, Debug, PartialEq)]
pub enum Argument<'a> {
    /// One element.
    One(Value<'a>),
    /// An array: the type of its elements and their number; `None` is null. The elements follow as items of their own.
    Vector(ElementType, Option<u32>),
}

/// What a named argument sets.
#[derive(Clone, Copy, Debug, PartialEq, Eq)]
pub enum Member {
    /// FIELD: a field of the attribute.
    Field,
    /// PROPERTY: a property of the attribute.
    Property,
}

/// An item of a value.
#[derive(Clone, Copy, Debug, PartialEq)]
pub enum Item<'a> {
    /// The next fixed argument.
    Fixed(Argument<'a>),
    /// The next element of the array that came last.
    Element(Value<'a>),
    /// The number of named arguments. It follows the fixed arguments.
    NamedCount(u16),
    /// The next named argument.
    Named(Member, &'a str, Argument<'a>),
}
