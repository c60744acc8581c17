//! The bytes of items, each number and each type index in its shortest form (II.23.2).
ghost use Rattle.std.specs.Prelude.{◌≡◌, ◌^◌, ◌<◌, ◌≤◌, ◌++◌, ◌∷◌, [], OnOk};
ghost use Rattle.std.specs.List.{AllByRecursion};
ghost use Rattle.sig_grammar.specs.Parts.{byte, number, index, HasEncoding};
ghost use Rattle.sig_grammar.specs.Grammar.{flag, generic_parts, method_code, modifier_parts, named_code};
ghost use Rattle.sig_items.specs.declared.item.Item.TheVariants as item;
ghost use Rattle.sig_items.specs.ItemParts.{convention_code, encoded_item, item_parts, short_parts, HasItemEncoding};

use crate::item::{Item, MethodHead};
use packed::{put_signed, put_unsigned};
use sig_grammar::element_type::{
    ARRAY, BYREF, CLASS, CMOD_OPT, CMOD_REQD, FNPTR, GENERICINST, MVAR, PINNED, PTR, SENTINEL,
    SZARRAY, TYPEDBYREF, VALUETYPE, VAR, VOID,
};
use sig_grammar::method_byte::{EXPLICITTHIS, GENERIC, HASTHIS};
use sig_grammar::{CallingConvention, Modifier};
use std::alloc::AllocError;
use table_schema::{Coded, Token, join};

/// The first byte of a field (II.23.2.4).
const FIELD: u8 = 0x06;

/// The first byte of local variables (II.23.2.6).
const LOCALS: u8 = 0x07;

/// The first byte of a property that belongs to no instance (II.23.2.5).
const PROPERTY: u8 = 0x08;

/// The first byte of the type arguments of a generic method (II.23.2.15).
const ARGUMENTS: u8 = 0x0A;

/// The calling convention in the first byte of a method.
fn convention_bits(convention: CallingConvention) -> u8
    ensures code { result ≡ convention_code convention }
    ensures few { result ≤ 9 }
{
    match convention {
        CallingConvention::Default => 0,
        CallingConvention::C => 1,
        CallingConvention::StdCall => 2,
        CallingConvention::ThisCall => 3,
        CallingConvention::FastCall => 4,
        CallingConvention::VarArg => 5,
        CallingConvention::Unmanaged => 9,
    }
}

/// A bit of a first byte: the mask if it is set, else 0.
fn bit(set: bool, mask: u8) -> u8
    ensures flag { result ≡ flag set mask }
    ensures few { result ≤ mask }
{
    if set { mask } else { 0 }
}

/// The first byte of a method (II.23.2.1).
fn first_byte(head: MethodHead) -> u8
    ensures { result ≡ method_code (convention_code head.convention) head.this head.explicit head.generic }
{
    convention_bits(head.convention)
        + bit(head.generic.is_some(), GENERIC)
        + bit(head.this, HASTHIS)
        + bit(head.explicit, EXPLICITTHIS)
}

/// Appends a byte.
fn put_byte(bytes: &mut Vec<u8>, code: u8) -> Result<(), AllocError>
    ensures { OnOk result (bytes.new.items ≡ bytes.old.items ++ short_parts (byte code ∷ [])) }
{
    Ok(bytes.push(code)?)
}

/// Appends a number.
fn put_number(bytes: &mut Vec<u8>, count: u32) -> Result<(), AllocError>
    requires { count < 2 ^ 29 }
    ensures { OnOk result (bytes.new.items ≡ bytes.old.items ++ short_parts (number count ∷ [])) }
{
    put_unsigned(bytes, count)
}

/// Appends a byte and a number.
fn put_counted(bytes: &mut Vec<u8>, code: u8, count: u32) -> Result<(), AllocError>
    requires { count < 2 ^ 29 }
    ensures { OnOk result (bytes.new.items ≡ bytes.old.items ++ short_parts (byte code ∷ number count ∷ [])) }
{
    put_byte(bytes, code)?;
    put_number(bytes, count)
}

/// Appends a byte and the index of a row of TypeDef, TypeRef or TypeSpec (II.23.2.8).
fn put_indexed(bytes: &mut Vec<u8>, code: u8, of: Token) -> Result<(), AllocError>
    requires { HasEncoding (index of) }
    ensures { OnOk result (bytes.new.items ≡ bytes.old.items ++ short_parts (byte code ∷ index of ∷ [])) }
{
    match join(Coded::TypeDefOrRef, of.table, of.row) {
        Some(number) => put_counted(bytes, code, number),
        None => unreachable!(),
    }
}

/// Appends a modifier (II.23.2.7).
fn put_modifier(bytes: &mut Vec<u8>, modifier: Modifier) -> Result<(), AllocError>
    requires { HasEncoding (index modifier.of) }
    ensures { OnOk result (bytes.new.items ≡ bytes.old.items ++ short_parts (modifier_parts modifier)) }
{
    let code = if modifier.required {
        CMOD_REQD
    } else {
        CMOD_OPT
    };
    put_indexed(bytes, code, modifier.of)
}

/// Appends the number of generic parameters, if the method is generic.
fn put_generic(bytes: &mut Vec<u8>, generic: Option<u32>) -> Result<(), AllocError>
    requires { AllByRecursion HasEncoding (generic_parts generic) }
    ensures { OnOk result (bytes.new.items ≡ bytes.old.items ++ short_parts (generic_parts generic)) }
{
    match generic {
        Some(count) => put_number(bytes, count),
        None => Ok(()),
    }
}

/// Appends the head of a method (II.23.2.1 to II.23.2.3).
fn put_method(bytes: &mut Vec<u8>, head: MethodHead) -> Result<(), AllocError>
    requires { HasItemEncoding (item.Method head) }
    ensures { OnOk result (bytes.new.items ≡ bytes.old.items ++ encoded_item (item.Method head)) }
{
    put_byte(bytes, first_byte(head))?;
    put_generic(bytes, head.generic)?;
    put_number(bytes, head.params)
}

/// The byte that says whether a generic type is a value type or a class.
fn named_byte(value: bool) -> u8
    ensures { result ≡ named_code value }
{
    if value { VALUETYPE } else { CLASS }
}

/// Appends the head of an instance of a generic type (II.23.2.12).
fn put_instance(bytes: &mut Vec<u8>, value: bool, of: Token, args: u32) -> Result<(), AllocError>
    requires index { HasEncoding (index of) }
    requires args { args < 2 ^ 29 }
    ensures { OnOk result (bytes.new.items ≡ bytes.old.items ++ encoded_item (item.Instance value of args)) }
{
    put_byte(bytes, GENERICINST)?;
    put_indexed(bytes, named_byte(value), of)?;
    put_number(bytes, args)
}

/// Appends the rank of an array and the number of its sizes (II.23.2.13).
fn put_shape(bytes: &mut Vec<u8>, rank: u32, sizes: u32) -> Result<(), AllocError>
    requires rank { rank < 2 ^ 29 }
    requires sizes { sizes < 2 ^ 29 }
    ensures { OnOk result (bytes.new.items ≡ bytes.old.items ++ encoded_item (item.Shape rank sizes)) }
{
    put_number(bytes, rank)?;
    put_number(bytes, sizes)
}

/// Appends an item that has an encoding: its bytes, with each number and each type index in its shortest form (II.23.2).
/// The items of a signature, one after another, are its canonical encoding.
///
/// # Errors
///
/// Out of memory only. A part of the item may have been appended then.
pub fn put_item(bytes: &mut Vec<u8>, item: Item) -> Result<(), AllocError>
    requires { HasItemEncoding item }
    ensures { OnOk result (bytes.new.items ≡ bytes.old.items ++ encoded_item item) }
{
    match item {
        Item::Field => put_byte(bytes, FIELD),
        Item::Method(head) => put_method(bytes, head),
        Item::Property { this, params } => {
            put_counted(bytes, PROPERTY + bit(this, HASTHIS), params)
        }
        Item::Locals(count) => put_counted(bytes, LOCALS, count),
        Item::Arguments(count) => put_counted(bytes, ARGUMENTS, count),
        Item::Modifier(modifier) => put_modifier(bytes, modifier),
        Item::Pinned => put_byte(bytes, PINNED),
        Item::Sentinel => put_byte(bytes, SENTINEL),
        Item::Void => put_byte(bytes, VOID),
        Item::TypedRef => put_byte(bytes, TYPEDBYREF),
        Item::ByRef => put_byte(bytes, BYREF),
        Item::Simple(element) => put_byte(bytes, element.byte()),
        Item::Pointer => put_byte(bytes, PTR),
        Item::Vector => put_byte(bytes, SZARRAY),
        Item::Array => put_byte(bytes, ARRAY),
        Item::Class(of) => put_indexed(bytes, CLASS, of),
        Item::Value(of) => put_indexed(bytes, VALUETYPE, of),
        Item::Var(number) => put_counted(bytes, VAR, number),
        Item::MVar(number) => put_counted(bytes, MVAR, number),
        Item::Instance { value, of, args } => put_instance(bytes, value, of, args),
        Item::Function => put_byte(bytes, FNPTR),
        Item::Shape { rank, sizes } => put_shape(bytes, rank, sizes),
        Item::Size(size) => put_number(bytes, size),
        Item::LowBounds(count) => put_number(bytes, count),
        Item::LowBound(bound) => put_signed(bytes, bound),
    }
}
