ghost use Rattle.std.specs.Prelude.{◌≡◌, ◌==◌, []};
ghost use Rattle.sig_text.specs.Shown.{word_shown, named_shown, parameter_shown, by_ref_shown, content_shown, slot_shown, listed_shown, enclosed_shown, instance_shown, code_text, method_shown, after_element_shown, around_shown, code_shown, core_shown};
ghost use Rattle.sig_text.specs.SignatureText.{element_text, kind_text, convention_text, arity_text};
ghost use Rattle.sig_text.specs.Wrote.{Wrote, Passes};

use crate::head::{byte, generic, index, number, sentinel};
use crate::marks::{behind_all, marks};
use crate::shape::shape;
use crate::sink::TextSink;
use crate::words::{put_if, put_name, put_number, put_text};
use sig_grammar::element_type::{
    ARRAY, BYREF, CLASS, FNPTR, GENERICINST, MVAR, PTR, SZARRAY, TYPEDBYREF, VALUETYPE, VAR, VOID,
};
use sig_grammar::method_byte::{has_explicit_this, has_this};
use sig_grammar::{CallingConvention, Element};

/// The name of a type that is encoded as one byte (II.7.1).
#[tactic(auto, unfolding(crate::specs::SignatureText::element_text))]
pub fn element_name(element: Element) -> &'static str
    ensures { result.now ≡ element_text element }
{
    match element {
        Element::Boolean => "bool",
        Element::Char => "char",
        Element::I1 => "int8",
        Element::U1 => "unsigned int8",
        Element::I2 => "int16",
        Element::U2 => "unsigned int16",
        Element::I4 => "int32",
        Element::U4 => "unsigned int32",
        Element::I8 => "int64",
        Element::U8 => "unsigned int64",
        Element::R4 => "float32",
        Element::R8 => "float64",
        Element::String => "string",
        Element::I => "native int",
        Element::U => "native unsigned int",
        Element::Object => "object",
    }
}

/// Writes a word, and returns the remaining bytes.
fn word<'a, S: TextSink>(sink: &mut S, taken: &mut bool, text: &str, bytes: &'a [u8]) -> &'a [u8]
    ensures { Passes S.refused S.gives sink.old taken.old (word_shown text.now bytes.now) sink.new taken.new result.now }
{
    put_text(sink, taken, text);
    bytes
}

/// The word before the name of a class or a value type, by its first byte.
fn kind_word(code: u8) -> &'static str
    ensures { result.now ≡ kind_text (code == 0x11) }
{
    if code == VALUETYPE {
        "valuetype "
    } else {
        "class "
    }
}

/// Writes a class or a value type by its type index, and returns the remaining bytes.
fn named<'a, S: TextSink>(sink: &mut S, taken: &mut bool, code: u8, bytes: &'a [u8]) -> &'a [u8]
    ensures { Passes S.refused S.gives sink.old taken.old (named_shown code bytes.now) sink.new taken.new result.now }
{
    put_text(sink, taken, kind_word(code));
    let (of, tail) = index(bytes);
    put_name(sink, taken, of);
    tail
}

/// Writes a generic parameter after its mark, and returns the remaining bytes.
fn parameter<'a, S: TextSink>(
    sink: &mut S,
    taken: &mut bool,
    mark: &str,
    bytes: &'a [u8],
) -> &'a [u8]
    ensures { Passes S.refused S.gives sink.old taken.old (parameter_shown mark.now bytes.now) sink.new taken.new result.now }
{
    let (count, tail) = number(bytes);
    put_text(sink, taken, mark);
    put_number(sink, taken, count);
    tail
}

/// Writes a type, a parameter, a result or a local variable with its modifiers, and returns the remaining bytes.
#[cycle(text)]
pub fn slot<'a, S: TextSink>(sink: &mut S, taken: &mut bool, bytes: &'a [u8], depth: u8) -> &'a [u8]
    ensures { Passes S.refused S.gives sink.old taken.old (slot_shown (core_shown depth) bytes.now) sink.new taken.new result.now }
{
    let (count, inner) = behind_all(bytes);
    let tail = content(sink, taken, inner, depth);
    marks(sink, taken, bytes, count);
    tail
}

/// Writes what follows modifiers: a type, or a reference to a type with its own modifiers.
#[cycle(text)]
#[tactic(auto, unfolding(crate::specs::Shown::content_shown))]
fn content<'a, S: TextSink>(sink: &mut S, taken: &mut bool, bytes: &'a [u8], depth: u8) -> &'a [u8]
    ensures { Passes S.refused S.gives sink.old taken.old (content_shown (core_shown depth) bytes.now) sink.new taken.new result.now }
{
    let (code, tail) = byte(bytes);
    if code == BYREF {
        return by_ref(sink, taken, tail, depth);
    }
    core(sink, taken, code, tail, depth)
}

/// Writes a reference after its first byte, and returns the remaining bytes.
#[cycle(text)]
fn by_ref<'a, S: TextSink>(sink: &mut S, taken: &mut bool, bytes: &'a [u8], depth: u8) -> &'a [u8]
    ensures { Passes S.refused S.gives sink.old taken.old (by_ref_shown (core_shown depth) bytes.now) sink.new taken.new result.now }
{
    let (marked, inner) = behind_all(bytes);
    let (code, tail) = byte(inner);
    let tail = core(sink, taken, code, tail, depth);
    marks(sink, taken, bytes, marked);
    put_text(sink, taken, "&");
    tail
}

/// Writes a type after its first byte, and returns the remaining bytes. The types in it have a smaller depth left.
#[cycle(text)]
#[tactic(auto, using(crate::proofs::Arms::core_none, crate::proofs::Arms::core_element, crate::proofs::Arms::core_code, crate::proofs::Chains::pieces_only, crate::proofs::Chains::silent))]
fn core<'a, S: TextSink>(
    sink: &mut S,
    taken: &mut bool,
    code: u8,
    bytes: &'a [u8],
    depth: u8,
) -> &'a [u8]
    ensures { Passes S.refused S.gives sink.old taken.old (core_shown depth code bytes.now) sink.new taken.new result.now }
{
    if depth == 0 {
        return bytes;
    }
    match Element::from_byte(code) {
        Some(element) => word(sink, taken, element_name(element), bytes),
        None => coded(sink, taken, code, bytes, depth - 1),
    }
}

/// Writes a type of more than one byte after its first byte, and returns the remaining bytes. `depth` is left for the
/// types in it.
#[cycle(text)]
#[tactic(auto, unfolding(crate::specs::Shown::code_shown))]
fn coded<'a, S: TextSink>(
    sink: &mut S,
    taken: &mut bool,
    code: u8,
    bytes: &'a [u8],
    depth: u8,
) -> &'a [u8]
    ensures { Passes S.refused S.gives sink.old taken.old (code_shown (core_shown depth) code bytes.now) sink.new taken.new result.now }
{
    match code {
        CLASS => named(sink, taken, code, bytes),
        VALUETYPE => named(sink, taken, code, bytes),
        VAR => parameter(sink, taken, "!", bytes),
        MVAR => parameter(sink, taken, "!!", bytes),
        VOID => word(sink, taken, "void", bytes),
        TYPEDBYREF => word(sink, taken, "typedref", bytes),
        FNPTR => method(sink, taken, bytes, depth),
        GENERICINST => instance(sink, taken, bytes, depth),
        _ => around(sink, taken, code, bytes, depth),
    }
}

/// Writes a pointer to a type, or an array of a type, and returns the remaining bytes.
#[cycle(text)]
fn around<'a, S: TextSink>(
    sink: &mut S,
    taken: &mut bool,
    code: u8,
    bytes: &'a [u8],
    depth: u8,
) -> &'a [u8]
    ensures { Passes S.refused S.gives sink.old taken.old (around_shown (core_shown depth) code bytes.now) sink.new taken.new result.now }
{
    let tail = slot(sink, taken, bytes, depth);
    after_element(sink, taken, code, tail)
}

/// Writes what follows the target of a pointer or the element of an array, and returns the remaining bytes.
#[tactic(auto, using(crate::proofs::Chains::pieces_only, crate::proofs::Chains::silent), unfolding(crate::specs::Shown::after_element_shown))]
fn after_element<'a, S: TextSink>(
    sink: &mut S,
    taken: &mut bool,
    code: u8,
    bytes: &'a [u8],
) -> &'a [u8]
    ensures { Passes S.refused S.gives sink.old taken.old (after_element_shown code bytes.now) sink.new taken.new result.now }
{
    match code {
        PTR => word(sink, taken, "*", bytes),
        SZARRAY => word(sink, taken, "[]", bytes),
        ARRAY => shape(sink, taken, bytes),
        _ => bytes,
    }
}

/// Writes `count` types or parameters, with SENTINEL if it is found, and returns the remaining bytes.
#[cycle(text)]
fn listed<'a, S: TextSink>(
    sink: &mut S,
    taken: &mut bool,
    bytes: &'a [u8],
    count: u32,
    depth: u8,
) -> &'a [u8]
    ensures { Passes S.refused S.gives sink.old taken.old (listed_shown (core_shown depth) [] count bytes.now) sink.new taken.new result.now }
{
    let mut tail = bytes;
    for done in 0..count {
        if !*taken {
            return tail;
        }
        put_if(sink, taken, done > 0, ", ");
        let (found, behind) = sentinel(tail);
        put_if(sink, taken, found, "..., ");
        tail = slot(sink, taken, behind, depth);
    }
    tail
}

/// Writes `count` types or parameters between two marks, and returns the remaining bytes.
#[cycle(text)]
pub fn enclosed<'a, S: TextSink>(
    sink: &mut S,
    taken: &mut bool,
    bytes: &'a [u8],
    count: u32,
    first: &str,
    last: &str,
    depth: u8,
) -> &'a [u8]
    ensures { Passes S.refused S.gives sink.old taken.old (enclosed_shown (core_shown depth) first.now last.now count bytes.now) sink.new taken.new result.now }
{
    put_text(sink, taken, first);
    let tail = listed(sink, taken, bytes, count, depth);
    put_text(sink, taken, last);
    tail
}

/// Writes an instance of a generic type, and returns the remaining bytes.
#[cycle(text)]
fn instance<'a, S: TextSink>(sink: &mut S, taken: &mut bool, bytes: &'a [u8], depth: u8) -> &'a [u8]
    ensures { Passes S.refused S.gives sink.old taken.old (instance_shown (core_shown depth) bytes.now) sink.new taken.new result.now }
{
    let (code, tail) = byte(bytes);
    let tail = named(sink, taken, code, tail);
    let (count, tail) = number(tail);
    enclosed(sink, taken, tail, count, "<", ">", depth)
}

/// The words of a calling convention (II.15.3), each with a space after it.
#[tactic(auto, unfolding(crate::specs::SignatureText::convention_text))]
fn convention_name(convention: CallingConvention) -> &'static str
    ensures { result.now ≡ convention_text convention }
{
    match convention {
        CallingConvention::Default => "",
        CallingConvention::C => "unmanaged cdecl ",
        CallingConvention::StdCall => "unmanaged stdcall ",
        CallingConvention::ThisCall => "unmanaged thiscall ",
        CallingConvention::FastCall => "unmanaged fastcall ",
        CallingConvention::VarArg => "vararg ",
        CallingConvention::Unmanaged => "unmanaged ",
    }
}

/// Writes the calling convention in the first byte of a method (II.15.3).
pub fn convention<S: TextSink>(sink: &mut S, taken: &mut bool, code: u8)
    ensures { Wrote S.refused S.gives sink.old taken.old (code_text code) sink.new taken.new }
{
    put_if(sink, taken, has_this(code), "instance ");
    put_if(sink, taken, has_explicit_this(code), "explicit ");
    put_text(
        sink,
        taken,
        convention_name(CallingConvention::in_first_byte(code)),
    );
}

/// Writes the number of generic parameters, if the method that is pointed to is generic.
fn arity<S: TextSink>(sink: &mut S, taken: &mut bool, generic: Option<u32>)
    ensures { Wrote S.refused S.gives sink.old taken.old (arity_text generic) sink.new taken.new }
{
    match generic {
        None => {}
        Some(count) => {
            put_text(sink, taken, "<[");
            put_number(sink, taken, count);
            put_text(sink, taken, "]>");
        }
    }
}

/// Writes a method (II.15.3), and returns the remaining bytes.
#[cycle(text)]
pub fn method<'a, S: TextSink>(
    sink: &mut S,
    taken: &mut bool,
    bytes: &'a [u8],
    depth: u8,
) -> &'a [u8]
    ensures { Passes S.refused S.gives sink.old taken.old (method_shown (core_shown depth) bytes.now) sink.new taken.new result.now }
{
    let (code, tail) = byte(bytes);
    let (generic, tail) = generic(code, tail);
    let (count, tail) = number(tail);
    put_text(sink, taken, "method ");
    convention(sink, taken, code);
    let tail = slot(sink, taken, tail, depth);
    put_text(sink, taken, " *");
    arity(sink, taken, generic);
    enclosed(sink, taken, tail, count, "(", ")", depth)
}
