ghost use Rattle.std.specs.Prelude.{◌≡◌, ◌∷◌, List, [], is_some};
ghost use Rattle.sig_grammar.specs.Syntax.{Body};
ghost use Rattle.sig_text.specs.Declares.{Declares, member_text};
ghost use Rattle.sig_text.specs.Receives.{Receives};
ghost use Rattle.sig_text.specs.Refused.{refused_after};
ghost use Rattle.sig_text.specs.Shown.{core_shown, named_slots_shown, declared_shown, member_shown};
ghost use Rattle.sig_text.specs.SignatureText.{Piece, method_name, generic_params, generics_text, param_flags, param_name};
ghost use Rattle.sig_text.specs.Wrote.{Wrote};

use crate::head::{byte, generic, number, sentinel};
use crate::sink::TextSink;
use crate::types::{convention, slot};
use crate::words::{put_if, put_text, result_of};
use sig_grammar::DEPTH_LIMIT;

/// The first byte of the signature of a field (II.23.2.4).
const FIELD: u8 = 0x06;

/// A sink that also knows the name of one method, property or field, its generic parameters, and the flags and the names of its
/// parameters.
pub trait MethodSink: TextSink {
    ghost use Rattle.std.specs.Prelude.{◌≡◌, is_some};
    ghost use Rattle.sig_text.specs.Refused.{refused_after};
    ghost use Rattle.sig_text.specs.SignatureText.{method_name as method_piece, generic_params as generics_piece, param_flags as flags_piece, param_name as param_piece};

    /// The name of the method, the property or the field.
    fn method_name(&mut self) -> Option<()>
        ensures refusal { Self.refused self.new ≡ refused_after result (Self.refused self.old) }
        ensures piece { Self.gives self.old method_piece (is_some result) self.new };

    /// The generic parameters of the method, in brackets, or their number.
    fn generic_params(&mut self, count: u32) -> Option<()>
        ensures refusal { Self.refused self.new ≡ refused_after result (Self.refused self.old) }
        ensures piece { Self.gives self.old (generics_piece count) (is_some result) self.new };

    /// The flags of a parameter, by its position from 1 on, each with a space after it. The positions come in ascending
    /// order.
    fn param_flags(&mut self, position: u32) -> Option<()>
        ensures refusal { Self.refused self.new ≡ refused_after result (Self.refused self.old) }
        ensures piece { Self.gives self.old (flags_piece position) (is_some result) self.new };

    /// A space and the name of a parameter, by its position from 1 on; nothing if it has no name. The positions come
    /// in ascending order.
    fn param_name(&mut self, position: u32) -> Option<()>
        ensures refusal { Self.refused self.new ≡ refused_after result (Self.refused self.old) }
        ensures piece { Self.gives self.old (param_piece position) (is_some result) self.new };
}

/// Writes the name of the method, the property or the field.
#[tactic(auto, using(crate::proofs::Chains::one, crate::proofs::Chains::shut))]
fn put_method_name<S: MethodSink>(sink: &mut S, taken: &mut bool)
    ensures { Wrote S.refused S.gives sink.old taken.old (method_name ∷ []) sink.new taken.new }
{
    if *taken {
        *taken = sink.method_name().is_some();
    }
}

/// Writes the generic parameters of the method.
#[tactic(auto, using(crate::proofs::Chains::one, crate::proofs::Chains::shut))]
fn put_generic_params<S: MethodSink>(sink: &mut S, taken: &mut bool, count: u32)
    ensures { Wrote S.refused S.gives sink.old taken.old (generic_params count ∷ []) sink.new taken.new }
{
    if *taken {
        *taken = sink.generic_params(count).is_some();
    }
}

/// Writes the generic parameters of the method, if it is generic.
#[tactic(auto, using(crate::proofs::Chains::silent))]
fn generics<S: MethodSink>(sink: &mut S, taken: &mut bool, generic: Option<u32>)
    ensures { Wrote S.refused S.gives sink.old taken.old (generics_text generic) sink.new taken.new }
{
    match generic {
        None => {}
        Some(count) => put_generic_params(sink, taken, count),
    }
}

/// Writes the flags of a parameter.
#[tactic(auto, using(crate::proofs::Chains::one, crate::proofs::Chains::shut))]
fn put_param_flags<S: MethodSink>(sink: &mut S, taken: &mut bool, position: u32)
    ensures { Wrote S.refused S.gives sink.old taken.old (param_flags position ∷ []) sink.new taken.new }
{
    if *taken {
        *taken = sink.param_flags(position).is_some();
    }
}

/// Writes the name of a parameter.
#[tactic(auto, using(crate::proofs::Chains::one, crate::proofs::Chains::shut))]
fn put_param_name<S: MethodSink>(sink: &mut S, taken: &mut bool, position: u32)
    ensures { Wrote S.refused S.gives sink.old taken.old (param_name position ∷ []) sink.new taken.new }
{
    if *taken {
        *taken = sink.param_name(position).is_some();
    }
}

/// Writes `count` parameters, each with its flags and its name, with SENTINEL if it is found.
fn params<S: MethodSink>(sink: &mut S, taken: &mut bool, bytes: &[u8], count: u32)
    ensures { Wrote S.refused S.gives sink.old taken.old (named_slots_shown (core_shown 128) [] 1 count bytes.now) sink.new taken.new }
{
    let mut tail = bytes;
    for done in 0..count {
        if !*taken {
            return;
        }
        put_if(sink, taken, done > 0, ", ");
        let (found, behind) = sentinel(tail);
        put_if(sink, taken, found, "..., ");
        put_param_flags(sink, taken, done + 1);
        tail = slot(sink, taken, behind, DEPTH_LIMIT);
        put_param_name(sink, taken, done + 1);
    }
}

/// Writes the bytes of a method or a property as it is declared.
fn declaration<S: MethodSink>(sink: &mut S, taken: &mut bool, bytes: &[u8])
    ensures { Wrote S.refused S.gives sink.old taken.old (declared_shown (core_shown 128) bytes.now) sink.new taken.new }
{
    let (code, tail) = byte(bytes);
    let (generic, tail) = generic(code, tail);
    let (count, tail) = number(tail);
    convention(sink, taken, code);
    let tail = slot(sink, taken, tail, DEPTH_LIMIT);
    put_text(sink, taken, " ");
    put_method_name(sink, taken);
    generics(sink, taken, generic);
    put_text(sink, taken, "(");
    params(sink, taken, tail, count);
    put_text(sink, taken, ")");
}

/// Writes the bytes of a method or a property as it is declared, or of a field as its type and its name.
#[tactic(auto, unfolding(crate::specs::Shown::member_shown))]
fn member<S: MethodSink>(sink: &mut S, taken: &mut bool, bytes: &[u8])
    ensures { Wrote S.refused S.gives sink.old taken.old (member_shown (core_shown 128) bytes.now) sink.new taken.new }
{
    let (code, tail) = byte(bytes);
    if code != FIELD {
        declaration(sink, taken, bytes);
        return;
    }
    slot(sink, taken, tail, DEPTH_LIMIT);
    put_text(sink, taken, " ");
    put_method_name(sink, taken);
}

/// Writes what all the bytes together encode, as it is declared: a method or a property (II.15.3, II.17, II.23.2.1,
/// II.23.2.5), with its calling convention, its result or its type, its name, its generic parameters, and its parameters with their flags and
/// names; or what a MemberRef refers to (II.22.25), a method with `...` before its variable arguments, or a field, with its
/// type and its name.
///
/// `instance void Name<T>(!!0 first, [out] int32&)` is a generic method of an instance, whose second parameter has no
/// name. The bytes are not checked: if they encode none of these, it is not specified which pieces the sink receives.
///
/// # Errors
///
/// `None` if and only if the sink refused a word.
pub fn write_declaration<S: MethodSink>(sink: &mut S, bytes: &[u8]) -> Option<()>
    ensures words { S.refused sink.new ≡ refused_after result (S.refused sink.old) }
    ensures text { (signature : Body) → Declares signature bytes.now → Receives S.gives sink.old (member_text signature) (is_some result) sink.new }
    ensures pieces { (pieces : List Piece) × Receives S.gives sink.old pieces (is_some result) sink.new }
{
    packed::laws::numbers_are_read();
    sig_grammar::laws::indexes_are_read();
    let mut taken = true;
    member(sink, &mut taken, bytes);
    result_of(taken)
}
