ghost use Rattle.std.specs.Prelude.{◌≡◌, ℕ, List, None, OnOk};
ghost use Rattle.sig_grammar.specs.Syntax.{Body};
ghost use Rattle.sig_text.specs.Declares.{Declares, member_text};
ghost use Rattle.metadata.specs.Metadata.{Metadata};
ghost use Rattle.full_names.specs.Names.{Wrote};
ghost use Rattle.full_names.specs.TextEnd.{IsWhole};
ghost use Rattle.full_names.specs.RowNames.{IsRowNameBy};
ghost use Rattle.full_names.specs.Texts.{ArePiecesText};
ghost use Rattle.declarations.specs.Declarations.{AreLinksOf, AreParams, IsDeclaredPiece, IsMarshalOf, IsMemberOfClass, IsNameOf, IsPair, IsParamText, after_space, before_space, generic_rows};

use crate::descriptors::{write_after_space, write_before_space};
use crate::generics::write_generics;
use crate::params::{Params, write_spaced};
use full_names::{
    Limit, TextEnd, TextError, keep, keep_refusal, write_full_name_within, write_number,
    write_own_name, write_row_name, write_signed, write_text,
};
use navigation::ReadCells;
use sig_text::{MethodSink, TextSink, write_declaration};
use std::alloc::Global;
use std::fmt;
use table_schema::Token;
use type_heads::{FlagTable, write_flags};

/// What the declaration of a method, a property or a field has besides its signature.
#[derive(Clone, Copy)]
pub struct Declared<'s> {
    /// Its type, or its module.
    pub class: Token,
    /// Its name.
    pub name: &'s str,
    /// The first row of its parameters. Those of a property, and of a reference, have no rows.
    pub first: u32,
    /// The row after that of its last parameter.
    pub past: u32,
}

/// A sink for the declaration of a method, a property or a field.
#[derive(Drop)]
pub struct MethodText<'s, 'w, S: ReadCells, W, L> {
    alloc: Global,
    params: &'s Params<'s, S>,
    writer: &'w mut W,
    limit: &'s L,
    of: Declared<'s>,
    /// Why it takes no more, if it does not.
    pub ended: Option<TextEnd>,
}

impl<'s, 'w, S: ReadCells, W: fmt::Write, L: Limit<W>> MethodText<'s, 'w, S, W, L> {
    /// A sink that has not yet received a piece.
    pub fn new(
        alloc: Global,
        params: &'s Params<'s, S>,
        of: Declared<'s>,
        limit: &'s L,
        writer: &'w mut W,
    ) -> MethodText<'s, 'w, S, W, L>
        ensures params { result.params.now ≡ params.now }
        ensures same { result.writer.ghost_name ≡ writer.entry.ghost_name }
        ensures writer { result.writer.now ≡ writer.old }
        ensures of { result.of ≡ of.entry }
        ensures ended { result.ended ≡ None }
    {
        MethodText {
            alloc,
            params,
            writer,
            limit,
            of,
            ended: None,
        }
    }
}

impl<S: ReadCells, W: fmt::Write, L: Limit<W>> TextSink for MethodText<'_, '_, S, W, L> {
    ghost use Rattle.std.specs.Prelude.{◌≡◌, ℕ, List, false, true, is_some};
    ghost use Rattle.metadata.specs.Metadata.{Metadata};
    ghost use Rattle.full_names.specs.Names.{Wrote};
    ghost use Rattle.full_names.specs.TextEnd.{IsWhole};
    ghost use Rattle.declarations.specs.Declarations.{AreLinksOf, AreParams, IsDeclaredPiece, generic_rows};

    ghost refused = { λ s. is_some s.ended };

    ghost gives = { λ s piece taken t.
        (taken ≡ true → (t.ended ≡ s.ended) × (t.params.now ≡ s.params.now) × (t.of ≡ s.of) × (t.writer.ghost_name ≡ s.writer.ghost_name)
        × ((model : Metadata) → S.shows s.params.now.source.now model → AreLinksOf model s.params.now.links → AreParams model s.of.first s.of.past s.params.now.rows.items
        → Wrote W.write_str_gives s.writer.now (IsDeclaredPiece L.scopes model s.of.class s.of.name.now s.of.first s.of.past (generic_rows s.params.now.links) piece) t.writer.now))
        × (taken ≡ false → IsWhole t.ended → (t.writer.ghost_name ≡ s.writer.ghost_name)
        × ((text : List ℕ) → W.write_str_gives s.writer.now text t.writer.now)) };

    fn text(&mut self, text: &str) -> Option<()> {
        if self.limit.is_reached(self.writer) {
            self.ended = Some(TextEnd::Limit);
            return None;
        }
        let written = write_text(self.writer, text);
        keep_refusal(&mut self.ended, written)
    }

    fn number(&mut self, number: u32) -> Option<()> {
        let written = write_number(self.writer, number);
        keep_refusal(&mut self.ended, written)
    }

    fn signed(&mut self, value: i64) -> Option<()> {
        let written = write_signed(self.writer, value);
        keep_refusal(&mut self.ended, written)
    }

    fn name(&mut self, token: Token) -> Option<()> {
        let written = write_full_name_within(
            self.alloc,
            self.params.source,
            token,
            self.limit,
            self.writer,
        );
        keep(&mut self.ended, written)
    }
}

impl<S: ReadCells, W: fmt::Write, L: Limit<W>> MethodSink for MethodText<'_, '_, S, W, L> {
    fn method_name(&mut self) -> Option<()> {
        let written = write_marshalled_member(
            self.alloc,
            self.params,
            self.of,
            self.limit,
            self.writer,
        );
        keep(&mut self.ended, written)
    }

    fn generic_params(&mut self, count: u32) -> Option<()> {
        let written = write_generics(
            self.alloc,
            self.params.links,
            count,
            self.limit,
            self.writer,
        );
        keep(&mut self.ended, written)
    }

    fn param_flags(&mut self, position: u32) -> Option<()> {
        let written = write_flags(self.writer, FlagTable::Param, self.params.flags(position));
        keep_refusal(&mut self.ended, written)
    }

    fn param_name(&mut self, position: u32) -> Option<()> {
        let written = write_param(self.params, position, self.limit, self.writer);
        keep_refusal(&mut self.ended, written)
    }
}

/// Writes the name of a member after that of its type or its module.
fn write_member<S: ReadCells, W: fmt::Write, L: Limit<W>>(
    alloc: Global,
    source: &S,
    of: Declared<'_>,
    limit: &L,
    out: &mut W,
) -> Result<(), TextError>
    ensures { (model : Metadata) → S.shows source.now model
        → OnOk result (Wrote W.write_str_gives out.old (IsMemberOfClass L.scopes model of.entry.class of.entry.name.now) out.new) }
{
    write_row_name(alloc, source, of.class, limit, out)?;
    Ok(write_own_name(out, of.name, limit)?)
}

/// Writes the same after how the result is marshalled.
fn write_marshalled_member<S: ReadCells, W: fmt::Write, L: Limit<W>>(
    alloc: Global,
    params: &Params<'_, S>,
    of: Declared<'_>,
    limit: &L,
    out: &mut W,
) -> Result<(), TextError>
    ensures { (model : Metadata) → S.shows params.now.source.now model → (first past : ℕ) → AreParams model first past params.now.rows.items
        → OnOk result (Wrote W.write_str_gives out.old (IsPair (IsParamText (IsMarshalOf before_space) model first past 0) (IsMemberOfClass L.scopes model of.entry.class of.entry.name.now)) out.new) }
{
    write_before_space(out, params.descriptor(0), limit)?;
    write_member(alloc, params.source, of, limit, out)
}

/// Writes how a parameter is marshalled, and its name.
fn write_param<S: ReadCells, W: fmt::Write, L: Limit<W>>(
    params: &Params<'_, S>,
    position: u32,
    limit: &L,
    out: &mut W,
) -> fmt::Result
    ensures { (model : Metadata) → S.shows params.now.source.now model → (first past : ℕ) → AreParams model first past params.now.rows.items
        → OnOk result (Wrote W.write_str_gives out.old (IsPair (IsParamText (IsMarshalOf after_space) model first past position) (IsParamText IsNameOf model first past position)) out.new) }
{
    write_after_space(out, params.descriptor(position), limit)?;
    write_spaced(out, params.name(position), limit)
}

/// Puts the declaration of a method, a property or a field into its sink, from the bytes of its signature. Its type or its
/// module has a name.
pub fn put_declaration<S: ReadCells, W: fmt::Write, L: Limit<W>>(
    sink: &mut MethodText<'_, '_, S, W, L>,
    bytes: &[u8],
)
    ensures { (model : Metadata) → S.shows sink.old.params.now.source.now model → AreLinksOf model sink.old.params.now.links
        → (signature : Body) → Declares signature bytes.now
        → AreParams model sink.old.of.first sink.old.of.past sink.old.params.now.rows.items → (text : List ℕ) → IsRowNameBy L.scopes model sink.old.of.class text
        → sink.old.ended ≡ None → IsWhole sink.new.ended
        → (sink.new.writer.ghost_name ≡ sink.old.writer.ghost_name) × Wrote W.write_str_gives sink.old.writer.now
        (ArePiecesText (IsDeclaredPiece L.scopes model sink.old.of.class sink.old.of.name.now sink.old.of.first sink.old.of.past (generic_rows sink.old.params.now.links)) (member_text signature))
        sink.new.writer.now }
{
    sink.params.source.holds_one();
    let _ = write_declaration(sink, bytes);
}
