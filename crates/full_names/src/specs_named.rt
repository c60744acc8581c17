ghost use Rattle.std.specs.Prelude.{◌≡◌, ◌≤◌, OnOk};
ghost use Rattle.table_schema.specs.declared.table.TableId.TheVariants.{TypeDef, TypeRef, TypeSpec};
ghost use Rattle.sig_grammar.specs.Syntax.{Body};
ghost use Rattle.metadata.specs.Cell.{Sig};
ghost use Rattle.metadata.specs.Metadata.{Metadata, cell_in};
ghost use Rattle.full_names.specs.Names.{IsTypeDefText, IsTypeRefText, Wrote};
ghost use Rattle.full_names.specs.Scopes.{IsTypeRefName};
ghost use Rattle.full_names.specs.Texts.{IsFullName, IsFullNameBy, IsTypeSpecText};

use crate::inner_names::InnerNames;
use crate::limit::{Limit, NoLimit};
use crate::names::{DEPTH, write_type_def_within};
use crate::parts::write_left_out;
use crate::scopes::write_type_ref_name;
use crate::signature_bytes::bytes_of;
use crate::signature_text::write_signature;
use crate::text_error::TextError;
use navigation::ReadCells;
use sig_text::TokenNames;
use std::alloc::Global;
use std::fmt;
use table_schema::{SigKind, TableId, Token};

/// The cell of the signature of a TypeSpec (II.22.39).
const TYPE_SIGNATURE: usize = 0;

/// The names of types, for the texts of signatures.
#[derive(Drop)]
pub struct FullNames<'s, S> {
    /// For the bytes of TypeSpecs that are held as values.
    pub alloc: Global,
    /// The metadata of the types.
    pub source: &'s S,
}

impl<S: ReadCells> TokenNames for FullNames<'_, S> {
    /// Writes the name as [`write_full_name`] does.
    ///
    /// # Errors
    ///
    /// The writer refused a part of the name, or out of memory.
    fn write_name<W: fmt::Write>(&self, token: Token, writer: &mut W) -> fmt::Result {
        match write_full_name(self.alloc, self.source, token, writer) {
            Ok(()) => Ok(()),
            Err(_) => Err(fmt::Error),
        }
    }
}

/// Writes the name of a type in the notation of ILAsm (II.5.3, II.7.2): `Namespace.Outer/Inner` of a row of TypeDef or
/// TypeRef, and the type itself of a row of TypeSpec.
///
/// Names are quoted as [`write_name`](crate::write_name) does, so that a reader sees where each ends. Up to [`DEPTH`] types of a chain are
/// written, and `..` before them if there are more. `..` stands for a TypeSpec in the text of a TypeSpec, too, and for a
/// token that names no type. A TypeRef is written without its assembly.
///
/// Of a TypeDef it looks up at most [`DEPTH`] enclosing types, each by binary search. If NestedClass is not in the order of
/// its key (II.22), a type is written without those that enclose it. It allocates only the bytes of a TypeSpec that is held
/// as a value, so nothing of a view.
///
/// # Errors
///
/// `Writer` if the writer refused a part of the name. `Memory` if out of memory.
pub fn write_full_name<S: ReadCells, W: fmt::Write>(
    alloc: Global,
    source: &S,
    token: Token,
    out: &mut W,
) -> Result<(), TextError>
    ensures type_def { (model : Metadata) → S.shows source.now model → token.table ≡ TypeDef → 1 ≤ token.row → token.row ≤ S.row_count source.now TypeDef
        → OnOk result (Wrote W.write_str_gives out.old (IsTypeDefText model 64 token.row) out.new) }
    ensures type_ref { (model : Metadata) → S.shows source.now model → token.table ≡ TypeRef → 1 ≤ token.row → token.row ≤ S.row_count source.now TypeRef
        → OnOk result (Wrote W.write_str_gives out.old (IsTypeRefText model 64 token.row) out.new) }
    // The text of each token, also of a TypeSpec.
    ensures name { (model : Metadata) → S.shows source.now model → OnOk result (Wrote W.write_str_gives out.old (IsFullName model token) out.new) }
{
    write_full_name_within(alloc, source, token, &NoLimit, out)
}

/// Writes the name of a type as [`write_full_name`] does, up to a limit: when it is reached, the names of enclosing types
/// and what follows in a TypeSpec are passed over. If the limit says so, the name of a TypeRef begins with the scope of the
/// outermost type (II.7.3), also within a TypeSpec; this module is no scope, and neither is null or one after [`DEPTH`] types.
///
/// # Errors
///
/// `Writer` if the writer refused a part of the name. `Memory` if out of memory.
pub fn write_full_name_within<S: ReadCells, W: fmt::Write, L: Limit<W>>(
    alloc: Global,
    source: &S,
    token: Token,
    limit: &L,
    out: &mut W,
) -> Result<(), TextError>
    ensures type_def { (model : Metadata) → S.shows source.now model → token.table ≡ TypeDef → 1 ≤ token.row → token.row ≤ S.row_count source.now TypeDef
        → OnOk result (Wrote W.write_str_gives out.old (IsTypeDefText model 64 token.row) out.new) }
    ensures type_ref { (model : Metadata) → S.shows source.now model → token.table ≡ TypeRef → 1 ≤ token.row → token.row ≤ S.row_count source.now TypeRef
        → OnOk result (Wrote W.write_str_gives out.old (IsTypeRefName L.scopes model token.row) out.new) }
    ensures name { (model : Metadata) → S.shows source.now model → OnOk result (Wrote W.write_str_gives out.old (IsFullNameBy L.scopes model token) out.new) }
{
    source.holds_one();
    if token.row == 0 || token.row > source.count(token.table) {
        return Ok(write_left_out(out)?);
    }
    match token.table {
        TableId::TypeDef => Ok(write_type_def_within(source, token.row, limit, out, DEPTH)?),
        TableId::TypeRef => Ok(write_type_ref_name(source, token.row, limit, out)?),
        TableId::TypeSpec => write_type_spec(alloc, source, token.row, limit, out),
        _ => Ok(write_left_out(out)?),
    }
}

/// Writes the type that a TypeSpec is (II.22.39).
#[tactic(auto, unfolding(table_schema::specs::CellColumns::cell_columns))]
fn write_type_spec<S: ReadCells, W: fmt::Write, L: Limit<W>>(
    alloc: Global,
    source: &S,
    row: u32,
    limit: &L,
    out: &mut W,
) -> Result<(), TextError>
    requires first { 1 ≤ row }
    requires last { row ≤ S.row_count source.now TypeSpec }
    ensures { (model : Metadata) → S.shows source.now model → (signature : Body) → cell_in model TypeSpec row 0 ≡ Sig signature
        → OnOk result (Wrote W.write_str_gives out.old (IsTypeSpecText L.scopes model signature) out.new) }
{
    sig_grammar::laws::shortest_encodes();
    source.holds_one();
    let kind = SigKind::TypeSpec;
    let bytes = source.signature(alloc, kind, TableId::TypeSpec, row, TYPE_SIGNATURE)?;
    write_signature(&InnerNames, source, bytes_of(&bytes), kind, limit, out)
}
