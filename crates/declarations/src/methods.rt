ghost use Rattle.std.specs.Prelude.{◌≡◌, ◌≤◌, ℕ, Bool, List, OnOk};
ghost use Rattle.table_schema.specs.declared.table.TableId.TheVariants.{MethodDef, Property};
ghost use Rattle.sig_grammar.specs.Syntax.{Body, Method, Slot, method_body, property};
ghost use Rattle.sig_text.specs.Declares.{Declares, as_method, member_text};
ghost use Rattle.metadata.specs.Cell.{Sig};
ghost use Rattle.metadata.specs.Metadata.{Metadata, cell_in};
ghost use Rattle.metadata.specs.Model.{IsModel};
ghost use Rattle.opening.specs.Views.{row_count};
ghost use Rattle.full_names.specs.Names.{Wrote};
ghost use Rattle.full_names.specs.RowNames.{IsRowNameBy};
ghost use Rattle.full_names.specs.Texts.{ArePiecesText};
ghost use Rattle.declarations.specs.Declarations.{AreLinksOf, IsDeclaration, IsDeclarationBy, IsDeclarationWith, IsDeclaredPiece, IsMethodHead, IsPropertyDeclarationBy, generic_rows};

use crate::links::Links;
use crate::method_text::{Declared, MethodText, put_declaration};
use crate::params::Params;
use full_names::{Limit, NoLimit, TextError, bytes_of, result_of};
use metadata_source::{MemberList, members_of};
use navigation::{Neighbours, ReadCells, cells, type_of_method, type_of_property};
use std::alloc::Global;
use std::fmt;
use table_schema::{SigKind, TableId, Token};

/// The cell of a method's name (II.22.26).
pub(crate) const METHOD_NAME: usize = 3;

/// The cell of the signature of a method (II.22.26).
pub(crate) const METHOD_SIGNATURE: usize = 4;

/// The cell of a property's name (II.22.34).
const PROPERTY_NAME: usize = 1;

/// The cell of the signature of a property (II.22.34).
const PROPERTY_SIGNATURE: usize = 2;

/// Writes the declaration of a method, a property or a field from the bytes of its signature, up to a limit. Its type or its
/// module has a name.
pub(crate) fn write_declared<S: ReadCells, W: fmt::Write, L: Limit<W>>(
    alloc: Global,
    source: &S,
    links: Option<Links<'_>>,
    of: Declared<'_>,
    bytes: &[u8],
    limit: &L,
    out: &mut W,
) -> Result<(), TextError>
    requires linked { ∥ ((model : Metadata) → S.shows source.now model → AreLinksOf model links) ∥₁ }
    ensures { (model : Metadata) → S.shows source.now model → AreLinksOf model links.entry → (signature : Body) → Declares signature bytes.now
        → (text : List ℕ) → IsRowNameBy L.scopes model of.entry.class text
        → OnOk result (Wrote W.write_str_gives out.old (ArePiecesText (IsDeclaredPiece L.scopes model of.entry.class of.entry.name.now of.entry.first of.entry.past (generic_rows links.entry)) (member_text signature)) out.new) }
{
    let params = Params::new(alloc, source, links, of.first..of.past)?;
    let mut sink = MethodText::new(alloc, &params, of, limit, out);
    put_declaration(&mut sink, bytes);
    result_of(sink.ended)
}

/// Writes a method as it is declared (II.15.3, II.15.4): `string Hello.Greeter::Greet(string name, [out] int32& times)`.
///
/// That is its calling convention, its result, its type as [`write_full_name`](full_names::write_full_name) writes it, its
/// name, and its parameters with their flags (II.23.1.13) and names. A parameter has those of the first row of Param that has
/// its position; the rows may be in any order (II.22.33). How the result and a parameter are marshalled is before their names,
/// as `marshal(lpstr)` (II.22.17); a blob that is no descriptor is written in hexadecimal. Names are quoted as [`write_name`](full_names::write_name) does.
///
/// It allocates eight bytes for each row of Param of the method, and the bytes of signatures that are held as values. Its
/// time is linear in the text, but for log n for each of these rows.
///
/// # Errors
///
/// `Writer` if the writer refused a part of the text. `Memory` if out of memory.
pub fn write_method<S: ReadCells, W: fmt::Write>(
    alloc: Global,
    source: &S,
    row: u32,
    out: &mut W,
) -> Result<(), TextError>
    requires first { 1 ≤ row }
    requires last { row ≤ S.row_count source.now MethodDef }
    ensures text { (model : Metadata) → S.shows source.now model → (method : Method) → cell_in model MethodDef row 4 ≡ Sig (method_body method) → OnOk result (Wrote W.write_str_gives out.old (IsDeclaration model row method) out.new) }
{
    write_method_within(alloc, source, row, &NoLimit, out)
}

/// Writes a method as [`write_method`] does, up to a limit: when it is reached, what follows is passed over.
///
/// # Errors
///
/// `Writer` if the writer refused a part of the text. `Memory` if out of memory.
pub fn write_method_within<S: ReadCells, W: fmt::Write, L: Limit<W>>(
    alloc: Global,
    source: &S,
    row: u32,
    limit: &L,
    out: &mut W,
) -> Result<(), TextError>
    requires first { 1 ≤ row }
    requires last { row ≤ S.row_count source.now MethodDef }
    ensures text { (model : Metadata) → S.shows source.now model → (method : Method) → cell_in model MethodDef row 4 ≡ Sig (method_body method)
        → OnOk result (Wrote W.write_str_gives out.old (IsDeclarationBy L.scopes model row method) out.new) }
{
    write_method_by(alloc, source, None, row, limit, out)
}

/// Writes a method of a view as [`write_method_within`] does, but with its generic parameters in place of their number (II.10.1.7,
/// II.15.1), if rows of GenericParam refer to it: `void Hello.Greeter::Greet<(Hello.IGreeter) T>(!!0 other)`. Rows of FieldMarshal
/// that are not in order are found by binary search too.
///
/// # Errors
///
/// `Writer` if the writer refused a part of the text. `Memory` if out of memory.
pub fn write_method_of<W: fmt::Write, L: Limit<W>>(
    alloc: Global,
    source: &Neighbours<'_, '_>,
    row: u32,
    limit: &L,
    out: &mut W,
) -> Result<(), TextError>
    requires first { 1 ≤ row }
    requires last { row ≤ row_count source.now.view.now MethodDef }
    ensures text { (model : Metadata) → IsModel source.now.view.now model → (method : Method) → cell_in model MethodDef row 4 ≡ Sig (method_body method)
        → OnOk result (Wrote W.write_str_gives out.old (IsMethodHead L.scopes model row method) out.new) }
{
    let links = Links::new(source, row);
    write_method_by(alloc, source, Some(links), row, limit, out)
}

/// Writes a method, with the rows that refer to it and its parameters if they are known.
#[tactic(auto, unfolding(table_schema::specs::CellColumns::cell_columns))]
fn write_method_by<S: ReadCells, W: fmt::Write, L: Limit<W>>(
    alloc: Global,
    source: &S,
    links: Option<Links<'_>>,
    row: u32,
    limit: &L,
    out: &mut W,
) -> Result<(), TextError>
    requires first { 1 ≤ row }
    requires last { row ≤ S.row_count source.now MethodDef }
    requires linked { ∥ ((model : Metadata) → S.shows source.now model → AreLinksOf model links) ∥₁ }
    ensures text { (model : Metadata) → S.shows source.now model → AreLinksOf model links.entry → (method : Method) → cell_in model MethodDef row 4 ≡ Sig (method_body method)
        → OnOk result (Wrote W.write_str_gives out.old (IsDeclarationWith (generic_rows links.entry) L.scopes model row method) out.new) }
{
    sig_grammar::laws::shortest_encodes();
    source.holds_one();
    let kind = SigKind::MethodDef;
    let bytes = source.signature(alloc, kind, TableId::MethodDef, row, METHOD_SIGNATURE)?;
    let rows = members_of(source, MemberList::Params, row);
    let of = Declared {
        class: Token {
            table: TableId::TypeDef,
            row: type_of_method(source, row),
        },
        name: cells::text(source, TableId::MethodDef, row, METHOD_NAME),
        first: rows.start,
        past: rows.end,
    };
    write_declared(alloc, source, links, of, bytes_of(&bytes), limit, out)
}

/// Writes a property as it is declared (II.17), up to a limit: `instance int32 Hello.Greeter::Item(string)`.
///
/// It has the form of a method (II.23.2.5), and its parameters have no flags and no names. When the limit is reached, what follows is
/// passed over.
///
/// # Errors
///
/// `Writer` if the writer refused a part of the text. `Memory` if out of memory.
#[tactic(auto, unfolding(table_schema::specs::CellColumns::cell_columns))]
pub fn write_property_within<S: ReadCells, W: fmt::Write, L: Limit<W>>(
    alloc: Global,
    source: &S,
    row: u32,
    limit: &L,
    out: &mut W,
) -> Result<(), TextError>
    requires first { 1 ≤ row }
    requires last { row ≤ S.row_count source.now Property }
    ensures text { (model : Metadata) → S.shows source.now model → (this : Bool) (of : Slot) (params : List Slot) → cell_in model Property row 2 ≡ Sig (property this of params)
        → OnOk result (Wrote W.write_str_gives out.old (IsPropertyDeclarationBy L.scopes model row (as_method this of params)) out.new) }
{
    sig_grammar::laws::shortest_encodes();
    source.holds_one();
    let kind = SigKind::Property;
    let bytes = source.signature(alloc, kind, TableId::Property, row, PROPERTY_SIGNATURE)?;
    let of = Declared {
        class: Token {
            table: TableId::TypeDef,
            row: type_of_property(source, row),
        },
        name: cells::text(source, TableId::Property, row, PROPERTY_NAME),
        first: 0,
        past: 0,
    };
    write_declared(alloc, source, None, of, bytes_of(&bytes), limit, out)
}
