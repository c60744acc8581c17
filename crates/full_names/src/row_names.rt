ghost use Rattle.std.specs.Prelude.{◌≡◌, ◌≤◌, ◌++◌, OnOk, IfSome, codes};
ghost use Rattle.std.specs.Fmt.{WritesInCalls};
ghost use Rattle.table_schema.specs.declared.table.TableId.TheVariants.{Event, Field, MemberRef, MethodDef, Property, TypeDef};
ghost use Rattle.metadata.specs.Metadata.{Metadata};
ghost use Rattle.navigation.specs.Nesting.{type_token};
ghost use Rattle.full_names.specs.Names.{Wrote};
ghost use Rattle.full_names.specs.Quoted.{name_text};
ghost use Rattle.full_names.specs.declared.quoted.NameKind.TheVariants.{Dotted, Member};
ghost use Rattle.full_names.specs.Texts.{IsMemberName};
ghost use Rattle.full_names.specs.RowNames.{IsMemberOf, IsNameIn, IsParent, IsPlainName, IsRowNameBy, IsTypeOfEvent, IsTypeOfField, IsTypeOfMethod, IsTypeOfProperty};

use crate::limit::Limit;
use crate::parts::{write_left_out, write_text};
use crate::quoted::{NameKind, write_name, write_type_name};
use crate::specs_named::write_full_name_within;
use crate::text_error::TextError;
use navigation::{
    ReadCells, cells, type_of_event, type_of_field, type_of_method, type_of_property,
};
use std::alloc::Global;
use std::fmt;
use table_schema::{TableId, Token};

/// The cell of a field's name (II.22.15).
const FIELD_NAME: usize = 1;

/// The cell of a method's name (II.22.26).
const METHOD_NAME: usize = 3;

/// The cell of the name of an event (II.22.13), of a property (II.22.34) or of a MemberRef (II.22.25).
const MEMBER_NAME: usize = 1;

/// The cell of the parent of a MemberRef (II.22.25).
const MEMBER_PARENT: usize = 0;

/// The cell of a module's name (II.22.31).
pub(crate) const MODULE_NAME: usize = 0;

/// The cell of the name of an assembly (II.22.5).
pub(crate) const ASSEMBLY_NAME: usize = 6;

/// The cell of a file's name (II.22.19).
const FILE_NAME: usize = 1;

/// The cells of the name and the namespace of an exported type (II.22.14).
const EXPORTED_NAME: usize = 2;

const EXPORTED_NAMESPACE: usize = 3;

/// The cell of the name of a generic parameter (II.22.20).
const GENERIC_NAME: usize = 3;

/// The token of a type of this module.
fn type_token(row: u32) -> Token
    ensures { result ≡ type_token row }
{
    Token {
        table: TableId::TypeDef,
        row,
    }
}

/// Writes two colons, and the name of a member (II.15.3).
pub fn write_own_name<W: fmt::Write, L: Limit<W>>(out: &mut W, name: &str, limit: &L) -> fmt::Result
    ensures { OnOk result (WritesInCalls W.write_str_gives out.old (codes "::" ++ name_text Member name.now) out.new) }
{
    write_text(out, "::")?;
    write_name(out, NameKind::Member, name, limit)
}

/// Writes the name of a member after that of its type.
///
/// # Errors
///
/// Those of [`write_full_name`](crate::write_full_name).
fn write_member_name<S: ReadCells, W: fmt::Write, L: Limit<W>>(
    alloc: Global,
    source: &S,
    class: Token,
    name: &str,
    limit: &L,
    out: &mut W,
) -> Result<(), TextError>
    ensures { (model : Metadata) → S.shows source.now model
        → OnOk result (Wrote W.write_str_gives out.old (IsMemberName L.scopes model class name.now) out.new) }
{
    write_full_name_within(alloc, source, class, limit, out)?;
    Ok(write_own_name(out, name, limit)?)
}

/// The parent of a MemberRef: a type, a module, or a method (II.22.25).
#[tactic(auto, unfolding(table_schema::specs::CellColumns::cell_columns))]
pub fn member_parent<S: ReadCells>(source: &S, row: u32) -> Token
    requires first { 1 ≤ row }
    requires last { row ≤ S.row_count source.now MemberRef }
    ensures first { 1 ≤ result.row }
    ensures last { result.row ≤ S.row_count source.now result.table }
    ensures parent { (model : Metadata) → S.shows source.now model → IsParent model row result }
{
    source.holds_one();
    match cells::reference(source, TableId::MemberRef, row, MEMBER_PARENT) {
        Some(class) => class,
        None => unreachable!(),
    }
}

/// Writes the name of a member of a module after that of the module.
fn write_global_name<W: fmt::Write, L: Limit<W>>(
    out: &mut W,
    scope: &str,
    name: &str,
    limit: &L,
) -> fmt::Result
    ensures { OnOk result (WritesInCalls W.write_str_gives out.old (name_text Dotted scope.now ++ (codes "::" ++ name_text Member name.now)) out.new) }
{
    write_name(out, NameKind::Dotted, scope, limit)?;
    write_own_name(out, name, limit)
}

/// Writes the name of a MemberRef after that of its parent: of a type, of a module, or of the type of a method.
#[tactic(auto, unfolding(table_schema::specs::CellColumns::cell_columns))]
fn write_member_ref<S: ReadCells, W: fmt::Write, L: Limit<W>>(
    alloc: Global,
    source: &S,
    row: u32,
    limit: &L,
    out: &mut W,
) -> Result<(), TextError>
    requires first { 1 ≤ row }
    requires last { row ≤ S.row_count source.now MemberRef }
    ensures { (model : Metadata) → S.shows source.now model → OnOk result (Wrote W.write_str_gives out.old (IsNameIn L.scopes model MemberRef row) out.new) }
{
    let parent = member_parent(source, row);
    let name = cells::text(source, TableId::MemberRef, row, MEMBER_NAME);
    match parent.table {
        TableId::MethodDef => {
            let class = type_token(type_of_method(source, parent.row));
            write_member_name(alloc, source, class, name, limit, out)
        }
        TableId::ModuleRef => {
            let module = cells::text(source, TableId::ModuleRef, parent.row, MODULE_NAME);
            Ok(write_global_name(out, module, name, limit)?)
        }
        _ => write_member_name(alloc, source, parent, name, limit, out),
    }
}

/// Writes the name of a row of ModuleRef, AssemblyRef, File, ExportedType or GenericParam, and `..` for any other.
#[tactic(auto, unfolding(table_schema::specs::CellColumns::cell_columns))]
fn write_plain<S: ReadCells, W: fmt::Write, L: Limit<W>>(
    source: &S,
    token: Token,
    limit: &L,
    out: &mut W,
) -> fmt::Result
    requires first { 1 ≤ token.row }
    requires last { token.row ≤ S.row_count source.now token.table }
    ensures { (model : Metadata) → S.shows source.now model
        → OnOk result (Wrote W.write_str_gives out.old (IsPlainName model token.table token.row) out.new) }
{
    let row = token.row;
    match token.table {
        TableId::ModuleRef => {
            let name = cells::text(source, TableId::ModuleRef, row, MODULE_NAME);
            write_name(out, NameKind::Dotted, name, limit)
        }
        TableId::AssemblyRef => {
            let name = cells::text(source, TableId::AssemblyRef, row, ASSEMBLY_NAME);
            write_name(out, NameKind::Dotted, name, limit)
        }
        TableId::File => {
            let name = cells::text(source, TableId::File, row, FILE_NAME);
            write_name(out, NameKind::Dotted, name, limit)
        }
        TableId::ExportedType => {
            let namespace = cells::text(source, TableId::ExportedType, row, EXPORTED_NAMESPACE);
            let name = cells::text(source, TableId::ExportedType, row, EXPORTED_NAME);
            write_type_name(out, namespace, name, limit)
        }
        TableId::GenericParam => {
            let name = cells::text(source, TableId::GenericParam, row, GENERIC_NAME);
            write_name(out, NameKind::Identifier, name, limit)
        }
        _ => write_left_out(out),
    }
}

/// Writes the name of a row of any table in the notation of ILAsm (II.5.3, II.15.3).
///
/// | row | name |
/// |---|---|
/// | a type | as [`write_full_name`](crate::write_full_name) writes it |
/// | a field, a method, an event or a property | that of its type, two colons, and its own |
/// | a MemberRef | that of its parent, a type or a module, or of the type of its parent, a method; two colons, and its own |
/// | an exported type | its own after its namespace and a dot |
/// | a module, an assembly or a file that is referred to; a generic parameter | its own |
/// | any other row, and one that does not exist | `..` |
///
/// Names are quoted as [`write_name`](crate::write_name) does. The type of a member is found by binary search. When the
/// limit is reached, what follows in a TypeSpec is passed over.
///
/// # Errors
///
/// `Writer` if the writer refused a part of the name. `Memory` if out of memory.
#[tactic(auto, unfolding(table_schema::specs::CellColumns::cell_columns))]
pub fn write_row_name<S: ReadCells, W: fmt::Write, L: Limit<W>>(
    alloc: Global,
    source: &S,
    token: Token,
    limit: &L,
    out: &mut W,
) -> Result<(), TextError>
    ensures { (model : Metadata) → S.shows source.now model → OnOk result (Wrote W.write_str_gives out.old (IsRowNameBy L.scopes model token) out.new) }
{
    source.holds_one();
    if token.row == 0 || token.row > source.count(token.table) {
        return Ok(write_left_out(out)?);
    }
    let row = token.row;
    match token.table {
        TableId::TypeDef | TableId::TypeRef | TableId::TypeSpec => {
            write_full_name_within(alloc, source, token, limit, out)
        }
        TableId::Field => {
            let class = type_token(type_of_field(source, row));
            let name = cells::text(source, TableId::Field, row, FIELD_NAME);
            write_member_name(alloc, source, class, name, limit, out)
        }
        TableId::MethodDef => {
            let class = type_token(type_of_method(source, row));
            let name = cells::text(source, TableId::MethodDef, row, METHOD_NAME);
            write_member_name(alloc, source, class, name, limit, out)
        }
        TableId::Event => {
            let class = type_token(type_of_event(source, row));
            let name = cells::text(source, TableId::Event, row, MEMBER_NAME);
            write_member_name(alloc, source, class, name, limit, out)
        }
        TableId::Property => {
            let class = type_token(type_of_property(source, row));
            let name = cells::text(source, TableId::Property, row, MEMBER_NAME);
            write_member_name(alloc, source, class, name, limit, out)
        }
        TableId::MemberRef => write_member_ref(alloc, source, row, limit, out),
        _ => Ok(write_plain(source, token, limit, out)?),
    }
}

/// The type that has a row as a field, a method, an event or a property, by binary search; `None` for a row of any other
/// table.
pub fn type_of_member<S: ReadCells>(source: &S, token: Token) -> Option<Token>
    requires first { 1 ≤ token.row }
    requires last { token.row ≤ S.row_count source.now token.table }
    ensures member { (model : Metadata) → S.shows source.now model → IsMemberOf model token.table token.row result }
    ensures last { IfSome result (λ class. class.row ≤ S.row_count source.now TypeDef) }
{
    match token.table {
        TableId::Field => Some(type_token(type_of_field(source, token.row))),
        TableId::MethodDef => Some(type_token(type_of_method(source, token.row))),
        TableId::Event => Some(type_token(type_of_event(source, token.row))),
        TableId::Property => Some(type_token(type_of_property(source, token.row))),
        _ => None,
    }
}
