//! What a row describes, and the type that declares it.
ghost use Rattle.std.specs.Prelude.{◌≡◌, ◌≤◌, IfSome};
ghost use Rattle.table_schema.specs.declared.table.TableId.TheVariants.{MethodDef, Param};
ghost use Rattle.metadata.specs.Metadata.{Metadata};
ghost use Rattle.metadata.specs.Model.{IsModel};
ghost use Rattle.metadata.specs.declared.member_lists.MemberList.TheVariants as list_of;
ghost use Rattle.opening.specs.Views.{row_count};
ghost use Rattle.navigation.specs.Owners.{Owns};
ghost use Rattle.visible_rows.specs.Declaring.{described, described_last, subject_of, IsDeclaring, IsPartOf};

use full_names::type_of_member;
use navigation::{Neighbours, cells, method_of_param};
use opening::{TableId, Token, View};

/// The index of the cell with the class of an interface (II.22.23) and of an override (II.22.27).
const CLASS: usize = 0;

/// The index of the cell with the owner of a generic parameter (II.22.20), and of a constraint (II.22.21).
const PARAM_OWNER: usize = 2;

const CONSTRAINT_OWNER: usize = 0;

/// The index of the cell with the member that is imported (II.22.22).
const FORWARDED: usize = 1;

/// The index of the cell with the parent of a permission set (II.22.11), and of an attribute (II.22.10).
const SECURED: usize = 1;

const ATTRIBUTED: usize = 0;

/// The row that a row describes; `None` if its table describes nothing, or if the reference is null.
#[tactic(auto, using(crate::proofs::DescribedLemmas::referred), unfolding(table_schema::specs::CellColumns::cell_columns))]
fn subject_of(view: &View<'_>, of: Token) -> Option<Token>
    requires first { 1 ≤ of.row }
    requires last { of.row ≤ row_count view.now of.table }
    ensures value { (model : Metadata) → IsModel view.now model → result ≡ subject_of model of.table of.row }
    ensures there { IfSome result (λ subject. (1 ≤ subject.row) × (subject.row ≤ row_count view.now subject.table)) }
{
    match of.table {
        TableId::InterfaceImpl => cells::reference(view, TableId::InterfaceImpl, of.row, CLASS),
        TableId::GenericParam => cells::reference(view, TableId::GenericParam, of.row, PARAM_OWNER),
        TableId::GenericParamConstraint => cells::reference(
            view,
            TableId::GenericParamConstraint,
            of.row,
            CONSTRAINT_OWNER,
        ),
        TableId::MethodImpl => cells::reference(view, TableId::MethodImpl, of.row, CLASS),
        TableId::ImplMap => cells::reference(view, TableId::ImplMap, of.row, FORWARDED),
        TableId::DeclSecurity => cells::reference(view, TableId::DeclSecurity, of.row, SECURED),
        TableId::CustomAttribute => {
            cells::reference(view, TableId::CustomAttribute, of.row, ATTRIBUTED)
        }
        _ => None,
    }
}

/// The row that a row describes, or the row itself.
fn described(view: &View<'_>, of: Token) -> Token
    requires first { 1 ≤ of.row }
    requires last { of.row ≤ row_count view.now of.table }
    ensures value { (model : Metadata) → IsModel view.now model → result ≡ described model of }
    ensures first { 1 ≤ result.row }
    ensures last { result.row ≤ row_count view.now result.table }
{
    match subject_of(view, of) {
        Some(subject) => subject,
        None => of,
    }
}

/// The row that a row describes in the end; a row that describes no other is itself. An attribute can describe a constraint, which
/// describes a generic parameter, which describes a type or a method.
///
/// It takes at most three references.
pub fn described_last(view: &View<'_>, of: Token) -> Token
    requires first { 1 ≤ of.row }
    requires last { of.row ≤ row_count view.now of.table }
    ensures value { (model : Metadata) → IsModel view.now model → result ≡ described_last model of }
    ensures first { 1 ≤ result.row }
    ensures last { result.row ≤ row_count view.now result.table }
{
    let subject = described(view, of);
    let outer = described(view, subject);
    described(view, outer)
}

/// The method of a parameter.
fn method_of(source: &Neighbours<'_, '_>, row: u32) -> Token
    requires first { 1 ≤ row }
    requires last { row ≤ row_count source.now.view.now Param }
    ensures method { (model : Metadata) → IsModel source.now.view.now model → Owns model list_of.Params result.row row }
    ensures table { result.table ≡ MethodDef }
    ensures first { 1 ≤ result.row }
    ensures last { result.row ≤ row_count source.now.view.now MethodDef }
{
    Token {
        table: TableId::MethodDef,
        row: method_of_param(source, row),
    }
}

/// The type that a row is, that has it as a member, or that has its method as a member.
fn part_of(source: &Neighbours<'_, '_>, of: Token) -> Option<Token>
    requires first { 1 ≤ of.row }
    requires last { of.row ≤ row_count source.now.view.now of.table }
    ensures { (model : Metadata) → IsModel source.now.view.now model → IsPartOf model of.table of.row result }
{
    match of.table {
        TableId::TypeDef => Some(of),
        TableId::Param => type_of_member(source, method_of(source, of.row)),
        _ => type_of_member(source, of),
    }
}

/// The type that declares what a row describes in the end: the type itself, a field, a method, an event, a property, or a
/// parameter of a method; `None` if it is none of these. A row of another table describes itself.
///
/// It takes at most three references, and binary searches over the starts of members.
pub fn declaring_type(source: &Neighbours<'_, '_>, of: Token) -> Option<Token>
    requires first { 1 ≤ of.row }
    requires last { of.row ≤ row_count source.now.view.now of.table }
    ensures { (model : Metadata) → IsModel source.now.view.now model → IsDeclaring model of result }
{
    part_of(source, described_last(source.view, of))
}
