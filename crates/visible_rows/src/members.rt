//! The visible fields, methods and accessors (II.22.28, II.23.1.5, II.23.1.10), and the events and properties that have one
//! (II.22.13, II.22.34).
ghost use Rattle.std.specs.Prelude.{◌≡◌, ◌≤◌, IfOk};
ghost use Rattle.table_schema.specs.declared.table.TableId.TheVariants.{Field, MethodDef, MethodSemantics};
ghost use Rattle.metadata.specs.Metadata.{Metadata};
ghost use Rattle.metadata.specs.Model.{IsModel};
ghost use Rattle.opening.specs.Views.{row_count};
ghost use Rattle.visible_rows.specs.Visible.{AreVisibleTypes, is_visible_accessor, is_visible_field, is_visible_method, HaveVisibleAccessors, has_visible_accessor};

use crate::access::{access, is_open_member};
use navigation::cells::target;
use navigation::{Link, Neighbours, ReadMetadata, type_of_field, type_of_method};
use opening::{TableId, Token};
use std::alloc::{AllocError, Global};

/// The cells of the flags of a field and of a method (II.22.15, II.22.26).
const FIELD_FLAGS: usize = 0;

const METHOD_FLAGS: usize = 2;

/// The cell of the method of an accessor (II.22.28).
const METHOD: usize = 1;

/// Whether a field is visible.
#[tactic(auto, unfolding(table_schema::specs::CellColumns::cell_columns))]
pub(crate) fn is_visible_field(source: &Neighbours<'_, '_>, types: &[bool], row: u32) -> bool
    requires first { 1 ≤ row }
    requires last { row ≤ row_count source.now.view.now Field }
    requires types { AreVisibleTypes source.now.view.now types.now }
    ensures { (model : Metadata) → IsModel source.now.view.now model → result ≡ is_visible_field model row }
{
    source.holds_one();
    let is_type_visible = types[type_of_field(source, row) as usize];
    is_open_member(access(source.view, TableId::Field, row, FIELD_FLAGS)) && is_type_visible
}

/// Whether a method is visible.
#[tactic(auto, unfolding(table_schema::specs::CellColumns::cell_columns))]
pub(crate) fn is_visible_method(source: &Neighbours<'_, '_>, types: &[bool], row: u32) -> bool
    requires first { 1 ≤ row }
    requires last { row ≤ row_count source.now.view.now MethodDef }
    requires types { AreVisibleTypes source.now.view.now types.now }
    ensures { (model : Metadata) → IsModel source.now.view.now model → result ≡ is_visible_method model row }
{
    source.holds_one();
    let is_type_visible = types[type_of_method(source, row) as usize];
    is_open_member(access(source.view, TableId::MethodDef, row, METHOD_FLAGS)) && is_type_visible
}

/// Whether the method of an accessor is visible.
#[tactic(auto, unfolding(table_schema::specs::CellColumns::cell_columns))]
pub(crate) fn is_visible_accessor(source: &Neighbours<'_, '_>, types: &[bool], row: u32) -> bool
    requires first { 1 ≤ row }
    requires last { row ≤ row_count source.now.view.now MethodSemantics }
    requires types { AreVisibleTypes source.now.view.now types.now }
    ensures { (model : Metadata) → IsModel source.now.view.now model → result ≡ is_visible_accessor model row }
{
    let method = target(
        source.view,
        TableId::MethodDef,
        TableId::MethodSemantics,
        row,
        METHOD,
    );
    is_visible_method(source, types, method)
}

/// Whether one of the accessors of an event or a property is visible.
fn has_visible_accessor(source: &Neighbours<'_, '_>, types: &[bool], of: Token) -> bool
    requires limit { of.row ≤ 0xFFFFFF }
    requires types { AreVisibleTypes source.now.view.now types.now }
    ensures { (model : Metadata) → IsModel source.now.view.now model → result ≡ has_visible_accessor of.table model of.row }
{
    for accessor in source.linked(Link::Accessors, Link::Accessors.number_to(of)) {
        if is_visible_accessor(source, types, accessor.row) {
            return true;
        }
    }
    false
}

/// Whether each event or each property has a visible accessor. Each accessor belongs to one of them, and is looked at once.
///
/// # Errors
///
/// Out of memory.
pub(crate) fn visible_accessors(
    alloc: Global,
    source: &Neighbours<'_, '_>,
    types: &[bool],
    table: TableId,
) -> Result<Vec<bool>, AllocError>
    requires { AreVisibleTypes source.now.view.now types.now }
    ensures { IfOk result (λ results. HaveVisibleAccessors source.now.view.now table results.items) }
{
    let count = source.view.count(table);
    let mut results = Vec::with_capacity(alloc, count as usize)?;
    for earlier in 0..count {
        let of = Token {
            table,
            row: earlier + 1,
        };
        results.push(has_visible_accessor(source, types, of))?;
    }
    Ok(results)
}
