//! The rows that refer to a type, a member or a generic parameter (II.22).
ghost use Rattle.std.specs.Prelude.{◌≡◌, ◌≤◌, IfOk};
ghost use Rattle.opening.specs.Views.{row_count};
ghost use Rattle.navigation.specs.Keyed.{keyed_rows};
ghost use Rattle.navigation.specs.Linked.{AreReferences, number_in, table_of};

use crate::keyed::{KeyedRow, sort_by_key};
use metadata::row_number;
use metadata_source::kind_of;
use opening::{ReadCells, View};
use std::alloc::{AllocError, Global};
use table_schema::{TableId, Token};

/// A column of references, by which rows belong to a row of another table.
#[derive(Clone, Copy)]
pub enum Link {
    /// The type of a row of EventMap (II.22.12).
    Events,
    /// The type of a row of PropertyMap (II.22.35).
    Properties,
    /// The event or the property of a row of MethodSemantics (II.22.28).
    Accessors,
    /// The field, the parameter or the property of a row of Constant (II.22.9).
    Constants,
    /// The type of a row of ClassLayout (II.22.8).
    TypeLayouts,
    /// The field of a row of FieldLayout (II.22.16).
    FieldOffsets,
    /// The field of a row of FieldRVA (II.22.18).
    FieldData,
    /// The field or the parameter of a row of FieldMarshal (II.22.17).
    Marshalling,
    /// The type of a row of InterfaceImpl (II.22.23).
    Interfaces,
    /// The type or the method of a row of GenericParam (II.22.20).
    GenericParams,
    /// The generic parameter of a row of GenericParamConstraint (II.22.21).
    Constraints,
}

impl Link {
    ghost use Rattle.std.specs.Prelude.{◌≡◌, ◌<◌, ◌≤◌};
    ghost use Rattle.table_schema.specs.CellColumns.{cell_count};
    ghost use Rattle.navigation.specs.Linked.{cell_of, number_to, table_of};

    /// The table of the rows that refer.
    pub fn table(self) -> TableId
        ensures { result ≡ table_of self }
    {
        match self {
            Link::Events => TableId::EventMap,
            Link::Properties => TableId::PropertyMap,
            Link::Accessors => TableId::MethodSemantics,
            Link::Constants => TableId::Constant,
            Link::TypeLayouts => TableId::ClassLayout,
            Link::FieldOffsets => TableId::FieldLayout,
            Link::FieldData => TableId::FieldRVA,
            Link::Marshalling => TableId::FieldMarshal,
            Link::Interfaces => TableId::InterfaceImpl,
            Link::GenericParams => TableId::GenericParam,
            Link::Constraints => TableId::GenericParamConstraint,
        }
    }

    /// The cell of the reference.
    #[tactic(auto, unfolding(table_schema::specs::CellColumns::cell_columns))]
    fn cell(self) -> usize
        ensures value { result ≡ cell_of self }
        ensures within { cell_of self < cell_count (table_of self) }
    {
        match self {
            Link::Events
            | Link::Properties
            | Link::Marshalling
            | Link::Interfaces
            | Link::Constraints => 0,
            Link::Constants | Link::FieldOffsets | Link::FieldData => 1,
            Link::Accessors | Link::TypeLayouts | Link::GenericParams => 2,
        }
    }

    /// The number of a reference to a row (II.24.2.6).
    pub fn number_to(self, token: Token) -> u32
        requires { token.row ≤ 0xFFFFFF }
        ensures { result ≡ number_to self token }
    {
        row_number(kind_of(self.table(), self.cell()), token) as u32
    }
}

/// The number of the reference of a row.
fn number(view: &View<'_>, link: Link, row: u32) -> u32
    requires first { 1 ≤ row }
    requires last { row ≤ row_count view.now (table_of link) }
    ensures { result ≡ number_in view.now link row }
{
    match view.index_in_heap(link.table(), row, link.cell()) {
        Some(number) => number,
        None => unreachable!(),
    }
}

/// The references of a table, in the order of its rows.
fn read_references(alloc: Global, view: &View<'_>, link: Link) -> Result<Vec<KeyedRow>, AllocError>
    ensures { IfOk result (λ read. read.items ≡ keyed_rows (number_in view.now link) 1 (row_count view.now (table_of link))) }
{
    let count = view.count(link.table());
    let mut read = Vec::with_capacity(alloc, count as usize)?;
    for row in 1..count + 1 {
        read.push(KeyedRow {
            key: number(view, link, row),
            row,
        })?;
    }
    Ok(read)
}

/// The references of a table, in the order of what they refer to.
pub(crate) fn references(
    alloc: Global,
    view: &View<'_>,
    link: Link,
) -> Result<Vec<KeyedRow>, AllocError>
    ensures { IfOk result (λ found. AreReferences view.now link found.items) }
{
    let mut found = read_references(alloc, view, link)?;
    sort_by_key(&mut found)?;
    Ok(found)
}
