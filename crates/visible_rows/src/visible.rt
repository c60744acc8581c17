//! The visible rows.
ghost use Rattle.table_schema.specs.declared.table.TableId.TheVariants.{Event, Property};
ghost use Rattle.visible_rows.specs.Visible.{AreVisibleTypes, HaveVisibleAccessors};

use crate::access::{access, is_public};
use crate::declaring::described_last;
use crate::members::{is_visible_accessor, is_visible_field, is_visible_method, visible_accessors};
use crate::types::visible_types;
use navigation::{Neighbours, cells, method_of_param};
use opening::{TableId, Token, View};
use std::alloc::{AllocError, Global};

/// The cell of the flags of a resource (II.22.24).
const RESOURCE_FLAGS: usize = 1;

/// The cell of the body of an override (II.22.27).
const BODY: usize = 1;

/// Which rows of a view are visible outside of its assembly. It takes a byte for each type, event and property.
#[derive(Drop)]
pub struct VisibleRows<'v, 'a> {
    /// The view.
    pub view: &'v View<'a>,
    types: Vec<bool>,
    events: Vec<bool>,
    properties: Vec<bool>,
    ghost types_known: { AreVisibleTypes view.now types.items },
    ghost events_known: { HaveVisibleAccessors view.now Event events.items },
    ghost properties_known: { HaveVisibleAccessors view.now Property properties.items },
}

impl<'v, 'a> VisibleRows<'v, 'a> {
    ghost use Rattle.std.specs.Prelude.{◌≡◌, ◌≤◌, IfOk};
    ghost use Rattle.metadata.specs.Metadata.{Metadata};
    ghost use Rattle.metadata.specs.Model.{IsModel};
    ghost use Rattle.opening.specs.Views.{row_count};
    ghost use Rattle.visible_rows.specs.Visible.{has_visible_body, is_visible, is_visible_row};

    /// The visible rows of a view. Its types, its rows of NestedClass and its accessors are looked at once; the type of the method of
    /// an accessor is found by binary search.
    ///
    /// # Errors
    ///
    /// Out of memory.
    pub fn new(
        alloc: Global,
        source: &Neighbours<'v, 'a>,
    ) -> Result<VisibleRows<'v, 'a>, AllocError>
        ensures { IfOk result (λ rows. rows.view.now ≡ source.now.view.now) }
    {
        let view = source.view;
        let types = visible_types(alloc, view)?;
        let events = visible_accessors(alloc, source, &types, TableId::Event)?;
        let properties = visible_accessors(alloc, source, &types, TableId::Property)?;
        Ok(VisibleRows {
            view,
            types,
            events,
            properties,
        })
    }

    /// Whether a row that describes no other is visible.
    #[tactic(auto, unfolding(table_schema::specs::CellColumns::cell_columns))]
    fn is_visible_row(&self, source: &Neighbours<'_, '_>, of: Token) -> bool
        requires first { 1 ≤ of.row }
        requires last { of.row ≤ row_count self.now.view.now of.table }
        requires same { source.now.view.now ≡ self.now.view.now }
        ensures { (model : Metadata) → IsModel self.now.view.now model → result ≡ is_visible_row model of.table of.row }
    {
        metadata::laws::models_of_roots_are_valid();
        let types = &self.types;
        match of.table {
            TableId::TypeDef => types[of.row as usize],
            TableId::Field => is_visible_field(source, types, of.row),
            TableId::MethodDef => is_visible_method(source, types, of.row),
            TableId::Param => is_visible_method(source, types, method_of_param(source, of.row)),
            TableId::Event => self.events[of.row as usize - 1],
            TableId::Property => self.properties[of.row as usize - 1],
            TableId::MethodSemantics => is_visible_accessor(source, types, of.row),
            TableId::ManifestResource => is_public(access(
                self.view,
                TableId::ManifestResource,
                of.row,
                RESOURCE_FLAGS,
            )),
            _ => true,
        }
    }

    /// Whether the body of an override is visible, or no method of this module; also for any other row.
    #[tactic(auto, unfolding(table_schema::specs::CellColumns::cell_columns))]
    fn has_visible_body(&self, source: &Neighbours<'_, '_>, of: Token) -> bool
        requires first { 1 ≤ of.row }
        requires last { of.row ≤ row_count self.now.view.now of.table }
        requires same { source.now.view.now ≡ self.now.view.now }
        ensures { (model : Metadata) → IsModel self.now.view.now model → result ≡ has_visible_body model of.table of.row }
    {
        if of.table != TableId::MethodImpl {
            return true;
        }
        match cells::reference(self.view, TableId::MethodImpl, of.row, BODY) {
            Some(body) => self.is_visible_row(source, body),
            None => true,
        }
    }

    /// Whether a row is visible outside of the assembly. Types, members and resources are by their flags; what describes one of them
    /// is if they are. All other rows are.
    ///
    /// It takes at most three references, and two binary searches over the starts of members.
    pub fn is_visible(&self, source: &Neighbours<'_, '_>, of: Token) -> bool
        requires first { 1 ≤ of.row }
        requires last { of.row ≤ row_count self.now.view.now of.table }
        requires same { source.now.view.now ≡ self.now.view.now }
        ensures { (model : Metadata) → IsModel self.now.view.now model → result ≡ is_visible model of }
    {
        let last = described_last(self.view, of);
        self.is_visible_row(source, last) && self.has_visible_body(source, of)
    }
}
