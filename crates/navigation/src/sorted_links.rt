//! The references of each [`Link`], sorted.
ghost use Rattle.std.specs.Prelude.{◌≡◌, IfOk};
ghost use Rattle.navigation.specs.declared.links.Link.TheVariants as link_of;
ghost use Rattle.navigation.specs.Linked.{AreReferences};

use crate::keyed::KeyedRow;
use crate::links::{Link, references};
use opening::View;
use std::alloc::{AllocError, Global};

/// The references of each [`Link`] of a view, in the order of what they refer to.
#[derive(Drop)]
pub(crate) struct SortedLinks<'v, 'a> {
    /// The view.
    pub(crate) view: &'v View<'a>,
    events: Vec<KeyedRow>,
    properties: Vec<KeyedRow>,
    accessors: Vec<KeyedRow>,
    constants: Vec<KeyedRow>,
    type_layouts: Vec<KeyedRow>,
    field_offsets: Vec<KeyedRow>,
    field_data: Vec<KeyedRow>,
    marshalling: Vec<KeyedRow>,
    interfaces: Vec<KeyedRow>,
    generic_params: Vec<KeyedRow>,
    constraints: Vec<KeyedRow>,
    ghost events_known: { AreReferences view.now link_of.Events events.items },
    ghost properties_known: { AreReferences view.now link_of.Properties properties.items },
    ghost accessors_known: { AreReferences view.now link_of.Accessors accessors.items },
    ghost constants_known: { AreReferences view.now link_of.Constants constants.items },
    ghost type_layouts_known: { AreReferences view.now link_of.TypeLayouts type_layouts.items },
    ghost field_offsets_known: { AreReferences view.now link_of.FieldOffsets field_offsets.items },
    ghost field_data_known: { AreReferences view.now link_of.FieldData field_data.items },
    ghost marshalling_known: { AreReferences view.now link_of.Marshalling marshalling.items },
    ghost interfaces_known: { AreReferences view.now link_of.Interfaces interfaces.items },
    ghost generic_params_known: { AreReferences view.now link_of.GenericParams generic_params.items },
    ghost constraints_known: { AreReferences view.now link_of.Constraints constraints.items },
}

impl<'v, 'a> SortedLinks<'v, 'a> {
    /// The references of a view.
    ///
    /// # Errors
    ///
    /// Out of memory.
    pub(crate) fn new(alloc: Global, view: &'v View<'a>) -> Result<SortedLinks<'v, 'a>, AllocError>
        ensures { IfOk result (λ links. links.view.now ≡ view.now) }
    {
        Ok(SortedLinks {
            view,
            events: references(alloc, view, Link::Events)?,
            properties: references(alloc, view, Link::Properties)?,
            accessors: references(alloc, view, Link::Accessors)?,
            constants: references(alloc, view, Link::Constants)?,
            type_layouts: references(alloc, view, Link::TypeLayouts)?,
            field_offsets: references(alloc, view, Link::FieldOffsets)?,
            field_data: references(alloc, view, Link::FieldData)?,
            marshalling: references(alloc, view, Link::Marshalling)?,
            interfaces: references(alloc, view, Link::Interfaces)?,
            generic_params: references(alloc, view, Link::GenericParams)?,
            constraints: references(alloc, view, Link::Constraints)?,
        })
    }

    /// The references of a link.
    pub(crate) fn references(&self, link: Link) -> &[KeyedRow]
        ensures { AreReferences self.now.view.now link result.now }
    {
        match link {
            Link::Events => &self.events,
            Link::Properties => &self.properties,
            Link::Accessors => &self.accessors,
            Link::Constants => &self.constants,
            Link::TypeLayouts => &self.type_layouts,
            Link::FieldOffsets => &self.field_offsets,
            Link::FieldData => &self.field_data,
            Link::Marshalling => &self.marshalling,
            Link::Interfaces => &self.interfaces,
            Link::GenericParams => &self.generic_params,
            Link::Constraints => &self.constraints,
        }
    }
}
