//! A view, with what finds the neighbours of its rows in any order.
ghost use Rattle.std.specs.Prelude.{◌≡◌, ◌≤◌, All, IfOk, IfSome, map};
ghost use Rattle.table_schema.specs.declared.token.Token.{Token as TheToken};
ghost use Rattle.metadata.specs.declared.member_lists.MemberList.TheVariants as list_of;
ghost use Rattle.metadata.specs.Metadata.{Metadata};
ghost use Rattle.metadata.specs.Model.{IsModel};
ghost use Rattle.opening.specs.Views.{row_count};
ghost use Rattle.navigation.specs.Keyed.{row_of};
ghost use Rattle.navigation.specs.Linked.{AreReferences, first_linked, linked, number_to, table_of};
ghost use Rattle.navigation.specs.Starts.{AreNestedKeys, AreStarts};

use crate::keyed::{KeyedRow, with_key};
use crate::links::Link;
use crate::sorted_links::SortedLinks;
use crate::starts::{nested_keys, starts_of};
use metadata_source::MemberList;
use opening::View;
use std::alloc::{AllocError, Global};
use table_schema::Token;

/// A view, with what finds the neighbours of its rows in any order, each by binary search.
///
/// The starts in the lists of members, and the keys of NestedClass, are read once, and take four bytes for each row. The
/// references of each [`Link`] are sorted once, and take eight bytes for each row.
#[derive(Drop)]
pub struct Neighbours<'v, 'a> {
    /// The view.
    pub view: &'v View<'a>,
    fields: Vec<u32>,
    methods: Vec<u32>,
    params: Vec<u32>,
    events: Vec<u32>,
    properties: Vec<u32>,
    nested: Vec<u32>,
    links: SortedLinks<'v, 'a>,
    ghost fields_known: { AreStarts view.now list_of.Fields fields.items },
    ghost methods_known: { AreStarts view.now list_of.Methods methods.items },
    ghost params_known: { AreStarts view.now list_of.Params params.items },
    ghost events_known: { AreStarts view.now list_of.Events events.items },
    ghost properties_known: { AreStarts view.now list_of.Properties properties.items },
    ghost nested_known: { AreNestedKeys view.now nested.items },
    ghost links_known: { links.view.now ≡ view.now },
}

impl<'v, 'a> Neighbours<'v, 'a> {
    /// The neighbours of the rows of a view. Each list of members, the keys of NestedClass, and each column of [`Link`] are read
    /// once.
    ///
    /// # Errors
    ///
    /// Out of memory.
    pub fn new(alloc: Global, view: &'v View<'a>) -> Result<Neighbours<'v, 'a>, AllocError>
        ensures { IfOk result (λ neighbours. neighbours.view.now ≡ view.now) }
    {
        Ok(Neighbours {
            view,
            fields: starts_of(alloc, view, MemberList::Fields)?,
            methods: starts_of(alloc, view, MemberList::Methods)?,
            params: starts_of(alloc, view, MemberList::Params)?,
            events: starts_of(alloc, view, MemberList::Events)?,
            properties: starts_of(alloc, view, MemberList::Properties)?,
            nested: nested_keys(alloc, view)?,
            links: SortedLinks::new(alloc, view)?,
        })
    }

    /// The starts in a list that are known: those of the first owners.
    pub(crate) fn known(&self, list: MemberList) -> &[u32]
        ensures { AreStarts self.now.view.now list result.now }
    {
        match list {
            MemberList::Fields => &self.fields,
            MemberList::Methods => &self.methods,
            MemberList::Params => &self.params,
            MemberList::Events => &self.events,
            MemberList::Properties => &self.properties,
        }
    }

    /// The key numbers of NestedClass, in the order of its rows.
    pub(crate) fn nested(&self) -> &[u32]
        ensures { AreNestedKeys self.now.view.now result.now }
    {
        &self.nested
    }

    /// The references of a link, in the order of what they refer to.
    fn references(&self, link: Link) -> &[KeyedRow]
        ensures { AreReferences self.now.view.now link result.now }
    {
        self.links.references(link)
    }

    /// The rows whose reference is to the row with this number in the column, in ascending order. They are found by binary
    /// search.
    pub fn linked(&self, link: Link, number: u32) -> &[KeyedRow]
        ensures within { All (λ found. (1 ≤ found.row) × (found.row ≤ row_count self.now.view.now (table_of link))) result.now }
        ensures rows { (model : Metadata) → IsModel self.now.view.now model → (token : TheToken) → number ≡ number_to link token
            → map row_of result.now ≡ linked model link token }
    {
        metadata::laws::models_are_read();
        metadata::laws::keys_are_in_order();
        with_key(self.references(link), number)
    }

    /// The first row that refers to a row; `None` if there is none. It is found by binary search.
    pub fn first_linked(&self, link: Link, token: Token) -> Option<u32>
        requires { token.row ≤ 0xFFFFFF }
        ensures within { IfSome result (λ row. (1 ≤ row) × (row ≤ row_count self.now.view.now (table_of link))) }
        ensures row { (model : Metadata) → IsModel self.now.view.now model → result ≡ first_linked model link token }
    {
        let rows = self.linked(link, link.number_to(token));
        Some(rows.first()?.row)
    }
}
