use crate::valid_model::Model;
use metadata_source::{KeysOf, MemberList, members_of};
use reading::KeyRows;
use std::ops::Range;
use table_schema::{TableId, Token};

impl Model {
    ghost use Rattle.std.specs.Prelude.{◌≤◌, ◌+◌, ◌*◌, ◌≡◌, ◌↔◌, ℕ, IsSome, IfSome, IfNone};
    ghost use Rattle.std.specs.List.{Contains};
    ghost use Rattle.std.specs.List.Sorted.{IsStrictlyIncreasing};
    ghost use Rattle.rows.specs.Keys.{binary_digits};
    ghost use Rattle.table_schema.specs.declared.table.TableId.TheVariants.{TypeDef, MethodDef, Field, Param, EventMap, Event, PropertyMap, Property};
    ghost use Rattle.table_schema.specs.Columns.{key_of};
    ghost use Rattle.metadata.specs.Metadata.{count_in};
    ghost use Rattle.metadata.specs.Lookups.{IsRun, IsFirstType, HasRow, HasNames, HasKey};
    ghost use Rattle.metadata.specs.KeyOrder.{IsKeyOrdered};

    /// The fields of a type, as rows of Field (II.22.37), in constant time.
    pub fn fields_of(&self, row: u32) -> Range<u32>
        requires first { 1 ≤ row }
        requires last { row ≤ count_in self.now TypeDef }
        ensures { IsRun self.now TypeDef 4 Field row result.start result.end }
    {
        members_of(self, MemberList::Fields, row)
    }

    /// The methods of a type, as rows of MethodDef (II.22.37), in constant time.
    pub fn methods_of(&self, row: u32) -> Range<u32>
        requires first { 1 ≤ row }
        requires last { row ≤ count_in self.now TypeDef }
        ensures { IsRun self.now TypeDef 5 MethodDef row result.start result.end }
    {
        members_of(self, MemberList::Methods, row)
    }

    /// The parameters of a method, as rows of Param (II.22.26), in constant time.
    pub fn params_of(&self, row: u32) -> Range<u32>
        requires first { 1 ≤ row }
        requires last { row ≤ count_in self.now MethodDef }
        ensures { IsRun self.now MethodDef 5 Param row result.start result.end }
    {
        members_of(self, MemberList::Params, row)
    }

    /// The events of a row of EventMap, as rows of Event (II.22.12), in constant time.
    pub fn events_of(&self, row: u32) -> Range<u32>
        requires first { 1 ≤ row }
        requires last { row ≤ count_in self.now EventMap }
        ensures { IsRun self.now EventMap 1 Event row result.start result.end }
    {
        members_of(self, MemberList::Events, row)
    }

    /// The properties of a row of PropertyMap, as rows of Property (II.22.35), in constant time.
    pub fn properties_of(&self, row: u32) -> Range<u32>
        requires first { 1 ≤ row }
        requires last { row ≤ count_in self.now PropertyMap }
        ensures { IsRun self.now PropertyMap 1 Property row result.start result.end }
    {
        members_of(self, MemberList::Properties, row)
    }

    /// The first type with a namespace and a name, by its row; `None` if no type has them (II.22.37).
    ///
    /// A type without a namespace has the empty one. The names of each type before it are compared, up to the first
    /// byte that differs.
    pub fn find_type(&self, namespace: &str, name: &str) -> Option<u32>
        ensures sound { IfSome result (IsFirstType self.now namespace.now name.now) }
        ensures none { IfNone result ((row : ℕ) → HasRow self.now TypeDef row → ¬ HasNames self.now namespace.now name.now row) }
    {
        metadata_source::find_type(self, namespace, name)
    }

    /// The rows of a table whose key is a token, in ascending order (II.22).
    ///
    /// If the table is in order, they are found by binary search, and [`KeyRows::reads`] is the number of keys
    /// that were read. Otherwise the iterator looks at each row. A null token has no rows, nor has one that
    /// the key column cannot name.
    pub fn by_key(&self, table: TableId, token: Token) -> KeyRows<KeysOf<'_, Model>>
        requires { IsSome (key_of table) }
        ensures ascending { IsStrictlyIncreasing result.rows }
        ensures rows { (row : ℕ) → Contains result.rows row ↔ (HasRow self.now table row × HasKey self.now table token row) }
        ensures bounded { IsKeyOrdered self.now table → result.reads ≤ 2 * binary_digits (count_in self.now table) + 2 }
        ensures walked { ¬ IsKeyOrdered self.now table → result.reads ≡ 0 }
    {
        metadata_source::rows_by_key(self, table, token)
    }
}
