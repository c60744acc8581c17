ghost use Rattle.std.specs.Prelude.{◌≡◌, ◌≤◌, ◌<◌, ◌↔◌, ◌+◌, ◌-◌, ◌*◌, ℕ, IsTrue, Some, IsSome, IfSome, IfNone, length, slice_index};
ghost use Rattle.std.specs.List.{Contains};
ghost use Rattle.std.specs.List.Sorted.{IsStrictlyIncreasing};
ghost use Rattle.heap_entries.specs.Padding.{zero_padded};
ghost use Rattle.rows.specs.Keys.{binary_digits};
ghost use Rattle.root.specs.Fields.{root_read};
ghost use Rattle.table_schema.specs.declared.table.TableId.{TableId as Table};
ghost use Rattle.table_schema.specs.declared.table.TableId.TheVariants.{TypeDef, MethodDef, Field, Param, EventMap, Event, PropertyMap, Property};
ghost use Rattle.table_schema.specs.declared.column.ColumnKind.TheVariants.{List};
ghost use Rattle.table_schema.specs.Columns.{key_of, column_at};
ghost use Rattle.metadata.specs.Metadata.{Metadata, count_in, cell_in};
ghost use Rattle.metadata.specs.Cell.{Start};
ghost use Rattle.metadata.specs.Source.{Source as TheSource, rows_in, number_of};
ghost use Rattle.table_schema.specs.CellColumns.{cell_count, column_of};
ghost use Rattle.metadata.specs.RowRules.{IsInOrder};
ghost use Rattle.metadata.specs.KeyOrder.{IsKeyOrdered};
ghost use Rattle.metadata.specs.Model.{IsModel};
ghost use Rattle.metadata.specs.SourceAt.{source_of};
ghost use Rattle.metadata.specs.Lookups.{IsRun, IsFirstType, HasRow, HasNames, HasKey};
ghost use Rattle.reading.specs.ReadFrom.{IsReadFrom, IsReadable};
ghost use Rattle.reading.specs.KnownStarts.{AreKnown};
ghost use Rattle.reading.specs.Shown.{ShowsCell, ShowsBlob};
ghost use Rattle.row_order.specs.Orders.{ReportsOrder};
ghost use Rattle.opening.specs.Views.{HasModel, AreFound, row_count, user_of};

use crate::found::Found;
use metadata_source::{KeysOf, MemberList, members_of};
use reading::{CellRef, KeyRows, KnownRuns, Source, Starts, cell_of, cell_of_kind, starts_of};
use std::alloc::AllocError;
use std::marker::Model;
use std::ops::Range;
use table_schema::{ColumnKind, TableId, Token, column_of_cell};

/// The one model of a root, read in place from the caller's bytes (II.22, II.24.2).
///
/// Rows count from 1. A cell is named by its index in its row, from 0. What a view returns borrows from the bytes, not
/// from the view.
#[derive(Drop)]
pub struct View<'a> {
    root: &'a [u8],
    source: Source<'a>,
    version: &'a str,
    user: &'a [u8],
    /// Which tables with a key are in order of it, by table number.
    in_order: [bool; 45],
    /// The starts of runs that are known.
    known: KnownRuns,
}

impl<'a> Model for View<'a> {
    ghost use Rattle.std.specs.Prelude.{ℕ, List};
    ghost use Rattle.opening.specs.Views.{IsView};

    ghost Value = { List ℕ };

    ghost view = { λ view. view.root.now };

    ghost invariant = { IsView };
}

impl<'a> Clone for View<'a> {
    ghost use Rattle.std.specs.Prelude.{◌≡◌};

    ghost is_clone = { λ from to. to ≡ from };

    /// The same view. It does not allocate.
    fn clone(&self) -> Result<Self, AllocError> {
        Ok(View {
            root: self.root,
            source: self.source.clone()?,
            version: self.version,
            user: self.user,
            in_order: self.in_order,
            known: self.known,
        })
    }
}

impl<'a> View<'a> {
    /// The view of a root that has a model.
    pub(crate) fn new(
        root: &'a [u8],
        source: Source<'a>,
        version: &'a str,
        user: &'a [u8],
        in_order: [bool; 45],
        known: KnownRuns,
    ) -> View<'a>
        requires model { HasModel root.now }
        requires source { source.source ≡ source_of root.now }
        requires version { version.now ≡ (root_read root.now).version }
        requires user { user.now ≡ user_of root.now }
        requires order { ReportsOrder source.source in_order }
        requires known { AreKnown source.source known }
        ensures { result ≡ root.now }
    {
        View {
            root,
            source,
            version,
            user,
            in_order,
            known,
        }
    }

    /// The rows and heaps that the model's cells are read from.
    pub fn source(&self) -> &Source<'a>
        ensures source { result.now.source ≡ source_of self.now }
        ensures rows { (table : Table) → rows_in result.now.source table ≡ row_count self.now table }
        ensures readable { IsReadable result.now.source }
        ensures read { (model : Metadata) → IsModel self.now model → IsReadFrom result.now.source model }
    {
        metadata::laws::models_are_read();
        &self.source
    }

    /// The starts of runs that are known.
    pub(crate) fn known(&self) -> &KnownRuns
        ensures { (source : TheSource) → source ≡ source_of self.now → AreKnown source result.now }
    {
        &self.known
    }

    /// The bytes of the root, which has a model.
    pub fn root(&self) -> &'a [u8]
        ensures bytes { result.now ≡ self.now }
        ensures model { HasModel self.now }
    {
        self.root
    }

    /// What opening found of the root.
    pub fn found(&self) -> Found
        ensures { AreFound self.now result }
    {
        Found {
            known: self.known,
            in_order: self.in_order,
            utf8_texts: self.source.strings().is_utf8(),
        }
    }

    /// The version string of the root (II.24.2.1).
    pub fn version(&self) -> &'a str
        ensures { (model : Metadata) → IsModel self.now model → result.now ≡ model.version }
    {
        metadata::laws::models_are_read();
        self.version
    }

    /// The bytes of `#US`, as they are in the root (II.24.2.4).
    pub fn user(&self) -> &'a [u8]
        ensures stream { result.now ≡ user_of self.now }
        ensures model { (model : Metadata) → IsModel self.now model → zero_padded result.now ≡ model.user }
    {
        metadata::laws::models_are_read();
        self.user
    }

    /// The number of rows in a table.
    pub fn count(&self, table: TableId) -> u32
        ensures rows { result ≡ row_count self.now table }
        ensures model { (model : Metadata) → IsModel self.now model → result ≡ count_in model table }
        ensures limit { result ≤ 0xFFFFFF }
    {
        self.source().count(table)
    }

    /// A cell of a row, by its index in the row (II.22). The padding byte of Constant is not a cell.
    ///
    /// For a null run start it scans to the next start that is not null, over at most 1/256 of the owners. A text takes
    /// time linear in its length. Any other cell takes constant time. The blob of a signature is the one at its heap
    /// offset.
    pub fn cell(&self, table: TableId, row: u32, column: usize) -> CellRef<'a>
        requires first { 1 ≤ row }
        requires last { row ≤ row_count self.now table }
        requires column { column < cell_count table }
        ensures cell { (model : Metadata) → IsModel self.now model → ShowsCell table column result (cell_in model table row column) }
        ensures blob { ShowsBlob (source_of self.now) (number_of (source_of self.now) table row (column_of table column)) result }
    {
        cell_of(
            self.source(),
            self.known(),
            table,
            row,
            column_of_cell(table, column),
        )
    }

    /// The same for a caller that knows the kind of the cell's column, as a loop over the rows of a column does.
    ///
    /// It is compiled into its caller. A caller that passes a constant kind runs only what that kind needs.
    #[inline(always)]
    pub fn cell_of_kind(
        &self,
        kind: ColumnKind,
        table: TableId,
        row: u32,
        column: usize,
    ) -> CellRef<'a>
        requires first { 1 ≤ row }
        requires last { row ≤ row_count self.now table }
        requires column { column < cell_count table }
        requires kind { kind ≡ (column_at table (column_of table column)).kind }
        ensures cell { (model : Metadata) → IsModel self.now model → ShowsCell table column result (cell_in model table row column) }
        ensures blob { ShowsBlob (source_of self.now) (number_of (source_of self.now) table row (column_of table column)) result }
    {
        let table_column = column_of_cell(table, column);
        cell_of_kind(self.source(), self.known(), kind, table, row, table_column)
    }

    /// The fields of a type, as rows of Field (II.22.37).
    ///
    /// For a null start it scans to the next start that is not null, over at most 1/256 of the owners.
    pub fn fields_of(&self, row: u32) -> Range<u32>
        requires first { 1 ≤ row }
        requires last { row ≤ row_count self.now TypeDef }
        ensures { (model : Metadata) → IsModel self.now model → IsRun model TypeDef 4 Field row result.start result.end }
    {
        members_of(self, MemberList::Fields, row)
    }

    /// The methods of a type, as rows of MethodDef (II.22.37).
    ///
    /// For a null start it scans to the next start that is not null, over at most 1/256 of the owners.
    pub fn methods_of(&self, row: u32) -> Range<u32>
        requires first { 1 ≤ row }
        requires last { row ≤ row_count self.now TypeDef }
        ensures { (model : Metadata) → IsModel self.now model → IsRun model TypeDef 5 MethodDef row result.start result.end }
    {
        members_of(self, MemberList::Methods, row)
    }

    /// The parameters of a method, as rows of Param (II.22.26).
    ///
    /// For a null start it scans to the next start that is not null, over at most 1/256 of the owners.
    pub fn params_of(&self, row: u32) -> Range<u32>
        requires first { 1 ≤ row }
        requires last { row ≤ row_count self.now MethodDef }
        ensures { (model : Metadata) → IsModel self.now model → IsRun model MethodDef 5 Param row result.start result.end }
    {
        members_of(self, MemberList::Params, row)
    }

    /// The events of a row of EventMap, as rows of Event (II.22.12).
    ///
    /// For a null start it scans to the next start that is not null, over at most 1/256 of the owners.
    pub fn events_of(&self, row: u32) -> Range<u32>
        requires first { 1 ≤ row }
        requires last { row ≤ row_count self.now EventMap }
        ensures { (model : Metadata) → IsModel self.now model → IsRun model EventMap 1 Event row result.start result.end }
    {
        members_of(self, MemberList::Events, row)
    }

    /// The properties of a row of PropertyMap, as rows of Property (II.22.35).
    ///
    /// For a null start it scans to the next start that is not null, over at most 1/256 of the owners.
    pub fn properties_of(&self, row: u32) -> Range<u32>
        requires first { 1 ≤ row }
        requires last { row ≤ row_count self.now PropertyMap }
        ensures { (model : Metadata) → IsModel self.now model → IsRun model PropertyMap 1 Property row result.start result.end }
    {
        members_of(self, MemberList::Properties, row)
    }

    /// The first type with a namespace and a name, by its row; `None` if no type has them (II.22.37).
    ///
    /// The bytes are compared in place, up to the first that differs. A type without a namespace has the empty one.
    pub fn find_type(&self, namespace: &str, name: &str) -> Option<u32>
        ensures sound { (model : Metadata) → IsModel self.now model → IfSome result (IsFirstType model namespace.now name.now) }
        ensures none { (model : Metadata) → IsModel self.now model
            → IfNone result ((row : ℕ) → HasRow model TypeDef row → ¬ HasNames model namespace.now name.now row) }
    {
        metadata_source::find_type(self, namespace, name)
    }

    /// Whether the keys of a table never decrease, in constant time (II.22).
    ///
    /// The answer is exact: `false` means that some key is lower than that of the row before.
    pub fn in_order(&self, table: TableId) -> bool
        requires { IsSome (key_of table) }
        ensures bytes { IfSome (key_of table) (λ key. IsTrue result ↔ IsInOrder (source_of self.now) table key) }
        ensures model { (model : Metadata) → IsModel self.now model → IsTrue result ↔ IsKeyOrdered model table }
    {
        metadata::laws::keys_are_in_order();
        self.in_order[table.number() as usize]
    }

    /// The rows of a table whose key is a token, in ascending order (II.22).
    ///
    /// If the table is in order, they are found by binary search, and [`KeyRows::reads`] is the number of keys
    /// that were read. Otherwise the iterator looks at each row. A null token has no rows.
    pub fn by_key(&self, table: TableId, token: Token) -> KeyRows<KeysOf<'_, View<'a>>>
        requires { IsSome (key_of table) }
        ensures ascending { IsStrictlyIncreasing result.rows }
        ensures rows { (model : Metadata) → IsModel self.now model → (row : ℕ)
            → Contains result.rows row ↔ (HasRow model table row × HasKey model table token row) }
        ensures bounded { (model : Metadata) → IsModel self.now model → IsKeyOrdered model table
            → result.reads ≤ 2 * binary_digits (count_in model table) + 2 }
        ensures walked { (model : Metadata) → IsModel self.now model → ¬ IsKeyOrdered model table → result.reads ≡ 0 }
    {
        metadata_source::rows_by_key(self, table, token)
    }

    /// The starts in a column that lists rows of the member table, from the last row's to the first's (II.22). A load
    /// reads all of them in one pass.
    ///
    /// The column is the index of a cell in its row, as in [`View::cell`].
    pub fn starts(&self, table: TableId, column: usize, member: TableId) -> Starts<'_, 'a>
        requires column { column < cell_count table }
        requires list { (column_at table (column_of table column)).kind ≡ List member }
        ensures count { length result ≡ row_count self.now table }
        ensures model { (model : Metadata) → IsModel self.now model → (row : ℕ) → 1 ≤ row → row ≤ row_count self.now table
            → cell_in model table row column ≡ Start (slice_index result (row_count self.now table - row)) }
    {
        starts_of(self.source(), table, column, member)
    }
}
