ghost use Rattle.std.specs.Prelude.{◌≡◌, ◌≤◌, ◌<◌, ℕ, IfSome, IfNone, false};
ghost use Rattle.table_schema.specs.declared.column.ColumnKind.TheVariants as kind;
ghost use Rattle.table_schema.specs.CellColumns.{cell_count};
ghost use Rattle.table_schema.specs.declared.table.TableId.TheVariants.{TypeDef, EventMap, PropertyMap, Event, Property};
ghost use Rattle.metadata.specs.declared.member_lists.MemberList.TheVariants as list_of;
ghost use Rattle.metadata.specs.Metadata.{Metadata};
ghost use Rattle.metadata.specs.Lookups.{IsRun};
ghost use Rattle.metadata.specs.Valid.{kind_at, nullable_at};
ghost use Rattle.navigation.specs.Owners.{Owns};
ghost use Rattle.navigation.specs.Maps.{IsMapOf, IsFirstMap};

use crate::cells;
use crate::owners::{event_map_of_event, property_map_of_property};
use metadata_source::{MemberList, ReadCells, members_of};
use std::ops::Range;
use table_schema::{TableId, Token};

/// The cell of the type that a row of EventMap or PropertyMap is of.
const PARENT: usize = 0;

/// The type that a row of EventMap or PropertyMap is of (II.22.12, II.22.35).
fn type_of_map<S: ReadCells>(source: &S, table: TableId, row: u32) -> u32
    requires first { 1 ≤ row }
    requires last { row ≤ S.row_count source.now table }
    requires cell { 0 < cell_count table }
    requires kind { kind_at table 0 ≡ kind.Row TypeDef }
    requires named { nullable_at table 0 ≡ false }
    ensures map { (model : Metadata) → S.shows source.now model → IsMapOf model table result row }
    ensures first { 1 ≤ result }
    ensures last { result ≤ S.row_count source.now TypeDef }
{
    source.holds_one();
    cells::target(source, TableId::TypeDef, table, row, PARENT)
}

/// The first row of EventMap or PropertyMap that is of a type; `None` if there is none.
fn map_of_type<S: ReadCells>(source: &S, table: TableId, row: u32) -> Option<u32>
    requires cell { 0 < cell_count table }
    requires kind { kind_at table 0 ≡ kind.Row TypeDef }
    requires named { nullable_at table 0 ≡ false }
    ensures sound { (model : Metadata) → S.shows source.now model → IfSome result (IsFirstMap model table row) }
    ensures none { (model : Metadata) → S.shows source.now model → IfNone result ((map : ℕ) → ¬ IsMapOf model table row map) }
    ensures first { IfSome result (λ map. 1 ≤ map) }
    ensures last { IfSome result (λ map. map ≤ S.row_count source.now table) }
{
    source.holds_one();
    for map in 1..source.count(table) + 1 {
        if type_of_map(source, table, map) == row {
            return Some(map);
        }
    }
    None
}

/// The events of a type, as rows of Event (II.22.12, II.22.13); an empty range if no row of EventMap is of the type.
///
/// If more than one row is of the type, they are those of the first. EventMap has no key, so each row before that one is
/// looked at. To go over all types, go over the rows of EventMap instead, with `events_of` and `type_of_event`.
#[tactic(auto, unfolding(table_schema::specs::CellColumns::cell_columns))]
pub fn events_of_type<S: ReadCells>(source: &S, row: u32) -> Range<u32>
    ensures mapped { (model : Metadata) → S.shows source.now model → (map : ℕ) → IsFirstMap model EventMap row map
        → IsRun model EventMap 1 Event map result.start result.end }
    ensures unmapped { (model : Metadata) → S.shows source.now model → ((map : ℕ) → ¬ IsMapOf model EventMap row map)
        → result.start ≡ result.end }
{
    match map_of_type(source, TableId::EventMap, row) {
        Some(map) => members_of(source, MemberList::Events, map),
        None => 1..1,
    }
}

/// The properties of a type, as rows of Property (II.22.34, II.22.35); an empty range if no row of PropertyMap is of the
/// type.
///
/// If more than one row is of the type, they are those of the first. PropertyMap has no key, so each row before that one
/// is looked at. To go over all types, go over the rows of PropertyMap instead, with `properties_of` and
/// `type_of_property`.
#[tactic(auto, unfolding(table_schema::specs::CellColumns::cell_columns))]
pub fn properties_of_type<S: ReadCells>(source: &S, row: u32) -> Range<u32>
    ensures mapped { (model : Metadata) → S.shows source.now model → (map : ℕ) → IsFirstMap model PropertyMap row map
        → IsRun model PropertyMap 1 Property map result.start result.end }
    ensures unmapped { (model : Metadata) → S.shows source.now model → ((map : ℕ) → ¬ IsMapOf model PropertyMap row map)
        → result.start ≡ result.end }
{
    match map_of_type(source, TableId::PropertyMap, row) {
        Some(map) => members_of(source, MemberList::Properties, map),
        None => 1..1,
    }
}

/// The type that has an event, as a row of TypeDef (II.22.12).
///
/// It reads the starts of log n rows of EventMap.
#[tactic(auto, unfolding(table_schema::specs::CellColumns::cell_columns))]
pub fn type_of_event<S: ReadCells>(source: &S, row: u32) -> u32
    requires first { 1 ≤ row }
    requires last { row ≤ S.row_count source.now Event }
    ensures sound { (model : Metadata) → S.shows source.now model → (map : ℕ) × Owns model list_of.Events map row × IsMapOf model EventMap result map }
    ensures one { (model : Metadata) → S.shows source.now model → (map : ℕ) → Owns model list_of.Events map row → IsMapOf model EventMap result map }
    ensures first { 1 ≤ result }
    ensures last { result ≤ S.row_count source.now TypeDef }
{
    let map = event_map_of_event(source, row);
    type_of_map(source, TableId::EventMap, map)
}

/// The type that has a property, as a row of TypeDef (II.22.35).
///
/// It reads the starts of log n rows of PropertyMap.
#[tactic(auto, unfolding(table_schema::specs::CellColumns::cell_columns))]
pub fn type_of_property<S: ReadCells>(source: &S, row: u32) -> u32
    requires first { 1 ≤ row }
    requires last { row ≤ S.row_count source.now Property }
    ensures sound { (model : Metadata) → S.shows source.now model → (map : ℕ) × Owns model list_of.Properties map row × IsMapOf model PropertyMap result map }
    ensures one { (model : Metadata) → S.shows source.now model → (map : ℕ) → Owns model list_of.Properties map row → IsMapOf model PropertyMap result map }
    ensures first { 1 ≤ result }
    ensures last { result ≤ S.row_count source.now TypeDef }
{
    let map = property_map_of_property(source, row);
    type_of_map(source, TableId::PropertyMap, map)
}
