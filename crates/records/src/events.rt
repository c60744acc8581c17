ghost use Rattle.std.specs.Prelude.{◌≡◌, [], ◌∷◌, IfOk};
ghost use Rattle.table_schema.specs.declared.table.TableId.TheVariants as table;
ghost use Rattle.metadata.specs.Cell.{Number, Text, Ref, Start};
ghost use Rattle.tables.specs.Said.{all_said};

use std::alloc::{AllocError, Global};
use type_records::{Cell, FromRow, Record, Row, TableId, Token, owned_row, read_row};

/// A type that has events (II.22.12).
#[derive(Clone, Copy, Debug, PartialEq, Eq)]
pub struct EventMap {
    /// The type, in TypeDef.
    pub parent: Option<Token>,
    /// The first of its events, in Event.
    pub event_list: u32,
}

impl<'m, W: Row<'m>> FromRow<'m, W> for EventMap {
    ghost TABLE = { table.EventMap };

    ghost fields = { λ r. Ref r.parent ∷ Start r.event_list ∷ [] };

    const TABLE: TableId = TableId::EventMap;

    fn from_row(row: &W) -> EventMap {
        read_row!(row => EventMap; parent: reference(0), event_list: start(1))
    }
}

impl<'m> Record<'m> for EventMap {
    fn cells(&self, alloc: Global) -> Result<Vec<Cell>, AllocError>
        ensures { IfOk result (λ cells. all_said cells.items ≡ Ref self.now.parent ∷ Start self.now.event_list ∷ []) }
    {
        owned_row!(alloc; Ref self.parent, Start self.event_list)
    }
}

/// An event of a type (II.22.13).
#[derive(Clone, Copy, Debug, PartialEq, Eq)]
pub struct Event<'m> {
    /// EventAttributes (II.23.1.4).
    pub event_flags: u32,
    /// The event's name.
    pub name: &'m str,
    /// The type of its handlers: a TypeDef, TypeRef or TypeSpec; null if it has none.
    pub event_type: Option<Token>,
}

impl<'m, W: Row<'m>> FromRow<'m, W> for Event<'m> {
    ghost TABLE = { table.Event };

    ghost fields = { λ r. Number r.event_flags ∷ Text r.name.now ∷ Ref r.event_type ∷ [] };

    const TABLE: TableId = TableId::Event;

    fn from_row(row: &W) -> Event<'m> {
        read_row!(row => Event; event_flags: number(0), name: text(1), event_type: reference(2))
    }
}

impl<'m> Record<'m> for Event<'m> {
    fn cells(&self, alloc: Global) -> Result<Vec<Cell>, AllocError> {
        owned_row!(alloc; Number self.event_flags, Text self.name, Ref self.event_type)
    }
}
