ghost use Rattle.std.specs.Prelude.{◌≡◌, ◌≢◌, ◌≤◌, ◌<◌, ◌+◌, ◌*◌, ◌/◌, ℕ, Some, IsSome, IfSome, IfNone};
ghost use Rattle.table_schema.specs.declared.table.TableId.{TableId as Table};
ghost use Rattle.table_schema.specs.declared.column.ColumnKind.TheVariants.{List};
ghost use Rattle.table_schema.specs.Columns.{column_at};
ghost use Rattle.metadata.specs.Source.{Source as TheSource, rows_in};
ghost use Rattle.metadata.specs.Starts.{start_of};

use table_schema::TableId;

/// The greatest number of starts that are kept of a column.
const KEPT: u32 = 256;

/// The starts of the runs of some owners: those whose row is a multiple of `step`.
///
/// A null start is that of the next owner, so a look-up moves on to the next start that is not null. With the
/// kept starts it passes fewer than `step` owners, about a 256th of all.
#[repr(C)]
#[derive(Clone, Copy)]
pub struct KnownStarts {
    /// The distance between these owners, in rows.
    pub step: u32,
    /// Their starts: that of row `step * (k + 1)` has index `k`.
    pub starts: [u32; 256],
    ghost moves: { 0 < step },
}

impl KnownStarts {
    ghost use Rattle.reading.specs.KnownStarts.{IsKnown};

    /// Room for the starts of 256 owners. None of them is known.
    pub fn new(owners: u32) -> KnownStarts
        requires { owners ≤ 0xFFFFFF }
        ensures step { result.step ≡ owners / 256 + 1 }
        ensures room { owners < 256 * result.step }
        ensures none { (start : ℕ → ℕ) → IsKnown result start (owners + 1) owners }
    {
        KnownStarts {
            step: owners / KEPT + 1,
            starts: [0; 256],
        }
    }

    /// The index of an owner's start; `None` if it is not kept.
    fn slot(&self, row: u32) -> Option<usize>
        requires { 1 ≤ row }
        ensures kept { IfSome result (λ k. row ≡ self.now.step * (k + 1)) }
        ensures other { IfNone result ((k : ℕ) → row ≢ self.now.step * (k + 1)) }
    {
        if row % self.step == 0 {
            Some((row / self.step - 1) as usize)
        } else {
            None
        }
    }

    /// Keeps the start of an owner, if it is one of these owners.
    pub fn keep(&mut self, row: u32, first: u32)
        requires first { 1 ≤ row }
        requires room { row < 256 * self.old.step }
        ensures step { self.new.step ≡ self.old.step }
        ensures known { (start : ℕ → ℕ) (owners : ℕ) → first ≡ start row → IsKnown self.old start (row + 1) owners → IsKnown self.new start row owners }
    {
        if let Some(slot) = self.slot(row) {
            self.starts[slot] = first;
        }
    }

    /// The start of an owner, if it is known.
    pub fn at(&self, row: u32) -> Option<u32>
        requires { 1 ≤ row }
        ensures known { (start : ℕ → ℕ) (owners : ℕ) → row ≤ owners → IsKnown self.now start 1 owners → IfSome result (λ first. first ≡ start row) }
        ensures there { (k : ℕ) → k < 256 → row ≡ self.now.step * (k + 1) → IsSome result }
    {
        let slot = self.slot(row)?;
        self.starts.get(slot).copied()
    }
}

/// The known starts of the five runs of members (II.22.37, II.22.26, II.22.12 and II.22.35).
#[repr(C)]
#[derive(Clone, Copy)]
pub struct KnownRuns {
    /// The fields of types.
    pub fields: KnownStarts,
    /// The methods of types.
    pub methods: KnownStarts,
    /// The parameters of methods.
    pub params: KnownStarts,
    /// The events of rows of EventMap.
    pub events: KnownStarts,
    /// The properties of rows of PropertyMap.
    pub properties: KnownStarts,
}

impl KnownRuns {
    ghost use Rattle.reading.specs.KnownStarts.{AreKnown};

    /// The start of an owner in a column that lists members, if it is known.
    pub fn at(&self, owner: TableId, column: usize, row: u32) -> Option<u32>
        requires { 1 ≤ row }
        ensures { (source : TheSource) (member : Table) → AreKnown source self.now → (column_at owner column).kind ≡ List member
            → row ≤ rows_in source owner → IfSome result (λ first. first ≡ start_of source owner row column member) }
    {
        let known = match (owner, column) {
            (TableId::TypeDef, 4) => &self.fields,
            (TableId::TypeDef, 5) => &self.methods,
            (TableId::MethodDef, 5) => &self.params,
            (TableId::EventMap, 1) => &self.events,
            (TableId::PropertyMap, 1) => &self.properties,
            _ => return None,
        };
        known.at(row)
    }
}
