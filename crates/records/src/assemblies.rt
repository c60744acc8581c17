ghost use Rattle.std.specs.Prelude.{◌≡◌, [], ◌∷◌, IfOk};
ghost use Rattle.table_schema.specs.declared.table.TableId.TheVariants as table;
ghost use Rattle.metadata.specs.Cell.{Number, Text, Bytes};
ghost use Rattle.tables.specs.Said.{all_said};

use std::alloc::{AllocError, Global};
use type_records::{Cell, FromRow, Record, Row, TableId, owned_row, read_row};

/// This assembly, in at most one row (II.22.2).
#[derive(Clone, Copy, Debug, PartialEq, Eq)]
pub struct Assembly<'m> {
    /// AssemblyHashAlgorithm (II.23.1.1).
    pub hash_alg_id: u32,
    /// The major version.
    pub major_version: u32,
    /// The minor version.
    pub minor_version: u32,
    /// The build number of its version.
    pub build_number: u32,
    /// The revision number of its version.
    pub revision_number: u32,
    /// AssemblyFlags (II.23.1.2).
    pub flags: u32,
    /// The public key of its publisher; empty if it has none.
    pub public_key: &'m [u8],
    /// Its name.
    pub name: &'m str,
    /// Its culture (II.23.1.3); empty if it is neutral.
    pub culture: &'m str,
}

impl<'m, W: Row<'m>> FromRow<'m, W> for Assembly<'m> {
    ghost TABLE = { table.Assembly };

    ghost fields = { λ r. Number r.hash_alg_id ∷ Number r.major_version ∷ Number r.minor_version
        ∷ Number r.build_number ∷ Number r.revision_number ∷ Number r.flags ∷ Bytes r.public_key.now ∷ Text r.name.now
        ∷ Text r.culture.now ∷ [] };

    const TABLE: TableId = TableId::Assembly;

    fn from_row(row: &W) -> Assembly<'m> {
        read_row! {
            row => Assembly;
            hash_alg_id: number(0), major_version: number(1), minor_version: number(2),
            build_number: number(3), revision_number: number(4), flags: number(5),
            public_key: bytes(6), name: text(7), culture: text(8),
        }
    }
}

impl<'m> Record<'m> for Assembly<'m> {
    fn cells(&self, alloc: Global) -> Result<Vec<Cell>, AllocError> {
        owned_row! {
            alloc;
            Number self.hash_alg_id, Number self.major_version, Number self.minor_version,
            Number self.build_number, Number self.revision_number, Number self.flags,
            Bytes self.public_key, Text self.name, Text self.culture,
        }
    }
}

/// A processor of this assembly (II.22.4). The standard says to ignore it.
#[derive(Clone, Copy, Debug, PartialEq, Eq)]
pub struct AssemblyProcessor {
    /// The processor.
    pub processor: u32,
}

impl<'m, W: Row<'m>> FromRow<'m, W> for AssemblyProcessor {
    ghost TABLE = { table.AssemblyProcessor };

    ghost fields = { λ r. Number r.processor ∷ [] };

    const TABLE: TableId = TableId::AssemblyProcessor;

    fn from_row(row: &W) -> AssemblyProcessor {
        read_row!(row => AssemblyProcessor; processor: number(0))
    }
}

impl<'m> Record<'m> for AssemblyProcessor {
    fn cells(&self, alloc: Global) -> Result<Vec<Cell>, AllocError>
        ensures { IfOk result (λ cells. all_said cells.items ≡ Number self.now.processor ∷ []) }
    {
        owned_row!(alloc; Number self.processor)
    }
}

/// An operating system of this assembly (II.22.3). The standard says to ignore it.
#[derive(Clone, Copy, Debug, PartialEq, Eq)]
pub struct AssemblyOS {
    /// The operating system.
    pub os_platform_id: u32,
    /// The major version of the operating system.
    pub os_major_version: u32,
    /// The minor version of the operating system.
    pub os_minor_version: u32,
}

impl<'m, W: Row<'m>> FromRow<'m, W> for AssemblyOS {
    ghost TABLE = { table.AssemblyOS };

    ghost fields = { λ r. Number r.os_platform_id ∷ Number r.os_major_version ∷ Number r.os_minor_version ∷ [] };

    const TABLE: TableId = TableId::AssemblyOS;

    fn from_row(row: &W) -> AssemblyOS {
        read_row! {
            row => AssemblyOS;
            os_platform_id: number(0), os_major_version: number(1), os_minor_version: number(2),
        }
    }
}

impl<'m> Record<'m> for AssemblyOS {
    fn cells(&self, alloc: Global) -> Result<Vec<Cell>, AllocError>
        ensures { IfOk result (λ cells. all_said cells.items ≡ Number self.now.os_platform_id ∷ Number self.now.os_major_version ∷ Number self.now.os_minor_version ∷ []) }
    {
        owned_row! {
            alloc;
            Number self.os_platform_id, Number self.os_major_version, Number self.os_minor_version,
        }
    }
}
