ghost use Rattle.std.specs.Prelude.{◌≡◌, [], ◌∷◌, IfOk};
ghost use Rattle.table_schema.specs.declared.table.TableId.TheVariants as table;
ghost use Rattle.metadata.specs.Cell.{Number, Text, Bytes, Ref};
ghost use Rattle.tables.specs.Said.{all_said};

use std::alloc::{AllocError, Global};
use type_records::{Cell, FromRow, Record, Row, TableId, Token, owned_row, read_row};

/// Another assembly (II.22.5).
#[derive(Clone, Copy, Debug, PartialEq, Eq)]
pub struct AssemblyRef<'m> {
    /// The major version.
    pub major_version: u32,
    /// The minor version.
    pub minor_version: u32,
    /// The build number of its version.
    pub build_number: u32,
    /// The revision number of its version.
    pub revision_number: u32,
    /// AssemblyFlags (II.23.1.2), which say whether the key is complete.
    pub flags: u32,
    /// The public key of its publisher, or the token of that key; empty if it has none.
    pub public_key_or_token: &'m [u8],
    /// Its name.
    pub name: &'m str,
    /// Its culture (II.23.1.3); empty if it is neutral.
    pub culture: &'m str,
    /// The hash of its bytes; empty if none is given.
    pub hash_value: &'m [u8],
}

impl<'m, W: Row<'m>> FromRow<'m, W> for AssemblyRef<'m> {
    ghost TABLE = { table.AssemblyRef };

    ghost fields = { λ r. Number r.major_version ∷ Number r.minor_version ∷ Number r.build_number
        ∷ Number r.revision_number ∷ Number r.flags ∷ Bytes r.public_key_or_token.now ∷ Text r.name.now
        ∷ Text r.culture.now ∷ Bytes r.hash_value.now ∷ [] };

    const TABLE: TableId = TableId::AssemblyRef;

    fn from_row(row: &W) -> AssemblyRef<'m> {
        read_row! {
            row => AssemblyRef;
            major_version: number(0), minor_version: number(1), build_number: number(2),
            revision_number: number(3), flags: number(4), public_key_or_token: bytes(5),
            name: text(6), culture: text(7), hash_value: bytes(8),
        }
    }
}

impl<'m> Record<'m> for AssemblyRef<'m> {
    fn cells(&self, alloc: Global) -> Result<Vec<Cell>, AllocError> {
        owned_row! {
            alloc;
            Number self.major_version, Number self.minor_version, Number self.build_number,
            Number self.revision_number, Number self.flags, Bytes self.public_key_or_token,
            Text self.name, Text self.culture, Bytes self.hash_value,
        }
    }
}

/// A processor of another assembly (II.22.7). The standard says to ignore it.
#[derive(Clone, Copy, Debug, PartialEq, Eq)]
pub struct AssemblyRefProcessor {
    /// The processor.
    pub processor: u32,
    /// The assembly, in AssemblyRef.
    pub assembly_ref: Option<Token>,
}

impl<'m, W: Row<'m>> FromRow<'m, W> for AssemblyRefProcessor {
    ghost TABLE = { table.AssemblyRefProcessor };

    ghost fields = { λ r. Number r.processor ∷ Ref r.assembly_ref ∷ [] };

    const TABLE: TableId = TableId::AssemblyRefProcessor;

    fn from_row(row: &W) -> AssemblyRefProcessor {
        read_row!(row => AssemblyRefProcessor; processor: number(0), assembly_ref: reference(1))
    }
}

impl<'m> Record<'m> for AssemblyRefProcessor {
    fn cells(&self, alloc: Global) -> Result<Vec<Cell>, AllocError>
        ensures { IfOk result (λ cells. all_said cells.items ≡ Number self.now.processor ∷ Ref self.now.assembly_ref ∷ []) }
    {
        owned_row!(alloc; Number self.processor, Ref self.assembly_ref)
    }
}

/// An operating system of another assembly (II.22.6). The standard says to ignore it.
#[derive(Clone, Copy, Debug, PartialEq, Eq)]
pub struct AssemblyRefOS {
    /// The operating system.
    pub os_platform_id: u32,
    /// The major version of the operating system.
    pub os_major_version: u32,
    /// The minor version of the operating system.
    pub os_minor_version: u32,
    /// The assembly, in AssemblyRef.
    pub assembly_ref: Option<Token>,
}

impl<'m, W: Row<'m>> FromRow<'m, W> for AssemblyRefOS {
    ghost TABLE = { table.AssemblyRefOS };

    ghost fields = { λ r. Number r.os_platform_id ∷ Number r.os_major_version ∷ Number r.os_minor_version
        ∷ Ref r.assembly_ref ∷ [] };

    const TABLE: TableId = TableId::AssemblyRefOS;

    fn from_row(row: &W) -> AssemblyRefOS {
        read_row! {
            row => AssemblyRefOS;
            os_platform_id: number(0), os_major_version: number(1), os_minor_version: number(2),
            assembly_ref: reference(3),
        }
    }
}

impl<'m> Record<'m> for AssemblyRefOS {
    fn cells(&self, alloc: Global) -> Result<Vec<Cell>, AllocError>
        ensures { IfOk result (λ cells. all_said cells.items ≡ Number self.now.os_platform_id ∷ Number self.now.os_major_version ∷ Number self.now.os_minor_version ∷ Ref self.now.assembly_ref ∷ []) }
    {
        owned_row! {
            alloc;
            Number self.os_platform_id, Number self.os_major_version, Number self.os_minor_version,
            Ref self.assembly_ref,
        }
    }
}

/// Another module (II.22.31).
#[derive(Clone, Copy, Debug, PartialEq, Eq)]
pub struct ModuleRef<'m> {
    /// The module's name, which a row of File repeats.
    pub name: &'m str,
}

impl<'m, W: Row<'m>> FromRow<'m, W> for ModuleRef<'m> {
    ghost TABLE = { table.ModuleRef };

    ghost fields = { λ r. Text r.name.now ∷ [] };

    const TABLE: TableId = TableId::ModuleRef;

    fn from_row(row: &W) -> ModuleRef<'m> {
        read_row!(row => ModuleRef; name: text(0))
    }
}

impl<'m> Record<'m> for ModuleRef<'m> {
    fn cells(&self, alloc: Global) -> Result<Vec<Cell>, AllocError> {
        owned_row!(alloc; Text self.name)
    }
}

/// A method that is implemented in unmanaged code (II.22.22).
#[derive(Clone, Copy, Debug, PartialEq, Eq)]
pub struct ImplMap<'m> {
    /// PInvokeAttributes (II.23.1.8).
    pub mapping_flags: u32,
    /// The method, a MethodDef. A Field is possible but not used.
    pub member_forwarded: Option<Token>,
    /// The name of the function in its module.
    pub import_name: &'m str,
    /// The module that exports it, in ModuleRef.
    pub import_scope: Option<Token>,
}

impl<'m, W: Row<'m>> FromRow<'m, W> for ImplMap<'m> {
    ghost TABLE = { table.ImplMap };

    ghost fields = { λ r. Number r.mapping_flags ∷ Ref r.member_forwarded ∷ Text r.import_name.now
        ∷ Ref r.import_scope ∷ [] };

    const TABLE: TableId = TableId::ImplMap;

    fn from_row(row: &W) -> ImplMap<'m> {
        read_row! {
            row => ImplMap;
            mapping_flags: number(0), member_forwarded: reference(1), import_name: text(2),
            import_scope: reference(3),
        }
    }
}

impl<'m> Record<'m> for ImplMap<'m> {
    fn cells(&self, alloc: Global) -> Result<Vec<Cell>, AllocError> {
        owned_row! {
            alloc;
            Number self.mapping_flags, Ref self.member_forwarded, Text self.import_name,
            Ref self.import_scope,
        }
    }
}
