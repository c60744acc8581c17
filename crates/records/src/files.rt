ghost use Rattle.std.specs.Prelude.{[], ◌∷◌, Some};
ghost use Rattle.table_schema.specs.declared.table.TableId.TheVariants as table;
ghost use Rattle.metadata.specs.Cell.{Number, Text, Bytes, Ref};
ghost use Rattle.metadata.specs.Names.{full_name};

use std::alloc::{AllocError, Global};
use std::fmt;
use type_records::{Cell, FromRow, FullName, Record, Row, TableId, Token, owned_row, read_row};

/// Another file of this assembly (II.22.19).
#[derive(Clone, Copy, Debug, PartialEq, Eq)]
pub struct File<'m> {
    /// FileAttributes (II.23.1.6).
    pub flags: u32,
    /// Its name, with its extension but without a folder.
    pub name: &'m str,
    /// The hash of its bytes.
    pub hash_value: &'m [u8],
}

impl<'m, W: Row<'m>> FromRow<'m, W> for File<'m> {
    ghost TABLE = { table.File };

    ghost fields = { λ r. Number r.flags ∷ Text r.name.now ∷ Bytes r.hash_value.now ∷ [] };

    const TABLE: TableId = TableId::File;

    fn from_row(row: &W) -> File<'m> {
        read_row!(row => File; flags: number(0), name: text(1), hash_value: bytes(2))
    }
}

impl<'m> Record<'m> for File<'m> {
    fn cells(&self, alloc: Global) -> Result<Vec<Cell>, AllocError> {
        owned_row!(alloc; Number self.flags, Text self.name, Bytes self.hash_value)
    }
}

/// A type that this assembly exports from another of its modules, or forwards to another assembly (II.22.14).
#[derive(Clone, Copy, Debug, PartialEq, Eq)]
pub struct ExportedType<'m> {
    /// TypeAttributes (II.23.1.15).
    pub flags: u32,
    /// A hint: the token or row of the type in TypeDef of its own module. It is a number, because it counts there.
    pub type_def_id: u32,
    /// The type's name.
    pub type_name: &'m str,
    /// Its namespace; empty if it has none.
    pub type_namespace: &'m str,
    /// The location of the type: a File, an AssemblyRef, or the ExportedType that encloses it; null if the location is
    /// not given.
    pub implementation: Option<Token>,
}

impl<'m, W: Row<'m>> FromRow<'m, W> for ExportedType<'m> {
    ghost TABLE = { table.ExportedType };

    ghost fields = { λ r. Number r.flags ∷ Number r.type_def_id ∷ Text r.type_name.now ∷ Text r.type_namespace.now
        ∷ Ref r.implementation ∷ [] };

    const TABLE: TableId = TableId::ExportedType;

    fn from_row(row: &W) -> ExportedType<'m> {
        read_row! {
            row => ExportedType;
            flags: number(0), type_def_id: number(1), type_name: text(2), type_namespace: text(3),
            implementation: reference(4),
        }
    }
}

impl<'m> Record<'m> for ExportedType<'m> {
    fn cells(&self, alloc: Global) -> Result<Vec<Cell>, AllocError> {
        owned_row! {
            alloc;
            Number self.flags, Number self.type_def_id, Text self.type_name,
            Text self.type_namespace, Ref self.implementation,
        }
    }
}

/// The full name of the type: the namespace and a dot, unless the namespace is empty, then the name.
impl fmt::Display for ExportedType<'_> {
    ghost output = { λ r. Some (full_name r.type_namespace.now r.type_name.now) };

    fn fmt<W: fmt::Write>(&self, f: &mut fmt::Formatter<W>) -> fmt::Result {
        FullName(self.type_namespace, self.type_name).fmt(f)
    }
}

/// A resource of this assembly (II.22.24).
#[derive(Clone, Copy, Debug, PartialEq, Eq)]
pub struct ManifestResource<'m> {
    /// Its offset in bytes from the start of the resources in its file.
    pub offset: u32,
    /// ManifestResourceAttributes (II.23.1.9).
    pub flags: u32,
    /// Its name.
    pub name: &'m str,
    /// Its location: a File or an AssemblyRef; null if it is in this file.
    pub implementation: Option<Token>,
}

impl<'m, W: Row<'m>> FromRow<'m, W> for ManifestResource<'m> {
    ghost TABLE = { table.ManifestResource };

    ghost fields = { λ r. Number r.offset ∷ Number r.flags ∷ Text r.name.now ∷ Ref r.implementation ∷ [] };

    const TABLE: TableId = TableId::ManifestResource;

    fn from_row(row: &W) -> ManifestResource<'m> {
        read_row! {
            row => ManifestResource;
            offset: number(0), flags: number(1), name: text(2), implementation: reference(3),
        }
    }
}

impl<'m> Record<'m> for ManifestResource<'m> {
    fn cells(&self, alloc: Global) -> Result<Vec<Cell>, AllocError> {
        owned_row! {
            alloc;
            Number self.offset, Number self.flags, Text self.name, Ref self.implementation,
        }
    }
}
