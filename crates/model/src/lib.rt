//! The public API for the metadata of .NET assemblies (ECMA-335 II.22 to II.25). Files need not be trusted. One crate
//! has all names that a client needs.
//!
//! **Opening** reads the one model of a file or a root in place, from the caller's bytes, and does not allocate. It
//! succeeds if and only if there is a model. Otherwise it returns the [`Fault`] of the first rule that the bytes break:
//!
//! ```text
//! let (header, view) = open_image(&file)?;
//! let row = view.find_type("System", "Object")?;
//! for method in view.methods_of(row) { view.cell(TableId::MethodDef, method, 3) } // CellRef::Text(".ctor")
//! ```
//!
//! **Loading** makes the same model with its own memory, so that the bytes can be dropped. It runs out of memory only
//! if there is a model:
//!
//! ```text
//! let (header, model) = load_image(alloc, &file)?;
//! for row in model.by_key(TableId::CustomAttribute, token) { model.cells(TableId::CustomAttribute, row) }
//! let model = view.model(alloc)?; // of a view that is open already
//! ```
//!
//! **Building** makes a model from rows of a program. `from_tables` does not allocate. If the rows break a rule, it
//! returns the [`Refusal`] of the first one, and the rows. A row is a vector of [`Cell`]s, or a record that is
//! converted to one:
//!
//! ```text
//! let mut tables = Tables::new(alloc, "v4.0.30319")?;
//! tables.push(TableId::ModuleRef, ModuleRef { name: "a.dll" }.cells(alloc)?)?;
//! match Model::from_tables(tables) {
//!     Ok(model) => model.count(TableId::ModuleRef), // 1
//!     Err((refusal, tables)) => // `refusal.code` of the cell at `refusal.table`, `.row`, `.column`
//! }
//! ```
//!
//! **Writing** makes the one canonical root of a model. Loading it gives an equal model:
//!
//! ```text
//! let root = write_root(alloc, &model)?;               // its bytes, or
//! write_root_to(alloc, &model, &mut Counted::new(out))? // through a writer that may fail
//! let root = prepare(alloc, &view, 1 << 30)?;          // of a view that is open: no model is made
//! ```
//!
//! **Embedding** puts a root into a copy of its file: the file's own canonical root, or another that leads into the file:
//!
//! ```text
//! let copy = embed_canonical(alloc, &file, StrongName::Keep)?;  // its bytes
//! let copy = embed(alloc, &file, &root, StrongName::Clear)?;    // or why not: an `EmbedError`
//! let plan = plan_embedding(&file, &root, StrongName::Clear)?;  // does not allocate: `plan.len()` bytes, and
//! plan.fill(&mut buffer)                                        // into a buffer of that length, or
//! plan.write_to(alloc, &mut Counted::new(out))?                 // through a writer that may fail
//! ```
//!
//! **Comparing** says whether two views have the same model, and what differs:
//!
//! ```text
//! if !is_equal(alloc, &left, &right)? { differences(alloc, &left, &right, 20)? } // at most 20 cells
//! ```
//!
//! **Names** of types and methods are written to any `fmt::Write`, of a view and of a model. Only the bytes of a
//! model's signature are allocated:
//!
//! ```text
//! let class = type_of_method(&view, method);
//! write_full_name(alloc, &view, Token { table: TableId::TypeDef, row: class }, &mut text)?; // Hello.Greeter/Settings
//! write_method(alloc, &view, method, &mut text)?; // string Hello.Greeter::Greet(string name, int32 times)
//! ```
//!
//! The contract of each call says what is proved of it. This crate has no code.
#![tactic(auto)]

// Bytes and files in place.
pub use opening::{
    BoundedError, CellRef, CliHeader, Fault, FaultCode, Heads, KeyNumbers, KeyRows, KeysOf,
    MemberList, Pe, ReadCells, ReadMetadata, Root, SignatureBytes, Starts, TableId, Token, View,
    open_image, open_image_within, open_root, open_root_within, read_heads,
};

// The heaps: user strings, and the text of a GUID.
pub use heaps::{HeapFault, PoolError, Units, UserHeap, UserString, guid_text, user_string};

// The kinds of columns, and their names.
pub use schema::{Coded, Column, ColumnKind, cell_count, column_names, columns, key};

// Models that own their memory.
pub use owned_model::{
    Bytes, Cell, LoadError, Model, ReadRows, Records, RefRow, Refusal, Row, Tables, Text, ToModel,
    cells_of, load_image, load_root, resolve, row, rows,
};

// Signatures in place: item by item, and in the notation of ILAsm.
pub use sig_items::{CallingConvention, Item, Items, MethodHead};
pub use sig_text::{NamedText, TextSink, TokenNames, write_signature};

// The values of custom attributes, item by item.
pub use blob_values::{
    Argument, ArgumentType, ElementType, Item as AttributeItem, Items as AttributeItems, Member,
    Scalar, Value as AttributeValue,
};

// Signatures and their values.
pub use signatures::{
    Core, Element, FieldSig, InstanceSig, Local, LocalsSig, MethodSig, Modifier, Prefix,
    PropertySig, Ret, Shape, SigBody, SigError, SigKind, Signature, Slot, SlotKind, TypeSig,
    canonical_encoding, decode, encode, recognise,
};

// Rows as records.
pub use records::{
    Assembly, AssemblyOS, AssemblyProcessor, AssemblyRef, AssemblyRefOS, AssemblyRefProcessor,
    CellRow, ClassLayout, CodedRow, Constant, CustomAttribute, CustomAttributeType, DeclSecurity,
    Event, EventMap, ExportedType, Field, FieldLayout, FieldMarshal, FieldRVA, File, FromRow,
    GenericParam, GenericParamConstraint, ImplMap, Implementation, InterfaceImpl, IsSignature,
    ManifestResource, MemberRef, MemberRefParent, MethodDef, MethodDefOrRef, MethodImpl,
    MethodSemantics, MethodSpec, Module, ModuleRef, NestedClass, Param, Property, PropertyMap,
    Record, ResolutionScope, Row as AnyRow, StandAloneSig, TypeDef, TypeDefOrRef, TypeOrMethodDef,
    TypeRef, TypeSpec, record_of,
};

// From a row to the rows that belong to it, of a view and of a model.
pub use navigation::{
    enclosing_type, enclosing_type_ref, event_map_of_event, events_of_type, method_of_param,
    properties_of_type, property_map_of_property, type_of_event, type_of_field, type_of_method,
    type_of_property,
};

// Names of types and signatures of methods as text.
pub use declarations::{write_method, write_method_within};
pub use full_names::{
    DEPTH, FullNames, Limit, NoLimit, Scopes, TextError, write_full_name, write_full_name_within,
    write_type_def, write_type_ref,
};

// Whether two views have the same model, what differs, and the digest of a canonical root.
pub use comparison::{Difference, IgnoredColumns, differences, differences_but, digest, is_equal};

// The canonical root of a model or a view.
pub use writer::{
    Counted, Prepared, Sink, WriteError, prepare, write_root, write_root_to, write_root_within,
};

// A copy of a file with another root.
pub use embedding::{EmbedError, EmbedPlan, StrongName, embed, embed_canonical, plan_embedding};
