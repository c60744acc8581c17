//! Prints the outline of a view.
ghost use Rattle.std.specs.Prelude.{◌≡◌, ◌≤◌, ◌+◌};
ghost use Rattle.cli_outline.specs.Words.{TypeDef, token_at, Metadata, count_in, IsModel, owner_of, number_to, table_of, row_count, order_in};
ghost use Rattle.cli_outline.specs.Outline.{class_rows, each_from, members, outline_rows, refs_rows, type_rows};
ghost use Rattle.cli_names.specs.declared.chosen.Choice.TheVariants.{All};
ghost use Rattle.cli_outline.specs.Orders.{AreOutlineRows};
ghost use Rattle.cli_outline.specs.Printed.{PrintsRows, PrintsSome};
ghost use Rattle.cli_outline.specs.References.{PrintsRefs};
ghost use Rattle.cli_outline.specs.Subjects.{AreTypeRows, PrintsChosen, PrintsNone, PrintsSubject, is_declared};

use crate::chosen::{print_chosen, print_positions};
use crate::line::print_row;
use crate::orders::sorted_source;
use cli_declarations::{Declared, is_declared_in};
use cli_lines::Printer;
use cli_names::{Choice, OutlineOptions, Source, Subject, finds, found_row, run_of, wanted_types};
use navigation::Link;
use opening::{CellCursor, MemberList, TableId, Token, View};
use std::alloc::Global;
use std::io::Write;

/// The tables whose rows come before the types, in the order of the lines.
const FIRST_TABLES: &[TableId] = &[
    TableId::Assembly,
    TableId::AssemblyRef,
    TableId::Module,
    TableId::ModuleRef,
    TableId::File,
    TableId::ManifestResource,
    TableId::ExportedType,
];

/// The tables whose rows come after the types.
const LAST_TABLES: &[TableId] = &[
    TableId::Param,
    TableId::InterfaceImpl,
    TableId::GenericParam,
    TableId::GenericParamConstraint,
    TableId::MethodImpl,
    TableId::ImplMap,
    TableId::DeclSecurity,
    TableId::CustomAttribute,
];

/// The tables whose rows refer to other modules and to what is in them.
const REF_TABLES: &[TableId] = &[TableId::ModuleRef, TableId::TypeRef, TableId::MemberRef];

/// What became of the outline of one type or another row.
#[derive(Clone, Copy, PartialEq, Eq)]
pub enum Outcome {
    /// Its lines are printed.
    Printed,
    /// No row is the subject, or the row has no declaration. Nothing is printed.
    NoSuchType,
    /// Memory ran out before the row was found. Nothing is printed.
    OutOfMemory,
}

/// Prints the lines of the members of a type or of a row of EventMap or PropertyMap, each with its accessors.
fn print_members<W: Write>(
    source: &Source<'_, '_>,
    cells: &mut CellCursor<'_, '_>,
    list: MemberList,
    row: u32,
    declared: &mut Declared,
    out: &mut Printer<'_, W>,
)
    requires first { 1 ≤ row }
    requires last { row ≤ row_count cells.old (owner_of list) }
    requires at { cells.old ≡ source.now.neighbours.view.now }
    ensures same { cells.new ≡ cells.old }
    ensures lines { (model : Metadata) → IsModel source.now.neighbours.view.now model → PrintsChosen source.now.options model All out.old out.new (members (order_in source.now.orders.items) model list row) }
{
    let rows = run_of(cells, list, row);
    print_positions(source, list.member(), rows, Choice::All, declared, out);
}

/// Prints the lines of the events or the properties of a type. The rows of their map refer to it by the link.
fn print_mapped<W: Write>(
    source: &Source<'_, '_>,
    cells: &mut CellCursor<'_, '_>,
    list: MemberList,
    link: Link,
    class: u32,
    declared: &mut Declared,
    out: &mut Printer<'_, W>,
)
    requires maps { table_of link ≡ owner_of list }
    requires number { class ≡ number_to link (token_at TypeDef class) }
    requires at { cells.old ≡ source.now.neighbours.view.now }
    ensures same { cells.new ≡ cells.old }
    ensures lines { (model : Metadata) → IsModel source.now.neighbours.view.now model → PrintsChosen source.now.options model All out.old out.new (type_rows (order_in source.now.orders.items) model list link class) }
{
    let maps = source.neighbours.linked(link, class);
    for map in maps {
        print_members(source, cells, list, map.row, declared, out);
    }
}

/// Prints the lines of a type, of its fields, its methods, its events and its properties.
#[tactic(auto, unfolding(table_schema::specs::CellColumns::cell_columns))]
fn print_class<W: Write>(
    source: &Source<'_, '_>,
    cells: &mut CellCursor<'_, '_>,
    row: u32,
    declared: &mut Declared,
    out: &mut Printer<'_, W>,
)
    requires first { 1 ≤ row }
    requires last { row ≤ row_count cells.old TypeDef }
    requires at { cells.old ≡ source.now.neighbours.view.now }
    ensures same { cells.new ≡ cells.old }
    ensures lines { (model : Metadata) → IsModel source.now.neighbours.view.now model → PrintsChosen source.now.options model All out.old out.new (class_rows (order_in source.now.orders.items) model row) }
{
    let table = TableId::TypeDef;
    print_row(source, Choice::All, Token { table, row }, declared, out);
    print_members(source, cells, MemberList::Fields, row, declared, out);
    print_members(source, cells, MemberList::Methods, row, declared, out);
    let (list, link) = (MemberList::Events, Link::Events);
    print_mapped(source, cells, list, link, row, declared, out);
    let (list, link) = (MemberList::Properties, Link::Properties);
    print_mapped(source, cells, list, link, row, declared, out);
}

/// Prints the lines of all types and their members.
fn print_classes<W: Write>(
    source: &Source<'_, '_>,
    declared: &mut Declared,
    out: &mut Printer<'_, W>,
)
    ensures { (model : Metadata) → IsModel source.now.neighbours.view.now model → PrintsChosen source.now.options model All out.old out.new (each_from (class_rows (order_in source.now.orders.items) model) (order_in source.now.orders.items TypeDef) 1 (count_in model TypeDef + 1)) }
{
    let mut cells = CellCursor::new(source.neighbours.view);
    let count = source.neighbours.view.count(TableId::TypeDef);
    for position in 1..count + 1 {
        let row = source.row_at(TableId::TypeDef, position);
        print_class(source, &mut cells, row, declared, out);
    }
}

/// Prints all lines of the outline.
fn print_all<W: Write>(source: &Source<'_, '_>, declared: &mut Declared, out: &mut Printer<'_, W>)
    ensures { (model : Metadata) → IsModel source.now.neighbours.view.now model → PrintsRows source.now.options model out.old out.new (outline_rows (order_in source.now.orders.items) model) }
{
    print_chosen(source, FIRST_TABLES, Choice::All, declared, out);
    print_classes(source, declared, out);
    print_chosen(source, LAST_TABLES, Choice::All, declared, out);
}

/// Prints the outline of a view: its declarations in the notation of ILAsm (II.5 to II.22), one per line. Each line ends
/// with the token of its row in a comment, as eight hexadecimal digits, unless the options hide it. Texts of the file are escaped: printable ASCII
/// except `"` and `\` is as it is, any other byte is `\x` and two hexadecimal digits. Of a name, a signature or another
/// text that is longer than 65,536 bytes the first ones are printed, and `..`. As JSON Lines a line is an object: `token`,
/// of a member `type` (the token of its type), `directive` (the first word), and `text` (the declaration). There the names
/// are as they are in the file, and only a quote and a backslash are escaped, unless a name was cut within a character.
///
/// First come the assembly, the references to others, the module, files, resources and exported types. Then come the types
/// in the order of their rows, each with its fields, methods, events and properties below it. Below an event and a
/// property come its accessors. Then come the rows of other tables, such as the parameters with default values and the
/// interfaces of types. EventMap, PropertyMap and MethodSemantics may be in any order: their rows are sorted once.
///
/// With [`ByName`](crate::Sorting::ByName) the types stand in the order of their names, and so do the fields, methods, events and
/// properties of each, and the rows of each other table. Of one name, and of rows without one, the order is that of the bytes of
/// their declarations. Of name and declaration the first 64 bytes are compared, and 32 MiB more of all that are put in order
/// together. Each row is named and declared once more for it, and the memory is that of these bytes, the longest line, and
/// some 60 bytes for each row that is put in order.
///
/// Its time is that of the lines, of the blobs in them, and at most log n for each name of a type and each row of these
/// three tables. A name has the types that enclose it, at most 64, each found by binary search. If NestedClass is not in
/// the order of its key (II.22), names have none of them. Names in what is cut are not looked up.
///
/// Its memory is that of the longest line, of the lines that wait to be sent, eight bytes for each row of the tables of
/// [`Link`](navigation::Link), and four bytes for each type, method, map and nested type.
pub fn print_outline<W: Write>(
    alloc: Global,
    view: &View<'_>,
    options: OutlineOptions,
    out: &mut Printer<'_, W>,
)
    ensures { (model : Metadata) → IsModel view.now model → PrintsSome options model (AreOutlineRows options model) out.old out.new }
{
    match sorted_source(alloc, view, options) {
        Ok(source) => print_all(&source, &mut Declared::new(alloc), out),
        Err(_) => out.fail(),
    }
}

/// Prints what a view refers to in other modules, one per line as [`print_outline`] prints declarations: the modules, the
/// types, and the methods and fields, in the order of their rows (II.22.25, II.22.31, II.22.38). A type has its scope in
/// brackets before its name (II.7.3).
///
/// Its time is that of the lines, and of the blobs in them. Its memory is that of [`print_outline`].
pub fn print_refs<W: Write>(
    alloc: Global,
    view: &View<'_>,
    options: OutlineOptions,
    out: &mut Printer<'_, W>,
)
    ensures { (model : Metadata) → IsModel view.now model → PrintsRows options model out.old out.new (refs_rows model) }
{
    match Source::new(alloc, view, options) {
        Ok(source) => {
            let mut declared = Declared::new(alloc);
            print_chosen(&source, REF_TABLES, Choice::All, &mut declared, out);
        }
        Err(_) => out.fail(),
    }
}

/// Prints what a view refers to of one type of other modules, as [`print_refs`] prints it: the type, and its
/// methods and fields, also those of its instances (II.22.25, II.22.38, II.23.2.14). If types of several scopes have the name,
/// those of all.
///
/// Its time is that of the lines, and for each type and member that of a look at the name.
pub fn print_refs_of<W: Write>(
    alloc: Global,
    view: &View<'_>,
    subject: Subject<'_>,
    options: OutlineOptions,
    out: &mut Printer<'_, W>,
) -> Outcome
    ensures printed { (model : Metadata) → IsModel view.now model → PrintsRefs options model subject.entry out.old out.new result }
    ensures untouched { PrintsNone out.old out.new result }
{
    let Ok(types) = wanted_types(alloc, subject) else {
        return Outcome::OutOfMemory;
    };
    if !finds(view, &types) {
        return Outcome::NoSuchType;
    }
    let Ok(source) = Source::new(alloc, view, options) else {
        return Outcome::OutOfMemory;
    };
    let mut declared = Declared::new(alloc);
    let tables = [TableId::TypeRef, TableId::MemberRef];
    let belonging = Choice::Belonging(&types);
    print_chosen(&source, &tables, belonging, &mut declared, out);
    Outcome::Printed
}

/// Prints the outline of a type of a view: its line, those of its fields, methods, events and properties, and those of the rows
/// that describe them.
fn print_type<W: Write>(
    alloc: Global,
    view: &View<'_>,
    row: u32,
    options: OutlineOptions,
    out: &mut Printer<'_, W>,
)
    requires first { 1 ≤ row }
    requires last { row ≤ row_count view.now TypeDef }
    ensures { (model : Metadata) → IsModel view.now model → PrintsSome options model (AreTypeRows options model row) out.old out.new }
{
    match sorted_source(alloc, view, options) {
        Ok(source) => {
            let mut cells = CellCursor::new(source.neighbours.view);
            let mut declared = Declared::new(alloc);
            print_class(&source, &mut cells, row, &mut declared, out);
            let table = TableId::TypeDef;
            let describing = Choice::Describing(Token { table, row });
            print_chosen(&source, LAST_TABLES, describing, &mut declared, out);
        }
        Err(_) => out.fail(),
    }
}

/// Whether a row has a declaration of its own.
fn declares(source: &Source<'_, '_>, token: Token) -> bool
    requires { token.row ≤ row_count source.now.neighbours.view.now token.table }
    ensures { (model : Metadata) → IsModel source.now.neighbours.view.now model → result ≡ is_declared model token }
{
    is_declared_in(token.table) && source.has_line(token)
}

/// Prints the outline of one type of a view: the line of the type, and below it those of its fields, methods, events and
/// properties, as [`print_outline`] does. Last come the interfaces, generic parameters, constraints, overrides, imports,
/// permission sets and attributes of the type, its members and their parameters: for this it takes one pass over these tables.
/// Of a row of another table it prints the line that [`print_outline`] or [`print_refs`] prints of it.
pub fn print_outline_of<W: Write>(
    alloc: Global,
    view: &View<'_>,
    subject: Subject<'_>,
    options: OutlineOptions,
    out: &mut Printer<'_, W>,
) -> Outcome
    ensures printed { (model : Metadata) → IsModel view.now model → PrintsSubject options model subject.entry out.old out.new result }
    ensures untouched { PrintsNone out.old out.new result }
{
    let token = match found_row(alloc, view, subject) {
        Ok(Some(token)) => token,
        Ok(None) => return Outcome::NoSuchType,
        Err(_) => return Outcome::OutOfMemory,
    };
    if let TableId::TypeDef = token.table {
        print_type(alloc, view, token.row, options, out);
        return Outcome::Printed;
    }
    let Ok(source) = Source::new(alloc, view, options) else {
        return Outcome::OutOfMemory;
    };
    if !declares(&source, token) {
        return Outcome::NoSuchType;
    }
    print_row(&source, Choice::All, token, &mut Declared::new(alloc), out);
    Outcome::Printed
}
