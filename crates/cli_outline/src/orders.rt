//! The rows of tables in the order of their names.
ghost use Rattle.std.specs.Prelude.{◌≡◌, ◌≤◌, ◌+◌, ◌-◌, ◌++◌, ℕ, List, All, IfOk, OnOk, map};
ghost use Rattle.std.specs.List.{range_with_len};
ghost use Rattle.cli_outline.specs.Words.{Metadata, IsModel, MemberList as TheList, member_of, row_count, ByName, AreRowsIn, IsRowIn, order_in, is_shown};
ghost use Rattle.cli_outline.specs.declared.orders.Grouping.TheVariants.{Members};
ghost use Rattle.cli_outline.specs.Orders.{AreGrouped, AreInOrder, IsKey, IsKeyed, IsOrder, grouping_of, key_limit, keyed_cmp, row_of_keyed};

use cli_declarations::{Declared, is_declared_in, name_and_declare};
use cli_names::{OutlineOptions, Sorting, Source, TableOrder, run_of};
use opening::{CellCursor, MemberList, TableId, Token, View};
use std::alloc::{AllocError, Global};
use std::cmp::Ordering;
use std::ops::Range;

/// The number of bytes of a key that are always compared.
const OWN_BYTES: usize = 64;

/// The number of further bytes that the keys of rows have together which are put in order together.
const SHARED_BYTES: usize = 1 << 25;

/// A row with its key.
#[derive(Drop)]
pub struct Keyed {
    /// The first bytes of its name, a zero byte, and its declaration; empty if it has no line.
    pub key: Vec<u8>,
    /// The row.
    pub row: u32,
}

/// Which rows of a table are put in order together.
#[derive(Clone, Copy)]
pub enum Grouping {
    /// All rows.
    Table,
    /// The members of each owner.
    Members(MemberList),
    /// None: no line is in their order.
    Nothing,
}

/// Which rows of a table are put in order together.
fn grouping_of(table: TableId) -> Grouping
    ensures grouping { result ≡ grouping_of table }
    ensures members { (list : TheList) → result ≡ Members list → table ≡ member_of list }
{
    match table {
        TableId::Field => Grouping::Members(MemberList::Fields),
        TableId::MethodDef => Grouping::Members(MemberList::Methods),
        TableId::Event => Grouping::Members(MemberList::Events),
        TableId::Property => Grouping::Members(MemberList::Properties),
        TableId::MethodSemantics | TableId::TypeRef | TableId::MemberRef => Grouping::Nothing,
        _ if is_declared_in(table) => Grouping::Table,
        _ => Grouping::Nothing,
    }
}

/// The key of a row: the first bytes of its name, a zero byte, and its declaration; empty if it has no line.
fn key_of(
    source: &Source<'_, '_>,
    token: Token,
    limit: usize,
    declared: &mut Declared,
) -> Result<Vec<u8>, AllocError>
    requires first { 1 ≤ token.row }
    requires last { token.row ≤ row_count source.now.neighbours.view.now token.table }
    ensures { (model : Metadata) → IsModel source.now.neighbours.view.now model → IfOk result (λ key. IsKey (is_shown source.now.options model token) model limit token key.items) }
{
    if !source.shows(token) {
        return Ok(Vec::new(declared.alloc));
    }
    name_and_declare(&source.neighbours, token, declared)?;
    let whole = declared.text.as_bytes();
    let (key, _) = whole.split_at(limit.min(whole.len()));
    Vec::from_slice(declared.alloc, key)
}

/// Some rows of a table with their keys, in ascending order.
fn keyed_rows(
    source: &Source<'_, '_>,
    table: TableId,
    rows: Range<u32>,
    declared: &mut Declared,
) -> Result<Vec<Keyed>, AllocError>
    requires first { 1 ≤ rows.start }
    requires last { rows.«end» ≤ row_count source.now.neighbours.view.now table + 1 }
    ensures rows { IfOk result (λ keyed. map row_of_keyed keyed.items ≡ range_with_len rows.start (rows.«end» - rows.start)) }
    ensures keys { (model : Metadata) → IsModel source.now.neighbours.view.now model → IfOk result (λ keyed. All (IsKeyed source.now.options model table (key_limit (rows.«end» - rows.start))) keyed.items) }
{
    let (first, past) = (rows.start, rows.end);
    let count = past.saturating_sub(first) as usize;
    let limit = OWN_BYTES + SHARED_BYTES / (count + 1);
    let mut keyed = Vec::new(declared.alloc);
    for row in first..past {
        let key = key_of(source, Token { table, row }, limit, declared)?;
        keyed.push(Keyed { key, row })?;
    }
    Ok(keyed)
}

/// Appends some rows of a table in the order of their keys.
fn push_in_order(
    source: &Source<'_, '_>,
    table: TableId,
    rows: Range<u32>,
    declared: &mut Declared,
    order: &mut Vec<u32>,
) -> Result<(), AllocError>
    requires first { 1 ≤ rows.start }
    requires last { rows.«end» ≤ row_count source.now.neighbours.view.now table + 1 }
    ensures { OnOk result ((found : List ℕ) × (order.new.items ≡ order.old.items ++ found) × All (IsRowIn source.now.neighbours.view.now table) found
        × ((model : Metadata) → IsModel source.now.neighbours.view.now model → AreInOrder source.now.options model table rows.start rows.«end» found)) }
{
    let mut keyed = keyed_rows(source, table, rows, declared)?;
    keyed.sort_unstable_by(
        |left: &Keyed, right: &Keyed| -> Ordering
            ensures { result ≡ keyed_cmp left.now right.now }
        { left.key.cmp(&right.key).then(left.row.cmp(&right.row)) },
    );
    for item in &keyed {
        order.push(item.row)?;
    }
    Ok(())
}

/// The members of each owner in the order of their keys, owner by owner.
fn members_in_order(
    source: &Source<'_, '_>,
    list: MemberList,
    declared: &mut Declared,
) -> Result<Vec<u32>, AllocError>
    ensures within { IfOk result (λ order. All (IsRowIn source.now.neighbours.view.now (member_of list)) order.items) }
    ensures grouped { (model : Metadata) → IsModel source.now.neighbours.view.now model
        → IfOk result (λ order. AreGrouped source.now.options model (member_of list) order.items (Members list)) }
{
    let mut order = Vec::new(declared.alloc);
    let mut cells = CellCursor::new(source.neighbours.view);
    for earlier in 0..source.neighbours.view.count(list.owner()) {
        let rows = run_of(&mut cells, list, earlier + 1);
        push_in_order(source, list.member(), rows, declared, &mut order)?;
    }
    Ok(order)
}

/// The rows of a table in order, by what is put in order together.
fn rows_in_order(
    source: &Source<'_, '_>,
    table: TableId,
    declared: &mut Declared,
) -> Result<Vec<u32>, AllocError>
    ensures within { IfOk result (λ order. All (IsRowIn source.now.neighbours.view.now table) order.items) }
    ensures grouped { (model : Metadata) → IsModel source.now.neighbours.view.now model
        → IfOk result (λ order. AreGrouped source.now.options model table order.items (grouping_of table)) }
{
    match grouping_of(table) {
        Grouping::Table => {
            let mut order = Vec::new(declared.alloc);
            let past = source.neighbours.view.count(table) + 1;
            push_in_order(source, table, 1..past, declared, &mut order)?;
            Ok(order)
        }
        Grouping::Members(list) => members_in_order(source, list, declared),
        Grouping::Nothing => Ok(Vec::new(declared.alloc)),
    }
}

/// The orders of the rows of all tables, by their names.
///
/// # Errors
///
/// Out of memory.
fn orders_by_name(alloc: Global, source: &Source<'_, '_>) -> Result<Vec<TableOrder>, AllocError>
    ensures within { IfOk result (λ orders. AreRowsIn source.now.neighbours.view.now orders.items) }
    ensures order { (model : Metadata) → IsModel source.now.neighbours.view.now model → IfOk result (λ orders. IsOrder source.now.options ByName model (order_in orders.items)) }
{
    table_schema::laws::tables_stand();
    let mut orders = Vec::new(alloc);
    let mut declared = Declared::new(alloc);
    for table in TableId::all() {
        let rows = rows_in_order(source, *table, &mut declared)?;
        orders.push(TableOrder { rows })?;
    }
    Ok(orders)
}

/// What the outline of a view is printed from, in the order that is asked for.
///
/// # Errors
///
/// Out of memory.
pub(crate) fn sorted_source<'v, 'a>(
    alloc: Global,
    view: &'v View<'a>,
    options: OutlineOptions,
) -> Result<Source<'v, 'a>, AllocError>
    ensures view { IfOk result (λ source. source.neighbours.view.now ≡ view.now) }
    ensures options { IfOk result (λ source. source.options ≡ options) }
    ensures order { (model : Metadata) → IsModel view.now model → IfOk result (λ source. IsOrder options options.sorting model (order_in source.orders.items)) }
{
    let mut source = Source::new(alloc, view, options)?;
    match options.sorting {
        Sorting::ByRow => Ok(source),
        Sorting::ByName => {
            source.orders = orders_by_name(alloc, &source)?;
            Ok(source)
        }
    }
}
