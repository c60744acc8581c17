ghost use Rattle.std.specs.Prelude.{◌<◌, length};
ghost use Rattle.packed.specs.Rule.{Reports};
ghost use Rattle.table_schema.specs.Columns.{columns_of, key_of};
ghost use Rattle.row_order.specs.Orders.{ReportsOrder};
ghost use Rattle.metadata.specs.Rules.{rules_of_keys, rules_of_order_by, rules_of_order};

use packed::{Fault, FaultCode};
use reading::Source;
use table_schema::{TableId, key};

/// Checks that each table whose `Sorted` bit is set is in order of its key (II.22). `in_order` says which are.
#[tactic(auto, using(packed::proofs::RuleLemmas::before_none, packed::proofs::RuleLemmas::before_more, packed::proofs::RuleLemmas::before_all, packed::proofs::RuleLemmas::before_fails), unfolding(metadata::specs::Rules::rules_of_order, metadata::specs::Rules::rules_of_order_at))]
pub fn check_order(source: &Source, in_order: &[bool; 45]) -> Result<(), Fault>
    requires { ReportsOrder source.now.source in_order.now }
    ensures { Reports (rules_of_order source.now) result }
{
    let tables = TableId::all();
    for table_index in 0..tables.len() {
        check_order_of(source, tables[table_index], in_order)?;
    }
    Ok(())
}

/// Checks that a table is in order of its key, if its `Sorted` bit is set.
///
/// Only a table that is not in order is read again, to find the first key that decreases.
fn check_order_of(source: &Source, table: TableId, in_order: &[bool; 45]) -> Result<(), Fault>
    requires { ReportsOrder source.now.source in_order.now }
    ensures { Reports (rules_of_order_by source.now table (key_of table)) result }
{
    table_schema::laws::columns_stand();
    table_schema::laws::tables_stand();
    let Some(key) = key(table) else {
        return Ok(());
    };
    if !source.is_said_sorted(table) {
        return Ok(());
    }
    if in_order[table.number() as usize] {
        return Ok(());
    }
    check_keys(source, table, key)
}

/// Checks that the keys of a table never decrease.
#[tactic(auto, using(packed::proofs::RuleLemmas::before_none, packed::proofs::RuleLemmas::before_more, packed::proofs::RuleLemmas::before_all, packed::proofs::RuleLemmas::before_fails), unfolding(metadata::specs::Rules::rules_of_keys, metadata::specs::Rules::rules_of_key_in))]
fn check_keys(source: &Source, table: TableId, key: usize) -> Result<(), Fault>
    requires { key < length (columns_of table) }
    ensures { Reports (rules_of_keys source.now table key) result }
{
    let count = source.count(table);
    for row in 2..count + 1 {
        if source.number(table, row, key) < source.number(table, row - 1, key) {
            return Err(source.fault(FaultCode::NotSorted, table, row, key));
        }
    }
    Ok(())
}
