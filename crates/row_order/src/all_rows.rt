ghost use Rattle.packed.specs.Rule.{Reports};
ghost use Rattle.metadata.specs.Rules.{in_place, rules_of_rows};
ghost use Rattle.metadata.specs.LinkRules.{rules_of_nesting};
ghost use Rattle.row_order.specs.Orders.{ReportsOrder};

use crate::order::check_order;
use crate::runs::check_runs;
use packed::{Fault, FaultCode};
use reading::Source;
use table_schema::TableId;

/// The columns of a nested type, and of the type that encloses it.
const NESTED: usize = 0;

const ENCLOSING: usize = 1;

/// Checks the rules for rows, in their order: the order of their keys, the runs of members, and the order of nested types
/// (II.22). `in_order` says which tables are in order of their keys.
///
/// # Errors
///
/// The fault of the first broken rule, with its offset in the metadata root.
#[tactic(auto, using(packed::proofs::RuleLemmas::fails_prefix, packed::proofs::RuleLemmas::fails_back, packed::proofs::RuleLemmas::all_append), unfolding(metadata::specs::Rules::rules_of_rows, metadata::specs::LinkRules::rules_of_links))]
pub fn check_rows(source: &Source, in_order: &[bool; 45]) -> Result<(), Fault>
    requires { ReportsOrder source.now.source in_order.now }
    ensures { Reports (rules_of_rows source.now) result }
{
    check_order(source, in_order)?;
    check_runs(source)?;
    check_nesting(source)
}

/// Checks that each nested type follows its enclosing type (II.22.32).
#[tactic(auto, using(packed::proofs::RuleLemmas::before_none, packed::proofs::RuleLemmas::before_more, packed::proofs::RuleLemmas::before_all, packed::proofs::RuleLemmas::before_fails), unfolding(metadata::specs::LinkRules::rules_of_nesting, metadata::specs::LinkRules::rules_of_nesting_in))]
fn check_nesting(source: &Source) -> Result<(), Fault>
    ensures { Reports (rules_of_nesting (in_place source.now)) result }
{
    let table = TableId::NestedClass;
    let count = source.count(table);
    for row in 1..count + 1 {
        if source.number(table, row, ENCLOSING) >= source.number(table, row, NESTED) {
            return Err(source.fault(FaultCode::NestedOrder, table, row, ENCLOSING));
        }
    }
    Ok(())
}
