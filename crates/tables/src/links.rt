ghost use Rattle.std.specs.Prelude.{◌≡◌, unwrap_or, option_map};
ghost use Rattle.std.specs.Option.{option_copied};
ghost use Rattle.packed.specs.Rule.{Reports};
ghost use Rattle.tables.specs.Said.{said};
ghost use Rattle.metadata.specs.Cell.{Number as NumberCell, start_in};
ghost use Rattle.metadata.specs.Valid.{row_in};
ghost use Rattle.metadata.specs.LinkRules.{rules_of_run, rules_of_runs, rules_of_nesting, rules_of_links};
ghost use Rattle.metadata.specs.Refusals.{in_memory};

use crate::Cell;
use crate::counted::Counted;
use metadata::{MemberList, Refusal};
use packed::FaultCode;
use table_schema::TableId;

/// The cells of a nested type and of its enclosing type.
const NESTED: usize = 0;

const ENCLOSING: usize = 1;

/// Checks that each member has one owner, and then that nested types follow their enclosing types (II.22).
#[tactic(auto, using(packed::proofs::RuleLemmas::fails_prefix, packed::proofs::RuleLemmas::fails_back, packed::proofs::RuleLemmas::all_append), unfolding(metadata::specs::LinkRules::rules_of_links))]
pub fn check_links(counted: &Counted) -> Result<(), Refusal>
    ensures { Reports (rules_of_links (in_memory counted.now)) result }
{
    check_runs(counted)?;
    check_nesting(counted)
}

/// Checks that each member of the five runs has one owner (II.22.37, II.22.26, II.22.12 and II.22.35).
#[tactic(auto, using(packed::proofs::RuleLemmas::fails_prefix, packed::proofs::RuleLemmas::fails_back, packed::proofs::RuleLemmas::all_append), unfolding(metadata::specs::LinkRules::rules_of_runs))]
fn check_runs(counted: &Counted) -> Result<(), Refusal>
    ensures { Reports (rules_of_runs (in_memory counted.now)) result }
{
    check_run(counted, MemberList::Fields)?;
    check_run(counted, MemberList::Methods)?;
    check_run(counted, MemberList::Params)?;
    check_run(counted, MemberList::Events)?;
    check_run(counted, MemberList::Properties)
}

/// Checks that each member of a list has one owner, by the starts in the owners' rows.
#[tactic(auto, using(packed::proofs::RuleLemmas::none_from, packed::proofs::RuleLemmas::before_none, packed::proofs::RuleLemmas::before_more, packed::proofs::RuleLemmas::before_all, packed::proofs::RuleLemmas::before_fails), unfolding(metadata::specs::LinkRules::rules_of_run, metadata::specs::LinkRules::rules_of_start))]
fn check_run(counted: &Counted, list: MemberList) -> Result<(), Refusal>
    ensures { Reports (rules_of_run (in_memory counted.now) list) result }
{
    let owner = list.owner();
    let cell_index = list.cell();
    let count = counted.count(owner);
    if count == 0 {
        let member = list.member();
        if counted.count(member) == 0 {
            return Ok(());
        }
        return Err(Refusal::new(FaultCode::NoOwner, member.number(), 1, 0));
    }
    if start_of(counted.cell(owner, 1, cell_index)) != 1 {
        return Err(Refusal::new(FaultCode::BadRun, owner.number(), 1, cell_index));
    }
    for row in 2..count + 1 {
        let before = start_of(counted.cell(owner, row - 1, cell_index));
        let start = start_of(counted.cell(owner, row, cell_index));
        if start < before {
            return Err(Refusal::new(FaultCode::BadRun, owner.number(), row, cell_index));
        }
    }
    Ok(())
}

/// Checks that each nested type follows its enclosing type (II.22.32).
#[tactic(auto, using(packed::proofs::RuleLemmas::before_none, packed::proofs::RuleLemmas::before_more, packed::proofs::RuleLemmas::before_all, packed::proofs::RuleLemmas::before_fails), unfolding(metadata::specs::LinkRules::rules_of_nesting, metadata::specs::LinkRules::rules_of_nesting_in))]
fn check_nesting(counted: &Counted) -> Result<(), Refusal>
    ensures { Reports (rules_of_nesting (in_memory counted.now)) result }
{
    let table = TableId::NestedClass;
    let count = counted.count(table);
    for row in 1..count + 1 {
        let nested = row_of(counted.cell(table, row, NESTED));
        let enclosing = row_of(counted.cell(table, row, ENCLOSING));
        if enclosing >= nested {
            return Err(Refusal::new(FaultCode::NestedOrder, table.number(), row, ENCLOSING));
        }
    }
    Ok(())
}

/// The row of a start; 0 for any other cell.
fn start_of(cell: Option<&Cell>) -> u32
    ensures { result ≡ start_in (unwrap_or (option_map said (option_copied cell.entry)) (NumberCell 0)) }
{
    match cell {
        Some(Cell::Start(start)) => *start,
        _ => 0,
    }
}

/// The row of a reference; 0 for null and any other cell.
fn row_of(cell: Option<&Cell>) -> u32
    ensures { result ≡ row_in (unwrap_or (option_map said (option_copied cell.entry)) (NumberCell 0)) }
{
    match cell {
        Some(Cell::Ref(Some(token))) => token.row,
        _ => 0,
    }
}
