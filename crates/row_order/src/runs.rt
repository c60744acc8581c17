ghost use Rattle.std.specs.Prelude.{◌≡◌, ◌≤◌, ◌<◌, ◌-◌, ◌+◌, ℕ, IfSome, Some, ◌==◌, nat_lt, if◌then◌else◌};
ghost use Rattle.packed.specs.Rule.{Reports, rules_from};
ghost use Rattle.metadata.specs.Source.{rows_in};
ghost use Rattle.metadata.specs.Starts.{start_of};
ghost use Rattle.metadata.specs.Rules.{in_place};
ghost use Rattle.metadata.specs.LinkRules.{rules_of_start, rules_of_run, rules_of_runs};
ghost use Rattle.metadata.specs.MemberLists.{owner_of, cell_of, member_of};
ghost use Rattle.row_order.specs.Runs.{IsVerdict, fault_in_row};

use metadata::MemberList;
use packed::{Fault, FaultCode};
use reading::Source;

/// The results of a pass over owners: the start of the first run, and the first owner whose start is less than the
/// start before.
#[derive(Clone, Copy)]
struct Walk {
    first: u32,
    falls: Option<u32>,
}

/// Checks that each member of the five runs has one owner (II.22.37, II.22.26, II.22.12 and II.22.35).
#[tactic(auto, using(packed::proofs::RuleLemmas::fails_prefix, packed::proofs::RuleLemmas::fails_back, packed::proofs::RuleLemmas::all_append), unfolding(metadata::specs::LinkRules::rules_of_runs))]
pub fn check_runs(source: &Source) -> Result<(), Fault>
    ensures { Reports (rules_of_runs (in_place source.now)) result }
{
    check_run(source, MemberList::Fields)?;
    check_run(source, MemberList::Methods)?;
    check_run(source, MemberList::Params)?;
    check_run(source, MemberList::Events)?;
    check_run(source, MemberList::Properties)
}

/// Checks that each member of a list has one owner.
#[tactic(auto, using(packed::proofs::RuleLemmas::none_from), unfolding(metadata::specs::LinkRules::rules_of_run))]
fn check_run(source: &Source, list: MemberList) -> Result<(), Fault>
    ensures { Reports (rules_of_run (in_place source.now) list) result }
{
    let owner = list.owner();
    if source.count(owner) == 0 {
        let member = list.member();
        if source.count(member) == 0 {
            return Ok(());
        }
        return Err(source.fault(FaultCode::NoOwner, member, 1, 0));
    }
    let walk = walk_owners(source, list);
    let column = list.cell();
    if walk.first != 1 {
        return Err(source.fault(FaultCode::BadRun, owner, 1, column));
    }
    match walk.falls {
        Some(row) => Err(source.fault(FaultCode::BadRun, owner, row, column)),
        None => Ok(()),
    }
}

/// Goes from the last owner to the first, because the start of a null is that of the next owner.
fn walk_owners(source: &Source, list: MemberList) -> Walk
    requires { 1 ≤ rows_in source.now.source (owner_of list) }
    ensures first { result.first ≡ start_of source.now.source (owner_of list) 1 (cell_of list) (member_of list) }
    ensures within { IfSome result.falls (λ row. (1 ≤ row) × (row ≤ rows_in source.now.source (owner_of list))) }
    ensures falls { IsVerdict (rules_from (rules_of_start (in_place source.now) list) 2 (rows_in source.now.source (owner_of list) - 1))
        (fault_in_row source.now (owner_of list) (cell_of list) result.falls) }
{
    let owner = list.owner();
    let count = source.count(owner);
    let numbers = source.column(owner, list.cell());
    let mut first = start_by(numbers.number(count), source.count(list.member()) + 1);
    let mut falls = None;
    let mut row = count - 1;
    while row > 0 {
        let start = start_by(numbers.number(row), first);
        falls = fallen(falls, row, first, start);
        first = start;
        row -= 1;
    }
    Walk { first, falls }
}

/// The start of an owner's run, from its list value and the start of the next owner.
#[inline]
fn start_by(number: u32, next: u32) -> u32
    ensures { result ≡ (if number == 0 then next else number) }
{
    if number == 0 { next } else { number }
}

/// The first owner whose start decreases, after one more owner before it.
#[inline]
fn fallen(falls: Option<u32>, row: u32, next: u32, start: u32) -> Option<u32>
    requires { row ≤ 0xFFFFFF }
    ensures value { result ≡ (if nat_lt next start then Some (row + 1) else falls) }
    ensures within { (count : ℕ) → row < count → IfSome falls (λ r. (1 ≤ r) × (r ≤ count)) → IfSome result (λ r. (1 ≤ r) × (r ≤ count)) }
{
    if next < start { Some(row + 1) } else { falls }
}
