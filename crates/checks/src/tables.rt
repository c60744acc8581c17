ghost use Rattle.std.specs.Prelude.{IfOk, IsErrOf, OnOk};
ghost use Rattle.metadata.specs.Rules.{rules_of_tables};
ghost use Rattle.checks.specs.Budgets.{IsBelow};
ghost use Rattle.checks.specs.Within.{IsSpent, ReportsWithin, TextsSpend, counted_bytes};
ghost use Rattle.row_order.specs.Orders.{ReportsOrder};

use crate::budget::{BoundedError, Budget};
use crate::cell_checks::check_cells;
use crate::signature_checks::check_signatures;
use reading::Source;
use row_order::{check_rows, find_order};

/// Checks the rules for the tables of a metadata root, in their order (II.22). The budget limits the number of bytes
/// of texts and of signature blobs that are read.
///
/// If all rules hold, it returns which tables with a key are in order of it, by table number. It does not allocate. The cost is linear in the rows, and in the
/// texts and blobs that they name. These may overlap, so that their lengths can add up to much more than the size of
/// the file. The budget limits this:
///
/// - If not all of `#Strings` is UTF-8, each cell that names a text counts the bytes of the text in the 1/1024 of the heap
///   in which it begins. Otherwise no text is read or counted.
/// - Each read of a signature blob counts its length. Of blobs that do not overlap, those that are longer than 1/1024 of
///   the heap are read once in each column.
///
/// The row with the first fault is read once more to find it. The texts of the first row that breaks a rule for cells,
/// and second reads, are free.
///
/// # Errors
///
/// The fault of the first broken rule, with its offset in the metadata root. `BudgetSpent` if more bytes had to be
/// read than the budget allows. Texts spend it if and only if the rows before the first that breaks a rule for cells
/// count more bytes of texts. Otherwise all rules before those of signatures hold, and the texts and the signature
/// blobs of all rows have more bytes in sum.
pub fn check_tables_within(source: &Source, budget: Budget) -> Result<[bool; 45], BoundedError>
    ensures reports { ReportsWithin (IsSpent budget source.now) (rules_of_tables source.now) result }
    ensures texts { TextsSpend budget source.now → IsErrOf result BoundedError.BudgetSpent }
    ensures enough { OnOk result (¬ IsBelow budget (counted_bytes source.now.source)) }
    ensures order { IfOk result (ReportsOrder source.now.source) }
{
    let in_order = find_order(source);
    let mut left = budget;
    check_cells(source, &mut left)?;
    check_rows(source, &in_order)?;
    check_signatures(source, left)?;
    Ok(in_order)
}
