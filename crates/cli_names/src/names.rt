//! Finds the fault and the table that an argument names.
ghost use Rattle.std.specs.Prelude.{◌≡◌, IfSome, Some, find};
ghost use Rattle.std.specs.Str.{str_eq_ignore_ascii_case};
ghost use Rattle.packed.specs.Codes.{codes_in_order, name_of, number_of_code};
ghost use Rattle.packed.specs.declared.code.FaultCode.{FaultCode as RuleCode};
ghost use Rattle.table_schema.specs.declared.table.TableId.{TableId as Table};
ghost use Rattle.cli_names.specs.Names.{IsFullName, NamesCode, NamesTable, code_named, table_named};

use crate::numbers::{code_number_of, table_number_of};
use cli_faults::{all_codes, code_of_number};
use packed::{Fault, FaultCode};
use table_schema::TableId;

/// The rule that an argument names: by its number in three decimal digits, or by its name in any case. `None` for any other
/// argument.
pub fn code_of(word: &str) -> Option<FaultCode>
    ensures sound { IfSome result (λ code. NamesCode word.now code) }
    ensures complete { (code : RuleCode) → NamesCode word.now code → result ≡ Some code }
{
    match code_number_of(word) {
        Some(number) => code_of_number(number),
        None => code_named(word),
    }
}

/// The rule with a name, in any case.
fn code_named(name: &str) -> Option<FaultCode>
    ensures { result ≡ code_named name.now }
{
    // Some rules have no name.
    if name.is_empty() {
        return None;
    }
    first_named(name)
}

/// The first rule with a name, in any case.
fn first_named(name: &str) -> Option<FaultCode>
    ensures { result ≡ find (λ code. str_eq_ignore_ascii_case (name_of (number_of_code code)) name.now) codes_in_order }
{
    all_codes()
        .iter()
        .copied()
        .find(|code| same_in_any_case(Fault::new(*code, 0).name(), name))
}

/// The table that an argument names: by its number in two hexadecimal digits, or by its name in any case (II.22). `None` for
/// any other argument.
pub fn table_of(word: &str) -> Option<TableId>
    ensures sound { IfSome result (λ table. NamesTable word.now table) }
    ensures complete { (table : Table) → NamesTable word.now table → result ≡ Some table }
{
    match table_number_of(word) {
        Some(number) => TableId::from_number(number),
        None => table_named(word),
    }
}

/// The table with a name, in any case.
pub fn table_named(name: &str) -> Option<TableId>
    ensures { result ≡ table_named name.now }
{
    TableId::all()
        .iter()
        .copied()
        .find(|table| same_in_any_case(table.name(), name))
}

/// Whether two names are the same in any case.
fn same_in_any_case(name: &str, other: &str) -> bool
    ensures { result ≡ str_eq_ignore_ascii_case name.now other.now }
{
    name.eq_ignore_ascii_case(other)
}

/// The namespace and the name in the full name of a type, which its last dot divides. Without a dot there is no namespace.
pub fn names_of_type(full_name: &str) -> (&str, &str)
    ensures { IsFullName full_name.now result.0.now result.1.now }
{
    full_name.rsplit_once('.').unwrap_or(("", full_name))
}
