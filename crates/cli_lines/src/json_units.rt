//! Appends UTF-16 units as a member of a line of JSON.
ghost use Rattle.std.specs.Prelude.{◌≡◌, ◌++◌, ◌∷◌, List, IfOk, OnOk};
ghost use Rattle.json.specs.Print.{print};
ghost use Rattle.json.specs.Token as json;
ghost use Rattle.cli_lines.specs.declared.line.Before.TheVariants as here;
ghost use Rattle.cli_lines.specs.Lines.{items_tokens, json_from, units_tokens};
ghost use Rattle.cli_lines.specs.Shown.{shown_file};

use crate::json_line::{push_member, push_name};
use crate::line::Before;
use crate::names::Name;
use crate::parts::Value;
use crate::texts::{Pushed, push_decimal};
use heap_entries::Units;
use std::alloc::{AllocError, Global};

/// The units, in order.
fn collect(alloc: Global, units: Units<'_>) -> Result<Vec<u16>, AllocError>
    ensures { IfOk result (λ all. all.items ≡ units.entry) }
{
    units.collect(alloc)
}

/// Appends units as an array of numbers.
#[tactic(auto, unfolding(json::specs::Print::print_from))]
fn push_array(units: &[u16], line: &mut Vec<u8>) -> Pushed
    ensures { OnOk result (line.new.items ≡ line.old.items ++ print (json.begin_array ∷ items_tokens units.now)) }
{
    match units.split_first() {
        Some((first, later)) => {
            line.push(b'[')?;
            push_decimal(*first as u64, line)?;
            for unit in later {
                line.push(b',')?;
                push_decimal(*unit as u64, line)?;
            }
            Ok(line.push(b']')?)
        }
        None => line.extend_from_slice(b"[]"),
    }
}

/// Appends the member of units: a text, or an array if a surrogate among them has no partner.
pub(crate) fn push_units_member(
    file: Option<&str>,
    at: Before,
    units: Units<'_>,
    line: &mut Vec<u8>,
) -> Pushed
    ensures { OnOk result ((more : List json.Token) → line.new.items ++ json_from (shown_file file.entry) here.Value more
        ≡ line.old.items ++ json_from (shown_file file.entry) at (units_tokens units.entry ++ more)) }
{
    let units = collect(*line.allocator(), units)?;
    match String::from_utf16(*line.allocator(), &units)? {
        Ok(text) => push_member(file, at, Name::Text, &Value::Text(&text), line),
        Err(_) => {
            push_name(file, at, Name::Units, line)?;
            push_array(&units, line)
        }
    }
}
