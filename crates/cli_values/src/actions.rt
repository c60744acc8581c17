//! The actions of permission sets (II.22.11).
ghost use Rattle.std.specs.Prelude.{◌≡◌, ◌++◌, OnOk, string_bytes};
ghost use Rattle.cli_values.specs.Actions.{action_text, action_word};

use crate::numbers::push_decimal;
use std::alloc::AllocError;

/// The word of an action; empty if it has none.
#[tactic(auto, unfolding(crate::specs::Actions::action_word))]
fn action_word(action: u32) -> &'static str
    ensures { result.now ≡ action_word action }
{
    match action {
        1 => "request",
        2 => "demand",
        3 => "assert",
        4 => "deny",
        5 => "permitonly",
        6 => "linkcheck",
        7 => "inheritcheck",
        8 => "reqmin",
        9 => "reqopt",
        10 => "reqrefuse",
        11 => "prejitgrant",
        12 => "prejitdeny",
        13 => "noncasdemand",
        14 => "noncaslinkdemand",
        15 => "noncasinheritance",
        _ => "",
    }
}

/// Appends the word of an action, or its number in decimal if it has none.
///
/// # Errors
///
/// Out of memory.
pub fn push_action(action: u32, text: &mut String) -> Result<(), AllocError>
    ensures { OnOk result (string_bytes text.new ≡ string_bytes text.old ++ action_text action) }
{
    let word = action_word(action);
    if word.is_empty() {
        return push_decimal(action as u64, text);
    }
    text.push_str(word)
}
