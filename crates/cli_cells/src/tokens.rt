//! `clim token`: the rows and user strings that tokens name (ECMA-335 III.1.9 and II.24.2.4).
ghost use Rattle.std.specs.Prelude.{◌≡◌, ◌≤◌, ◌∷◌, [], List, IfErr, IfNone, IfSome, OnOk, OnSome, All};
ghost use Rattle.cli_cells.specs.Words.{zero_padded, IsToken, Metadata, IsModel, row_count, user_of, Part, Prints};
ghost use Rattle.cli_cells.specs.TokenLines.{ArePrinted, HasTokenRow, IsNamed, IsTokenLine, Reports, user_line};

use crate::row_lines::{Names, print_row};
use cli_faults::Failure;
use cli_lines::Part::{Field, Member, Units, Word};
use cli_lines::Value::{Hex, Null, Number};
use cli_lines::{Name, Printer};
use heap_entries::{UserString, copy_padded, user_string};
use opening::{CellCursor, Token, View};
use std::alloc::{AllocError, Global};
use std::io::Write;

/// The high byte of a token that names an offset in `#US` (III.1.9).
const USER_STRINGS: u32 = 0x70;

/// The number of row numbers in a token, with that of null: the high byte is the table.
const ROWS: u32 = 1 << 24;

/// The token with a number (III.1.9), if it names a row of the view. `None` if no table has the number in the high
/// byte, or the low three bytes are 0 or not a row of that table.
fn existing_row(view: &View<'_>, number: u32) -> Option<Token>
    ensures sound { IfSome result (λ token. IsToken number token × (1 ≤ token.row) × (token.row ≤ row_count view.now token.table)) }
    ensures none { IfNone result (¬ HasTokenRow view.now number) }
{
    let token = Token::from_u32(number)?;
    if 1 <= token.row && token.row <= view.count(token.table) {
        Some(token)
    } else {
        None
    }
}

/// Prints a line for what each of these tokens names in a view, in their order: a row as in `clim show`, or a user string.
///
/// # Errors
///
/// `NoSuchRow` if a token names nothing; then the lines of those before it were printed. Out of memory; then nothing was.
pub fn print_tokens<W: Write>(
    alloc: Global,
    view: &View<'_>,
    numbers: &[u32],
    out: &mut Printer<'_, W>,
) -> Result<(), Failure<'static>>
    ensures there { OnOk result (All (IsNamed view.now) numbers.now) }
    ensures printed { OnOk result (ArePrinted view.now out.old out.new numbers.now) }
    ensures stopped { IfErr result (Reports view.now out.old out.new numbers.now) }
{
    cli_lines::laws::lines_follow::<W>();
    let Ok(user) = copy_padded(alloc, view.user()) else {
        return Err(Failure::OutOfMemory);
    };
    for number in numbers {
        match print_named(alloc, view, &user, *number, out) {
            Some(()) => {}
            None => return Err(Failure::NoSuchRow),
        }
    }
    Ok(())
}

/// Prints the line of what a token names: the user string at the offset in its low three bytes, or a row. `None` if it names nothing.
/// The user strings are padded.
fn print_named<W: Write>(
    alloc: Global,
    view: &View<'_>,
    user: &[u8],
    number: u32,
    out: &mut Printer<'_, W>,
) -> Option<()>
    requires { user.now ≡ zero_padded (user_of view.now) }
    ensures named { OnSome result (IsNamed view.now number) }
    ensures line { OnSome result ((model : Metadata) → IsModel view.now model
        → (parts : List Part) × IsTokenLine model number parts × Prints out.old out.new (parts ∷ [])) }
    ensures none { IfNone result ((¬ IsNamed view.now number) × (out.new ≡ out.old)) }
{
    metadata::laws::models_are_read();
    if number / ROWS == USER_STRINGS {
        let Ok(string) = user_string(user, number % ROWS) else {
            return None;
        };
        print_user_string(number, &string, out);
        return Some(());
    }
    let token = existing_row(view, number)?;
    let mut cells = CellCursor::new(view);
    print_row(alloc, Names::Hidden, &mut cells, token, out);
    Some(())
}

/// Prints the line of the user string that a number names (II.24.2.4): `user TEXT FLAG`. TEXT has each unit from 0x20 to
/// 0x7E except the backslash as it is, and any other as `\u` and four hexadecimal digits. FLAG is the last byte in
/// decimal. The line of a string of no bytes is `user`.
#[tactic(auto, unfolding(crate::specs::TokenLines::user_line))]
fn print_user_string<W: Write>(number: u32, string: &UserString<'_>, out: &mut Printer<'_, W>)
    ensures { Prints out.old out.new (user_line number string.now.units string.now.flag ∷ []) }
{
    let token = Member(Name::Token, Hex(number));
    match string.flag() {
        Some(flag) => out.line(&[
            Word("user "),
            token,
            Units(string),
            Word(" "),
            Field(Name::Flag, Number(flag as u64)),
        ]),
        None => out.line(&[Word("user"), token, Units(string), Member(Name::Flag, Null)]),
    }
}
