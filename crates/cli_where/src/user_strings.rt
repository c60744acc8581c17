//! The user strings of a heap, one after another (II.24.2.4): those that contain a byte, and their lines.
ghost use Rattle.std.specs.Prelude.{◌≤◌, ◌<◌, ◌^◌, [], IfNone, IfSome, List, map, flat_map};
ghost use Rattle.cli_where.specs.Words.{Adds, Finds, Prints};
ghost use Rattle.cli_where.specs.Kept.{IsLow, heap_of};
ghost use Rattle.cli_where.specs.UserStrings.{AreEntries, AreUsersAt, Entry, IsEntry, user_region};
ghost use Rattle.cli_where.specs.Lines.{entry_lines, string_lines};
ghost use Rattle.cli_where.specs.Located.{AreListed};

use crate::entries::{Heap, blob_size};
use cli_faults::Failure;
use cli_files::{Input, open};
use cli_lines::Part::{Field, Units, Word};
use cli_lines::Value::Hex;
use cli_lines::{Name, Printer};
use cli_regions::{Search, Structure, What};
use heap_entries::{UserString, copy_padded, user_string};
use std::alloc::Global;
use std::io::Write;

/// The token of offset 0 of the user strings (III.1.9).
const USER_STRINGS: u32 = 0x7000_0000;

/// The first offset that is no longer part of a token: the high byte says what the token refers to.
const PAST_TOKENS: usize = 1 << 24;

/// The user string at an offset, and the offset after its last byte; `None` if there is none, or the offset is not one of a token.
fn user_entry(heap: &[u8], index: usize) -> Option<(UserString<'_>, usize)>
    requires { 1 ≤ index }
    ensures token { IfSome result (λ entry. index < 2 ^ 24) }
    ensures sound { IfSome result (λ entry. IsEntry heap.now index entry.0 entry.1) }
    ensures none { IfNone result (AreEntries heap.now index []) }
    ensures later { IfSome result (λ entry. index < entry.1) }
{
    if index >= PAST_TOKENS {
        return None;
    }
    let size = blob_size(heap, index)?;
    match user_string(heap, index as u32) {
        Ok(string) => Some((string, index + size)),
        Err(_) => None,
    }
}

/// Keeps the user string that contains the byte, of those that follow one another from offset 1 of the heap on, as
/// `clim strings` prints them: the heap is padded with zeros to a multiple of four bytes, and copied if it is not.
pub(crate) fn find_user_strings(alloc: Global, heap: &Heap<'_>, found: &mut Search<'_>)
    requires { IsLow heap.now }
    ensures { Finds (AreUsersAt (heap_of heap.now)) found.old found.new }
{
    if heap.bytes.len() % 4 == 0 {
        return find_in_padded(heap, heap.bytes, found);
    }
    match copy_padded(alloc, heap.bytes) {
        Ok(padded) => find_in_padded(heap, &padded, found),
        Err(_) => found.fail(),
    }
}

/// Keeps the user string that contains the byte, of those of a heap that was padded.
fn find_in_padded(heap: &Heap<'_>, padded: &[u8], found: &mut Search<'_>)
    requires low { IsLow heap.now }
    ensures { (entries : List Entry) × AreEntries padded.now 1 entries × Adds found.old found.new (map (user_region (heap_of heap.now)) entries) }
{
    let mut index = 1;
    while let Some((_string, next)) = user_entry(padded, index) {
        let end = next.min(heap.bytes.len());
        let (start, size) = (heap.start + index as u64, end.saturating_sub(index) as u64);
        let what = What::UserString(USER_STRINGS + index as u32);
        found.look_at(Structure { start, size, what });
        index = next;
    }
}

/// Prints a line for each user string: its token, a space and its units, each escaped if needed. Strings of no bytes have
/// none. Its memory is that of a copy of `#US`.
///
/// # Errors
///
/// The fault of the first rule that fails; or memory ran out before a line was printed.
pub fn print_strings<W: Write>(
    alloc: Global,
    bytes: &[u8],
    input: Input,
    out: &mut Printer<'_, W>,
) -> Result<(), Failure<'static>>
    ensures { AreListed input bytes.now out.old out.new result }
{
    let view = open(bytes, input)?;
    let Ok(heap) = copy_padded(alloc, view.user()) else {
        return Err(Failure::OutOfMemory);
    };
    print_entries(&heap, out);
    Ok(())
}

/// Prints a line for each entry of a heap that has bytes, up to the first offset without an entry or a token.
fn print_entries<W: Write>(heap: &[u8], out: &mut Printer<'_, W>)
    ensures { (entries : List Entry) × AreEntries heap.now 1 entries × Prints out.old out.new (flat_map entry_lines entries) }
{
    cli_lines::laws::lines_follow::<W>();
    let mut index = 1;
    while let Some((string, next)) = user_entry(heap, index) {
        print_entry(index as u32, &string, out);
        index = next;
    }
}

/// Prints the line of the user string at an offset, unless it has no bytes.
#[tactic(auto, unfolding(crate::specs::Lines::string_line))]
fn print_entry<W: Write>(offset: u32, string: &UserString<'_>, out: &mut Printer<'_, W>)
    requires { offset < 2 ^ 24 }
    ensures { Prints out.old out.new (string_lines offset string.now string.now.flag) }
{
    cli_lines::laws::lines_follow::<W>();
    match string.flag() {
        Some(_) => {
            let token = USER_STRINGS + offset;
            out.line(&[Field(Name::Token, Hex(token)), Word(" "), Units(string)]);
        }
        None => {}
    }
}
