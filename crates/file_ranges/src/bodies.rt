//! The length of a method body (II.25.4).
ghost use Rattle.std.specs.Prelude.{◌≡◌, ◌≤◌, ◌↔◌, ◌<◌, ◌+◌, ◌^◌, IsTrue, length};
ghost use Rattle.file_ranges.specs.Fields.{aligned};
ghost use Rattle.file_ranges.specs.Bodies.{body_end, fat_end, data_end, data_size, byte_at, data_limit, EndsWithin};

use crate::alignment;
use packed::{u16_at, u32_at};

/// The two low bits of a tiny header (II.25.4.1).
const TINY: u8 = 2;

/// The two low bits of a fat header (II.25.4.1).
const FAT: u8 = 3;

/// The number of bytes that are read of a fat header (II.25.4.3).
const FAT_HEADER: usize = 12;

/// The number of bytes of the header of a data section (II.25.4.5).
const DATA_HEADER: usize = 4;

/// The alignment of a data section in its body (II.25.4.5).
const DATA_ALIGNMENT: u32 = 4;

/// The largest number of data sections that are looked at. The standard defines one kind, so that compilers write one.
const DATA_LIMIT: usize = 64;

/// Whether the body that begins with these bytes ends in them.
pub fn ends_within(bytes: &[u8]) -> bool
    requires { length bytes.now ≤ 2 ^ 30 }
    ensures { IsTrue result ↔ EndsWithin bytes.now }
{
    match body_end(bytes) {
        Some(end) => end <= bytes.len(),
        None => false,
    }
}

/// The end of the body that begins with these bytes; `None` if it is not known from them.
pub fn body_end(bytes: &[u8]) -> Option<usize>
    requires { length bytes.now ≤ 2 ^ 30 }
    ensures { result ≡ body_end bytes.now }
{
    if bytes.is_empty() {
        return None;
    }
    let first = byte_at(bytes, 0);
    if first % 4 == TINY {
        return Some(1 + (first / 4) as usize);
    }
    if first % 4 == FAT {
        return fat_end(bytes);
    }
    Some(1)
}

/// The end of a body with a fat header (II.25.4.3).
fn fat_end(bytes: &[u8]) -> Option<usize>
    requires { length bytes.now ≤ 2 ^ 30 }
    ensures { result ≡ fat_end bytes.now }
{
    if bytes.len() < FAT_HEADER {
        return None;
    }
    let flags = u16_at(bytes, 0);
    let end = 4 * (flags / 0x1000) as usize + u32_at(bytes, 4) as usize;
    if flags / 8 % 2 == 0 {
        return Some(end);
    }
    data_end(bytes, end)
}

/// The end of the data sections that follow the code of a body (II.25.4.5).
fn data_end(bytes: &[u8], code_end: usize) -> Option<usize>
    requires small { length bytes.now ≤ 2 ^ 30 }
    requires near { code_end < 2 ^ 33 }
    ensures { result ≡ data_end bytes.now data_limit code_end }
{
    let mut end = code_end;
    for number in 0..DATA_LIMIT {
        let start = section_start(end);
        if bytes.len() < start + DATA_HEADER {
            return None;
        }
        let size = data_size(bytes, start);
        if size < DATA_HEADER {
            return None;
        }
        end = start + size;
        let kind = byte_at(bytes, start);
        if kind / 0x80 == 0 {
            return Some(end);
        }
    }
    None
}

/// The offset at which a data section begins after what ends at an offset.
fn section_start(end: usize) -> usize
    requires { end < 2 ^ 33 }
    ensures { result ≡ aligned 4 end }
{
    alignment::aligned(DATA_ALIGNMENT, end as u64) as usize
}

/// The byte at an offset.
fn byte_at(bytes: &[u8], offset: usize) -> u8
    requires { offset + 1 ≤ length bytes.now }
    ensures { result ≡ byte_at bytes.now offset }
{
    bytes[offset]
}

/// The size of a data section, which is fat or small (II.25.4.5).
fn data_size(bytes: &[u8], start: usize) -> usize
    requires { start + 4 ≤ length bytes.now }
    ensures size { result ≡ data_size bytes.now start }
    ensures small { result < 2 ^ 24 }
{
    if byte_at(bytes, start) / 0x40 % 2 == 1 {
        (u32_at(bytes, start) / 0x100) as usize
    } else {
        byte_at(bytes, start + 1) as usize
    }
}
