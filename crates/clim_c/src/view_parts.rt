ghost use Rattle.std.specs.Prelude.{◌≡◌, ◌≢◌, true, false, [], ℕ, ◌<◌, ◌≤◌, ◌^◌, List, Some, None, IfSome, IfNone, length, slice_get};
ghost use Rattle.c_values.specs.Locations.{HasByte, IsLocation};
ghost use Rattle.clim_c.specs.Words.{IsModel, Metadata, Table, count_in, table_number, user_of, OnFalse, OnTrue, Header, IsRoot};
ghost use Rattle.clim_c.specs.Streams.{stream_of};

use crate::opened::seen;
use crate::view::ClimView;
use c_values::{ClimLocation, location_at};
use opening::TableId;
use root::{Headers, read_root};

/// The version string of the root (II.24.2.1); no bytes if the view is not open.
#[unsafe(no_mangle)]
pub extern "C" fn clim_version<'a>(view: &ClimView<'a>, version: &mut &'a [u8])
    ensures open { view.now.is_open ≡ true → (model : Metadata) → IsModel view.now.root.now model → version.new.now ≡ model.version }
    ensures closed { view.now.is_open ≡ false → version.new.now ≡ [] }
{
    *version = match seen(view) {
        Some(seen) => seen.version().as_bytes(),
        None => &[],
    };
}

/// The bytes of `#US`, as they are in the root (II.24.2.4); no bytes if the view is not open.
#[unsafe(no_mangle)]
pub extern "C" fn clim_user<'a>(view: &ClimView<'a>, user: &mut &'a [u8])
    ensures open { view.now.is_open ≡ true → user.new.now ≡ user_of view.now.root.now }
    ensures closed { view.now.is_open ≡ false → user.new.now ≡ [] }
{
    *user = match seen(view) {
        Some(seen) => seen.user(),
        None => &[],
    };
}

/// The number of rows in the table with a number; 0 if no table has it, or the view is not open.
#[unsafe(no_mangle)]
pub extern "C" fn clim_count(view: &ClimView, table: u8) -> u32
    ensures open { view.now.is_open ≡ true → (model : Metadata) → IsModel view.now.root.now model
        → (known : Table) → table_number known ≡ table → result ≡ count_in model known }
    ensures none { ((known : Table) → table_number known ≢ table) → result ≡ 0 }
    ensures closed { view.now.is_open ≡ false → result ≡ 0 }
{
    let Some(table) = TableId::from_number(table) else {
        return 0;
    };
    match seen(view) {
        Some(seen) => seen.count(table),
        None => 0,
    }
}

/// The cell of a row that has the byte at an offset of the root (II.24.2.6). `true` if the view is open and some cell has
/// it; none has the padding of Constant. At most one has a byte. Otherwise `location` is unchanged.
#[unsafe(no_mangle)]
pub extern "C" fn clim_where(view: &ClimView, offset: usize, location: &mut ClimLocation) -> bool
    ensures sound { OnTrue result (IsLocation view.now.root.now offset location.new) }
    ensures there { OnTrue result (view.now.is_open ≡ true) }
    ensures complete { view.now.is_open ≡ true → (table : Table) (row column : ℕ) → HasByte view.now.root.now table row column offset
        → result ≡ true }
    ensures same { OnFalse result (location.new ≡ location.old) }
{
    if !view.is_open {
        return false;
    }
    let Some(found) = location_at(view.root, offset) else {
        return false;
    };
    *location = found;
    true
}

/// A stream header of a root, for C (II.24.2.2).
#[repr(C)]
#[derive(Clone, Copy)]
pub struct ClimStreamHeader<'a> {
    /// The name of the stream: ASCII, at most 32 characters. The standard need not define it.
    pub name: &'a [u8],
    /// The offset of the header, in bytes from the start of the root.
    pub header_offset: usize,
    /// The offset of the stream, in bytes from the start of the root.
    pub offset: u32,
    /// The size of the stream, in bytes.
    pub size: u32,
}

/// The stream headers of a view's root, in file order; `None` if the view is not open.
fn headers_of<'a>(view: &ClimView<'a>) -> Option<Headers<'a>>
    ensures sound { IfSome result (λ found. (view.now.is_open ≡ true)
        × ((version : List ℕ) (headers : List Header) → IsRoot view.now.root.now version headers → found ≡ headers)) }
    ensures few { IfSome result (λ found. length found ≤ 2 ^ 30) }
    ensures closed { IfNone result (view.now.is_open ≡ false) }
{
    if !view.is_open {
        return None;
    }
    match read_root(view.root) {
        Ok(root) => Some(root.headers()),
        Err(_) => unreachable!(),
    }
}

/// The number of stream headers in the root, with those of names that the standard does not define (II.24.2.2); 0 if the
/// view is not open.
#[unsafe(no_mangle)]
pub extern "C" fn clim_stream_count(view: &ClimView) -> usize
    ensures open { view.now.is_open ≡ true → (version : List ℕ) (headers : List Header) → IsRoot view.now.root.now version headers
        → result ≡ length headers }
    ensures closed { view.now.is_open ≡ false → result ≡ 0 }
{
    match headers_of(view) {
        Some(headers) => headers.count(),
        None => 0,
    }
}

/// A stream header of the root, by its index in file order, from 0 (II.24.2.2). `true` if the view is open and has the
/// header. Otherwise `stream` is unchanged.
#[unsafe(no_mangle)]
pub extern "C" fn clim_stream<'a>(
    view: &ClimView<'a>,
    index: usize,
    stream: &mut ClimStreamHeader<'a>,
) -> bool
    ensures sound { OnTrue result ((version : List ℕ) (headers : List Header) → IsRoot view.now.root.now version headers
        → slice_get headers index ≡ Some (stream_of stream.new)) }
    ensures there { OnTrue result (view.now.is_open ≡ true) }
    ensures complete { view.now.is_open ≡ true → (version : List ℕ) (headers : List Header) → IsRoot view.now.root.now version headers
        → index < length headers → result ≡ true }
    ensures same { OnFalse result (stream.new ≡ stream.old) }
{
    let Some(mut headers) = headers_of(view) else {
        return false;
    };
    let Some(header) = headers.nth(index) else {
        return false;
    };
    *stream = ClimStreamHeader {
        name: header.name.as_bytes(),
        header_offset: header.place,
        offset: header.offset,
        size: header.size,
    };
    true
}
