ghost use Rattle.std.specs.Prelude.{◌≡◌, ◌≤◌, ◌<◌, ◌+◌, ◌^◌, true, ℕ, List, All, IfOk, OnOk, IfSome, length, vec_len};
ghost use Rattle.heap_entries.specs.Entries.{IsCounted};
ghost use Rattle.heaps.specs.EqualBlobs.{AreEarlierBlobs, IsKey, IsKeyAt, IsSameBlob};
ghost use Rattle.heaps.specs.Windows.{AreNames};

use crate::windows::Windows;
use heap_pools::own_firsts;
use packed::read_unsigned;
use std::alloc::{AllocError, Global};

/// An entry of a blob heap that is longer than a window, and at most twice as long: its length, the names of its first
/// and of its last window, and its use index. Entries with equal names are equal.
#[derive(Clone, Copy)]
struct Key {
    len: u32,
    first: u32,
    last: u32,
    use_index: usize,
}

/// Equal entries are looked for if the entries have more than this number of times the bytes of the heap. To compare fewer
/// bytes takes less time.
const LEAST_USES: usize = 64;

/// The number of bytes of the entry at an index, with its packed length. None at index 0.
fn entry_len(heap: &[u8], index: u32) -> u32
    ensures within { 0 < result → (0 < index) × (index ≤ length heap.now) }
    ensures len { (blob : List ℕ) (counted : IsCounted heap.now index blob) → 0 < index → result ≡ length counted.count + length blob }
{
    if index == 0 || index as usize > heap.len() {
        return 0;
    }
    let (_, tail) = heap.split_at(index as usize);
    match read_unsigned(tail) {
        Some((len, used)) => len + used as u32,
        None => 0,
    }
}

/// The number of bytes of all entries at indexes, and of the longest one.
fn entry_lens(heap: &[u8], indexes: &[u32]) -> (usize, u32) {
    let mut sum = 0usize;
    let mut longest = 0u32;
    for index in indexes {
        let len = entry_len(heap, *index);
        sum = sum.saturating_add(len as usize);
        longest = longest.max(len);
    }
    (sum, longest)
}

/// The key of the entry at an index, if windows of this width can name it.
fn key_of(heap: &[u8], windows: &Windows, index: u32, use_index: usize) -> Option<Key>
    requires { AreNames heap.now windows.now.width windows.now.names.items }
    ensures use_index { IfSome result (λ key. key.use_index ≡ use_index) }
    ensures at { IfSome result (λ key. IsKeyAt heap.now windows.now.width index key) }
{
    let len = entry_len(heap, index);
    if len < windows.width || len - windows.width >= windows.width {
        return None;
    }
    let first = *windows.names.get(index as usize)?;
    let last_index = index.checked_add(len - windows.width)?;
    let last = *windows.names.get(last_index as usize)?;
    Some(Key {
        len,
        first,
        last,
        use_index,
    })
}

/// Adds the key of the entry at an index, if windows of this width can name it.
fn add_key(
    keys: &mut Vec<Key>,
    heap: &[u8],
    windows: &Windows,
    indexes: &[u32],
    use_index: usize,
) -> Result<(), AllocError>
    requires names { AreNames heap.now windows.now.width windows.now.names.items }
    requires use_index_in { use_index < length indexes.now }
    requires keys { All (IsKey heap.now indexes.now windows.now.width) keys.old.items }
    ensures { OnOk result (All (IsKey heap.now indexes.now windows.now.width) keys.new.items) }
{
    match key_of(heap, windows, indexes[use_index], use_index) {
        Some(key) => Ok(keys.push(key)?),
        None => Ok(()),
    }
}

/// The keys of all entries that windows of this width can name, sorted.
#[tactic(auto, using(crate::proofs::EntryLemmas::keys_sorted))]
fn keys_of(
    alloc: Global,
    heap: &[u8],
    windows: &Windows,
    indexes: &[u32],
) -> Result<Vec<Key>, AllocError>
    requires { AreNames heap.now windows.now.width windows.now.names.items }
    ensures { IfOk result (λ keys. All (IsKey heap.now indexes.now windows.now.width) keys.items) }
{
    let mut keys = Vec::new(alloc);
    for use_index in 0..indexes.len() {
        add_key(&mut keys, heap, windows, indexes, use_index)?;
    }
    keys.sort_unstable_by_key(|key: &Key| (key.len, key.first, key.last, key.use_index));
    Ok(keys)
}

/// Whether an entry is equal to that of an earlier use.
#[tactic(auto, using(crate::proofs::EntryLemmas::same_blob))]
fn is_repeated(earlier: Key, key: &Key) -> bool
    ensures within { result ≡ true → earlier.use_index < key.now.use_index }
    ensures same { result ≡ true → (heap : List ℕ) (width first second : ℕ) → IsKeyAt heap width first earlier → IsKeyAt heap width second key.now
        → IsSameBlob heap first second }
{
    earlier.use_index < key.use_index
        && earlier.len == key.len
        && earlier.first == key.first
        && earlier.last == key.last
}

/// Writes for an entry the use of an earlier one, if that one is equal. The entry with which the next one is compared.
#[tactic(auto, using(crate::proofs::EntryLemmas::earlier_set))]
fn set_first(firsts: &mut [usize], earlier: Key, key: &Key) -> Key
    requires { key.now.use_index < length firsts.old }
    ensures len { length firsts.new ≡ length firsts.old }
    ensures key { (heap indexes : List ℕ) (width : ℕ) → IsKey heap indexes width earlier → IsKey heap indexes width key.now → IsKey heap indexes width result }
    ensures earlier { (heap indexes : List ℕ) (width : ℕ) → IsKey heap indexes width earlier → IsKey heap indexes width key.now
        → AreEarlierBlobs heap indexes firsts.old → AreEarlierBlobs heap indexes firsts.new }
{
    if is_repeated(earlier, key) {
        firsts[key.use_index] = earlier.use_index;
        return earlier;
    }
    *key
}

/// Writes for each of these entries the first use of an equal one.
fn set_firsts(keys: &[Key], firsts: &mut [usize])
    requires { All (λ key. key.use_index < length firsts.old) keys.now }
    ensures len { length firsts.new ≡ length firsts.old }
    ensures earlier { (heap indexes : List ℕ) (width : ℕ) → All (IsKey heap indexes width) keys.now → AreEarlierBlobs heap indexes firsts.old
        → AreEarlierBlobs heap indexes firsts.new }
{
    let Some(first) = keys.first() else {
        return;
    };
    let mut earlier = *first;
    for key in keys {
        earlier = set_first(firsts, earlier, key);
    }
}

/// Writes for each entry an earlier use of an equal one. The longest entry has `longest` bytes.
fn find_equal(
    alloc: Global,
    heap: &[u8],
    indexes: &[u32],
    longest: u32,
    firsts: &mut [usize],
) -> Result<(), AllocError>
    requires fits { length heap.now < 2 ^ 32 }
    requires len { length firsts.old ≡ length indexes.now }
    ensures len { length firsts.new ≡ length firsts.old }
    ensures earlier { OnOk result (AreEarlierBlobs heap.now indexes.now firsts.old → AreEarlierBlobs heap.now indexes.now firsts.new) }
{
    let mut windows = Windows::of_bytes(alloc, heap)?;
    while longest.saturating_sub(windows.width) >= windows.width && windows.repeated > 0 {
        windows.double();
        let keys = keys_of(alloc, heap, &windows, indexes)?;
        set_firsts(&keys, firsts);
    }
    Ok(())
}

/// For each index into a blob heap an earlier use index with the same blob, or its own. Index 0 has its own.
///
/// It looks for equal entries only if all together have many times the bytes of the heap, so that they overlap. Then it
/// finds them without comparing their bytes: the time is that of sorting the heap and the indexes once for each power of
/// two up to the longest entry. Blobs after packed lengths of different forms are not found to be equal.
///
/// # Errors
///
/// Only if out of memory. If entries overlap it takes sixteen bytes for each byte of the heap.
pub fn equal_blobs(alloc: Global, heap: &[u8], indexes: &[u32]) -> Result<Vec<usize>, AllocError>
    ensures len { IfOk result (λ earlier. vec_len earlier ≡ length indexes.now) }
    ensures earlier { IfOk result (λ earlier. AreEarlierBlobs heap.now indexes.now earlier.items) }
{
    let mut firsts = own_firsts(alloc, indexes.len())?;
    let (sum, longest) = entry_lens(heap, indexes);
    if sum / LEAST_USES > heap.len() && heap.len() <= u32::MAX as usize {
        find_equal(alloc, heap, indexes, longest, &mut firsts)?;
    }
    Ok(firsts)
}
