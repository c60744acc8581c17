ghost use Rattle.std.specs.Prelude.{◌≡◌, ℕ, ◌+◌, ◌*◌, ◌^◌, ◌<◌, ◌≤◌, ◌↔◌, length};
ghost use Rattle.std.specs.List.Sorted.{IsNonDecreasing};
ghost use Rattle.rows.specs.Keys.{key_at, binary_digits};

/// A list of keys, one for each row, that are read one at a time. It counts how many were read.
///
/// Rows are counted from 1. The keys do not change while they are read; only the count does.
pub trait Keys {
    ghost use Rattle.std.specs.Prelude.{◌≡◌, ℕ, ◌+◌, ◌^◌, ◌<◌, ◌≤◌, List, length};
    ghost use Rattle.rows.specs.Keys.{key_at};

    // The keys, that of row 1 first.
    ghost keys: { Self → List ℕ };

    // The number of keys that were read.
    ghost asked: { Self → ℕ };

    /// The number of rows.
    fn count(&self) -> u32
        ensures value { result ≡ length (keys self.now) }
        ensures limit { result ≤ 0xFFFFFF };

    /// The number of keys that were read.
    fn asked(&self) -> u64
        ensures { result ≡ asked self.now };

    /// Reads the key of a row.
    fn key(&mut self, row: u32) -> u32
        requires first { 1 ≤ row }
        requires last { row ≤ length (keys self.old) }
        requires few { asked self.old < 2 ^ 63 }
        ensures value { result ≡ key_at (keys self.old) row }
        ensures same { keys self.new ≡ keys self.old }
        ensures counted { asked self.new ≡ asked self.old + 1 };
}

/// The rows with a key, from `first` up to but not including `past`, and the number of keys read to find them.
#[derive(Clone, Copy, Debug, PartialEq, Eq)]
pub struct Found {
    /// The first row with the key. It equals `past` if no row has the key.
    pub first: u32,
    /// The first row with a greater key, or the row after the last one if no key is greater.
    pub past: u32,
    /// The number of keys that were read.
    pub reads: u64,
}

/// The first row from `low` on with a key of at least `limit`, or the row after the last one if there is none.
fn first_at_least<K: Keys>(keys: &mut K, low: u32, limit: u64) -> u32
    requires sorted { IsNonDecreasing (K.keys keys.old) }
    requires from { 1 ≤ low }
    requires to { low ≤ length (K.keys keys.old) + 1 }
    requires few { K.asked keys.old ≤ 0xFFFFFF }
    requires below { (row : ℕ) → 1 ≤ row → row < low → key_at (K.keys keys.old) row < limit }
    ensures from { low ≤ result }
    ensures to { result ≤ length (K.keys keys.old) + 1 }
    ensures below { (row : ℕ) → 1 ≤ row → row < result → key_at (K.keys keys.old) row < limit }
    ensures above { (row : ℕ) → result ≤ row → row ≤ length (K.keys keys.old) → limit ≤ key_at (K.keys keys.old) row }
    ensures same { K.keys keys.new ≡ K.keys keys.old }
    ensures few { K.asked keys.new ≤ K.asked keys.old + binary_digits (length (K.keys keys.old)) }
    ensures limit { K.asked keys.new ≤ K.asked keys.old + 0xFFFFFF }
{
    let mut low = low;
    let mut high = keys.count() + 1;
    while low < high {
        let middle = low + (high - low) / 2;
        if u64::from(keys.key(middle)) < limit {
            low = middle + 1;
        } else {
            high = middle;
        }
    }
    low
}

/// Finds the rows with a key by binary search. The keys must be in non-decreasing order.
///
/// Rows are counted from 1. If no row has the key, `first` and `past` are both the row before which a
/// row with this key belongs.
pub fn find_key<K: Keys>(keys: &mut K, key: u32) -> Found
    requires sorted { IsNonDecreasing (K.keys keys.old) }
    requires unread { K.asked keys.old ≡ 0 }
    // The rows with the key are those from `first` up to but not including `past`.
    ensures rows { (row : ℕ) → 1 ≤ row → row ≤ length (K.keys keys.old)
        → (key_at (K.keys keys.old) row ≡ key) ↔ ((result.first ≤ row) × (row < result.past)) }
    // The keys before them are smaller, and those after them greater, also if no row has the key.
    ensures below { (row : ℕ) → 1 ≤ row → row < result.first → key_at (K.keys keys.old) row < key }
    ensures above { (row : ℕ) → result.past ≤ row → row ≤ length (K.keys keys.old) → key < key_at (K.keys keys.old) row }
    ensures within { (1 ≤ result.first) × (result.first ≤ result.past) × (result.past ≤ length (K.keys keys.old) + 1) }
    ensures same { K.keys keys.new ≡ K.keys keys.old }
    ensures reads { result.reads ≡ K.asked keys.new }
    ensures few { result.reads ≤ 2 * binary_digits (length (K.keys keys.old)) + 2 }
{
    let first = first_at_least(keys, 1, u64::from(key));
    let past = first_at_least(keys, first, u64::from(key) + 1);
    Found {
        first,
        past,
        reads: keys.asked(),
    }
}
