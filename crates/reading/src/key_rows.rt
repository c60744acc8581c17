ghost use Rattle.std.specs.Prelude.{◌≡◌, ◌≢◌, ◌≤◌, ◌<◌, ◌+◌, ◌*◌, ℕ, [], length};
ghost use Rattle.std.specs.Iterator.{YieldsFirst, item_count};
ghost use Rattle.std.specs.List.Sorted.{IsNonDecreasing};
ghost use Rattle.rows.specs.Keys.{key_at, binary_digits};
ghost use Rattle.reading.specs.KeyRows.{rows_with};

use crate::key_numbers::{CountedKeys, KeyNumbers};
use rows::find_key;
use std::marker::Model;

/// The rows of a table with a key, in ascending order. It does not allocate.
#[derive(Drop)]
pub struct KeyRows<K: KeyNumbers> {
    keys: K,
    number: u32,
    next: u32,
    past: u32,
    is_run: bool,
    reads: u64,
}

impl<K: KeyNumbers> Model for KeyRows<K> {
    ghost use Rattle.reading.specs.KeyRows.{RowsLeft, left_of, AreLeft};

    ghost Value = { RowsLeft };

    ghost view = { λ left. left_of (K.numbers left.keys) left.number left.next left.past left.reads };

    ghost invariant = { λ left. AreLeft (K.numbers left.keys) left.number left.next left.past left.is_run };
}

impl<K: KeyNumbers> KeyRows<K> {
    /// No rows.
    pub fn none(keys: K) -> KeyRows<K>
        ensures rows { result.rows ≡ [] }
        ensures reads { result.reads ≡ 0 }
    {
        KeyRows {
            keys,
            number: 0,
            next: 1,
            past: 1,
            is_run: true,
            reads: 0,
        }
    }

    /// The rows with a key number. Each row is tested as the iterator advances.
    pub fn walk(keys: K, number: u32) -> KeyRows<K>
        ensures rows { result.rows ≡ rows_with (K.numbers keys) number 1 (length (K.numbers keys) + 1) }
        ensures reads { result.reads ≡ 0 }
    {
        let past = keys.count() + 1;
        KeyRows {
            keys,
            number,
            next: 1,
            past,
            is_run: false,
            reads: 0,
        }
    }

    /// The rows with a key number. They are found by binary search if the numbers never fall.
    pub fn search(keys: K, number: u32) -> KeyRows<K>
        requires { IsNonDecreasing (K.numbers keys) }
        ensures rows { result.rows ≡ rows_with (K.numbers keys) number 1 (length (K.numbers keys) + 1) }
        ensures reads { result.reads ≤ 2 * binary_digits (length (K.numbers keys)) + 2 }
    {
        let mut counted = CountedKeys {
            numbers: &keys,
            asked: 0,
        };
        let found = find_key(&mut counted, number);
        KeyRows {
            keys,
            number,
            next: found.first,
            past: found.past,
            is_run: true,
            reads: found.reads,
        }
    }

    /// The number of keys that were read to find the rows. It is 0 if the table is not in order, because then the
    /// rows are tested as the iterator advances.
    pub fn reads(&self) -> u64
        ensures { result ≡ self.now.reads }
    {
        self.reads
    }
}

impl<K: KeyNumbers> Iterator for KeyRows<K> {
    type Item = u32;

    ghost next_gives = { λ s r t. YieldsFirst (λ left. left.rows) s r t × (t.reads ≡ s.reads) };

    ghost remaining = { item_count (λ left. left.rows) };

    fn next(&mut self) -> Option<u32> {
        let row = if self.is_run {
            self.next
        } else {
            next_with(&self.keys, self.number, self.next, self.past)
        };
        if row == self.past {
            self.next = self.past;
            return None;
        }
        self.next = row + 1;
        Some(row)
    }
}

/// The first row from `first` on with a key number; `past` if there is none before it.
fn next_with<K: KeyNumbers>(keys: &K, number: u32, first: u32, past: u32) -> u32
    requires first { 1 ≤ first }
    requires within { first ≤ past }
    requires last { past ≤ length (K.numbers keys.now) + 1 }
    ensures from { first ≤ result }
    ensures to { result ≤ past }
    ensures none { (row : ℕ) → first ≤ row → row < result → key_at (K.numbers keys.now) row ≢ number }
    ensures sound { result < past → key_at (K.numbers keys.now) result ≡ number }
{
    for row in first..past {
        if keys.number(row) == number {
            return row;
        }
    }
    past
}
