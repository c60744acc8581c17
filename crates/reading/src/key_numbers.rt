use rows::Keys;

/// Gives the key numbers of the rows of a table.
///
/// Rows count from 1. A value stands for one list of numbers, and reading does not change it.
pub trait KeyNumbers: Drop {
    ghost use Rattle.std.specs.Prelude.{◌≡◌, ℕ, ◌≤◌, List, length};
    ghost use Rattle.rows.specs.Keys.{key_at};

    // The numbers, from row 1 on.
    ghost numbers: { Self → List ℕ };

    /// The number of rows.
    fn count(&self) -> u32
        ensures value { result ≡ length (numbers self.now) }
        ensures limit { result ≤ 0xFFFFFF };

    /// The key number of a row.
    fn number(&self, row: u32) -> u32
        requires first { 1 ≤ row }
        requires last { row ≤ length (numbers self.now) }
        ensures { result ≡ key_at (numbers self.now) row };
}

/// Key numbers that count how often they are read.
#[derive(Drop)]
pub struct CountedKeys<'k, K: KeyNumbers> {
    /// The numbers.
    pub numbers: &'k K,
    /// The number of reads so far.
    pub asked: u64,
}

impl<'k, K: KeyNumbers> Keys for CountedKeys<'k, K> {
    ghost keys = { λ keys. K.numbers keys.numbers.now };

    ghost asked = { λ keys. keys.asked };

    fn count(&self) -> u32 {
        self.numbers.count()
    }

    fn asked(&self) -> u64 {
        self.asked
    }

    fn key(&mut self, row: u32) -> u32 {
        self.asked += 1;
        self.numbers.number(row)
    }
}
