ghost use Rattle.std.specs.Prelude.{◌≡◌, ◌≤◌};

use crate::rows::number_of;
use std::marker::Model;

/// The numbers in a column of a table, from row 1 to the last row (II.24.2.6).
///
/// Their width and the number of bytes of a row are looked up once, so that a walk down the column only reads.
/// [`Rows::column`](crate::Rows::column) gives it.
#[derive(Drop)]
pub struct ColumnNumbers<'a> {
    /// The bytes from the cell of row 1 to the end of that of the last row.
    pub(crate) bytes: &'a [u8],
    /// The number of bytes from a cell to that of the next row.
    pub(crate) step: usize,
    /// The number of bytes of a cell: 1, 2 or 4.
    pub(crate) width: usize,
    /// The number of rows.
    pub(crate) count: u32,
}

impl<'a> Model for ColumnNumbers<'a> {
    ghost use Rattle.rows.specs.Columns.{ColumnBytes, column_seen, AreWithin};

    ghost Value = { ColumnBytes };

    ghost view = { column_seen };

    ghost invariant = { AreWithin };
}

impl<'a> ColumnNumbers<'a> {
    ghost use Rattle.std.specs.Prelude.{◌+◌, ◌<◌, ◌↔◌, ℕ, IsTrue, true, false};
    ghost use Rattle.rows.specs.Columns.{number_in_row, IsAmong, NeverFalls};

    /// The number in a row. Rows are counted from 1.
    #[inline]
    pub fn number(&self, row: u32) -> u32
        requires first { 1 ≤ row }
        requires last { row ≤ self.now.count }
        ensures { result ≡ number_in_row self.now row }
    {
        number_of(self.bytes, (row - 1) as usize * self.step, self.width)
    }

    /// The number in a row of a column whose cells have `WIDTH` bytes.
    #[inline]
    fn number_by<const WIDTH: usize>(&self, row: u32) -> u32
        requires width { self.now.width ≡ WIDTH }
        requires first { 1 ≤ row }
        requires last { row ≤ self.now.count }
        ensures { result ≡ number_in_row self.now row }
    {
        number_of(self.bytes, (row - 1) as usize * self.step, WIDTH)
    }

    /// The first row before `limit` whose number fails a test; `limit` if there is none.
    ///
    /// The width of the cells is matched once, before the loop over the rows.
    #[inline]
    pub fn first_failing<F: Fn(u32) -> bool>(&self, limit: u32, passes: F) -> u32
        requires first { 1 ≤ limit }
        requires last { limit ≤ self.now.count + 1 }
        requires callable { F.IsAlwaysCallable passes }
        ensures first { 1 ≤ result }
        ensures last { result ≤ limit }
        ensures passed { (row : ℕ) → 1 ≤ row → row < result → F.post passes (number_in_row self.now row) true }
        ensures failed { result < limit → F.post passes (number_in_row self.now result) false }
    {
        match self.width {
            1 => self.first_failing_by::<1, F>(limit, passes),
            2 => self.first_failing_by::<2, F>(limit, passes),
            _ => self.first_failing_by::<4, F>(limit, passes),
        }
    }

    /// The same of a column whose cells have `WIDTH` bytes.
    #[inline]
    fn first_failing_by<const WIDTH: usize, F: Fn(u32) -> bool>(&self, limit: u32, passes: F) -> u32
        requires width { self.now.width ≡ WIDTH }
        requires first { 1 ≤ limit }
        requires last { limit ≤ self.now.count + 1 }
        requires callable { F.IsAlwaysCallable passes }
        ensures first { 1 ≤ result }
        ensures last { result ≤ limit }
        ensures passed { (row : ℕ) → 1 ≤ row → row < result → F.post passes (number_in_row self.now row) true }
        ensures failed { result < limit → F.post passes (number_in_row self.now result) false }
    {
        for row in 1..limit {
            if !passes(self.number_by::<WIDTH>(row)) {
                return row;
            }
        }
        limit
    }

    /// The greatest number in the rows before `limit`; 0 if there is no such row.
    pub fn greatest(&self, limit: u32) -> u32
        requires first { 1 ≤ limit }
        requires last { limit ≤ self.now.count + 1 }
        ensures bound { (row : ℕ) → 1 ≤ row → row < limit → number_in_row self.now row ≤ result }
        ensures among { 0 < result → IsAmong self.now limit result }
    {
        match self.width {
            1 => self.greatest_by::<1>(limit),
            2 => self.greatest_by::<2>(limit),
            _ => self.greatest_by::<4>(limit),
        }
    }

    /// The same of a column whose cells have `WIDTH` bytes.
    fn greatest_by<const WIDTH: usize>(&self, limit: u32) -> u32
        requires width { self.now.width ≡ WIDTH }
        requires first { 1 ≤ limit }
        requires last { limit ≤ self.now.count + 1 }
        ensures bound { (row : ℕ) → 1 ≤ row → row < limit → number_in_row self.now row ≤ result }
        ensures among { 0 < result → IsAmong self.now limit result }
    {
        let mut greatest = 0;
        for row in 1..limit {
            greatest = self.number_by::<WIDTH>(row).max(greatest);
        }
        greatest
    }

    /// Whether no number is less than that of the row before.
    pub fn never_falls(&self) -> bool
        ensures { IsTrue result ↔ NeverFalls self.now }
    {
        match self.width {
            1 => self.never_falls_by::<1>(),
            2 => self.never_falls_by::<2>(),
            _ => self.never_falls_by::<4>(),
        }
    }

    /// The same of a column whose cells have `WIDTH` bytes.
    fn never_falls_by<const WIDTH: usize>(&self) -> bool
        requires width { self.now.width ≡ WIDTH }
        ensures { IsTrue result ↔ NeverFalls self.now }
    {
        for row in 1..self.count {
            if self.number_by::<WIDTH>(row + 1) < self.number_by::<WIDTH>(row) {
                return false;
            }
        }
        true
    }
}
