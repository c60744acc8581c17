ghost use Rattle.std.specs.Prelude.{◌≡◌, ◌∷◌, ◌++◌, [], IfErr, OnOk, OnErr};
ghost use Rattle.std.specs.Cmp.{partial_equiv_from_equiv};
ghost use Rattle.std.specs.Cmp.Lexicographic.{pointwise};
ghost use Rattle.tables.specs.Said.{all_said};
ghost use Rattle.tables.specs.Same.{is_same_cell, rows_equiv, tables_equiv};

use crate::cell::Cell;
use std::alloc::{AllocError, Global};
use std::marker::Model;

/// The cells of a row (II.22). Contracts see it as the list of their content.
#[derive(Debug, Drop)]
pub struct Row {
    inner: Vec<Cell>,
}

impl Model for Row {
    ghost use Rattle.std.specs.Prelude.{List};
    ghost use Rattle.metadata.specs.Cell.{Cell};
    ghost use Rattle.tables.specs.Code.{row_code};

    ghost Value = { List Cell };

    ghost coded = { row_code };

    ghost use Rattle.tables.specs.Said.{all_said};

    ghost view = { λ r. all_said r.inner.items };
}

impl PartialEq for Row {
    ghost eq = { pointwise is_same_cell };

    ghost laws = { partial_equiv_from_equiv rows_equiv };

    fn eq(&self, other: &Row) -> bool {
        self.inner.as_slice() == other.inner.as_slice()
    }
}

impl Eq for Row {
    ghost laws = { rows_equiv };
}

impl From<Vec<Cell>> for Row {
    ghost from_gives = { λ vec row. row ≡ all_said vec.items };

    fn from(inner: Vec<Cell>) -> Row {
        Row { inner }
    }
}

impl Row {
    /// Borrows the cells.
    pub fn as_slice(&self) -> &[Cell]
        ensures { all_said result.now ≡ self.now }
    {
        self.inner.as_slice()
    }

    /// Returns the vector of the cells. It does not allocate.
    pub fn into_vec(self) -> Vec<Cell>
        ensures { all_said result.items ≡ self }
    {
        let Row { inner } = self;
        inner
    }
}

/// The rows of a table. Contracts see it as the list of its rows.
#[derive(Debug, Drop)]
pub struct Rows {
    inner: Vec<Row>,
}

impl Model for Rows {
    ghost use Rattle.std.specs.Prelude.{List};
    ghost use Rattle.metadata.specs.Cell.{Cell};
    ghost use Rattle.tables.specs.Code.{rows_code};

    ghost Value = { List (List Cell) };

    ghost coded = { rows_code };

    ghost view = { λ r. r.inner.items };
}

impl PartialEq for Rows {
    ghost eq = { pointwise (pointwise is_same_cell) };

    ghost laws = { partial_equiv_from_equiv tables_equiv };

    fn eq(&self, other: &Rows) -> bool {
        self.inner.as_slice() == other.inner.as_slice()
    }
}

impl Eq for Rows {
    ghost laws = { tables_equiv };
}

impl Rows {
    /// A table without rows. It does not allocate.
    pub fn new(alloc: Global) -> Rows
        ensures { result ≡ [] }
    {
        Rows {
            inner: Vec::new(alloc),
        }
    }

    /// Borrows the rows.
    pub fn as_slice(&self) -> &[Row]
        ensures { result.now ≡ self.now }
    {
        self.inner.as_slice()
    }

    /// Adds a row at the end. If it is out of memory, it returns the row.
    pub fn push(&mut self, row: Row) -> Result<(), Row>
        ensures ok { OnOk result (self.new ≡ self.old ++ row ∷ []) }
        ensures err { OnErr result (self.new ≡ self.old) }
        ensures handed_back { IfErr result (λ back. back ≡ row) }
    {
        self.inner.push(row).map_err(|refused| refused.value)
    }

    /// Reserves memory for `more` rows at once.
    pub fn reserve(&mut self, more: usize) -> Result<(), AllocError>
        ensures { self.new ≡ self.old }
    {
        self.inner.reserve(more)
    }
}
