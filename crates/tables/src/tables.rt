ghost use Rattle.std.specs.Prelude.{◌≡◌, ◌≤◌, ◌-◌, ◌+◌, ◌^◌, ◌<◌, IfOk, OnOk, OnErr, IfErr, [], length, string_bytes};
ghost use Rattle.table_schema.specs.declared.table.TableId.{TableId};
ghost use Rattle.tables.specs.Said.{all_said};
ghost use Rattle.metadata.specs.Metadata.{rows_of, row_of, count_in};
ghost use Rattle.tables.specs.Push.{with_row};

use crate::bytes::Bytes;
use crate::cell::Cell;
use crate::table_rows::{Row, Rows};
use crate::text::Text;
use std::alloc::{AllocError, Global};
use std::array;
use std::marker::Model;
use table_schema::TableId;

/// A version, user bytes, and the rows of 38 tables (II.22). They need not be valid.
///
/// Contracts and `==` see only their content, not its address.
#[derive(Debug, PartialEq, Eq, Drop)]
pub struct Tables {
    version: Text,
    user: Bytes,
    // In the order of table numbers.
    tables: [Rows; 38],
}

impl Model for Tables {
    ghost use Rattle.std.specs.Prelude.{◌≡◌, length};
    ghost use Rattle.metadata.specs.Metadata.{Metadata};
    ghost use Rattle.tables.specs.Code.{metadata_code};

    ghost Value = { Metadata };

    ghost coded = { metadata_code };

    ghost view = { λ t. record { version = t.version; user = t.user; tables = t.tables } };

    ghost invariant = { λ t. length t.tables ≡ 38 };

    ghost inverse = { λ m. record { version = m.version; user = m.user; tables = m.tables } };
}

impl Tables {
    /// Tables with this version, without user bytes and without rows.
    ///
    /// # Errors
    ///
    /// Fails only if it is out of memory for the version.
    pub fn new(alloc: Global, version: &str) -> Result<Tables, AllocError>
        ensures version { IfOk result (λ t. t.version ≡ version.now) }
        ensures user { IfOk result (λ t. t.user ≡ []) }
        ensures tables { IfOk result (λ t. length t.tables ≡ 38) }
        ensures rows { IfOk result (λ t. (table : TableId) → rows_of t table ≡ []) }
    {
        let version = String::from_str(alloc, version)?;
        Ok(Tables {
            version: Text::from(version),
            user: Bytes::from(Vec::new(alloc)),
            tables: array::from_fn(|_| Rows::new(alloc)),
        })
    }

    /// Adds a row at the end of a table.
    ///
    /// # Errors
    ///
    /// If it is out of memory, it returns the row, and the tables are unchanged.
    #[tactic(auto, using(crate::proofs::SaidLemmas::said_once))]
    pub fn push(&mut self, table: TableId, row: Vec<Cell>) -> Result<(), Vec<Cell>>
        ensures ok { OnOk result (self.new ≡ with_row self.old table (all_said row.items)) }
        ensures err { OnErr result (self.new ≡ self.old) }
        ensures handed_back { IfErr result (λ back. back.items ≡ row.items) }
    {
        let rows = &mut self.tables[table.table_index()];
        rows.push(Row::from(row)).map_err(|row| row.into_vec())
    }

    /// Reserves memory for `more` rows of a table at once. They can then be added to it without
    /// moving the rows before them.
    ///
    /// # Errors
    ///
    /// Fails only if it is out of memory. Then the tables are unchanged.
    pub fn reserve(&mut self, table: TableId, more: usize) -> Result<(), AllocError>
        ensures { self.new ≡ self.old }
    {
        let rows = &mut self.tables[table.table_index()];
        rows.reserve(more)
    }

    /// Replaces the user bytes.
    pub fn set_user(&mut self, user: Vec<u8>)
        ensures { self.new ≡ record self.old { user = user.items } }
    {
        self.user = Bytes::from(user);
    }

    /// The version.
    pub fn version(&self) -> &str
        ensures version { result.now ≡ self.now.version }
        ensures tables { length self.now.tables ≡ 38 }
    {
        self.version.as_str()
    }

    /// The user bytes.
    pub fn user(&self) -> &[u8]
        ensures { result.now ≡ self.now.user }
    {
        self.user.as_slice()
    }

    /// The rows of a table.
    pub fn rows(&self, table: TableId) -> &[Row]
        ensures rows { result.now ≡ rows_of self.now table }
        ensures tables { length self.now.tables ≡ 38 }
    {
        self.tables[table.table_index()].as_slice()
    }

    /// The number of rows of a table.
    pub fn count(&self, table: TableId) -> usize
        ensures { result ≡ count_in self.now table }
    {
        self.rows(table).len()
    }

    /// The cells of a row. Rows count from 1.
    pub fn cells(&self, table: TableId, row: usize) -> &[Cell]
        requires first { 1 ≤ row }
        requires last { row ≤ count_in self.now table }
        ensures { all_said result.now ≡ row_of self.now table row }
    {
        self.rows(table)[row - 1].as_slice()
    }
}
