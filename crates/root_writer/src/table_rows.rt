ghost use Rattle.std.specs.Prelude.{◌≡◌, ◌≤◌, length, sum_by};
ghost use Rattle.table_schema.specs.Tables.{tables};
ghost use Rattle.table_schema.specs.Columns.{columns_of};
ghost use Rattle.schema.specs.LaidOut.{row_bytes, rows_bytes, tables_bytes};
ghost use Rattle.root_writer.specs.Written.{Puts};
ghost use Rattle.root_writer.specs.Flat.{cells_of, table_in, tables_in};

use crate::writer::Writer;
use schema::Layout;
use table_schema::{TableId, columns};

impl Writer {
    /// Writes a row of a table by its numbers, one per column. A number that is too great for its column is truncated
    /// to its low bytes (II.24.2.6).
    fn put_row(&mut self, layout: &Layout, table: TableId, numbers: &[u32])
        requires many { length numbers.now ≡ length (columns_of table) }
        requires room { length (row_bytes layout.now (columns_of table) numbers.now) ≤ self.old.room }
        ensures { Puts self.old self.new (row_bytes layout.now (columns_of table) numbers.now) }
    {
        for (column, number) in numbers.iter().enumerate() {
            self.put_number(layout.cell_width(table, column), *number);
        }
    }

    /// Writes the rows of a table by their numbers, row by row.
    pub fn put_rows(&mut self, layout: &Layout, table: TableId, numbers: &[u32])
        requires many { length numbers.now ≡ cells_of layout.now table }
        requires room { length (rows_bytes layout.now (columns_of table) (table_in layout.now table numbers.now)) ≤ self.old.room }
        ensures { Puts self.old self.new (rows_bytes layout.now (columns_of table) (table_in layout.now table numbers.now)) }
    {
        let columns = columns(table).len();
        let mut tail = numbers;
        for _row in 0..layout.count(table) {
            let (row, rows) = tail.split_at(columns);
            self.put_row(layout, table, row);
            tail = rows;
        }
    }

    /// Writes the rows of all tables by their numbers, table by table.
    pub fn put_tables(&mut self, layout: &Layout, numbers: &[u32])
        requires many { length numbers.now ≡ sum_by (cells_of layout.now) tables }
        requires room { length (tables_bytes layout.now tables (tables_in layout.now tables numbers.now)) ≤ self.old.room }
        ensures { Puts self.old self.new (tables_bytes layout.now tables (tables_in layout.now tables numbers.now)) }
    {
        table_schema::laws::columns_stand();
        let mut tail = numbers;
        for table in TableId::all() {
            let count = columns(*table).len() * layout.count(*table) as usize;
            let (rows, tables) = tail.split_at(count);
            self.put_rows(layout, *table, rows);
            tail = tables;
        }
    }
}
