ghost use Rattle.std.specs.Prelude.{◌≡◌, ◌≢◌, ◌≤◌, ◌<◌, [], slice_index_or};
ghost use Rattle.clim_c.specs.Words.{Table, cell_count, column_names_of, column_of, name_of, table_name, table_number};

use opening::{Fault, TableId};
use schema::column_names;
use table_schema::{cell_count, column_of_cell};

/// The name of the rule with a number; no bytes if no rule has it.
#[unsafe(no_mangle)]
pub extern "C" fn clim_fault_name(code: u16, name: &mut &'static [u8])
    ensures { name.new.now ≡ name_of code }
{
    let fault = Fault {
        layer: 0,
        code,
        offset: 0,
    };
    *name = fault.name().as_bytes();
}

/// The name of the table with a number (II.22); no bytes if no table has it.
#[unsafe(no_mangle)]
pub extern "C" fn clim_table_name(table: u8, name: &mut &'static [u8])
    ensures sound { (known : Table) → table_number known ≡ table → name.new.now ≡ table_name known }
    ensures none { ((known : Table) → table_number known ≢ table) → name.new.now ≡ [] }
{
    *name = match TableId::from_number(table) {
        Some(table) => table.name().as_bytes(),
        None => &[],
    };
}

/// The number of cells in a row of the table with a number; 0 if no table has it.
#[unsafe(no_mangle)]
pub extern "C" fn clim_cell_count(table: u8) -> usize
    ensures sound { (known : Table) → table_number known ≡ table → result ≡ cell_count known }
    ensures none { ((known : Table) → table_number known ≢ table) → result ≡ 0 }
{
    match TableId::from_number(table) {
        Some(table) => cell_count(table),
        None => 0,
    }
}

/// The name of the column of a cell, by the index of the cell in its row, from 0 (II.22); no bytes if no row has such a
/// cell.
#[unsafe(no_mangle)]
pub extern "C" fn clim_column_name(table: u8, column: usize, name: &mut &'static [u8])
    ensures sound { (known : Table) → table_number known ≡ table → column < cell_count known
        → name.new.now ≡ slice_index_or (column_names_of known) (column_of known column) [] }
    ensures past { (known : Table) → table_number known ≡ table → cell_count known ≤ column → name.new.now ≡ [] }
    ensures none { ((known : Table) → table_number known ≢ table) → name.new.now ≡ [] }
{
    *name = match TableId::from_number(table) {
        Some(table) if column < cell_count(table) => {
            column_names(table)[column_of_cell(table, column)].as_bytes()
        }
        _ => &[],
    };
}
