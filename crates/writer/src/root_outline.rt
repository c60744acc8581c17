ghost use Rattle.std.specs.Prelude.{◌≡◌, ◌≤◌, ◌^◌, length, slice_index};
ghost use Rattle.table_schema.specs.declared.table.TableId.{TableId as Table};
ghost use Rattle.table_schema.specs.Tables.{table_number};

/// What a canonical root is planned from besides its pools. A model and a view can both provide it; it has no cell.
#[derive(Clone, Copy)]
pub struct Outline<'a> {
    /// The version string (II.24.2.1), at most 254 bytes.
    pub version: &'a str,
    /// The `#US` heap (II.24.2.4), with or without padding; at most 2^30 bytes.
    pub user_strings: &'a [u8],
    /// The row count of each table, by table number (II.22); at most 2^24 - 1.
    pub counts: [u32; 45],
    /// Sorted: the bits of the keyed tables whose rows are in order (II.24.2.6).
    pub sorted: u64,
    pub ghost short: { length version.now ≤ 254 },
    pub ghost small: { length user_strings.now ≤ 2 ^ 30 },
    pub ghost few: { (table : Table) → slice_index counts (table_number table) ≤ 0xFFFFFF },
}
