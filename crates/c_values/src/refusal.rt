use metadata::Refusal;

/// Why tables are refused, for C. Table, row and column are 0 if the rule concerns none.
#[repr(C)]
#[derive(Clone, Copy)]
pub struct ClimRefusal {
    /// The index of the cell in its row, from 0.
    pub column: usize,
    /// The row of the table, counted from 1.
    pub row: u32,
    /// The number of the rule.
    pub code: u16,
    /// The table, by table number.
    pub table: u8,
}

impl From<Refusal> for ClimRefusal {
    ghost use Rattle.std.specs.Prelude.{◌≡◌};
    ghost use Rattle.c_values.specs.Refused.{refusal_of};

    ghost from_gives = { λ refusal reported. refusal_of reported ≡ refusal };

    fn from(refusal: Refusal) -> Self {
        ClimRefusal {
            column: refusal.column,
            row: refusal.row,
            code: refusal.code,
            table: refusal.table,
        }
    }
}
