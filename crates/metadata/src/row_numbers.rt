ghost use Rattle.std.specs.Prelude.{◌≡◌, ◌≤◌, ◌<◌, ◌^◌, length};
ghost use Rattle.std.specs.List.{position_or_len};
ghost use Rattle.table_schema.specs.CodedIndexes.{tables_of, tag_bits};
ghost use Rattle.sig_grammar.specs.Parts.{is_table as is_table_of};
ghost use Rattle.metadata.specs.KeyOrder.{row_number as number_of_row};

use table_schema::{Coded, ColumnKind, TableId, Token};

/// The number by which a column of a kind refers to a row (II.24.2.6).
///
/// It is the row itself or, in a coded index, the row above the tag of its table. Of a table that the
/// coded index does not list, the tag is the number of tags.
pub fn row_number(kind: ColumnKind, token: Token) -> u64
    ensures value { result ≡ number_of_row kind token }
    ensures limit { token.row ≤ 0xFFFFFF → result < 2 ^ 32 }
{
    table_schema::laws::tags_fit();
    let row = token.row as u64;
    match kind {
        ColumnKind::Coded(coded) => row * tag_count(coded) + tag_of(coded, token.table) as u64,
        _ => row,
    }
}

/// How many tags the bits of a coded index's tag can be.
fn tag_count(coded: Coded) -> u64
    ensures value { result ≡ 2 ^ tag_bits coded }
    ensures limit { result ≤ 32 }
{
    1 << coded.tag_bits()
}

/// The tag of a table in a coded index, or the number of tags if the table has none.
#[tactic(auto, using(std::proofs::lemmas::List::Sums::position_or_len_is))]
fn tag_of(coded: Coded, table: TableId) -> usize
    ensures value { result ≡ position_or_len (is_table_of table) (tables_of coded) }
    ensures limit { result ≤ length (tables_of coded) }
{
    let listed = coded.tables();
    for (tag, one) in listed.iter().enumerate() {
        if is_table(table, *one) {
            return tag;
        }
    }
    listed.len()
}

/// Whether an entry of a coded index is a table.
fn is_table(table: TableId, listed: Option<TableId>) -> bool
    ensures { result ≡ is_table_of table listed }
{
    match listed {
        Some(listed) => table.number() == listed.number(),
        None => false,
    }
}
