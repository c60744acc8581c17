ghost use Rattle.std.specs.Prelude.{◌≡◌, ◌*◌, ◌-◌, ◌^◌, ◌<◌, ◌≤◌, ℕ, length, true, Some, slice_get, slice_index_or};
ghost use Rattle.table_schema.specs.declared.table.TableId.{TableId as Table};
ghost use Rattle.table_schema.specs.declared.table.TableId.TheVariants.{Module as TheModule};
ghost use Rattle.table_schema.specs.declared.coded.Coded.{Coded as TheCoded};
ghost use Rattle.table_schema.specs.Tables.{table_number, table_index_of, tables};
ghost use Rattle.table_schema.specs.Columns.{columns_of, column_at, key_of, IsReference, MayBeNull};
ghost use Rattle.table_schema.specs.CodedIndexes.{tables_of, tag_bits};

pub use crate::cell_columns::cells_have_columns;
pub use crate::token::tokens_are_in_order;

/// The tables are in the order of their numbers, each at its table index.
pub fn tables_stand()
    ensures count { length tables ≡ 38 }
    ensures table_index { (table : Table) → table_index_of table < 38 }
    ensures number { (table : Table) → table_number table < 45 }
    ensures stand { (table : Table) → slice_index_or tables (table_index_of table) TheModule ≡ table }
    ensures rise { (lower higher : Table) → table_index_of lower < table_index_of higher → table_number lower < table_number higher }
{}

/// A table has at most nine columns. Its key, if it has one, refers to rows. A column that allows null has
/// a number for null.
#[tactic(auto, using(crate::proofs::TableFacts::columns_few, crate::proofs::TableFacts::key_within, crate::proofs::TableFacts::key_reference, crate::proofs::TableFacts::may_be_null))]
pub fn columns_stand()
    ensures few { (table : Table) → length (columns_of table) ≤ 9 }
    ensures key { (table : Table) (column : ℕ) → key_of table ≡ Some column → column < length (columns_of table) }
    ensures reference { (table : Table) (column : ℕ) → key_of table ≡ Some column → IsReference (column_at table column) }
    ensures null { (table : Table) (column : ℕ) → column < length (columns_of table) → (column_at table column).nullable ≡ true
        → MayBeNull (column_at table column) }
{}

/// The tag of a coded index fits beside a row number, and each of its tables has one tag.
#[tactic(auto, using(crate::proofs::CodedLemmas::tables_few, crate::proofs::CodedLemmas::tag_narrow, crate::proofs::CodedLemmas::tag_wide, crate::proofs::CodedLemmas::one_tag))]
pub fn tags_fit()
    ensures few { (coded : TheCoded) → length (tables_of coded) ≤ 2 ^ tag_bits coded }
    ensures narrow { (coded : TheCoded) → 2 ^ tag_bits coded * 2 ^ (16 - tag_bits coded) ≡ 2 ^ 16 }
    ensures wide { (coded : TheCoded) → 2 ^ tag_bits coded * 2 ^ 24 ≤ 2 ^ 32 }
    ensures one { (coded : TheCoded) (a b : ℕ) (table : Table) → slice_get (tables_of coded) a ≡ Some (Some table)
        → slice_get (tables_of coded) b ≡ Some (Some table) → a ≡ b }
{}
