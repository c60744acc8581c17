ghost use Rattle.std.specs.Prelude.{◌≡◌, ◌≤◌, ◌↔◌, Some, IsSome, IfSome, Contains};
ghost use Rattle.table_schema.specs.CodedIndexes.{tables_of};
ghost use Rattle.metadata.specs.Metadata.{Metadata, row_of};
ghost use Rattle.type_records.specs.Listed.{IsOneOf};

use crate::rows_read::ReadRows;
use table_schema::Token;
use type_records::{CodedRow, lists};

/// The record of a row that exists, of a table that its coded index lists.
fn coded_row_at<'m, R: CodedRow<'m, S::Form>, S: ReadRows<'m>>(source: &S, token: Token) -> R
    requires listed { IsOneOf (tables_of R.CODED) token.table }
    requires first { 1 ≤ token.row }
    requires last { token.row ≤ S.row_count source.now token.table }
    ensures table { R.table_of result ≡ token.table }
    ensures fields { (model : Metadata) → S.shows source.now model → R.fields result ≡ row_of model token.table token.row }
{
    R::from_row_of(token.table, &source.row_at(token.table, token.row))
}

/// The record of the row that a token names, in the variant of its table; `None` if the coded index does
/// not list that table (II.24.2.6), or the table has no such row.
pub fn resolve<'m, R: CodedRow<'m, S::Form>, S: ReadRows<'m> + Copy>(
    source: S,
    token: Token,
) -> Option<R>
    ensures there { IsSome result ↔ (Contains (tables_of R.CODED) (Some token.table) × ((1 ≤ token.row) × (token.row ≤ S.row_count source token.table))) }
    ensures table { IfSome result (λ it. R.table_of it ≡ token.table) }
    ensures fields { (model : Metadata) → S.shows source model → IfSome result (λ it. R.fields it ≡ row_of model token.table token.row) }
{
    if !lists(R::CODED, token.table) {
        return None;
    }
    if token.row == 0 || token.row > source.count_rows(token.table) {
        return None;
    }
    Some(coded_row_at(&source, token))
}
