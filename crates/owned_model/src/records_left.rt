ghost use Rattle.std.specs.Prelude.{◌≡◌, ◌≤◌, ◌+◌, ◌-◌, ◌↔◌, IsSome, IfSome};
ghost use Rattle.std.specs.Iterator.{at_most};
ghost use Rattle.metadata.specs.Metadata.{Metadata, rows_of, row_of};
ghost use Rattle.owned_model.specs.RowsLeft.{YieldsRow, rows_between};

use crate::rows_read::ReadRows;
use std::marker::{Model, PhantomData};
use type_records::FromRow;

/// The record of a row that exists.
fn record_at<'m, R: FromRow<'m, S::Form>, S: ReadRows<'m>>(source: &S, row: u32) -> R
    requires first { 1 ≤ row }
    requires last { row ≤ S.row_count source.now R.TABLE }
    ensures { (model : Metadata) → S.shows source.now model → R.fields result ≡ row_of model R.TABLE row }
{
    R::from_row(&source.row_at(R::TABLE, row))
}

/// The record of a row, counted from 1; `None` if the table has no such row.
pub fn row<'m, R: FromRow<'m, S::Form>, S: ReadRows<'m> + Copy>(source: S, row: u32) -> Option<R>
    ensures there { IsSome result ↔ ((1 ≤ row) × (row ≤ S.row_count source R.TABLE)) }
    ensures fields { (model : Metadata) → S.shows source model → IfSome result (λ it. R.fields it ≡ row_of model R.TABLE row) }
{
    if row == 0 || row > source.count_rows(R::TABLE) {
        return None;
    }
    Some(record_at(&source, row))
}

/// The records of a table's rows that are left, in order.
#[derive(Drop)]
pub struct Records<'m, S, R> {
    source: S,
    next: u32,
    last: u32,
    of: PhantomData<(&'m (), R)>,
}

impl<'m, S, R> Model for Records<'m, S, R> {
    ghost use Rattle.std.specs.Prelude.{◌≤◌, ◌+◌};
    ghost use Rattle.owned_model.specs.RowsLeft.{RowsLeft};

    ghost Value = { RowsLeft S };

    ghost view = { λ left. record { source = left.source; next = left.next; last = left.last } };

    ghost invariant = { λ left. (1 ≤ left.next) × (left.next ≤ left.last + 1) × (left.last ≤ 0xFFFFFF) };
}

impl<'m, R: FromRow<'m, S::Form>, S: ReadRows<'m> + Copy> Iterator for Records<'m, S, R> {
    type Item = R;

    ghost can_next = { λ left. left.last ≤ S.row_count left.source R.TABLE };

    ghost next_gives = { YieldsRow S.shows R.fields R.TABLE };

    ghost remaining = { λ left. at_most ((left.last + 1) - left.next) };

    #[tactic(auto, using(crate::proofs::RowsLeftLemmas::first_row))]
    fn next(&mut self) -> Option<R> {
        if self.next > self.last {
            return None;
        }
        self.source.holds_rows();
        let row = self.next;
        self.next += 1;
        Some(record_at(&self.source, row))
    }

    fn size_hint(&self) -> (usize, Option<usize>) {
        let count = (self.last + 1 - self.next) as usize;
        (count, Some(count))
    }
}

impl<'m, R: FromRow<'m, S::Form>, S: ReadRows<'m> + Copy> ExactSizeIterator for Records<'m, S, R> {
    fn len(&self) -> usize {
        (self.last + 1 - self.next) as usize
    }
}

/// The records of a table's rows, in order.
#[tactic(auto, using(crate::proofs::RowsLeftLemmas::all_rows))]
pub fn rows<'m, R: FromRow<'m, S::Form>, S: ReadRows<'m> + Copy>(source: S) -> Records<'m, S, R>
    ensures left { result ≡ record { source = source; next = 1; last = S.row_count source R.TABLE } }
    // They are the rows of the table, of every model that is shown.
    ensures rows { (model : Metadata) → S.shows source model → rows_between model R.TABLE result.next result.last ≡ rows_of model R.TABLE }
{
    source.holds_rows();
    Records {
        source,
        next: 1,
        last: source.count_rows(R::TABLE),
        of: PhantomData,
    }
}
