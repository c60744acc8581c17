//! Which rows of some tables are chosen.
ghost use Rattle.std.specs.Prelude.{◌≤◌};
ghost use Rattle.metadata.specs.Metadata.{Metadata};
ghost use Rattle.metadata.specs.Model.{IsModel};
ghost use Rattle.opening.specs.Views.{row_count};
ghost use Rattle.cli_names.specs.Chosen.{IsChosen};

use crate::refs::{Wanted, belongs};
use crate::source::Source;
use opening::Token;
use visible_rows::declaring_type;

/// Which rows are chosen.
#[derive(Clone, Copy)]
pub enum Choice<'w, 'p> {
    /// All.
    All,
    /// Those that describe a type or what it declares.
    Describing(Token),
    /// Those that belong to a type of another module that is wanted.
    Belonging(&'w Wanted<'p>),
}

/// Whether a row is chosen.
pub fn is_chosen(source: &Source<'_, '_>, choice: Choice<'_, '_>, token: Token) -> bool
    requires first { 1 ≤ token.row }
    requires last { token.row ≤ row_count source.now.neighbours.view.now token.table }
    ensures { (model : Metadata) → IsModel source.now.neighbours.view.now model → IsChosen model choice.entry result token }
{
    match choice {
        Choice::All => true,
        Choice::Describing(class) => declaring_type(&source.neighbours, token) == Some(class),
        Choice::Belonging(wanted) => belongs(source.neighbours.view, wanted, token),
    }
}
