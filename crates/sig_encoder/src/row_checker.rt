ghost use Rattle.std.specs.Prelude.{◌≡◌};
ghost use Rattle.sig_grammar.specs.Views.{body_of};
ghost use Rattle.sig_grammar.specs.Encodes.{tokens, first_bad as first_bad_of};

use crate::{PartSink, visit_body};
use sig_grammar::{SigBody, names_row};
use table_schema::Token;

/// Searches for a type index whose row does not exist, and stops at the first.
#[derive(Drop)]
struct RowChecker<'a> {
    /// The number of rows of each table, by table number.
    counts: &'a [u32; 45],
    /// The type index that was found.
    bad: Option<Token>,
}

impl<'a> PartSink for RowChecker<'a> {
    ghost use Rattle.sig_encoder.specs.Rows.{row_checker_step};

    ghost step = { row_checker_step };

    #[tactic(auto, unfolding(crate::specs::Rows::row_checker_step))]
    fn byte(&mut self, _code: u16) -> Option<()> {
        Some(())
    }

    #[tactic(auto, unfolding(crate::specs::Rows::row_checker_step))]
    fn number(&mut self, _count: usize) -> Option<()> {
        Some(())
    }

    #[tactic(auto, unfolding(crate::specs::Rows::row_checker_step))]
    fn signed(&mut self, _value: i32) -> Option<()> {
        Some(())
    }

    #[tactic(auto, unfolding(crate::specs::Rows::row_checker_step))]
    fn index(&mut self, token: Token) -> Option<()> {
        if names_row(token, self.counts) {
            return Some(());
        }
        self.bad = Some(token);
        None
    }

    #[tactic(auto, unfolding(crate::specs::Rows::row_checker_step))]
    fn broken(&mut self) -> Option<()> {
        Some(())
    }
}

/// The first type index, in encoded order, whose row does not exist in its table (II.23.2.8); `None` if
/// each row exists.
///
/// `counts` gives the number of rows of each table by table number. Row 0 never exists. The pass stops at
/// the first such index and does not allocate. The recursion, and so the stack, is as deep as the types in
/// the value nest.
pub fn first_bad(body: &SigBody, counts: &[u32; 45]) -> Option<Token>
    ensures { result ≡ first_bad_of counts.now (tokens (body_of body.now)) }
{
    crate::laws::items_are_parts();
    let mut checker = RowChecker { counts, bad: None };
    let _ = visit_body(&mut checker, body, u8::MAX);
    checker.bad
}
