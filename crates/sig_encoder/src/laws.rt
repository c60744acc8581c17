ghost use Rattle.std.specs.Prelude.{◌≡◌, ◌↔◌, ℕ, true};
ghost use Rattle.sig_grammar.specs.Grammar.{body_parts};
ghost use Rattle.sig_grammar.specs.Limits.{IsBodyWithin};
ghost use Rattle.sig_grammar.specs.Syntax.{Body};
ghost use Rattle.sig_encoder.specs.Items.{body_items, kept, unbroken};

pub use crate::same_body::equality_is_tested;

/// The parts that the traversal passes are the parts of the grammar, in encoded order. It reports a broken
/// value if and only if the grammar or the depth does not allow the signature.
pub fn items_are_parts()
    ensures parts { (signature : Body) (depth : ℕ) → kept (body_items signature depth) ≡ body_parts signature }
    ensures allowed { (signature : Body) (depth : ℕ) → (unbroken (body_items signature depth) ≡ true) ↔ IsBodyWithin depth signature }
{}
