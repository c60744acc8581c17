//! Laws of the definitions. Their functions do nothing.
ghost use Rattle.std.specs.Prelude.{◌≤◌, ◌+◌};
ghost use Rattle.metadata.specs.Source.{Source};
ghost use Rattle.checks.specs.Signatures.{signature_bytes};
ghost use Rattle.checks.specs.TextBytes.{text_bytes};
ghost use Rattle.checks.specs.Within.{counted_bytes};

/// A budget counts no more bytes than the texts and the signature blobs of all rows have.
pub fn budgets_count_few()
    ensures { (source : Source) → counted_bytes source ≤ text_bytes source + signature_bytes source }
{}
