ghost use Rattle.metadata.specs.Metadata.{Metadata};
ghost use Rattle.writer.specs.Outlined.{Describes};

use crate::{Outline, tables_reported};
use metadata_source::ReadMetadata;

/// What the canonical root of a metadata is planned from, besides its pools.
pub fn outline_of<S: ReadMetadata>(source: &S) -> Outline<'_>
    ensures { (model : Metadata) → S.shows source.now model → Describes result model }
{
    source.holds_one();
    Outline {
        version: source.version(),
        user_strings: source.user(),
        counts: tables_reported::counts(source),
        sorted: tables_reported::sorted(source),
    }
}
