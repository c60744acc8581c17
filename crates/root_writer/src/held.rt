use crate::sizes::StreamSizes;
use root::Kind;
use std::marker::Model;

/// The streams in the order of a canonical root.
const KINDS: [Kind; 5] = [
    Kind::Tables,
    Kind::Strings,
    Kind::UserStrings,
    Kind::Guids,
    Kind::Blobs,
];

/// The streams that have bytes, in the order of a canonical root.
#[derive(Drop)]
pub struct HeldKinds {
    kinds: [Kind; 5],
    count: usize,
}

impl Model for HeldKinds {
    ghost use Rattle.std.specs.Prelude.{◌≤◌, List, take};
    ghost use Rattle.root.specs.declared.kind.Kind.{Kind as TheKind};

    ghost Value = { List TheKind };

    ghost view = { λ held. take held.count held.kinds };

    ghost invariant = { λ held. held.count ≤ 5 };
}

impl HeldKinds {
    ghost use Rattle.std.specs.Prelude.{◌≡◌, ◌≤◌, length};
    ghost use Rattle.root_writer.specs.Heading.{size_of, held};

    /// The streams that have bytes.
    pub fn new(sizes: &StreamSizes) -> HeldKinds
        ensures { result ≡ held (size_of sizes.now) }
    {
        let mut kinds = KINDS;
        let mut count = 0;
        for kind in &KINDS {
            if sizes.size(*kind) > 0 {
                kinds[count] = *kind;
                count += 1;
            }
        }
        HeldKinds { kinds, count }
    }

    /// The streams.
    pub fn as_slice(&self) -> &[Kind]
        ensures kinds { result.now ≡ self.now }
        ensures few { length result.now ≤ 5 }
    {
        &self.kinds[..self.count]
    }
}
