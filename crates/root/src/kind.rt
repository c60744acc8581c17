ghost use Rattle.std.specs.Prelude.{◌≡◌, ◌≢◌, MatchOption};
ghost use Rattle.root.specs.Streams.{stream_name};

/// A stream that the standard names (II.24.2.2).
#[derive(Clone, Copy, Debug, PartialEq, Eq)]
pub enum Kind {
    /// `#~`: the tables (II.24.2.6).
    Tables,
    /// `#Strings`: names and other identifiers (II.24.2.3).
    Strings,
    /// `#US`: the string literals of programs (II.24.2.4).
    UserStrings,
    /// `#GUID`: GUIDs of 16 bytes (II.24.2.5).
    Guids,
    /// `#Blob`: signatures and other byte sequences (II.24.2.4).
    Blobs,
}

impl Kind {
    /// The name of the stream, as its header writes it.
    pub fn name(self) -> &'static str
        ensures { result.now ≡ stream_name self }
    {
        match self {
            Kind::Tables => "#~",
            Kind::Strings => "#Strings",
            Kind::UserStrings => "#US",
            Kind::Guids => "#GUID",
            Kind::Blobs => "#Blob",
        }
    }

    /// The stream with this name, if the standard defines one.
    pub fn of(name: &str) -> Option<Kind>
        ensures { MatchOption result ((kind : Kind) → name.now ≢ stream_name kind) (λ kind. name.now ≡ stream_name kind) }
    {
        match name {
            "#~" => Some(Kind::Tables),
            "#Strings" => Some(Kind::Strings),
            "#US" => Some(Kind::UserStrings),
            "#GUID" => Some(Kind::Guids),
            "#Blob" => Some(Kind::Blobs),
            _ => None,
        }
    }
}
