use root::Kind;

/// The size of each stream of a root in bytes, padded to a multiple of four; 0 for a stream that is left out.
#[derive(Clone, Copy, Debug, PartialEq, Eq)]
pub struct StreamSizes {
    /// `#~`.
    pub tables: u32,
    /// `#Strings`.
    pub strings: u32,
    /// `#US`.
    pub user_strings: u32,
    /// `#GUID`.
    pub guids: u32,
    /// `#Blob`.
    pub blobs: u32,
}

impl StreamSizes {
    ghost use Rattle.std.specs.Prelude.{◌≡◌};
    ghost use Rattle.root_writer.specs.Heading.{size_of};

    /// The size in bytes of the stream of a kind.
    pub fn size(&self, kind: Kind) -> u32
        ensures { result ≡ size_of self.now kind }
    {
        match kind {
            Kind::Tables => self.tables,
            Kind::Strings => self.strings,
            Kind::UserStrings => self.user_strings,
            Kind::Guids => self.guids,
            Kind::Blobs => self.blobs,
        }
    }
}
