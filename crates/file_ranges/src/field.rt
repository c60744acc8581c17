/// A field of the PE headers that has four bytes (II.25.2).
#[derive(Clone, Copy)]
pub enum Field {
    /// Machine, and Number of Sections in the two bytes that follow.
    Machine,
    /// Initialized Data Size.
    InitializedDataSize,
    /// Section Alignment.
    SectionAlignment,
    /// File Alignment.
    FileAlignment,
    /// Image Size.
    ImageSize,
    /// Header Size.
    HeaderSize,
    /// File Checksum.
    Checksum,
}
