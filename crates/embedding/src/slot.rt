/// Where the root goes in a file.
#[derive(Clone, Copy)]
pub enum Slot {
    /// Into the range that MetaData names. The rest of that becomes zeros.
    Reused,
    /// Into a new section.
    Appended {
        /// The RVA of the section.
        address: u32,
        /// Its file offset.
        offset: u32,
    },
    /// Into the last section, which becomes longer.
    Extended {
        /// The offset of the root in the section.
        within: u32,
    },
}

/// What a slot comes to, in bytes.
#[derive(Clone, Copy)]
pub struct Target {
    /// The number of bytes of the file that stay.
    pub kept: u64,
    /// The length of the result.
    pub len: u64,
    /// The file offset of the root.
    pub start: u64,
    /// The RVA of the root.
    pub address: u64,
    /// The size in the file of a section that is new or longer.
    pub raw_size: u64,
}
