/// What becomes of a file's strong name, whose hash is no longer that of the file (II.25.3.3).
#[derive(Clone, Copy, Debug, PartialEq, Eq)]
pub enum StrongName {
    /// Its flag and its directory stay. Its bytes are to be computed again by a tool that has the key.
    Keep,
    /// Its flag is cleared, and its directory becomes 0.
    Clear,
}
