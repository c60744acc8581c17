/// The bytes of a signature (II.23.2).
#[derive(Drop)]
pub enum SignatureBytes<'s> {
    /// A blob that encodes it, as it was found. Its encoding may be longer than needed.
    Stored(&'s [u8]),
    /// Its canonical encoding.
    Canonical(Vec<u8>),
}
