use metadata_source::SignatureBytes;
use table_schema::ColumnKind;

/// A cell's use of a blob, or of a signature.
#[derive(Drop)]
pub struct BlobUse<'a> {
    /// The kind of the cell's column.
    pub kind: ColumnKind,
    /// The index of the blob in the heap that it is read from, if it is read from one.
    pub index: Option<u32>,
    /// The blob, or the bytes of the signature.
    pub bytes: SignatureBytes<'a>,
}
