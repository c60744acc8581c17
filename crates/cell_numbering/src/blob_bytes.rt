ghost use Rattle.std.specs.Prelude.{◌≡◌, ℕ, List, IfOk};
ghost use Rattle.sig_grammar.specs.Syntax.{Body};
ghost use Rattle.sig_grammar.specs.Encodes.{Encodes, short};
ghost use Rattle.cell_numbering.specs.HeapUses.{IsUseOf};
ghost use Rattle.cell_numbering.specs.BlobBytes.{bytes_in};

use crate::blob_use::BlobUse;
use metadata_source::SignatureBytes;
use signatures::{SigError, canonical_encoding, is_plainly_canonical};
use std::alloc::{AllocError, Global};
use table_schema::{ColumnKind, SigKind};

/// The bytes of a blob that is written.
#[derive(Drop)]
pub enum BlobBytes<'u> {
    /// The bytes that were found.
    Found(&'u [u8]),
    /// The canonical encoding of a signature. The bytes that were found are a longer one.
    Encoded(Vec<u8>),
}

impl<'u> BlobBytes<'u> {
    /// The bytes.
    pub fn as_slice(&self) -> &[u8]
        ensures { result.now ≡ bytes_in self.now }
    {
        match self {
            BlobBytes::Found(bytes) => bytes,
            BlobBytes::Encoded(bytes) => bytes,
        }
    }

    /// The number of bytes of memory that it takes beside those that were found.
    pub fn encoded_len(&self) -> usize {
        match self {
            BlobBytes::Found(_) => 0,
            BlobBytes::Encoded(bytes) => bytes.len(),
        }
    }
}

/// The canonical encoding of the signature that a blob encodes in a column of a kind (II.23.2).
fn encoding_of(alloc: Global, blob: &[u8], kind: SigKind) -> Result<Vec<u8>, AllocError>
    requires { ¬ (¬ ((signature : Body) × Encodes kind signature blob.now)) }
    ensures { (signature : Body) → Encodes kind signature blob.now → IfOk result (λ bytes. bytes.items ≡ short signature) }
{
    match canonical_encoding(alloc, blob, kind) {
        Ok(encoding) => Ok(encoding),
        Err(SigError::Memory) => Err(AllocError),
        Err(SigError::Bad) => unreachable!(),
    }
}

/// The canonical encoding of the signature that a blob encodes in a column of a kind (II.23.2): the blob itself, if it
/// is the canonical one.
fn canonical_bytes<'u>(
    alloc: Global,
    blob: &'u [u8],
    kind: SigKind,
) -> Result<BlobBytes<'u>, AllocError>
    requires { ¬ (¬ ((signature : Body) × Encodes kind signature blob.now)) }
    ensures { (signature : Body) → Encodes kind signature blob.now → IfOk result (λ bytes. bytes_in bytes ≡ short signature) }
{
    if is_plainly_canonical(blob) {
        return Ok(BlobBytes::Found(blob));
    }
    let encoding = encoding_of(alloc, blob, kind)?;
    if encoding.as_slice() == blob {
        Ok(BlobBytes::Found(blob))
    } else {
        Ok(BlobBytes::Encoded(encoding))
    }
}

/// The bytes that are written for the use of a blob.
pub fn written_bytes<'u>(alloc: Global, found: &'u BlobUse<'_>) -> Result<BlobBytes<'u>, AllocError>
    requires { ¬ (¬ ((blob : List ℕ) × IsUseOf found.now blob)) }
    ensures { (blob : List ℕ) → IsUseOf found.now blob → IfOk result (λ bytes. bytes_in bytes ≡ blob) }
{
    match &found.bytes {
        SignatureBytes::Canonical(bytes) => Ok(BlobBytes::Found(bytes.as_slice())),
        SignatureBytes::Stored(bytes) => match found.kind {
            ColumnKind::Signature(kind) => canonical_bytes(alloc, bytes, kind),
            _ => Ok(BlobBytes::Found(bytes)),
        },
    }
}
