ghost use Rattle.std.specs.Prelude.{◌≡◌};
ghost use Rattle.sha2.specs.Sha256.{sha256};

use sha2::{Digest, Sha256};
use writer::Prepared;

/// The SHA-256 digest (FIPS 180-4) of a canonical root: of the bytes that [`Prepared::send`] sends. It does not allocate.
pub fn digest(root: &Prepared) -> [u8; 32]
    ensures { result ≡ sha256 root.now }
{
    Sha256::digest(root.bytes())
}
