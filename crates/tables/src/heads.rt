ghost use Rattle.std.specs.Prelude.{◌↔◌, IsTrue, IsUtf8};
ghost use Rattle.root.specs.Root.{IsVersion};
ghost use Rattle.metadata.specs.Valid.{IsUser};

use packed::BYTE_LIMIT;

/// The greatest number of bytes of a version (II.24.2.1).
const VERSION_LIMIT: usize = 254;

/// Whether a string is a valid version (II.24.2.1).
pub fn is_version(version: &str) -> bool
    ensures { IsTrue result ↔ IsVersion version.now }
{
    version.len() <= VERSION_LIMIT && !version.as_bytes().contains(&0)
}

/// Whether bytes are valid user bytes: their number is a multiple of four, and not too large.
pub fn is_user(user: &[u8]) -> bool
    ensures { IsTrue result ↔ IsUser user.now }
{
    user.len() % 4 == 0 && user.len() <= BYTE_LIMIT
}
