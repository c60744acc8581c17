ghost use Rattle.std.specs.Prelude.{◌≡◌};
ghost use Rattle.full_names.specs.SignatureBytes.{bytes_in};

use metadata_source::SignatureBytes;

/// The bytes of a signature, stored or canonical.
pub fn bytes_of<'b>(bytes: &'b SignatureBytes<'_>) -> &'b [u8]
    ensures { result.now ≡ bytes_in bytes.now }
{
    match bytes {
        SignatureBytes::Stored(blob) => blob,
        SignatureBytes::Canonical(bytes) => bytes,
    }
}
