ghost use Rattle.std.specs.Prelude.{◌≡◌, ℕ, true};
ghost use Rattle.pe.specs.Image.{Image, IsImage};
ghost use Rattle.pe.specs.Offset.{IsFileOffset};
ghost use Rattle.clim_c.specs.Words.{OnFalse, OnTrue};

use pe::read_pe;

/// The offset in a file of `size` bytes at an address, by the section headers (II.25.3). `true` if the file is an image
/// (II.25.2) and has these bytes. Otherwise `offset` is unchanged.
///
/// It looks at the PE headers alone. Its time is linear in the number of sections, which is below 65,536.
#[unsafe(no_mangle)]
pub extern "C" fn clim_offset_of(file: &[u8], rva: u32, size: u32, offset: &mut usize) -> bool
    ensures sound { OnTrue result ((image : Image) × IsImage file.now image × IsFileOffset image rva size offset.new) }
    ensures complete { (image : Image) (start : ℕ) → IsImage file.now image → IsFileOffset image rva size start → (result ≡ true) × (offset.new ≡ start) }
    ensures same { OnFalse result (offset.new ≡ offset.old) }
{
    let Ok(image) = read_pe(file) else {
        return false;
    };
    let Some(range) = image.range(rva, size) else {
        return false;
    };
    *offset = range.start;
    true
}
