ghost use Rattle.std.specs.Prelude.{◌≡◌, true};
ghost use Rattle.clim_c.specs.Words.{AreFound, HasModel};

use opening::Found;
use std::mem::size_of;

/// The version of this interface. It grows if a program that was compiled before can no longer use the library.
const ABI_VERSION: u32 = 1;

/// The number of bytes of a view.
const VIEW_SIZE: usize = size_of::<ClimView>();

/// A root that was opened, in the caller's bytes; or none.
///
/// It belongs to the caller, who may move and copy it as a whole. No call is needed to free it. `clim_open` and
/// `clim_open_root` make it. The bytes must not change while it is used.
#[repr(C)]
#[derive(Clone, Copy)]
pub struct ClimView<'a> {
    /// The root.
    pub root: &'a [u8],
    /// What opening found of the root.
    pub found: Found,
    /// Whether there is a root.
    pub is_open: bool,
    pub ghost model: { is_open ≡ true → HasModel root.now },
    pub ghost is_found: { is_open ≡ true → AreFound root.now found },
}

/// The version of this interface, `CLIM_ABI_VERSION` of `clim.h`. It changes if a program that was compiled with an
/// older `clim.h` can no longer call the library.
#[unsafe(no_mangle)]
pub extern "C" fn clim_abi_version() -> u32
    ensures { result ≡ 1 }
{
    ABI_VERSION
}

/// The number of bytes of a `clim_view`, for a caller that cannot read `clim.h`.
#[unsafe(no_mangle)]
pub extern "C" fn clim_view_size() -> usize
    ensures { result ≡ 5208 }
{
    VIEW_SIZE
}
