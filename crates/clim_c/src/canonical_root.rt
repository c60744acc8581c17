ghost use Rattle.std.specs.Prelude.{◌≡◌, ◌⊎◌, ◌^◌, ◌<◌, ◌≤◌, IfOk, IfErr, OnOk, true, length};
ghost use Rattle.c_texts.specs.Texts.{HasWhole};
ghost use Rattle.clim_c.specs.CanonicalRoots.{IsNoRoot};
ghost use Rattle.clim_c.specs.Words.{IsModel, Metadata, canonical, sha256};

use crate::opened::seen;
use crate::view::ClimView;
use c_texts::{NO_MEMORY, ROOT_LIMIT, TOO_LONG, copy_at};
use sha2::{Digest, Sha256};
use std::alloc::Global;
use writer::{Prepared, WriteError, prepare};

/// The canonical root of a view, or the number that says why there is none.
fn canonical_root(alloc: Global, view: &ClimView) -> Result<Prepared, usize>
    ensures root { (model : Metadata) → IsModel view.now.root.now model → IfOk result (λ root. root ≡ canonical model) }
    ensures within { IfOk result (λ root. length root ≤ 2 ^ 30) }
    ensures open { OnOk result (view.now.is_open ≡ true) }
    ensures refused { IfErr result (IsNoRoot view.now.is_open view.now.root.now) }
{
    let Some(seen) = seen(view) else {
        return Err(0);
    };
    match prepare(alloc, &seen, ROOT_LIMIT) {
        Ok(root) => Ok(root),
        Err(WriteError::TooLarge) => Err(TOO_LONG),
        Err(_) => Err(NO_MEMORY),
    }
}

/// Writes a root into a buffer, if there is room for all of it, and returns its length.
pub(crate) fn write_whole(root: &Prepared, buffer: &mut [u8]) -> usize
    ensures bytes { HasWhole buffer.old root.now buffer.new }
    ensures length { result ≡ length root.now }
{
    let bytes = root.bytes();
    if bytes.len() <= buffer.len() {
        copy_at(buffer, 0, bytes);
    }
    bytes.len()
}

/// Writes the canonical root of a view into a buffer, if there is room for all of it, and returns its length (II.24.2).
/// Otherwise the buffer is unchanged. Returns 0 if the view is not open, `CLIM_TOO_LONG` if the root would have more than
/// 2^30 bytes, and `CLIM_NO_MEMORY` if memory runs out.
#[unsafe(no_mangle)]
pub extern "C" fn clim_canonical_root(alloc: Global, view: &ClimView, buffer: &mut [u8]) -> usize
    ensures root { result ≤ 2 ^ 30 → view.now.is_open ≡ true → (model : Metadata) → IsModel view.now.root.now model
        → (result ≡ length (canonical model)) × HasWhole buffer.old (canonical model) buffer.new }
    ensures refused { ((view.now.is_open ≡ true) × (result ≤ 2 ^ 30)) ⊎ ((buffer.new ≡ buffer.old) × IsNoRoot view.now.is_open view.now.root.now result) }
{
    match canonical_root(alloc, view) {
        Ok(root) => write_whole(&root, buffer),
        Err(reason) => reason,
    }
}

/// Writes the SHA-256 of the canonical root of a view, and returns the length of that root (FIPS 180-4).
/// If there is no root, `digest` is unchanged, and the result is that of [`clim_canonical_root`].
#[unsafe(no_mangle)]
pub extern "C" fn clim_digest(alloc: Global, view: &ClimView, digest: &mut [u8; 32]) -> usize
    ensures root { result ≤ 2 ^ 30 → view.now.is_open ≡ true → (model : Metadata) → IsModel view.now.root.now model
        → (result ≡ length (canonical model)) × (digest.new ≡ sha256 (canonical model)) }
    ensures refused { ((view.now.is_open ≡ true) × (result ≤ 2 ^ 30)) ⊎ ((digest.new ≡ digest.old) × IsNoRoot view.now.is_open view.now.root.now result) }
{
    match canonical_root(alloc, view) {
        Ok(root) => {
            *digest = Sha256::digest(root.bytes());
            root.len() as usize
        }
        Err(reason) => reason,
    }
}
