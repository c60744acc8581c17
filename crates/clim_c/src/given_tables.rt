ghost use Rattle.std.specs.Prelude.{◌≡◌, ◌⊎◌, ◌-◌, ◌^◌, ◌<◌, ◌≤◌, length};
ghost use Rattle.c_texts.specs.Texts.{HasWhole};
ghost use Rattle.clim_c.specs.Words.{IsGiven, IsGivenValid, IsRefused, IsValid, Metadata, canonical, refusal_of};

use crate::canonical_root::write_whole;
use c_texts::{NO_MEMORY, TOO_LONG};
use c_values::{ClimRefusal, ClimRow, NoRoot, root_of};
use std::alloc::Global;

/// Makes the canonical root of the metadata that is given by its version, its user strings and its rows, and writes it
/// into a buffer, if there is room for all of it (II.22, II.24.2). Returns its length.
///
/// `version` is UTF-8, and `user` is what [`clim_user`](crate::view_parts::clim_user) returns, padded to a multiple of
/// four. The rows of a table are those with its number, in the order given. The fields of a cell that do not belong to its
/// kind are not looked at.
///
/// Returns 0 if and only if no valid metadata is given, and writes the first refusal: of a version that is not UTF-8; of
/// the first row, in the order given, that cannot be read; or of the first rule that the tables break. `CLIM_TOO_LONG` if
/// the root would have more than 2^30 bytes, and `CLIM_NO_MEMORY` if memory runs out. In these three the buffer is
/// unchanged. `refusal` changes only if the result is 0.
#[unsafe(no_mangle)]
pub extern "C" fn clim_tables(
    alloc: Global,
    version: &[u8],
    user: &[u8],
    rows: &[ClimRow<'_>],
    buffer: &mut [u8],
    refusal: &mut ClimRefusal,
) -> usize
    ensures root { result ≤ 2 ^ 30 → 0 < result → (model : Metadata) → IsGiven version.now user.now rows.now model
        → (result ≡ length (canonical model)) × HasWhole buffer.old (canonical model) buffer.new }
    ensures there { result ≤ 2 ^ 30 → 0 < result → IsGivenValid version.now user.now rows.now (λ model. length (canonical model) ≤ 2 ^ 30) }
    ensures refused { result ≡ 0 → IsRefused version.now user.now rows.now (refusal_of refusal.new) }
    ensures accepted { result ≡ 0 → (model : Metadata) → IsGiven version.now user.now rows.now model → ¬ IsValid model }
    ensures too_long { result ≡ 2 ^ 64 - 1 → IsGivenValid version.now user.now rows.now (λ model. 2 ^ 30 < length (canonical model)) }
    ensures within { (result ≤ 2 ^ 30) ⊎ ((result ≡ 2 ^ 64 - 1) ⊎ (result ≡ 2 ^ 64 - 2)) }
    ensures same { (0 < result → refusal.new ≡ refusal.old) × ((result ≡ 0) ⊎ (2 ^ 30 < result) → buffer.new ≡ buffer.old) }
{
    c_values::laws::refused_metadata_is_not_valid();
    match root_of(alloc, version, user, rows) {
        Ok(root) => write_whole(&root, buffer),
        Err(NoRoot::Refused(found)) => {
            *refusal = ClimRefusal::from(found);
            0
        }
        Err(NoRoot::TooLong) => TOO_LONG,
        Err(NoRoot::Memory) => NO_MEMORY,
    }
}
