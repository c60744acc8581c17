ghost use Rattle.std.specs.Prelude.{◌≡◌, ◌↔◌, ◌<◌, ◌≤◌, ◌^◌, IfOk, IsErrOf, flat_map, length};
ghost use Rattle.std.specs.List.{AllByRecursion};
ghost use Rattle.sig_grammar.specs.Syntax.{Body};
ghost use Rattle.sig_grammar.specs.Encodes.{Encodes, short};
ghost use Rattle.signatures.specs.declared.error.SigError.TheVariants.{Bad};
ghost use Rattle.sig_items.specs.ItemParts.{encoded_item, HasItemEncoding};

use crate::SigError;
use sig_items::{Items, put_item};
use std::alloc::{AllocError, Global};
use table_schema::SigKind;

/// The bytes of items, one after another, each in its shortest form. Room for `len` bytes is reserved first, and what is
/// not used of it is given back.
fn encode_items(alloc: Global, items: Items<'_>, len: usize) -> Result<Vec<u8>, AllocError>
    requires { AllByRecursion HasItemEncoding items }
    ensures { IfOk result (λ bytes. bytes.items ≡ flat_map encoded_item items.entry) }
{
    let mut bytes = Vec::with_capacity(alloc, len)?;
    for item in items {
        put_item(&mut bytes, item)?;
    }
    bytes.shrink_to_fit();
    Ok(bytes)
}

/// The canonical encoding of the signature that all the bytes together encode, in a column of this kind (II.23.2).
///
/// It copies the signature item by item, and builds no value of it. It allocates the result alone: first with the length
/// of `bytes`, since no encoding is shorter than the canonical one, and once more if the result is shorter.
///
/// # Errors
///
/// `Bad` as for [`decode`](crate::decode). `Memory` only if the bytes encode a signature, and the result could not be
/// allocated.
pub fn canonical_encoding(alloc: Global, bytes: &[u8], kind: SigKind) -> Result<Vec<u8>, SigError>
    ensures shortest { (signature : Body) → Encodes kind signature bytes.now → IfOk result (λ encoding. encoding.items ≡ short signature) }
    ensures limit { IfOk result (λ encoding. length encoding.items < 2 ^ 29) }
    ensures no_longer { IfOk result (λ encoding. length encoding.items ≤ length bytes.now) }
    // The result is `Bad` if and only if they encode nothing.
    ensures bad { IsErrOf result Bad ↔ ¬ ((signature : Body) × Encodes kind signature bytes.now) }
{
    sig_grammar::laws::encoded_is_encodable();
    sig_grammar::laws::canonical_is_shortest();
    sig_items::laws::items_are_encoded();
    let Some(items) = Items::of(bytes, kind) else {
        return Err(SigError::Bad);
    };
    Ok(encode_items(alloc, items, bytes.len())?)
}
