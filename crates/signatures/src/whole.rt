ghost use Rattle.std.specs.Prelude.{◌≡◌, ◌↔◌, IfOk, IsErrOf};
ghost use Rattle.sig_grammar.specs.Syntax.{Body};
ghost use Rattle.sig_grammar.specs.Views.{body_of};
ghost use Rattle.sig_grammar.specs.Encodes.{Encodes};
ghost use Rattle.signatures.specs.declared.error.SigError.TheVariants.{Bad};

use crate::bodies::body;
use crate::error::SigError;
use sig_grammar::{DEPTH_LIMIT, SigBody};
use sig_recogniser::recognise;
use std::alloc::Global;
use table_schema::SigKind;

/// The value of the signature that all the bytes together encode, in a column of a kind (II.23.2).
///
/// The bytes are recognised first, without allocation, so that no count in them reserves more than they hold.
/// The row of a type index need not exist.
///
/// # Errors
///
/// `Bad` if and only if the bytes encode nothing, even when memory is exhausted. `Memory` only if they encode
/// a signature and its value could not be allocated.
pub fn decode_body(alloc: Global, bytes: &[u8], kind: SigKind) -> Result<SigBody, SigError>
    // The bytes encode the value that is built.
    ensures sound { IfOk result (λ body. Encodes kind (body_of body) bytes.now) }
    // They encode nothing else.
    ensures complete { (signature : Body) → Encodes kind signature bytes.now → IfOk result (λ body. body_of body ≡ signature) }
    // The result is `Bad` if and only if they encode nothing.
    ensures bad { IsErrOf result Bad ↔ ¬ ((signature : Body) × Encodes kind signature bytes.now) }
{
    sig_grammar::laws::signatures_are_read();
    if !recognise(bytes, kind) {
        return Err(SigError::Bad);
    }
    let (body, _) = body(alloc, bytes, kind, DEPTH_LIMIT)?;
    Ok(body)
}
