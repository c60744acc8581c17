ghost use Rattle.std.specs.Prelude.{◌≡◌, IsTrue, ◌↔◌, IfSome, Some};
ghost use Rattle.sig_grammar.specs.Syntax.{Body};
ghost use Rattle.sig_grammar.specs.Encodes.{Encodes, tokens, first_bad};

use crate::columns::after_body;
use crate::position::{START, bad_token, bytes_from};
use packed::BLOB_LIMIT;
use sig_grammar::DEPTH_LIMIT;
use table_schema::{SigKind, Token};

/// Tables without rows, for recognition alone, which ignores rows.
const NO_ROWS: [u32; 45] = [0; 45];

/// The first type index, in encoded order, whose row does not exist in its table (II.23.2.8). All the bytes
/// together encode the signature, in a column of this kind. `Some(None)` means that each row exists, and
/// `None` that the bytes encode no such signature.
///
/// `counts` gives the number of rows of each table by table number. One pass, and it does not allocate. It
/// returns what [`recognise`] and [`index_of_first_bad`] return in two passes.
#[inline(always)]
pub fn recognise_first_bad(bytes: &[u8], kind: SigKind, counts: &[u32; 45]) -> Option<Option<Token>>
    ensures sound { IfSome result (λ bad. (signature : Body) × Encodes kind signature bytes.now × (bad ≡ first_bad counts.now (tokens signature))) }
    ensures complete { (signature : Body) → Encodes kind signature bytes.now → result ≡ Some (first_bad counts.now (tokens signature)) }
{
    sig_grammar::laws::signatures_are_read();
    if bytes.len() > BLOB_LIMIT {
        return None;
    }
    let end = after_body(bytes, START, kind, DEPTH_LIMIT, counts)?;
    let behind = bytes_from(bytes, end);
    if !behind.is_empty() {
        return None;
    }
    Some(bad_token(end))
}

/// Whether all the bytes together encode a signature that a column of this kind holds.
///
/// One pass, and it does not allocate. Packed numbers may be longer than necessary. Types nest at most 128
/// deep. 2^29 bytes or more encode nothing. The row of a type index need not exist.
pub fn recognise(bytes: &[u8], kind: SigKind) -> bool
    ensures encoded { IsTrue result ↔ ((signature : Body) × Encodes kind signature bytes.now) }
    // No bytes encode two signatures.
    ensures one { (first second : Body) → Encodes kind first bytes.now → Encodes kind second bytes.now → first ≡ second }
{
    sig_grammar::laws::signatures_are_read();
    recognise_first_bad(bytes, kind, &NO_ROWS).is_some()
}

/// The first type index, in encoded order, whose row does not exist in its table (II.23.2.8); `None` if
/// each row exists.
///
/// `counts` gives the number of rows of each table by table number. One pass, and it does not allocate.
pub fn index_of_first_bad(bytes: &[u8], kind: SigKind, counts: &[u32; 45]) -> Option<Token>
    requires { (signature : Body) × Encodes kind signature bytes.now }
    ensures { (signature : Body) → Encodes kind signature bytes.now → result ≡ first_bad counts.now (tokens signature) }
{
    recognise_first_bad(bytes, kind, counts)?
}
