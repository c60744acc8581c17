ghost use Rattle.std.specs.Prelude.{◌≡◌, ◌↔◌, IfSome, IsSome, length};
ghost use Rattle.sig_grammar.specs.Views.{body_of};
ghost use Rattle.sig_grammar.specs.Encodes.{IsEncodable, short};

use crate::bodies::visit_body;
use crate::laws;
use crate::measurer::Measurer;
use packed::BLOB_LIMIT;
use sig_grammar::{DEPTH_LIMIT, SigBody};

/// The number of bytes of a signature's canonical encoding (II.23.2); `None` if no bytes encode it.
///
/// A signature has an encoding if and only if all of this holds. The grammar knows the kind of each method, and
/// allows each SENTINEL and each array shape. Types nest at most 128 deep. Unsigned numbers and lower bounds fit
/// 29 bits. Each index names TypeDef, TypeRef or TypeSpec, and a row below 2^27. The canonical encoding has fewer
/// than 2^29 bytes. This function makes one traversal, at most 128 types deep, and does not allocate. It stops
/// when one of these conditions fails.
pub fn encoded_len(body: &SigBody) -> Option<usize>
    ensures encodable { IsSome result ↔ IsEncodable (body_of body.now) }
    ensures length { IfSome result (λ count. count ≡ length (short (body_of body.now))) }
{
    laws::items_are_parts();
    let mut measurer = Measurer { left: BLOB_LIMIT };
    visit_body(&mut measurer, body, DEPTH_LIMIT)?;
    Some(BLOB_LIMIT - measurer.left)
}
