ghost use Rattle.std.specs.Prelude.{◌≡◌, ◌+◌, ◌≤◌, ◌++◌, IfOk, length, vec_len, vec_capacity};
ghost use Rattle.sig_grammar.specs.Views.{body_of};
ghost use Rattle.sig_grammar.specs.Encodes.{IsEncodable, short};

use crate::bodies::visit_body;
use crate::laws;
use crate::length::encoded_len;
use crate::writer::Writer;
use sig_grammar::{DEPTH_LIMIT, SigBody};
use std::alloc::{AllocError, Global};

/// Appends the canonical encoding of a signature (II.23.2) to the bytes. The signature has an encoding, and
/// the vector has the capacity for it. So this does not allocate and cannot fail.
pub fn encode_into(bytes: Vec<u8>, body: &SigBody) -> Vec<u8>
    requires encodable { IsEncodable (body_of body.now) }
    requires room { vec_len bytes + length (short (body_of body.now)) ≤ vec_capacity bytes }
    ensures { result.items ≡ bytes.items ++ short (body_of body.now) }
{
    laws::items_are_parts();
    let left = bytes.capacity() - bytes.len();
    let mut writer = Writer { bytes, left };
    let _ = visit_body(&mut writer, body, DEPTH_LIMIT);
    writer.bytes
}

/// The canonical encoding of a signature that has one (II.23.2): each number and each index in its shortest
/// form. [`encoded_len`] says whether a signature has one.
///
/// # Errors
///
/// Fails only if it is out of memory. There is one allocation, with the length of the encoding.
pub fn encode_body(alloc: Global, body: &SigBody) -> Result<Vec<u8>, AllocError>
    requires { IsEncodable (body_of body.now) }
    ensures { IfOk result (λ bytes. bytes.items ≡ short (body_of body.now)) }
{
    let bytes = Vec::with_capacity(alloc, encoded_len(body).unwrap())?;
    Ok(encode_into(bytes, body))
}
