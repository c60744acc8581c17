ghost use Rattle.std.specs.Prelude.{◌≡◌, ◌↔◌, IsTrue, IfOk, IsOk, IsErrOf, MatchResult};
ghost use Rattle.std.specs.Cmp.{partial_equiv_from_equiv};
ghost use Rattle.sig_grammar.specs.Syntax.{Body};
ghost use Rattle.sig_grammar.specs.Views.{body_of};
ghost use Rattle.sig_grammar.specs.Encodes.{Holds, Encodes, IsEncodable, short, tokens, first_bad as first_bad_of};
ghost use Rattle.signatures.specs.declared.error.SigError.TheVariants.{Bad};
ghost use Rattle.sig_encoder.specs.Same.{is_same_body};
ghost use Rattle.sig_encoder.proofs.TestLaws.{same_bodies_equiv};

use crate::columns::{column_of, holds};
use crate::error::SigError;
use crate::whole::decode_body;
use sig_encoder::{encode_body, encoded_len, first_bad, is_same};
use sig_grammar::SigBody;
use std::alloc::{AllocError, Global};
use std::marker::Model;
use table_schema::{SigKind, Token};

/// A signature that has an encoding (II.23.2).
///
/// Two signatures are equal if their content is equal, whatever their addresses are.
#[derive(Debug, Drop)]
pub struct Signature {
    body: SigBody,
}

impl Model for Signature {
    ghost use Rattle.sig_grammar.specs.Syntax.{Body};
    ghost use Rattle.sig_grammar.specs.Code.{body_code};

    ghost Value = { Body };

    ghost coded = { body_code };

    ghost use Rattle.sig_grammar.specs.Views.{body_of};
    ghost use Rattle.sig_grammar.specs.Encodes.{IsEncodable};

    ghost view = { λ s. body_of s.body };

    ghost invariant = { λ s. IsEncodable (body_of s.body) };
}

impl PartialEq for Signature {
    ghost eq = { is_same_body };

    ghost laws = { partial_equiv_from_equiv same_bodies_equiv };

    fn eq(&self, other: &Signature) -> bool {
        is_same(&self.body, &other.body)
    }
}

impl Eq for Signature {
    ghost laws = { same_bodies_equiv };
}

impl Signature {
    /// Makes a signature from a body (II.23.2). It does not allocate. It recurses as deep as types nest, up to 128.
    ///
    /// # Errors
    ///
    /// Returns the body if no bytes encode it. Either it breaks the grammar, or its types nest deeper than 128. Or a
    /// number or a row in it is too large, or its canonical encoding has 2^29 bytes or more. A body that is returned
    /// can nest deeper than 128. It is dropped by a recursion of that depth.
    pub fn new(body: SigBody) -> Result<Signature, SigBody>
        ensures encodable { IsOk result ↔ IsEncodable (body_of body) }
        ensures same { MatchResult result (λ signature. signature ≡ body_of body) (λ refused. body_of refused ≡ body_of body) }
    {
        if encoded_len(&body).is_none() {
            return Err(body);
        }
        Ok(Signature { body })
    }

    /// The content of the signature.
    pub fn body(&self) -> &SigBody
        ensures body { body_of result.now ≡ self.now }
        ensures encodable { IsEncodable self.now }
    {
        &self.body
    }

    /// Copies the signature. The copy has the same content.
    ///
    /// It is decoded from the canonical encoding, which is allocated for that alone.
    ///
    /// # Errors
    ///
    /// Fails only if it is out of memory.
    pub fn copy(&self, alloc: Global) -> Result<Signature, AllocError>
        ensures { IfOk result (λ copy. copy ≡ self.now) }
    {
        sig_grammar::laws::shortest_encodes();
        let bytes = encode(alloc, self)?;
        match decode(alloc, &bytes, column_of(&self.body)) {
            Ok(copy) => Ok(copy),
            Err(SigError::Memory) => Err(AllocError),
            Err(SigError::Bad) => unreachable!(),
        }
    }

    /// The first type index, in encoded order, whose row does not exist in its table (II.23.2.8); `None` if
    /// each row exists.
    ///
    /// `counts` gives the number of rows of each table by table number. Row 0 never exists.
    /// It does not allocate.
    pub fn first_bad(&self, counts: &[u32; 45]) -> Option<Token>
        ensures { result ≡ first_bad_of counts.now (tokens self.now) }
    {
        first_bad(&self.body, counts)
    }

    /// Whether a column of this kind can hold the signature. If so, its encoding can be decoded there (II.22).
    pub fn is_held_by(&self, kind: SigKind) -> bool
        ensures held { IsTrue result ↔ Holds kind self.now }
        ensures encodable { IsEncodable self.now }
    {
        holds(kind, &self.body)
    }
}

/// The canonical encoding of a signature (II.23.2).
///
/// # Errors
///
/// Fails only if it is out of memory.
pub fn encode(alloc: Global, signature: &Signature) -> Result<Vec<u8>, AllocError>
    ensures { IfOk result (λ bytes. bytes.items ≡ short signature.now) }
{
    encode_body(alloc, &signature.body)
}

/// Decodes the signature that all the bytes together encode, in a column of this kind (II.23.2).
///
/// Numbers and indexes may be longer than necessary. The row of a type index need not exist.
///
/// # Errors
///
/// `Bad` if and only if the bytes encode nothing, even when memory is exhausted. `Memory` only if they encode
/// a signature and its value could not be allocated.
pub fn decode(alloc: Global, bytes: &[u8], kind: SigKind) -> Result<Signature, SigError>
    // The bytes encode the signature that is built.
    ensures sound { IfOk result (λ signature. Encodes kind signature bytes.now) }
    // They encode nothing else.
    ensures complete { (signature : Body) → Encodes kind signature bytes.now → IfOk result (λ found. found ≡ signature) }
    // The result is `Bad` if and only if they encode nothing.
    ensures bad { IsErrOf result Bad ↔ ¬ ((signature : Body) × Encodes kind signature bytes.now) }
{
    sig_grammar::laws::encoded_is_encodable();
    let body = decode_body(alloc, bytes, kind)?;
    Ok(Signature { body })
}
