ghost use Rattle.std.specs.Prelude.{◌≡◌, ◌↔◌, IsTrue};
ghost use Rattle.table_schema.specs.declared.column.SigKind.{SigKind};
ghost use Rattle.sig_grammar.specs.Syntax.{Body};
ghost use Rattle.sig_grammar.specs.Encodes.{Holds, Encodes, IsEncodable, short};

use crate::signature::Signature;

/// The bytes that [`encode`](crate::encode) writes decode to the same signature. In each kind of column that
/// holds the signature, its canonical encoding encodes it and no other.
pub fn encoded_is_decoded()
    ensures encoded { (kind : SigKind) (signature : Body) → Holds kind signature → IsEncodable signature
        → Encodes kind signature (short signature) }
    ensures one { (kind : SigKind) (signature other : Body) → Holds kind signature → IsEncodable signature
        → Encodes kind other (short signature) → other ≡ signature }
{
    sig_grammar::laws::shortest_encodes();
    sig_grammar::laws::signatures_are_read();
}

/// `==` is true of two signatures if and only if they are equal: if their content is the same.
pub fn equality_is_tested()
    ensures { (first second : Body) → IsTrue (⟦<Signature as PartialEq>⟧.eq first second) ↔ (first ≡ second) }
{
    sig_encoder::laws::equality_is_tested();
}
