ghost use Rattle.std.specs.Prelude.{◌≡◌, ◌^◌, ◌<◌, ◌≤◌, ◌⊎◌, ◌↔◌, ◌∷◌, ◌++◌, ℕ, List, [], length, get_or, Some, None, IfSome};
ghost use Rattle.std.specs.List.{AllByRecursion};
ghost use Rattle.table_schema.specs.declared.column.SigKind.{SigKind};
ghost use Rattle.table_schema.specs.declared.table.TableId.TheVariants.{TypeDef, TypeRef, TypeSpec};
ghost use Rattle.table_schema.specs.declared.token.Token.{Token};
ghost use Rattle.sig_grammar.specs.Syntax.{Body};
ghost use Rattle.sig_grammar.specs.Encodes.{Holds, Encodes, IsEncodable, HasRow, short, tokens, first_bad};
ghost use Rattle.sig_grammar.specs.Reading.{core_at, token_of};
ghost use Rattle.sig_grammar.specs.Columns.{body_at};
ghost use Rattle.table_schema.specs.declared.coded.Coded.TheVariants.{TypeDefOrRef};
ghost use Rattle.table_schema.specs.CodedIndexes.{IsCoded};

pub use crate::element_type::element_types_are_reported;

/// The token that is read from a type index is the token that the index encodes.
pub fn indexes_are_read()
    ensures sound { (number : ℕ) → IfSome (token_of number) (λ token. IsCoded TypeDefOrRef number token.table token.row) }
    ensures complete { (number : ℕ) (token : Token) → IsCoded TypeDefOrRef number token.table token.row → token_of number ≡ Some token }
{}

/// A signature that bytes encode is read from them. If fewer than 2^29 bytes are read to their end, they
/// encode what is read. So no bytes encode two signatures in a column of one kind.
pub fn signatures_are_read()
    ensures read { (kind : SigKind) (signature : Body) (bytes : List ℕ) → Encodes kind signature bytes
        → body_at kind (core_at 128) bytes ≡ Some (signature, []) }
    ensures encoded { (kind : SigKind) (signature : Body) (bytes : List ℕ) → ((k : ℕ) → get_or bytes k 0 < 2 ^ 8)
        → length bytes < 2 ^ 29 → body_at kind (core_at 128) bytes ≡ Some (signature, []) → Encodes kind signature bytes }
    ensures one { (kind : SigKind) (first second : Body) (bytes : List ℕ) → Encodes kind first bytes → Encodes kind second bytes
        → first ≡ second }
{
    packed::laws::numbers_are_read();
}

/// If a signature has an encoding, its canonical encoding encodes it, in each kind of column that holds it.
pub fn shortest_encodes()
    ensures { (kind : SigKind) (signature : Body) → Holds kind signature → IsEncodable signature
        → Encodes kind signature (short signature) }
{
    packed::laws::shortest_forms_encode();
}

/// If bytes encode a signature, in a column of any kind, then the signature has a canonical encoding. Each of its
/// parts has an encoding, and the canonical encoding has fewer than 2^29 bytes.
pub fn encoded_is_encodable()
    ensures { (kind : SigKind) (signature : Body) (bytes : List ℕ) → Encodes kind signature bytes → IsEncodable signature }
{
    packed::laws::shortest_forms_encode();
}

/// No encoding of a signature is shorter than its canonical encoding, in a column of any kind.
pub fn canonical_is_shortest()
    ensures { (kind : SigKind) (signature : Body) (bytes : List ℕ) → Encodes kind signature bytes
        → length (short signature) ≤ length bytes }
{
    packed::laws::shortest_forms_encode();
}

/// Each type index of an encodable signature names TypeDef, TypeRef or TypeSpec (II.23.2.8).
/// Its row number has at most 27 bits and may be 0.
#[tactic(auto, using(crate::proofs::Encoded::tokens_have_rows, crate::proofs::Encoded::tokens_have_tables))]
pub fn indexes_name_types()
    ensures rows { (signature : Body) → IsEncodable signature → AllByRecursion (λ token. token.row < 2 ^ 27) (tokens signature) }
    ensures tables { (signature : Body) → IsEncodable signature
        → AllByRecursion (λ token. (token.table ≡ TypeDef) ⊎ ((token.table ≡ TypeRef) ⊎ (token.table ≡ TypeSpec))) (tokens signature) }
{}

/// The first type index without a row is `None` if and only if each index has its row.
/// Otherwise all indexes before it have their rows, and it has none.
#[tactic(auto, using(crate::proofs::FirstBad::none_is_all, crate::proofs::FirstBad::some_is_first))]
pub fn first_bad_is_first()
    ensures none { (counts : List ℕ) (tokens : List Token) → (first_bad counts tokens ≡ None) ↔ AllByRecursion (HasRow counts) tokens }
    ensures some { (counts : List ℕ) (tokens : List Token) (bad : Token) → first_bad counts tokens ≡ Some bad
        → (before behind : List Token) × (tokens ≡ before ++ bad ∷ behind) × AllByRecursion (HasRow counts) before × ¬ HasRow counts bad }
{}
