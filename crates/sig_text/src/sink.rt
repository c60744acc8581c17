ghost use Rattle.std.specs.Prelude.{◌≡◌, Bool, is_some, ⊤};
ghost use Rattle.sig_text.specs.Refused.{refused_after};
ghost use Rattle.sig_text.specs.SignatureText.{Piece, word, number as digits, signed as signed_digits, name as name_of};

use table_schema::Token;

/// Takes the words of a text, one after another, until it refuses one.
///
/// Each call returns `None` if the sink refuses the word. The sink itself keeps the reason.
pub trait TextSink {
    /// Whether it refused a word.
    ghost refused: { Self → Bool };

    /// Relates the sink before a call with a piece, whether it took the piece, and the sink after the call. The default
    /// says nothing.
    ghost gives: { Self → Piece → Bool → Self → Type 0 } = { λ _ _ _ _. ⊤ };

    /// A text, unchanged.
    fn text(&mut self, text: &str) -> Option<()>
        ensures refusal { refused self.new ≡ refused_after result (refused self.old) }
        ensures piece { gives self.old (word text.now) (is_some result) self.new };

    /// A number, in decimal digits.
    fn number(&mut self, number: u32) -> Option<()>
        ensures refusal { refused self.new ≡ refused_after result (refused self.old) }
        ensures piece { gives self.old (digits number) (is_some result) self.new };

    /// A signed number, in decimal digits.
    fn signed(&mut self, value: i64) -> Option<()>
        ensures refusal { refused self.new ≡ refused_after result (refused self.old) }
        ensures piece { gives self.old (signed_digits value) (is_some result) self.new };

    /// The name of a row of TypeDef, TypeRef or TypeSpec.
    fn name(&mut self, token: Token) -> Option<()>
        ensures refusal { refused self.new ≡ refused_after result (refused self.old) }
        ensures piece { gives self.old (name_of token) (is_some result) self.new };
}
