//! Words of a text. `taken` says whether the sink took all words so far. After it refused one, it receives none, and the
//! bytes are not walked to their end.
ghost use Rattle.std.specs.Prelude.{◌≡◌, ◌∷◌, [], is_some};
ghost use Rattle.sig_text.specs.SignatureText.{word, number as digits, signed as signed_digits, name as name_of, flag_text};
ghost use Rattle.sig_text.specs.Wrote.{Wrote};

use crate::sink::TextSink;
use table_schema::Token;

/// Writes a text.
#[tactic(auto, using(crate::proofs::Chains::one, crate::proofs::Chains::shut))]
pub fn put_text<S: TextSink>(sink: &mut S, taken: &mut bool, text: &str)
    ensures { Wrote S.refused S.gives sink.old taken.old (word text.now ∷ []) sink.new taken.new }
{
    if *taken {
        *taken = sink.text(text).is_some();
    }
}

/// Writes a text, if a flag is set.
#[tactic(auto, using(crate::proofs::Chains::unset))]
pub fn put_if<S: TextSink>(sink: &mut S, taken: &mut bool, set: bool, text: &str)
    ensures { Wrote S.refused S.gives sink.old taken.old (flag_text set text.now) sink.new taken.new }
{
    if set {
        put_text(sink, taken, text);
    }
}

/// Writes a number.
#[tactic(auto, using(crate::proofs::Chains::one, crate::proofs::Chains::shut))]
pub fn put_number<S: TextSink>(sink: &mut S, taken: &mut bool, number: u32)
    ensures { Wrote S.refused S.gives sink.old taken.old (digits number ∷ []) sink.new taken.new }
{
    if *taken {
        *taken = sink.number(number).is_some();
    }
}

/// Writes a signed number.
#[tactic(auto, using(crate::proofs::Chains::one, crate::proofs::Chains::shut))]
pub fn put_signed<S: TextSink>(sink: &mut S, taken: &mut bool, value: i64)
    ensures { Wrote S.refused S.gives sink.old taken.old (signed_digits value ∷ []) sink.new taken.new }
{
    if *taken {
        *taken = sink.signed(value).is_some();
    }
}

/// Writes the name of a row.
#[tactic(auto, using(crate::proofs::Chains::one, crate::proofs::Chains::shut))]
pub fn put_name<S: TextSink>(sink: &mut S, taken: &mut bool, token: Token)
    ensures { Wrote S.refused S.gives sink.old taken.old (name_of token ∷ []) sink.new taken.new }
{
    if *taken {
        *taken = sink.name(token).is_some();
    }
}

/// The result of a public call.
pub fn result_of(taken: bool) -> Option<()>
    ensures { is_some result ≡ taken }
{
    if taken { Some(()) } else { None }
}
