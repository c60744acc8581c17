//! Parses the numbers in arguments.
ghost use Rattle.std.specs.Prelude.{◌≡◌, ◌<◌, ◌^◌, ◌≤◌, ℕ, IfNone, IfSome, MatchOption, SomeIff};
ghost use Rattle.std.specs.Str.Parse.{IsNumeral, digits_value};
ghost use Rattle.table_schema.specs.declared.token.Token.{Token as TheToken};
ghost use Rattle.cli_names.specs.Numbers.{IsCodeNumber, IsHexNumber, IsOffset, IsRowToken, IsTableNumber, digits_of};

use table_schema::Token;

/// The number with these one to eight hexadecimal digits, in either case; `None` for any other argument.
pub fn token_of(word: &str) -> Option<u32>
    ensures { SomeIff result (IsHexNumber word.now) (digits_value 16 word.now) }
{
    if word.len() > 8 || word.starts_with('+') {
        return None;
    }
    u32::from_str_radix(word, 16).ok()
}

/// The digits of an argument, which may stand after `0x`.
fn digits_of(word: &str) -> &str
    ensures { result.now ≡ digits_of word.now }
{
    let Some(digits) = word.strip_prefix("0x") else {
        return word;
    };
    digits
}

/// The token with these eight hexadecimal digits, in either case, of which the first two are the number of a table (III.1.9).
/// They may stand after `0x`. `None` for any other argument.
pub fn row_of(word: &str) -> Option<Token>
    ensures sound { IfSome result (IsRowToken (digits_of word.now)) }
    ensures none { IfNone result ((token : TheToken) → ¬ IsRowToken (digits_of word.now) token) }
{
    let digits = digits_of(word);
    if digits.len() != 8 {
        return None;
    }
    Token::from_u32(token_of(digits)?)
}

/// The number with these three decimal digits; `None` for any other argument.
pub(crate) fn code_number_of(word: &str) -> Option<u16>
    ensures { SomeIff result (IsCodeNumber word.now) (digits_value 10 word.now) }
{
    if word.len() != 3 || word.starts_with('+') {
        return None;
    }
    u16::from_str_radix(word, 10).ok()
}

/// The number with these two hexadecimal digits, in either case; `None` for any other argument.
pub(crate) fn table_number_of(word: &str) -> Option<u8>
    ensures { SomeIff result (IsTableNumber word.now) (digits_value 16 word.now) }
{
    if word.len() != 2 || word.starts_with('+') {
        return None;
    }
    u8::from_str_radix(word, 16).ok()
}

/// The number of 64 bits with these decimal digits, or with these hexadecimal digits, in either case, after `0x`; `None`
/// for any other argument.
pub fn offset_of(word: &str) -> Option<u64>
    ensures { MatchOption result ((number : ℕ) → ¬ IsOffset word.now number) (IsOffset word.now) }
{
    match word.strip_prefix("0x") {
        Some(digits) => number_of(digits, 16),
        None => number_of(word, 10),
    }
}

/// The number of 64 bits with these digits; `None` for any other text.
fn number_of(digits: &str, radix: u32) -> Option<u64>
    requires least { 2 ≤ radix }
    requires most { radix ≤ 36 }
    ensures { SomeIff result (IsNumeral radix digits.now × (digits_value radix digits.now < 2 ^ 64)) (digits_value radix digits.now) }
{
    if digits.starts_with('+') {
        return None;
    }
    u64::from_str_radix(digits, radix).ok()
}
