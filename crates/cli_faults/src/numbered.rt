ghost use Rattle.std.specs.Prelude.{◌≡◌, IfSome, Some, length};
ghost use Rattle.packed.specs.Codes.{codes_in_order, number_of_code};
ghost use Rattle.packed.specs.declared.code.FaultCode.{FaultCode as RuleCode};

use crate::rules::each_rule;
use packed::FaultCode;

/// The codes of the rules.
macro_rules! codes {
    ($($number:literal $code:ident $name:ident,)*) => {
        [$(FaultCode::$code),*]
    };
}

/// The rule with a number.
macro_rules! numbered {
    ($by:ident $($number:literal $code:ident $name:ident,)*) => {
        match $by {
            $($number => Some(FaultCode::$code),)*
            _ => None,
        }
    };
}

/// All rules, in ascending order of their numbers.
const CODES: [FaultCode; 45] = each_rule!(codes);

/// All rules, in ascending order of their numbers.
pub fn all_codes() -> &'static [FaultCode]
    ensures value { result.now ≡ codes_in_order }
    ensures count { length result.now ≡ 45 }
{
    &CODES
}

/// The rule with a number; `None` if no rule has it.
pub fn code_of_number(number: u16) -> Option<FaultCode>
    ensures sound { IfSome result (λ code. number_of_code code ≡ number) }
    ensures complete { (code : RuleCode) → number_of_code code ≡ number → result ≡ Some code }
{
    each_rule!(numbered number)
}
