ghost use Rattle.std.specs.Prelude.{◌≡◌};

use crate::rules::each_rule;
use packed::FaultCode;

/// The explanation of a rule. Its texts are plain and have no line breaks. Sections are those of ECMA-335.
#[derive(Clone, Copy)]
pub struct Explanation {
    /// The rule.
    pub code: FaultCode,
    /// What is wrong, in a few words and without a full stop.
    pub summary: &'static str,
    /// The section that the rule comes from; `None` for a limit that the standard does not set.
    pub section: Option<&'static str>,
    /// What the rule says.
    pub rule: &'static str,
    /// Where the offset of a fault points.
    pub offset: &'static str,
    /// What usually causes such a file, if known.
    pub cause: Option<&'static str>,
}

/// The explanation of the rule with a code.
macro_rules! explained {
    ($by:ident $($number:literal $code:ident $name:ident,)*) => {
        match $by {
            $(FaultCode::$code => &crate::rules::$name,)*
        }
    };
}

/// The explanation of a rule.
pub fn explain(code: FaultCode) -> &'static Explanation
    ensures { result.now.code ≡ code }
{
    each_rule!(explained code)
}
