ghost use Rattle.std.specs.Prelude.{◌≡◌};
ghost use Rattle.sig_grammar.specs.Syntax as sig;
ghost use Rattle.sig_grammar.specs.Views.{core_of};
ghost use Rattle.sig_grammar.specs.Reading.{change, index_at, number_at};
ghost use Rattle.signatures.specs.Gives.{Gives};

use crate::error::SigError;
use crate::head::{index, number};
use sig_grammar::Core;

/// Builds a class, after CLASS.
#[tactic(auto, using(crate::proofs::Cores::fails_change, sig_grammar::proofs::ViewLemmas::view_class))]
pub fn class(bytes: &[u8]) -> Result<(Core, &[u8]), SigError>
    ensures { Gives (λ x. (core_of x.0, x.1.now)) result (change sig.class index_at bytes.now) }
{
    let (of, tail) = index(bytes)?;
    Ok((Core::Class(of), tail))
}

/// Builds a value type, after VALUETYPE.
#[tactic(auto, using(crate::proofs::Cores::fails_change, sig_grammar::proofs::ViewLemmas::view_value))]
pub fn value_type(bytes: &[u8]) -> Result<(Core, &[u8]), SigError>
    ensures { Gives (λ x. (core_of x.0, x.1.now)) result (change sig.value index_at bytes.now) }
{
    let (of, tail) = index(bytes)?;
    Ok((Core::Value(of), tail))
}

/// Builds a generic parameter of a type, after VAR.
#[tactic(auto, using(crate::proofs::Cores::fails_change, sig_grammar::proofs::ViewLemmas::view_var))]
pub fn type_parameter(bytes: &[u8]) -> Result<(Core, &[u8]), SigError>
    ensures { Gives (λ x. (core_of x.0, x.1.now)) result (change sig.var number_at bytes.now) }
{
    let (number, tail) = number(bytes)?;
    Ok((Core::Var(number), tail))
}

/// Builds a generic parameter of a method, after MVAR.
#[tactic(auto, using(crate::proofs::Cores::fails_change, sig_grammar::proofs::ViewLemmas::view_mvar))]
pub fn method_parameter(bytes: &[u8]) -> Result<(Core, &[u8]), SigError>
    ensures { Gives (λ x. (core_of x.0, x.1.now)) result (change sig.mvar number_at bytes.now) }
{
    let (number, tail) = number(bytes)?;
    Ok((Core::MVar(number), tail))
}
