ghost use Rattle.std.specs.Prelude.{◌↔◌, IsTrue, false};
ghost use Rattle.sig_grammar.specs.Limits.{HasOwnSentinel};
ghost use Rattle.sig_grammar.specs.Encodes.{Holds};
ghost use Rattle.sig_grammar.specs.Views.{body_of, method_of};

use sig_grammar::{MethodSig, SigBody};
use table_schema::SigKind;

/// Whether the method has no SENTINEL of its own (II.23.2.1).
#[tactic(auto, using(sig_grammar::proofs::ViewLemmas::view_method))]
fn has_no_sentinel(method: &MethodSig) -> bool
    ensures { IsTrue result ↔ HasOwnSentinel false (method_of method.now) }
{
    method.sentinel.is_none()
}

/// Whether a column of this kind can hold the signature (II.22).
pub fn holds(kind: SigKind, body: &SigBody) -> bool
    ensures { IsTrue result ↔ Holds kind (body_of body.now) }
{
    match kind {
        SigKind::Field => matches!(body, SigBody::Field(_)),
        SigKind::MethodDef => match body {
            SigBody::Method(method) => has_no_sentinel(method),
            _ => false,
        },
        SigKind::MemberRef => matches!(body, SigBody::Field(_) | SigBody::Method(_)),
        SigKind::StandAlone => matches!(
            body,
            SigBody::Locals(_) | SigBody::Method(_) | SigBody::Field(_)
        ),
        SigKind::Property => matches!(body, SigBody::Property(_)),
        SigKind::TypeSpec => matches!(body, SigBody::TypeSpec(_)),
        SigKind::Instance => matches!(body, SigBody::Instance(_)),
    }
}

/// A kind of column that can hold the signature (II.22).
pub fn column_of(body: &SigBody) -> SigKind
    ensures { Holds result (body_of body.now) }
{
    match body {
        SigBody::Field(_) => SigKind::Field,
        SigBody::Method(_) => SigKind::MemberRef,
        SigBody::Property(_) => SigKind::Property,
        SigBody::Locals(_) => SigKind::StandAlone,
        SigBody::Instance(_) => SigKind::Instance,
        SigBody::TypeSpec(_) => SigKind::TypeSpec,
    }
}
