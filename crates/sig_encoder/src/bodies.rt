ghost use Rattle.std.specs.Prelude.{◌≡◌, map};
ghost use Rattle.sig_grammar.specs.Views.{slot_of, local_of, body_of};
ghost use Rattle.sig_encoder.specs.Run.{after, run};
ghost use Rattle.sig_encoder.specs.Items.{local_items, locals_items, body_items};

use crate::items::visit_leaves;
use crate::sink::PartSink;
use crate::types::{
    bit, visit_content, visit_method, visit_params, visit_ret, visit_slot, visit_types,
};
use sig_grammar::method_byte::HASTHIS;
use sig_grammar::{Local, SigBody};

/// Visits a local variable (II.23.2.6).
#[tactic(auto, using(crate::proofs::Steps::steps))]
fn visit_local<S: PartSink>(sink: &mut S, local: &Local, depth: u8) -> Option<()>
    ensures { after result sink.new ≡ run S.step (local_items (local_of local.now) depth) sink.old }
{
    visit_leaves(sink, &local.prefix)?;
    visit_content(sink, &local.kind, depth)
}

/// Visits local variables, one after another.
#[tactic(auto, using(crate::proofs::Steps::steps, crate::proofs::Loops::locals_end))]
fn visit_locals<S: PartSink>(sink: &mut S, locals: &[Local], depth: u8) -> Option<()>
    ensures { after result sink.new ≡ run S.step (locals_items (map local_of locals.now) depth) sink.old }
{
    for local in locals {
        visit_local(sink, local, depth)?;
    }
    Some(())
}

/// Passes the parts of a signature to a sink, in encoded order (II.23.2), until the sink stops.
///
/// If types nest deeper than `depth`, or the value breaks the grammar, it reports this to the sink. It
/// continues unless the sink stops.
#[tactic(auto, using(crate::proofs::Steps::steps, crate::proofs::Loops::counts))]
pub fn visit_body<S: PartSink>(sink: &mut S, body: &SigBody, depth: u8) -> Option<()>
    ensures { after result sink.new ≡ run S.step (body_items (body_of body.now) depth) sink.old }
{
    match body {
        SigBody::Method(method) => visit_method(sink, method, depth),
        SigBody::TypeSpec(ret) => visit_ret(sink, ret, depth),
        SigBody::Field(field) => {
            sink.byte(0x06)?;
            visit_slot(sink, &field.0, depth)
        }
        SigBody::Property(property) => {
            sink.byte(0x08 + bit(property.this, HASTHIS))?;
            sink.number(property.params.len())?;
            visit_slot(sink, &property.of, depth)?;
            visit_params(sink, &property.params, None, depth)
        }
        SigBody::Locals(locals) => {
            sink.byte(0x07)?;
            sink.number(locals.0.len())?;
            visit_locals(sink, &locals.0, depth)
        }
        SigBody::Instance(instance) => {
            sink.byte(0x0A)?;
            sink.number(instance.0.len())?;
            visit_types(sink, &instance.0, depth)
        }
    }
}
