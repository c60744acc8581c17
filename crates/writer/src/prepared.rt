ghost use Rattle.std.specs.Prelude.{◌≡◌, IfOk};
ghost use Rattle.metadata.specs.Metadata.{Metadata};
ghost use Rattle.root_writer.specs.Canonical.{canonical};
ghost use Rattle.root_writer.specs.Root.{CanBePut, ArePartsOf};
ghost use Rattle.writer.specs.Planned.{IsRootPlan, IsPlan};

use crate::error::WriteError;
use crate::root_plan::RootPlan;
use crate::send::send_all;
use crate::sink::Sink;
use root_writer::{RootParts, Writer};
use std::alloc::{AllocError, Global};
use std::marker;

/// The bytes of a model's canonical root, ready to be sent.
///
/// A contract sees them as a list. They are at most 2^30 bytes, and have one model.
#[derive(Debug, Drop)]
pub struct Prepared {
    root: Vec<u8>,
}

impl marker::Model for Prepared {
    ghost use Rattle.std.specs.Prelude.{ℕ, List};
    ghost use Rattle.writer.specs.Prepared.{IsPrepared};

    ghost Value = { List ℕ };

    ghost view = { λ prepared. prepared.root.items };

    ghost invariant = { λ prepared. IsPrepared prepared.root.items };
}

impl Prepared {
    ghost use Rattle.std.specs.Prelude.{◌≡◌, ◌+◌, ◌^◌, ◌<◌, length, take, OnOk, OnErr, IfErr};
    ghost use Rattle.std.specs.Io.KnownBytes.{Appends};
    ghost use Rattle.writer.specs.Errors.{MatchError};

    /// The length of the root in bytes.
    pub fn len(&self) -> u32
        ensures { result ≡ length self.now }
    {
        self.root.len() as u32
    }

    /// The bytes of the root.
    pub fn bytes(&self) -> &[u8]
        ensures { result.now ≡ self.now }
    {
        &self.root
    }

    /// The bytes of the root, without a copy.
    pub fn into_bytes(self) -> Vec<u8>
        ensures { result.items ≡ self }
    {
        self.root
    }

    /// Sends all bytes, in one or more calls of [`Sink::offer`]. It does not allocate. The same bytes can be sent again
    /// through another sink.
    ///
    /// # Errors
    ///
    /// Only `Device`: the first failure of the sink, of any kind, ends the call.
    pub fn send<W: Sink>(&self, sink: &mut W) -> Result<(), WriteError>
        requires few { W.failed sink.old < 2 ^ 63 }
        // All bytes were sent, and nothing else. No call failed.
        ensures all { OnOk result (Appends (W.given sink.old) (W.given sink.new) self.now) }
        ensures unfailed { OnOk result (W.failed sink.new ≡ W.failed sink.old) }
        // Exactly the first `given` bytes were sent, and not all. One call failed.
        ensures prefix { IfErr result (MatchError ⊥ ⊥
            (λ given. Appends (W.given sink.old) (W.given sink.new) (take given self.now) × (given < length self.now))) }
        ensures failed { OnErr result (W.failed sink.new ≡ W.failed sink.old + 1) }
    {
        Ok(send_all(&self.root, sink)?)
    }
}

/// The parts of a planned root.
fn parts_of<'a>(plan: &'a RootPlan) -> RootParts<'a>
    requires { IsPlan plan.now }
    ensures can { CanBePut result }
    ensures parts { (model : Metadata) → IsRootPlan model plan.now → ArePartsOf model result }
{
    RootParts {
        version: plan.version,
        sizes: plan.sizes,
        layout: &plan.tables.layout,
        heap_sizes: plan.tables.heap_sizes,
        sorted: plan.tables.sorted,
        tables_len: plan.tables.len,
        numbers: plan.numbering.numbers(),
        strings: plan.texts.bytes(),
        user_strings: plan.user_strings,
        guids: plan.numbering.guids(),
        blobs: plan.numbering.blobs(),
    }
}

/// The root of a plan. Its memory is allocated once, and each byte is written once.
///
/// # Errors
///
/// Only if out of memory.
pub fn make(alloc: Global, plan: &RootPlan) -> Result<Prepared, AllocError>
    requires { IsPlan plan.now }
    ensures { (model : Metadata) → IsRootPlan model plan.now → IfOk result (λ prepared. prepared ≡ canonical model) }
{
    root_writer::laws::parts_are_canonical();
    let mut writer = Writer::with_room(alloc, plan.len as usize)?;
    writer.put_root(&parts_of(plan));
    Ok(Prepared {
        root: writer.into_bytes(),
    })
}
