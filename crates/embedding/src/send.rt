ghost use Rattle.std.specs.Prelude.{◌≡◌, ◌+◌, ◌^◌, ◌<◌, length, take, OnOk, IfErr};
ghost use Rattle.std.specs.Io.KnownBytes.{Appends};
ghost use Rattle.writer.specs.Errors.{MatchError};
ghost use Rattle.embedding.specs.Planned.{result_of};

use crate::plan::EmbedPlan;
use std::alloc::Global;
use writer::{Sink, WriteError, send_all};

impl<'a> EmbedPlan<'a> {
    /// Sends the result. It is made in memory first, so that no byte is sent if memory runs out.
    ///
    /// # Errors
    ///
    /// `Memory` if out of memory, or `Device`: the first failure of the sink, of any kind, ends the call.
    pub fn write_to<W: Sink>(&self, alloc: Global, sink: &mut W) -> Result<(), WriteError>
        requires few { W.failed sink.old < 2 ^ 63 }
        // The whole result was sent, and nothing else. No call failed.
        ensures all { OnOk result (Appends (W.given sink.old) (W.given sink.new) (result_of self.now)) }
        ensures unfailed { OnOk result (W.failed sink.new ≡ W.failed sink.old) }
        // The sink is unchanged; or exactly the first `given` bytes were sent, and not all, and one call failed.
        ensures prefix { IfErr result (MatchError ⊥ (sink.new ≡ sink.old)
            (λ given. Appends (W.given sink.old) (W.given sink.new) (take given (result_of self.now))
            × (given < length (result_of self.now)) × (W.failed sink.new ≡ W.failed sink.old + 1))) }
    {
        let bytes = self.make(alloc)?;
        Ok(send_all(&bytes, sink)?)
    }
}
