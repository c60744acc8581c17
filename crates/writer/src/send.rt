ghost use Rattle.std.specs.Prelude.{◌≡◌, ◌+◌, ◌^◌, ◌<◌, ◌≤◌, ◌==◌, if◌then◌else◌, length, take, OnOk, OnErr, IfErr};
ghost use Rattle.std.specs.Io.KnownBytes.{Appends};

use crate::sink::Sink;
use thiserror::Error;

/// The sink failed before all bytes were sent.
#[derive(Clone, Copy, Debug, PartialEq, Eq, Error)]
#[error("the writer failed after {given} bytes")]
pub struct Stopped {
    /// The number of bytes that were sent: the prefix of this length.
    pub given: u64,
}

/// Sends all bytes, in one or more calls of [`Sink::offer`]. It does not allocate. It makes no call for an empty slice.
///
/// # Errors
///
/// The number of bytes sent before the first failure. A failure of any kind ends the call, an interruption too. No byte
/// is offered again after it.
pub fn send_all<W: Sink>(bytes: &[u8], sink: &mut W) -> Result<(), Stopped>
    requires few { W.failed sink.old < 2 ^ 63 }
    // All bytes were sent, and nothing else. No call failed.
    ensures all { OnOk result (Appends (W.given sink.old) (W.given sink.new) bytes.now) }
    ensures unfailed { OnOk result (W.failed sink.new ≡ W.failed sink.old) }

    // Exactly the first `given` bytes were sent, and not all. One call failed.
    ensures prefix { IfErr result (λ stopped. Appends (W.given sink.old) (W.given sink.new) (take stopped.given bytes.now)) }
    ensures short { IfErr result (λ stopped. stopped.given < length bytes.now) }
    ensures failed { OnErr result (W.failed sink.new ≡ W.failed sink.old + 1) }
{
    let mut given = 0;
    while given < bytes.len() {
        let (_, tail) = bytes.split_at(given);
        let taken = offer_some(tail, sink);
        if taken == 0 {
            return Err(Stopped {
                given: given as u64,
            });
        }
        given += taken;
    }
    Ok(())
}

/// The number of bytes that the sink accepted; 0 if and only if it failed.
fn offer_some<W: Sink>(bytes: &[u8], sink: &mut W) -> usize
    requires few { W.failed sink.old < 2 ^ 63 }
    requires some { 0 < length bytes.now }
    ensures bound { result ≤ length bytes.now }
    ensures bytes { Appends (W.given sink.old) (W.given sink.new) (take result bytes.now) }
    ensures failures { W.failed sink.new ≡ W.failed sink.old + (if result == 0 then 1 else 0) }
{
    match sink.offer(bytes) {
        Ok(taken) => taken,
        Err(_) => 0,
    }
}
