use std::io;

/// A destination that accepts a prefix of the bytes at each call.
///
/// A contract sees a sink as the list of the bytes sent, if it is known, and the number of failures.
pub trait Sink {
    ghost use Rattle.std.specs.Prelude.{◌≡◌, ◌+◌, ◌^◌, ◌<◌, ℕ, List, Option, if◌then◌else◌};
    ghost use Rattle.std.specs.Io.{WritesAtMost};
    ghost use Rattle.std.specs.Io.KnownBytes.{WriteAppends};
    ghost use Rattle.writer.specs.Failures.{is_failure};

    // The bytes that were sent, if they are known.
    ghost given: { Self → Option (List ℕ) };

    // The number of calls that failed.
    ghost failed: { Self → ℕ };

    /// Accepts a prefix of the bytes and returns its length, which may be less than all.
    ///
    /// An error is a failure, and so is 0 for a nonempty slice: nothing was sent, and the count grows by one. Nothing
    /// else changes the count.
    fn offer(&mut self, bytes: &[u8]) -> io::Result<usize>
        requires few { failed self.old < 2 ^ 63 }
        ensures prefix { WritesAtMost result bytes.now }
        ensures given { WriteAppends (given self.old) (given self.new) result bytes.now }
        ensures failures { failed self.new ≡ failed self.old + (if is_failure result bytes.now then 1 else 0) };

    /// The number of calls of [`Sink::offer`] that failed.
    fn failures(&self) -> u64
        ensures { result ≡ failed self.now };
}
