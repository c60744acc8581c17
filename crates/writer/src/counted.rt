use crate::sink::Sink;
use std::io;
use std::io::Write;

/// A writer with the number of its writes that failed.
///
/// Its bytes are known if and only if those of the writer are.
#[derive(Drop)]
pub struct Counted<W: Write> {
    writer: W,
    failures: u64,
}

impl<W: Write> Counted<W> {
    ghost use Rattle.std.specs.Prelude.{◌≡◌};
    ghost use Rattle.writer.specs.Counted.{writer_of, failures_of};

    /// A writer without failures so far. It does not allocate.
    pub fn new(writer: W) -> Counted<W>
        ensures writer { writer_of result ≡ writer }
        ensures failures { failures_of result ≡ 0 }
        ensures reported { ⟦<Counted<W> as Sink>⟧.given result ≡ W.contents writer }
    {
        Counted {
            writer,
            failures: 0,
        }
    }

    /// The writer. It does not allocate.
    pub fn into_inner(self) -> W
        ensures { result ≡ writer_of self }
    {
        let Counted {
            writer,
            failures: _,
        } = self;
        writer
    }
}

impl<W: Write> Sink for Counted<W> {
    ghost use Rattle.writer.specs.Counted.{writer_of, failures_of};

    ghost given = { λ counted. W.contents (writer_of counted) };

    ghost failed = { failures_of };

    /// One call of the writer's `write`.
    fn offer(&mut self, bytes: &[u8]) -> io::Result<usize> {
        let answer = self.writer.write(bytes);
        let failed = match &answer {
            Ok(taken) => *taken == 0 && !bytes.is_empty(),
            Err(_) => true,
        };
        if failed {
            self.failures += 1;
        }
        answer
    }

    fn failures(&self) -> u64 {
        self.failures
    }
}
