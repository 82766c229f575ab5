//! Writers of the system as sinks.

use std::io::Write;
use td_text::{DeviceFault, Sink};

/// A sink over a writer. What went out is what the writer holds, where that is known.
#[derive(Drop)]
pub struct WriterSink<W> {
    writer: W,
    failures: u64,
}

impl<W: Write> WriterSink<W> {
    ghost use Rattle.std.specs.Prelude.{◌≡◌};

    /// A sink over this writer, which hasn't failed yet.
    pub fn new(writer: W) -> Self
        ensures writer { result.writer ≡ writer }
        ensures failures { result.failures ≡ 0 }
    {
        WriterSink {
            writer,
            failures: 0,
        }
    }
}

impl<W: Write> Sink for WriterSink<W> {
    ghost output = { λ sink. record { sent = W.contents sink.writer; failures = sink.failures } };

    fn write(&mut self, bytes: &[u8]) -> Result<usize, DeviceFault> {
        match self.writer.write(bytes) {
            Ok(taken) if taken > 0 || bytes.is_empty() => Ok(taken),
            _ => {
                self.failures = self.failures.wrapping_add(1);
                Err(DeviceFault)
            }
        }
    }
}
