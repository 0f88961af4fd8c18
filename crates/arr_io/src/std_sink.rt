ghost use Rattle.std.specs.Prelude.{◌≡◌};

use crate::source::raise;
use crate::{Failed, Sink};
use std::io::Write;

/// A writer of std as a sink: standard output or a file. It tells the bytes written as far as the writer does.
///
/// A write of 0 bytes of a piece that isn't empty counts as a fault, as an `Err` does.
#[derive(Drop)]
pub struct StdSink<W: Write> {
    writer: W,
    failed: u64,
}

impl<W: Write> StdSink<W> {
    ghost use Rattle.arr_io.specs.Std.{sink_writer, sink_faults};

    /// The writer as a sink that has had no fault.
    pub fn new(writer: W) -> StdSink<W>
        ensures writer { sink_writer result ≡ writer }
        ensures faults { sink_faults result ≡ 0 }
    {
        StdSink { writer, failed: 0 }
    }
}

impl<W: Write> Sink for StdSink<W> {
    ghost written = { λ s. W.contents s.writer };

    ghost faults = { λ s. s.failed };

    fn write(&mut self, from: &[u8]) -> Result<usize, Failed> {
        if let Ok(count) = self.writer.write(from)
            && (count > 0 || from.is_empty())
        {
            return Ok(count);
        }
        Err(raise(&mut self.failed))
    }
}
