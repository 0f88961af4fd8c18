ghost use Rattle.std.specs.Prelude.{◌≡◌};

use crate::source::raise;
use crate::{Failed, Source};
use std::io::Read;

/// A reader of std as a source: standard input or a file. It tells the bytes left as far as the reader does.
#[derive(Drop)]
pub struct StdSource<R: Read> {
    reader: R,
    failed: u64,
}

impl<R: Read> StdSource<R> {
    ghost use Rattle.arr_io.specs.Std.{source_reader, source_faults};

    /// The reader as a source that has had no fault.
    pub fn new(reader: R) -> StdSource<R>
        ensures reader { source_reader result ≡ reader }
        ensures faults { source_faults result ≡ 0 }
    {
        StdSource { reader, failed: 0 }
    }
}

impl<R: Read> Source for StdSource<R> {
    ghost left = { λ s. R.remaining s.reader };

    ghost faults = { λ s. s.failed };

    fn read(&mut self, into: &mut [u8]) -> Result<usize, Failed> {
        match self.reader.read(into) {
            Ok(count) => Ok(count),
            Err(_) => Err(raise(&mut self.failed)),
        }
    }
}
