ghost use Rattle.std.specs.Prelude.{◌≡◌, None, Some, IfOk, length};

use crate::source::fill;
use crate::{Failed, Sink, Source};

/// Bytes of a slice; no read of them fails.
#[derive(Clone, Copy, Debug)]
pub struct SureSource<'a> {
    /// What is still to come.
    pub bytes: &'a [u8],
}

impl Source for SureSource<'_> {
    ghost left = { λ s. Some s.bytes.now };

    ghost faults = { λ s. 0 };

    fn read(&mut self, into: &mut [u8]) -> Result<usize, Failed> {
        let count = fill(into, self.bytes, self.bytes.len());
        self.bytes = &self.bytes[count..];
        Ok(count)
    }
}

/// Takes every byte and keeps none; no write to it fails.
#[derive(Clone, Copy, Debug)]
pub struct SureSink;

impl Sink for SureSink {
    ghost written = { λ s. None };

    ghost faults = { λ s. 0 };

    fn write(&mut self, from: &[u8]) -> Result<usize, Failed> {
        Ok(from.len())
    }
}
