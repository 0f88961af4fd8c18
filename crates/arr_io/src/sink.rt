ghost use Rattle.std.specs.Prelude.{◌<◌, List, Option, ℕ, length, IfOk};
ghost use Rattle.std.specs.Io.{WritesAtMost};
ghost use Rattle.std.specs.Io.KnownBytes.{WriteAppends};
ghost use Rattle.arr_io.specs.Causes.{HasCause};

use crate::Failed;

/// Not all bytes could be written, since a write failed.
#[derive(Clone, Copy, Debug, PartialEq, Eq)]
pub struct WriteFault;

/// Where bytes go.
pub trait Sink {
    /// All bytes that were written so far, where the sink tells them.
    ghost written: { Self → Option (List ℕ) };

    /// How often a write has failed. It never falls, and stands still at 2^64 - 1.
    ghost faults: { Self → ℕ };

    /// Appends the first `n` bytes of `from`, and answers `n`: at most its length, and at least 1 where it isn't empty.
    ///
    /// After `Failed` nothing was appended, and the count of faults rose.
    fn write(&mut self, from: &[u8]) -> Result<usize, Failed>
        ensures bound { WritesAtMost result from.now }
        ensures moves { IfOk result (λ n. 0 < length from.now → 0 < n) }
        ensures bytes { WriteAppends (written self.old) (written self.new) result from.now }
        ensures cause { HasCause (faults self.old) (faults self.new) result };
}
