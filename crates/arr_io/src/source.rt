ghost use Rattle.std.specs.Prelude.{◌≡◌, ◌+◌, ◌-◌, ◌^◌, ◌≤◌, List, Option, ℕ, length, min, take};
ghost use Rattle.std.specs.Io.{ReadsAtMost};
ghost use Rattle.std.specs.Io.KnownBytes.{ReadConsumes};
ghost use Rattle.arr_io.specs.Causes.{HasCause, Rose};

/// A read or a write didn't work, and the count of faults of the object that was asked rose.
#[derive(Clone, Copy, Debug, PartialEq, Eq)]
pub struct Failed;

/// Where bytes come from.
pub trait Source {
    /// The bytes that are still to come, where the source tells them.
    ghost left: { Self → Option (List ℕ) };

    /// How often a read has failed. It never falls, and stands still at 2^64 - 1.
    ghost faults: { Self → ℕ };

    /// Puts the next `n` bytes at the front of `into`, and answers `n`, at most its length.
    ///
    /// Where `into` isn't empty, 0 is the end of input. After `Failed` the bytes left are as before, and the count of
    /// faults rose.
    fn read(&mut self, into: &mut [u8]) -> Result<usize, Failed>
        ensures bound { ReadsAtMost result into.new }
        ensures bytes { ReadConsumes (left self.old) (left self.new) result into.new }
        ensures cause { HasCause (faults self.old) (faults self.new) result };
}

/// Counts one more fault.
pub(crate) fn raise(count: &mut u64) -> Failed
    ensures value { count.new ≡ min (count.old + 1) (2 ^ 64 - 1) }
    ensures later { count.old ≤ count.new }
    ensures rose { Rose count.old count.new }
{
    *count = count.saturating_add(1);
    Failed
}

/// Copies as many bytes as fit to the front of `into`, at most `most`, and answers how many.
pub(crate) fn fill(into: &mut [u8], bytes: &[u8], most: usize) -> usize
    ensures count { result ≡ min most (min (length into.old) (length bytes.now)) }
    ensures front { take result into.new ≡ take result bytes.now }
    ensures len { length into.new ≡ length into.old }
{
    let count = most.min(into.len().min(bytes.len()));
    into[..count].copy_from_slice(&bytes[..count]);
    count
}
