ghost use Rattle.std.specs.Prelude.{◌≡◌, ◌-◌, ◌+◌, ◌^◌, ◌<◌, ◌≤◌, ◌↔◌, drop, min, length, vec_len, Some, IfOk, IsErr, Contains};
ghost use Rattle.std.specs.Io.{ReadsAtMost};
ghost use Rattle.std.specs.Io.KnownBytes.{ReadConsumes};
ghost use Rattle.arr_io.specs.Causes.{CountsFailure, HasCause};

use crate::source::{fill, raise};
use crate::{Failed, Source};

/// Bytes in memory that come a piece at a time, with reads that fail at will.
///
/// The bytes from `at` on, counted from 0, are still to come. A call gives at most `piece` bytes. `calls` counts the calls
/// and `failed` those that failed; both stay at their last value. The calls whose numbers, counted from 1, are in `fails`
/// fail.
#[derive(Debug, Drop)]
pub struct MemorySource {
    pub bytes: Vec<u8>,
    pub at: usize,
    pub piece: usize,
    pub calls: u64,
    pub fails: Vec<u64>,
    pub failed: u64,
    pub ghost inside: { at ≤ vec_len bytes },
    pub ghost moves: { 0 < piece },
}

impl Source for MemorySource {
    ghost left = { λ s. Some (drop s.at s.bytes.items) };

    ghost faults = { λ s. s.failed };

    #[tactic(auto, using(crate::proofs::Pieces::front_taken, crate::proofs::Pieces::none_left))]
    fn read(&mut self, into: &mut [u8]) -> Result<usize, Failed>
        ensures bound { ReadsAtMost result into.new }
        ensures bytes { ReadConsumes (Some (drop self.old.at self.old.bytes.items))
            (Some (drop self.new.at self.new.bytes.items)) result into.new }
        ensures cause { HasCause self.old.failed self.new.failed result }
        ensures called { self.new.calls ≡ min (self.old.calls + 1) (2 ^ 64 - 1) }
        ensures fails { IsErr result ↔ Contains self.old.fails.items self.new.calls }
        ensures count { IfOk result (λ n. n
            ≡ min self.old.piece (min (length into.old) (vec_len self.old.bytes - self.old.at))) }
        ensures kept { self.new.bytes.items ≡ self.old.bytes.items }
        ensures piece { self.new.piece ≡ self.old.piece }
        ensures failing { self.new.fails.items ≡ self.old.fails.items }
        ensures failed { CountsFailure self.old.failed self.new.failed result }
    {
        self.calls = self.calls.saturating_add(1);
        if self.fails.contains(&self.calls) {
            return Err(raise(&mut self.failed));
        }
        let count = fill(into, &self.bytes[self.at..], self.piece);
        self.at += count;
        Ok(count)
    }
}
