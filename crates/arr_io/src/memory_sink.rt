ghost use Rattle.std.specs.Prelude.{◌≡◌, ◌-◌, ◌+◌, ◌^◌, ◌<◌, ◌≤◌, ◌↔◌, ◌⊎◌, [], min, length, vec_len, vec_capacity, Some, IfOk, IsErr, Contains};
ghost use Rattle.std.specs.Io.{WritesAtMost};
ghost use Rattle.std.specs.Io.KnownBytes.{WriteAppends};
ghost use Rattle.arr_io.specs.Causes.{CountsFailure, HasCause};

use crate::source::raise;
use crate::{Failed, NoMemory, Sink};
use std::alloc::Global;

/// Bytes that are kept in memory, taken a piece at a time, with writes that fail at will.
///
/// `room` bytes can be kept in all. A call takes at most `piece` bytes. `calls` counts the calls and `failed` those that
/// failed; both stay at their last value. The calls whose numbers, counted from 1, are in `fails` fail, and so does a
/// piece that isn't empty where no room is free.
#[derive(Debug, Drop)]
pub struct MemorySink {
    pub bytes: Vec<u8>,
    pub room: usize,
    pub piece: usize,
    pub calls: u64,
    pub fails: Vec<u64>,
    pub failed: u64,
    pub ghost inside: { vec_len bytes ≤ room },
    pub ghost reserved: { room ≤ vec_capacity bytes },
    pub ghost moves: { 0 < piece },
}

impl MemorySink {
    /// An empty sink with its whole room reserved.
    pub fn new(
        alloc: Global,
        room: usize,
        piece: usize,
        fails: Vec<u64>,
    ) -> Result<MemorySink, NoMemory>
        requires { 0 < piece }
        ensures { IfOk result (λ sink. (sink.bytes.items ≡ []) × (sink.room ≡ room) × (sink.piece ≡ piece)
            × (sink.calls ≡ 0)
            × (sink.fails.items ≡ fails.items) × (sink.failed ≡ 0)) }
    {
        Ok(MemorySink {
            bytes: Vec::with_capacity(alloc, room)?,
            room,
            piece,
            calls: 0,
            fails,
            failed: 0,
        })
    }
}

impl Sink for MemorySink {
    ghost written = { λ s. Some s.bytes.items };

    ghost faults = { λ s. s.failed };

    fn write(&mut self, from: &[u8]) -> Result<usize, Failed>
        ensures bound { WritesAtMost result from.now }
        ensures moves { IfOk result (λ n. 0 < length from.now → 0 < n) }
        ensures bytes { WriteAppends (Some self.old.bytes.items) (Some self.new.bytes.items) result from.now }
        ensures cause { HasCause self.old.failed self.new.failed result }
        ensures called { self.new.calls ≡ min (self.old.calls + 1) (2 ^ 64 - 1) }
        ensures fails { IsErr result ↔ (Contains self.old.fails.items self.new.calls
            ⊎ ((self.old.room ≡ vec_len self.old.bytes) × (0 < length from.now))) }
        ensures count { IfOk result (λ n. n
            ≡ min self.old.piece (min (length from.now) (self.old.room - vec_len self.old.bytes))) }
        ensures room { self.new.room ≡ self.old.room }
        ensures piece { self.new.piece ≡ self.old.piece }
        ensures failing { self.new.fails.items ≡ self.old.fails.items }
        ensures failed { CountsFailure self.old.failed self.new.failed result }
    {
        self.calls = self.calls.saturating_add(1);
        if self.fails.contains(&self.calls) {
            return Err(raise(&mut self.failed));
        }
        let free = self.room - self.bytes.len();
        if free == 0 && !from.is_empty() {
            return Err(raise(&mut self.failed));
        }
        let count = self.piece.min(from.len().min(free));
        self.bytes.extend_from_slice(&from[..count]).unwrap();
        Ok(count)
    }
}
