//! The bytes of a source, taken a piece at a time.
ghost use Rattle.std.specs.Prelude.{◌≡◌, ◌≤◌, ◌<◌, [], true, false, drop, length, vec_len, IfOk, Ok};
ghost use Rattle.std.specs.Io.KnownBytes.{IsAtEnd, Keeps};
ghost use Rattle.arr_io.specs.Causes.{HasCause};

use arr_io::{Failed, NoMemory, Source};
use std::alloc::Global;

/// How many bytes one read asks for.
const PIECE: usize = 65_536;

/// A piece that was read, of which some bytes still wait. The source is passed to each call, and is the same for all calls of one value.
#[derive(Debug, Drop)]
pub(crate) struct Pieces {
    pub(crate) buffer: Vec<u8>,
    pub(crate) at: usize,
    pub(crate) end: usize,
    pub(crate) ended: bool,
    pub(crate) ghost size: { vec_len buffer ≡ 65536 },
    pub(crate) ghost inside: { at ≤ end },
    pub(crate) ghost filled: { end ≤ 65536 },
}

impl Pieces {
    ghost use Rattle.arr_cert.specs.Unread.{HasMet, coming, waiting};

    /// Nothing waits yet.
    pub(crate) fn new(alloc: Global) -> Result<Pieces, NoMemory>
        ensures empty { IfOk result (λ pieces. waiting pieces ≡ []) }
        ensures begins { IfOk result (λ pieces. pieces.ended ≡ false) }
    {
        let mut buffer = Vec::new(alloc);
        buffer.resize(PIECE, 0)?;
        Ok(Pieces {
            buffer,
            at: 0,
            end: 0,
            ended: false,
        })
    }

    /// Reads a piece where no byte waits; whether one waits now. Where none does, the source has nothing left.
    pub(crate) fn fill<S: Source>(&mut self, source: &mut S) -> Result<bool, Failed>
        requires met { HasMet S.Source self.old source.old }
        ensures kept { Keeps (coming S.Source self.old source.old) (coming S.Source self.new source.new) }
        ensures some { result ≡ Ok true → 0 < length (waiting self.new) }
        ensures none { result ≡ Ok false → IsAtEnd (coming S.Source self.new source.new) }
        ensures cause { HasCause (S.faults source.old) (S.faults source.new) result }
        ensures met { HasMet S.Source self.new source.new }
    {
        if self.at < self.end {
            return Ok(true);
        }
        if self.ended {
            return Ok(false);
        }
        let Ok(count) = source.read(self.buffer.as_mut_slice()) else {
            return Err(Failed);
        };
        self.at = 0;
        self.end = count;
        self.ended = count == 0;
        Ok(count > 0)
    }

    /// The bytes that wait.
    pub(crate) fn waiting(&self) -> &[u8]
        ensures { result.now ≡ waiting self.now }
    {
        &self.buffer[self.at..self.end]
    }

    /// Uses so many of the bytes that wait.
    pub(crate) fn take(&mut self, count: usize)
        requires { count ≤ length (waiting self.old) }
        ensures rest { waiting self.new ≡ drop count (waiting self.old) }
        ensures ended { self.new.ended ≡ self.old.ended }
    {
        self.at += count;
    }
}
