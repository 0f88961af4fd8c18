//! A buffer of bytes before a sink.
ghost use Rattle.std.specs.Prelude.{◌≡◌, ◌≤◌, ◌-◌, ◌++◌, [], false, length, take};

use crate::{Sink, WriteFault, write_all};

/// How many bytes wait at most.
const ROOM: usize = 8192;

/// Bytes on their way to a sink: they go out when the buffer is full and at the end. It takes no memory.
///
/// The sink is passed to each call, and is the same for all calls of one buffer. A failed write is kept in mind: from then on nothing
/// more goes out, and [`SinkBuffer::finish`] answers the fault. So what puts many small parts has no error to pass on.
#[derive(Drop)]
pub struct SinkBuffer {
    waiting: [u8; ROOM],
    count: usize,
    failed: bool,
    ghost within: { count ≤ 8192 },
}

impl SinkBuffer {
    ghost use Rattle.arr_io.specs.Buffered.{Finishes, IsFresh, Puts, outgoing};

    /// An empty buffer.
    pub fn new() -> SinkBuffer
        ensures { IsFresh result }
    {
        SinkBuffer {
            waiting: [0; ROOM],
            count: 0,
            failed: false,
        }
    }

    /// Puts bytes behind those that were put before.
    pub fn put<K: Sink>(&mut self, bytes: &[u8], sink: &mut K)
        ensures { Puts (outgoing K.Sink self.old sink.old) (outgoing K.Sink self.new sink.new) bytes.now }
    {
        if self.failed {
            return;
        }
        if bytes.len() <= ROOM - self.count {
            self.keep(bytes);
            return;
        }
        self.send(sink);
        self.put_first(bytes, sink);
    }

    /// Appends what still waits. `WriteFault` comes only where a write failed, in this call or an earlier one, and a byte is missing.
    pub fn finish<K: Sink>(self, sink: &mut K) -> Result<(), WriteFault>
        ensures { Finishes K.Sink (outgoing K.Sink self sink.old) sink.new result }
    {
        if self.failed {
            return Err(WriteFault);
        }
        write_all(sink, &self.waiting[..self.count])
    }

    /// Lets bytes wait, for which there is room.
    fn keep(&mut self, bytes: &[u8])
        requires room { length bytes.now ≤ 8192 - self.old.count }
        requires sound { self.old.failed ≡ false }
        ensures waiting { take self.new.count self.new.waiting ≡ take self.old.count self.old.waiting ++ bytes.now }
        ensures sound { self.new.failed ≡ false }
    {
        let end = self.count + bytes.len();
        self.waiting[self.count..end].copy_from_slice(bytes);
        self.count = end;
    }

    /// Appends what waits.
    fn send<K: Sink>(&mut self, sink: &mut K)
        requires { self.old.failed ≡ false }
        ensures room { self.new.count ≡ 0 }
        ensures puts { Puts (outgoing K.Sink self.old sink.old) (outgoing K.Sink self.new sink.new) [] }
    {
        self.failed = write_all(sink, &self.waiting[..self.count]).is_err();
        self.count = 0;
    }

    /// Puts bytes where none wait.
    fn put_first<K: Sink>(&mut self, bytes: &[u8], sink: &mut K)
        requires { self.old.count ≡ 0 }
        ensures { Puts (outgoing K.Sink self.old sink.old) (outgoing K.Sink self.new sink.new) bytes.now }
    {
        if self.failed {
            return;
        }
        if bytes.len() <= ROOM {
            self.keep(bytes);
            return;
        }
        self.failed = write_all(sink, bytes).is_err();
    }
}
