ghost use Rattle.std.specs.Prelude.{◌≡◌, OnOk, OnErr};
ghost use Rattle.std.specs.Io.KnownBytes.{Appends};
ghost use Rattle.arr_io.specs.Causes.{HasCause};
ghost use Rattle.arr_io.specs.Taken.{AppendsPart};

use crate::{Sink, WriteFault};

/// Writes all the bytes. It takes no memory.
///
/// `WriteFault` comes only where the sink's count of faults rose in this call; then a proper prefix of the bytes was
/// appended.
#[tactic(auto, using(crate::proofs::Pieces::more_appended))]
pub fn write_all<K: Sink>(sink: &mut K, bytes: &[u8]) -> Result<(), WriteFault>
    ensures all { OnOk result (Appends (K.written sink.old) (K.written sink.new) bytes.now) }
    ensures part { OnErr result (AppendsPart (K.written sink.old) (K.written sink.new) bytes.now) }
    ensures cause { HasCause (K.faults sink.old) (K.faults sink.new) result }
{
    let mut at = 0;
    while at < bytes.len() {
        let Ok(count) = sink.write(&bytes[at..]) else {
            return Err(WriteFault);
        };
        at += count;
    }
    Ok(())
}
