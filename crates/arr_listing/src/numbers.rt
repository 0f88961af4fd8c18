//! Numbers in decimal.
ghost use Rattle.std.specs.Prelude.{decimal};
ghost use Rattle.std.specs.Fmt.{signed_decimal};
ghost use Rattle.arr_io.specs.Buffered.{Writes};
ghost use Rattle.arr_listing.specs.Calls.{PutsText};
ghost use Rattle.arr_listing.specs.Texts.{labelled_text, numbers_text};

use arr_io::{Sink, SinkBuffer, WriteFault};
use itoa::{Buffer, Integer};

/// Puts a number in decimal.
pub(crate) fn put_number<I: Integer, K: Sink>(number: I, out: &mut SinkBuffer, sink: &mut K)
    ensures { PutsText K.Sink out.old sink.old out.new sink.new (I.text number) }
{
    let mut buffer = Buffer::new();
    out.put(buffer.format(number).as_bytes(), sink);
}

/// Puts a number behind a label, if it is there.
pub(crate) fn put_labelled<I: Integer, K: Sink>(
    label: &[u8],
    number: Option<I>,
    out: &mut SinkBuffer,
    sink: &mut K,
)
    ensures { PutsText K.Sink out.old sink.old out.new sink.new (labelled_text I.text label.now number) }
{
    let Some(number) = number else {
        return;
    };
    out.put(label, sink);
    put_number(number, out, sink);
}

/// Puts numbers, each behind a blank.
pub(crate) fn put_numbers<K: Sink>(numbers: &[u32], out: &mut SinkBuffer, sink: &mut K)
    ensures { PutsText K.Sink out.old sink.old out.new sink.new (numbers_text numbers.now) }
{
    for number in numbers {
        out.put(b" ", sink);
        put_number(*number, out, sink);
    }
}

/// Writes a number in decimal, with `-` in front where it is negative (docs/PLANS.md, "The listing").
///
/// `WriteFault` comes only where the sink's count of faults rose in this call; then a byte of the text is missing.
pub fn write_number<K: Sink>(value: i128, sink: &mut K) -> Result<(), WriteFault>
    ensures { Writes K.Sink sink.old sink.new result (signed_decimal value) }
{
    let mut out = SinkBuffer::new();
    put_number(value, &mut out, sink);
    out.finish(sink)
}
