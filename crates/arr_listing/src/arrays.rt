//! The lines of an array.
ghost use Rattle.std.specs.Prelude.{◌≡◌, ◌≤◌, ◌+◌, ◌*◌, true, All, Some};
ghost use Rattle.std.specs.List.{list_any};
ghost use Rattle.arr_view.specs.Views.{positions};
ghost use Rattle.arr_ops.specs.declared.op.Op.{Op};
ghost use Rattle.arr_store.specs.Slots.{slot_size, slots_of};
ghost use Rattle.arr_io.specs.Buffered.{Writes};
ghost use Rattle.arr_listing.specs.Calls.{PutsText};
ghost use Rattle.arr_listing.specs.Texts.{row_count, row_text, row_width, rows};
ghost use Rattle.arr_listing.specs.Shown.{Shows, is_slot, shown_text, slot_numbers};

use crate::numbers::{put_number, put_numbers};
use crate::operations::type_name;
use arr_io::{Sink, SinkBuffer, WriteFault};
use arr_ops::{Op, array_view};
use arr_store::Slots;
use arr_view::{MOST_ELEMENTS, View};

/// Puts a slot's numbers from a position on, one blank between two.
fn put_row<K: Sink>(
    slot: u32,
    start: u32,
    width: u32,
    slots: &Slots,
    out: &mut SinkBuffer,
    sink: &mut K,
)
    requires some { 1 ≤ width }
    requires there { start + width ≤ slot_size (slots_of slots.now slot) }
    requires few { start + width ≤ MOST_ELEMENTS }
    ensures { PutsText K.Sink out.old sink.old out.new sink.new
        (row_text start width (slot_numbers slots.now slot)) }
{
    put_number(slots.get(slot, start), out, sink);
    for position in start + 1..start + width {
        out.put(b" ", sink);
        put_number(slots.get(slot, position), out, sink);
    }
}

/// Puts a slot's numbers, a line for each row.
fn put_rows<K: Sink>(
    slot: u32,
    count: u32,
    width: u32,
    slots: &Slots,
    out: &mut SinkBuffer,
    sink: &mut K,
)
    requires some { 1 ≤ width }
    requires there { count * width ≤ slot_size (slots_of slots.now slot) }
    requires few { count * width ≤ MOST_ELEMENTS }
    ensures { PutsText K.Sink out.old sink.old out.new sink.new
        (rows count width (slot_numbers slots.now slot)) }
{
    let mut start = 0;
    for row in 0..count {
        put_row(slot, start, width, slots, out, sink);
        out.put(b"\n", sink);
        start += width;
    }
}

/// How many rows a view's last dimension has, and how long they are.
fn row_sizes(view: &View) -> (u32, u32)
    ensures count { result.0 ≡ row_count view.now.lengths }
    ensures width { result.1 ≡ row_width view.now.lengths }
    ensures some { 1 ≤ result.1 }
    ensures all { result.0 * result.1 ≡ positions view.now.lengths }
    ensures few { positions view.now.lengths ≤ MOST_ELEMENTS }
{
    match view.shape().last() {
        Some(width) => (view.positions() / *width, *width),
        None => unreachable!(),
    }
}

/// Puts the array in the slot of a SYNC (docs/PLANS.md, "The listing").
pub fn put_array<K: Sink>(op: &Op, slot: u32, slots: &Slots, out: &mut SinkBuffer, sink: &mut K)
    requires { Shows op.now (slots_of slots.now slot) }
    ensures { PutsText K.Sink out.old sink.old out.new sink.new (shown_text (slots_of slots.now slot)) }
{
    let view = array_view(&op.first);
    let (count, width) = row_sizes(view);
    out.put(type_name(op.from).as_bytes(), sink);
    put_numbers(view.shape(), out, sink);
    out.put(b"\n", sink);
    put_rows(slot, count, width, slots, out, sink);
}

/// Writes the array in the slot of a SYNC.
fn write_shown<K: Sink>(op: &Op, slot: u32, slots: &Slots, sink: &mut K) -> Result<(), WriteFault>
    requires { Shows op.now (slots_of slots.now slot) }
    ensures { Writes K.Sink sink.old sink.new result (shown_text (slots_of slots.now slot)) }
{
    let mut out = SinkBuffer::new();
    put_array(op, slot, slots, &mut out, sink);
    out.finish(sink)
}

/// Whether an operation fills the slot.
fn fills(op: &Op, slot: u32) -> bool
    ensures { result ≡ is_slot slot op.now.slot }
{
    match op.slot {
        Some(own) => own == slot,
        None => false,
    }
}

/// Writes the array in a print slot of a list, from 1: its type and its lengths, and a line for each row of its last dimension
/// (docs/PLANS.md, "The listing").
///
/// `WriteFault` comes only where the sink's count of faults rose in this call; then a byte of the lines is missing.
pub fn write_array<K: Sink>(
    ops: &[Op],
    slot: u32,
    slots: &Slots,
    sink: &mut K,
) -> Result<(), WriteFault>
    requires fills { list_any (λ (op : Op). is_slot slot op.slot) ops.now ≡ true }
    requires shows { All (λ (op : Op). is_slot slot op.slot ≡ true → Shows op (slots_of slots.now slot)) ops.now }
    ensures { Writes K.Sink sink.old sink.new result (shown_text (slots_of slots.now slot)) }
{
    for op in ops {
        if fills(op, slot) {
            return write_shown(op, slot, slots, sink);
        }
    }
    unreachable!()
}
