//! The lines of an array's sum.
ghost use Rattle.std.specs.Prelude.{◌≡◌, ◌≤◌, ◌++◌, IfOk, OnOk};
ghost use Rattle.arr_store.specs.Slots.{slot_size, slots_of};
ghost use Rattle.arr_listing.specs.Shown.{Shows, slot_numbers};
ghost use Rattle.arr_listing.specs.Texts.{numbers_text};
ghost use Rattle.arr_listing.specs.Totals.{plain_sum, shown_total};

use crate::operations::type_name;
use arr_ops::{Op, array_view};
use arr_store::Slots;
use arr_view::MOST_ELEMENTS;
use itoa::Buffer;
use std::alloc::{AllocError as NoMemory, Global};

/// The plain sum of a slot's numbers.
fn plain_sum(slot: u32, count: u32, slots: &Slots) -> i128
    requires all { count ≡ slot_size (slots_of slots.now slot) }
    requires few { count ≤ MOST_ELEMENTS }
    ensures { result ≡ plain_sum (slot_numbers slots.now slot) }
{
    let mut sum = 0;
    for position in 0..count {
        sum += slots.get(slot, position);
    }
    sum
}

/// Appends numbers, each behind a blank.
fn append_numbers(text: &mut Vec<u8>, numbers: &[u32]) -> Result<(), NoMemory>
    ensures { OnOk result (text.new.items ≡ text.old.items ++ numbers_text numbers.now) }
{
    let mut buffer = Buffer::new();
    for number in numbers {
        text.extend_from_slice(b" ")?;
        text.extend_from_slice(buffer.format(*number).as_bytes())?;
    }
    Ok(())
}

/// The two lines of the array in the slot of a SYNC: its number, its type and its lengths, and the plain sum of its numbers, which is not
/// wrapped into the type (docs/DEMO.md, "What it prints"). An Err is want of memory.
pub fn total_lines(
    alloc: Global,
    number: u32,
    op: &Op,
    slot: u32,
    slots: &Slots,
) -> Result<Vec<u8>, NoMemory>
    requires { Shows op.now (slots_of slots.now slot) }
    ensures { IfOk result (λ lines. lines.items ≡ shown_total number (slots_of slots.now slot)) }
{
    let view = array_view(&op.first);
    let mut buffer = Buffer::new();
    let mut text = Vec::from_slice(alloc, b"array ")?;
    text.extend_from_slice(buffer.format(number).as_bytes())?;
    text.extend_from_slice(b" ")?;
    text.extend_from_slice(type_name(op.from).as_bytes())?;
    append_numbers(&mut text, view.shape())?;
    text.extend_from_slice(b"\nsum ")?;
    let sum = plain_sum(slot, view.positions(), slots);
    text.extend_from_slice(buffer.format(sum).as_bytes())?;
    text.extend_from_slice(b"\n")?;
    Ok(text)
}
