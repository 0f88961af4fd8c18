//! A block without a serial operation: it is walked in strips, and then its sums are written.
ghost use Rattle.std.specs.Prelude.{◌≡◌, ◌+◌, ◌<◌, ◌^◌, false, get_or, length};
ghost use Rattle.std.specs.List.{list_any};
ghost use Rattle.arr_ops.specs.Costs.{reads, writes};
ghost use Rattle.arr_ops.specs.Ops.{serial};
ghost use Rattle.arr_store.specs.Slots.{slots_of};
ghost use Rattle.arr_store.specs.Stored.{cells};
ghost use Rattle.arr_strips.specs.Blocks.{fold_stores};
ghost use Rattle.arr_machine.specs.Kept.{TypedKept};
ghost use Rattle.arr_loop.specs.Ready.{IsOpen, left_by};
ghost use Rattle.arr_loop.specs.Sums.{AreThere, fold_bytes, sum_bytes, sum_views, with_sum, with_sums};
ghost use Rattle.arr_loop.specs.Numbers.{bytes_of};

use crate::closing::{drop_freed, frees};
use arr_contract::Prepared;
use arr_ops::Op;
use arr_rows::write_numbers;
use arr_store::{Slots, Store};

/// Writes the results that a block keeps for an operation at a place, if it is a reduction whose base the block does not free.
fn write_sum(op: &Op, place: usize, prepared: &Prepared, store: &mut Store)
    requires parallel { list_any serial prepared.now.ops ≡ false }
    requires place { place < length prepared.now.ops }
    requires op { op.now ≡ get_or prepared.now.ops place op.now }
    requires there { AreThere prepared.now.ops (cells store.old) (sum_views prepared.now.ops op.now) }
    requires kept { TypedKept prepared.now.ops prepared.now.numbers }
    requires room { store.old.stores < 2 ^ 62 }
    ensures bases { cells store.new ≡ with_sum prepared.now op.now place (cells store.old) }
    ensures stores { store.new.stores
        ≡ store.old.stores + sum_bytes prepared.now.ops op.now }
    ensures loads { store.new.loads ≡ store.old.loads }
    ensures made { store.new.made ≡ store.old.made }
{
    if !op.code.is_reduction() {
        return;
    }
    let Some(out) = &op.out else {
        return;
    };
    if frees(prepared.ops(), out.base()) {
        return;
    }
    write_numbers(out, store, prepared.numbers(), prepared.sums_from(place));
}

/// Writes the results of the reductions of a walked block, one after another, but for those whose base the block frees.
fn write_sums(prepared: &Prepared, store: &mut Store)
    requires parallel { list_any serial prepared.now.ops ≡ false }
    requires there { AreThere prepared.now.ops (cells store.old) (fold_stores prepared.now.ops) }
    requires kept { TypedKept prepared.now.ops prepared.now.numbers }
    requires room { store.old.stores + fold_bytes prepared.now.ops < 2 ^ 62 }
    ensures bases { cells store.new
        ≡ with_sums prepared.now (cells store.old) }
    ensures stores { store.new.stores
        ≡ store.old.stores + fold_bytes prepared.now.ops }
    ensures loads { store.new.loads ≡ store.old.loads }
    ensures made { store.new.made ≡ store.old.made }
{
    let ops = prepared.ops();
    for (place, op) in ops.iter().enumerate() {
        write_sum(op, place, prepared, store);
    }
}

/// Runs a block that has no serial operation and was opened, with fewer than 2^61 bytes loaded and stored so far. The positions of its
/// shape are walked in strips; each strip loads the views that the block reads, computes, and stores the views that a walk writes. Then the
/// results of its reductions are written, and the bases that the block frees are dropped. The bases and slots are those that its operations
/// leave, one after another; the bytes loaded rise by what the views that the block reads weigh, the bytes stored by what the views that it
/// writes weigh. It takes no memory (docs/PLANS.md, "Running a block").
pub fn run(prepared: &mut Prepared, store: &mut Store, slots: &mut Slots)
    requires parallel { list_any serial prepared.old.ops ≡ false }
    requires open { IsOpen prepared.old.ops store.old slots.old }
    requires room { store.old.loads < 2 ^ 61 }
    requires room_stores { store.old.stores < 2 ^ 61 }
    ensures bases { cells store.new
        ≡ (left_by prepared.old.ops store.old slots.old).bases }
    ensures slots { slots_of slots.new
        ≡ (left_by prepared.old.ops store.old slots.old).slots }
    ensures loads { store.new.loads ≡ store.old.loads + bytes_of prepared.old.ops (reads prepared.old.ops) }
    ensures stores { store.new.stores ≡ store.old.stores + bytes_of prepared.old.ops (writes prepared.old.ops) }
    ensures made { store.new.made ≡ store.old.made }
    ensures ops { prepared.new.ops ≡ prepared.old.ops }
    ensures long { length prepared.new.numbers ≡ length prepared.old.numbers }
{
    prepared.begin();
    prepared.walk(store, slots);
    write_sums(prepared, store);
    drop_freed(prepared, store);
}
