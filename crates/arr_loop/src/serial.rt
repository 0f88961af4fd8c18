//! A block with a serial operation: it computes into scratch, and then writes.
ghost use Rattle.std.specs.Prelude.{◌≡◌, ◌+◌, ◌*◌, ◌≤◌, ◌<◌, ◌^◌, [], ◌∷◌, Some, false, length, true};
ghost use Rattle.std.specs.List.{list_any};
ghost use Rattle.arr_view.specs.Views.{elements, positions};
ghost use Rattle.arr_ops.specs.Ops.{serial};
ghost use Rattle.arr_store.specs.Stored.{cells, memory_of};
ghost use Rattle.arr_store.specs.Slots.{slots_of};
ghost use Rattle.arr_loop.specs.Ready.{IsOpen, left_by};
ghost use Rattle.arr_contract.specs.Prepared.{slides, writer};
ghost use Rattle.arr_ops.specs.Costs.{reads, writes};
ghost use Rattle.arr_ops.specs.Fits.{op_fits};
ghost use Rattle.arr_ops.specs.Formed.{well_formed};
ghost use Rattle.arr_loop.specs.Numbers.{are_taken, bytes_of, lie_inside, loads_each, numbers_for, result_bytes, view_bytes, with_results, with_view};

use crate::closing::{drop_freed, frees};
use crate::computing::compute;
use arr_contract::{Prepared, writer};
use arr_ops::{Op, array_view};
use arr_rows::write_numbers;
use arr_store::{Slots, Store};
use arr_view::View;

/// Writes the first of the numbers that a block keeps at the elements of a view.
fn write_out(out: &View, prepared: &Prepared, store: &mut Store)
    requires enough { positions out.now.lengths ≤ length prepared.now.numbers }
    requires inside { lie_inside (elements out.now) (cells store.old out.now.base) ≡ true }
    requires typed { are_taken (cells store.old out.now.base) (numbers_for out.now prepared.now.numbers) ≡ true }
    requires room { store.old.stores + 8388608 ≤ 2 ^ 62 }
    ensures bases { cells store.new
        ≡ with_view (cells store.old) out.now prepared.now.numbers }
    ensures stores { store.new.stores
        ≡ store.old.stores + view_bytes (cells store.old) out.now }
    ensures loads { store.new.loads ≡ store.old.loads }
    ensures made { store.new.made ≡ store.old.made }
{
    write_numbers(out, store, prepared.numbers(), 0);
}

/// Copies the input of the block's serial operation to its output, some places on in a base that the block keeps.
fn move_on(op: &Op, out: &View, prepared: &mut Prepared, store: &mut Store)
    requires well { well_formed op.now ≡ true }
    requires out { op.now.out ≡ Some out.now }
    requires makes { op.now.makes ≡ false }
    requires fits { op_fits (memory_of store.old) (op.now ∷ []) op.now ≡ true }
    requires serial { list_any serial prepared.old.ops ≡ true }
    requires writer { writer prepared.old.ops ≡ Some op.now }
    requires slides { slides prepared.old.ops ≡ true }
    requires room { store.old.loads < 2 ^ 61 }
    requires room_stores { store.old.stores < 2 ^ 61 }
    ensures bases { cells store.new ≡ with_results prepared.old.ops op.now out.now store.old }
    ensures loads { store.new.loads ≡ store.old.loads + positions out.now.lengths * loads_each op.now }
    ensures stores { store.new.stores
        ≡ store.old.stores + result_bytes prepared.old.ops op.now out.now }
    ensures made { store.new.made ≡ store.old.made }
    ensures same { prepared.new ≡ prepared.old }
{
    prepared.shift(op, out, array_view(&op.first), store);
}

/// Computes the results of an operation into the numbers that a block keeps, and writes them, unless the block frees their base. A view that
/// is copied some places on in a base that the block keeps goes there without these numbers.
fn fill(op: &Op, out: &View, prepared: &mut Prepared, store: &mut Store)
    requires well { well_formed op.now ≡ true }
    requires out { op.now.out ≡ Some out.now }
    requires makes { op.now.makes ≡ false }
    requires fits { op_fits (memory_of store.old) (op.now ∷ []) op.now ≡ true }
    requires serial { list_any serial prepared.old.ops ≡ true }
    requires writer { writer prepared.old.ops ≡ Some op.now }
    requires enough { slides prepared.old.ops ≡ false → positions out.now.lengths ≤ length prepared.old.numbers }
    requires room { store.old.loads < 2 ^ 61 }
    requires room_stores { store.old.stores < 2 ^ 61 }
    ensures bases { cells store.new ≡ with_results prepared.old.ops op.now out.now store.old }
    ensures loads { store.new.loads ≡ store.old.loads + positions out.now.lengths * loads_each op.now }
    ensures stores { store.new.stores
        ≡ store.old.stores + result_bytes prepared.old.ops op.now out.now }
    ensures made { store.new.made ≡ store.old.made }
    ensures ops { prepared.new.ops ≡ prepared.old.ops }
    ensures long { length prepared.new.numbers ≡ length prepared.old.numbers }
{
    if prepared.slides() {
        move_on(op, out, prepared, store);
        return;
    }
    compute(op, out, prepared, store);
    if frees(prepared.ops(), out.base()) {
        return;
    }
    write_out(out, prepared, store);
}

/// Runs a block that has a serial operation and was opened, with fewer than 2^61 bytes loaded and stored so far. The results of that
/// operation are computed into the numbers that the block keeps, and then written, but a view that is copied some places on goes there in
/// strips; at the end the bases that the block frees are dropped. The bytes loaded rise by what the views that the block reads weigh, the
/// bytes stored by what the views that it writes weigh. It takes no memory (docs/PLANS.md, "Running a block").
pub fn run_serial(prepared: &mut Prepared, store: &mut Store, slots: &mut Slots)
    requires serial { list_any serial prepared.old.ops ≡ true }
    requires open { IsOpen prepared.old.ops store.old slots.old }
    requires room { store.old.loads < 2 ^ 61 }
    requires room_stores { store.old.stores < 2 ^ 61 }
    ensures bases { cells store.new
        ≡ (left_by prepared.old.ops store.old slots.old).bases }
    ensures slots { slots_of slots.new
        ≡ (left_by prepared.old.ops store.old slots.old).slots }
    ensures loads { store.new.loads ≡ store.old.loads + bytes_of prepared.old.ops (reads prepared.old.ops) }
    ensures stores { store.new.stores ≡ store.old.stores + bytes_of prepared.old.ops (writes prepared.old.ops) }
    ensures made { store.new.made ≡ store.old.made }
    ensures ops { prepared.new.ops ≡ prepared.old.ops }
    ensures long { length prepared.new.numbers ≡ length prepared.old.numbers }
{
    let Some(op) = writer(prepared.ops()) else {
        unreachable!();
    };
    let Some(out) = &op.out else {
        unreachable!();
    };
    fill(&op, out, prepared, store);
    drop_freed(prepared, store);
}
