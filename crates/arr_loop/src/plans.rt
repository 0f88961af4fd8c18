//! A list that runs by a plan, block after block.
ghost use Rattle.std.specs.Prelude.{◌≡◌, ◌+◌, ◌≤◌, ◌<◌, ◌^◌, OnOk, length, map, true};
ghost use Rattle.arr_ops.specs.Costs.{reads, total, writes};
ghost use Rattle.arr_ops.specs.Fits.{fits};
ghost use Rattle.arr_ops.specs.Formed.{is_formed};
ghost use Rattle.arr_ops.specs.Memory.{eager};
ghost use Rattle.arr_ops.specs.Plans.{is_legal, numbered, ops_of};
ghost use Rattle.arr_ops.specs.Traffic.{buffers, read_bytes, write_bytes};
ghost use Rattle.arr_contract.specs.Prepared.{IsBlockOf};
ghost use Rattle.arr_store.specs.Slots.{blank_slots, slots_of};
ghost use Rattle.arr_store.specs.Stored.{cells, memory_of};
ghost use Rattle.arr_loop.specs.Ready.{AreShown, IsOpen, after, left_by, memory};
ghost use Rattle.arr_loop.specs.Opened.{buffers_for};
ghost use Rattle.arr_loop.specs.Numbers.{bytes_of};

use crate::NoMemory;
use crate::opening::open;
use crate::serial::run_serial;
use crate::walking::run;
use arr_contract::Prepared;
use arr_ops::{Op, Plan};
use arr_sets::MOST;
use arr_store::{Slots, Store};
use std::alloc::Global;

/// Runs a block that was opened.
fn run_opened(prepared: &mut Prepared, store: &mut Store, slots: &mut Slots)
    requires open { IsOpen prepared.old.ops store.old slots.old }
    requires room { store.old.loads < 2 ^ 61 }
    requires room_stores { store.old.stores < 2 ^ 61 }
    ensures bases { cells store.new
        ≡ (left_by prepared.old.ops store.old slots.old).bases }
    ensures slots { slots_of slots.new
        ≡ (left_by prepared.old.ops store.old slots.old).slots }
    ensures loads { store.new.loads ≡ store.old.loads + bytes_of prepared.old.ops (reads prepared.old.ops) }
    ensures stores { store.new.stores ≡ store.old.stores + bytes_of prepared.old.ops (writes prepared.old.ops) }
    ensures made { store.new.made ≡ store.old.made }
{
    if prepared.serial() {
        run_serial(prepared, store, slots);
    } else {
        run(prepared, store, slots);
    }
}

/// Opens and runs a block of a legal plan of a list.
fn run_block(
    alloc: Global,
    ops: &[Op],
    block: &[u32],
    store: &mut Store,
    slots: &mut Slots,
) -> Result<(), NoMemory>
    requires formed { is_formed ops.now ≡ true }
    requires few { length ops.now ≤ MOST }
    requires block { IsBlockOf ops.now block.now }
    requires fit { fits (memory_of store.old) (ops_of (numbered ops.now) block.now) ≡ true }
    requires shown { AreShown (slots_of slots.old) (ops_of (numbered ops.now) block.now) }
    requires room { store.old.loads < 2 ^ 61 }
    requires room_stores { store.old.stores < 2 ^ 61 }
    requires room_made { store.old.made < 2 ^ 61 }
    ensures memory { OnOk result (memory store.new slots.new
        ≡ after ops.now block.now store.old slots.old) }
    ensures loads { OnOk result (store.new.loads ≡ store.old.loads + read_bytes ops.now block.now) }
    ensures stores { OnOk result (store.new.stores ≡ store.old.stores + write_bytes ops.now block.now) }
    ensures made { OnOk result (store.new.made ≡ store.old.made + buffers_for ops.now block.now) }
{
    let mut prepared = Prepared::of(alloc, ops, block)?;
    open(alloc, &prepared, store)?;
    run_opened(&mut prepared, store, slots);
    Ok(())
}

/// The blocks of a plan.
fn blocks_of(plan: &Plan) -> &[Vec<u32>]
    ensures { map (λ b. b.items) result.now ≡ plan.now }
{
    &plan.blocks
}

/// Opens and runs the blocks of a legal plan of a list, one after another.
fn run_blocks(
    alloc: Global,
    ops: &[Op],
    blocks: &[Vec<u32>],
    store: &mut Store,
    slots: &mut Slots,
) -> Result<(), NoMemory>
    requires formed { is_formed ops.now ≡ true }
    requires few { length ops.now ≤ MOST }
    requires fitting { fits (memory_of store.old) ops.now ≡ true }
    requires legal { is_legal ops.now (map (λ b. b.items) blocks.now) ≡ true }
    requires blank { slots_of slots.old ≡ blank_slots ops.now }
    requires room { store.old.loads < 2 ^ 60 }
    requires room_stores { store.old.stores < 2 ^ 60 }
    requires room_made { store.old.made < 2 ^ 60 }
    ensures bases { OnOk result (cells store.new ≡ (eager (memory_of store.old) ops.now).bases) }
    ensures shown { OnOk result (slots_of slots.new ≡ (eager (memory_of store.old) ops.now).slots) }
    ensures loads { OnOk result (store.new.loads
        ≡ store.old.loads + total (read_bytes ops.now) (map (λ b. b.items) blocks.now)) }
    ensures stores { OnOk result (store.new.stores
        ≡ store.old.stores + total (write_bytes ops.now) (map (λ b. b.items) blocks.now)) }
    ensures made { OnOk result (store.new.made ≡ store.old.made + buffers ops.now (map (λ b. b.items) blocks.now)) }
{
    for block in blocks {
        run_block(alloc, ops, block, store, slots)?;
    }
    Ok(())
}

/// Runs a list by a legal plan: one block after another, each of which walks its shape once (docs/PLANS.md, "Running a block").
///
/// It is given a formed list of at most `MOST` operations, a store that has what they need, whose counters are below 2^60, and slots made
/// for the list. Afterwards the bases and the slots are those that the list leaves, its operations run one after another; the bytes loaded
/// and stored rose by what the blocks read and write, and a buffer was made for each base that the list creates and no block contracts.
/// After want of memory, its one refusal, nothing is claimed of the store and of the slots.
pub fn run_plan(
    alloc: Global,
    ops: &[Op],
    plan: &Plan,
    store: &mut Store,
    slots: &mut Slots,
) -> Result<(), NoMemory>
    requires formed { is_formed ops.now ≡ true }
    requires few { length ops.now ≤ MOST }
    requires fitting { fits (memory_of store.old) ops.now ≡ true }
    requires legal { is_legal ops.now plan.now ≡ true }
    requires blank { slots_of slots.old ≡ blank_slots ops.now }
    requires room { store.old.loads < 2 ^ 60 }
    requires room_stores { store.old.stores < 2 ^ 60 }
    requires room_made { store.old.made < 2 ^ 60 }
    ensures bases { OnOk result (cells store.new ≡ (eager (memory_of store.old) ops.now).bases) }
    ensures shown { OnOk result (slots_of slots.new ≡ (eager (memory_of store.old) ops.now).slots) }
    ensures loads { OnOk result (store.new.loads ≡ store.old.loads + total (read_bytes ops.now) plan.now) }
    ensures stores { OnOk result (store.new.stores ≡ store.old.stores + total (write_bytes ops.now) plan.now) }
    ensures made { OnOk result (store.new.made ≡ store.old.made + buffers ops.now plan.now) }
{
    run_blocks(alloc, ops, blocks_of(plan), store, slots)
}
