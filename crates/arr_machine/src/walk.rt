//! The walk of a block, strip by strip.
ghost use Rattle.std.specs.Prelude.{ℕ, ◌≡◌, ◌+◌, ◌*◌, ◌<◌, ◌≤◌, ◌^◌, length, true};
ghost use Rattle.std.specs.List.{AllByRecursion};
ghost use Rattle.arr_ops.specs.Costs.{reads};
ghost use Rattle.arr_ops.specs.Formed.{each_typed};
ghost use Rattle.arr_ops.specs.Traffic.{scratch};
ghost use Rattle.arr_store.specs.Slots.{slots_of};
ghost use Rattle.arr_store.specs.Stored.{cells};
ghost use Rattle.arr_strips.specs.Blocks.{block_positions, is_block, stores};
ghost use Rattle.arr_strips.specs.Strips.{outline};
ghost use Rattle.arr_machine.specs.Kept.{TypedKept};
ghost use Rattle.arr_machine.specs.Machines.{IsMachineOf, WalksOn};
ghost use Rattle.arr_machine.specs.Ports.{IsThere, widths};
ghost use Rattle.arr_machine.specs.Shown.{SlotsMatch};
ghost use Rattle.arr_machine.specs.Standing.{IsStripOf};

use crate::port::{Port, load_ports, store_ports};
use crate::run::run_tasks;
use crate::task::Task;
use arr_lanes::{Place, Spares, Strip};
use arr_ops::Op;
use arr_store::{Buffer, Slots, Store};

/// What a block takes to walk its positions in strips: a task for each operation, the views that a strip loads and stores, a lane for each
/// view and each constant, and a spare list of each type; lanes and spare lists have room for `room` numbers. `places` has for each lane
/// where its numbers are read instead, if so. A strip ends where a row of `row` positions does.
#[derive(Drop)]
pub struct Machine {
    pub positions: u32,
    pub room: usize,
    pub tasks: Vec<Task>,
    pub reads: Vec<Port>,
    pub stores: Vec<Port>,
    pub row: usize,
    pub lanes: Vec<Buffer>,
    pub places: Vec<Option<Place>>,
    pub spares: Spares,
}

impl Machine {
    /// The strip that begins at a position: as many positions as lanes have room for, and no more than the row has left. Loops go over a
    /// multiple of 64 numbers where there is room, so that all of them are computed side by side.
    fn strip_at(&self, at: usize) -> Strip
        requires some { 1 ≤ self.now.room }
        requires some_row { 1 ≤ self.now.row }
        requires inside { at < self.now.positions }
        ensures position { result.position ≡ at }
        ensures some { 1 ≤ result.count }
        ensures inside { at + result.count ≤ self.now.positions }
        ensures within { result.count ≤ result.width }
        ensures wide { result.width ≤ result.room }
        ensures room { result.room ≡ self.now.room }
    {
        let left = self.positions as usize - at;
        let count = self.room.min(left).min(self.row - at % self.row);
        let width = count.next_multiple_of(64).min(self.room);
        Strip {
            position: at as u64,
            count,
            width,
            room: self.room,
        }
    }

    /// One strip: it loads the views that the block reads, runs the operations, and stores the views that a walk writes.
    fn run_strip(
        &mut self,
        ops: &[Op],
        numbers: &mut [i128],
        store: &mut Store,
        slots: &mut Slots,
        strip: Strip,
    )
        requires machine { IsMachineOf ops.now self.old }
        requires block { is_block ops.now ≡ true }
        requires types { each_typed ops.now ≡ true }
        requires few_reads { length (reads ops.now) ≤ 768 }
        requires few_stores { length (stores ops.now) ≤ 768 }
        requires reads { AllByRecursion (IsThere ops.now (cells store.old)) (reads ops.now) }
        requires stores { AllByRecursion (IsThere ops.now (cells store.old)) (stores ops.now) }
        requires long { length numbers.old ≡ scratch ops.now }
        requires kept { TypedKept ops.now numbers.old }
        requires slots { SlotsMatch ops.now (slots_of slots.old) }
        requires strip { IsStripOf ops.now strip.position strip.count strip.room }
        requires room { strip.room ≡ self.old.room }
        requires within { strip.count ≤ strip.width }
        requires wide { strip.width ≤ strip.room }
        requires loads { store.old.loads < 2 ^ 61 + 2 ^ 40 }
        requires saves { store.old.stores < 2 ^ 61 + 2 ^ 40 }
        ensures walks { WalksOn ops.now strip.position (strip.position + strip.count) store.old numbers.old slots.old store.new numbers.new slots.new }
        ensures machine { IsMachineOf ops.now self.new }
        ensures same { (b : ℕ) → outline (cells store.new b) ≡ outline (cells store.old b) }
        ensures long { length numbers.new ≡ length numbers.old }
        ensures kept { TypedKept ops.now numbers.new }
        ensures slots { SlotsMatch ops.now (slots_of slots.new) }
        ensures made { store.new.made ≡ store.old.made }
        ensures room { self.new.room ≡ self.old.room }
        ensures loads { store.new.loads
            ≡ store.old.loads + strip.count * widths (cells store.old) (reads ops.now) }
        ensures saves { store.new.stores
            ≡ store.old.stores + strip.count * widths (cells store.old) (stores ops.now) }
    {
        load_ports(
            ops,
            self.reads.as_slice(),
            self.lanes.as_mut_slice(),
            self.places.as_mut_slice(),
            store,
            strip,
        );
        run_tasks(
            ops,
            self.tasks.as_slice(),
            self.lanes.as_mut_slice(),
            self.places.as_slice(),
            store,
            &mut self.spares,
            numbers,
            slots,
            strip,
        );
        store_ports(
            ops,
            self.stores.as_slice(),
            self.lanes.as_slice(),
            store,
            strip,
        );
    }

    /// Walks the positions of a block whose bases are open, in strips (docs/PLANS.md, "Running a block"). It takes no memory.
    pub fn walk(&mut self, ops: &[Op], numbers: &mut [i128], store: &mut Store, slots: &mut Slots)
        requires machine { IsMachineOf ops.now self.old }
        requires block { is_block ops.now ≡ true }
        requires types { each_typed ops.now ≡ true }
        requires few_reads { length (reads ops.now) ≤ 768 }
        requires few_stores { length (stores ops.now) ≤ 768 }
        requires reads { AllByRecursion (IsThere ops.now (cells store.old)) (reads ops.now) }
        requires stores { AllByRecursion (IsThere ops.now (cells store.old)) (stores ops.now) }
        requires long { length numbers.old ≡ scratch ops.now }
        requires kept { TypedKept ops.now numbers.old }
        requires slots { SlotsMatch ops.now (slots_of slots.old) }
        requires loads { store.old.loads < 2 ^ 61 }
        requires saves { store.old.stores < 2 ^ 61 }
        ensures walks { WalksOn ops.now 0 (block_positions ops.now) store.old numbers.old slots.old store.new numbers.new slots.new }
        ensures machine { IsMachineOf ops.now self.new }
        ensures same { (b : ℕ) → outline (cells store.new b) ≡ outline (cells store.old b) }
        ensures long { length numbers.new ≡ length numbers.old }
        ensures kept { TypedKept ops.now numbers.new }
        ensures slots { SlotsMatch ops.now (slots_of slots.new) }
        ensures made { store.new.made ≡ store.old.made }
        ensures room { self.new.room ≡ self.old.room }
        ensures loads { store.new.loads
            ≡ store.old.loads + block_positions ops.now * widths (cells store.old) (reads ops.now) }
        ensures saves { store.new.stores
            ≡ store.old.stores + block_positions ops.now * widths (cells store.old) (stores ops.now) }
    {
        let positions = self.positions as usize;
        let mut at = 0;
        while at < positions {
            let strip = self.strip_at(at);
            self.run_strip(ops, numbers, store, slots, strip);
            at += strip.count;
        }
    }
}
