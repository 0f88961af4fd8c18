//! A block that is ready to run.
ghost use Rattle.std.specs.Prelude.{ℕ, ◌≡◌, ◌+◌, ◌*◌, ◌<◌, ◌≤◌, ◌^◌, IfOk, IsTrue, Some, false, get_or, length, pos, set, true};
ghost use Rattle.std.specs.List.{AllByRecursion, list_any};
ghost use Rattle.arr_num.specs.Kinds.{is_reduction};
ghost use Rattle.arr_ops.specs.declared.op.Op.{Op};
ghost use Rattle.arr_ops.specs.Costs.{reads, writes};
ghost use Rattle.arr_ops.specs.Memory.{read};
ghost use Rattle.arr_view.specs.Views.{elements, positions};
ghost use Rattle.arr_picks.specs.Picks.{AllBelow};
ghost use Rattle.arr_store.specs.Cells.{size_at, width_at};
ghost use Rattle.arr_store.specs.Runs.{IsOf};
ghost use Rattle.arr_store.specs.Slots.{slots_of};
ghost use Rattle.arr_store.specs.Stored.{cells};
ghost use Rattle.arr_strips.specs.Blocks.{block_positions, stores};
ghost use Rattle.arr_strips.specs.Strips.{outline, put_at};
ghost use Rattle.arr_shift.specs.Shifts.{is_shift};
ghost use Rattle.arr_machine.specs.Kept.{StartsFolds, TypedKept, kept_from};
ghost use Rattle.arr_machine.specs.Machines.{WalksOn};
ghost use Rattle.arr_machine.specs.Ports.{IsThere, widths};
ghost use Rattle.arr_machine.specs.Shown.{SlotsMatch};
ghost use Rattle.arr_ops.specs.Formed.{is_formed};
ghost use Rattle.arr_ops.specs.Ops.{serial};
ghost use Rattle.arr_ops.specs.Plans.{numbered, ops_of};
ghost use Rattle.arr_ops.specs.Traffic.{contracted, scratch};
ghost use Rattle.arr_contract.specs.Prepared.{IsBlockOf, kept_numbers, may_share_block, slides, strip, writer};

use crate::NoMemory;
use crate::contracted::contracted;
use crate::making::machine_for;
use crate::scratch::some_serial;
use crate::sliding::{kept_numbers, slides};
use arr_cost::{block_ops, block_reads, block_views, block_writes};
use arr_machine::{Machine, Task, begin_folds};
use arr_ops::Op;
use arr_sets::MOST;
use arr_shift::shift;
use arr_store::{Slots, Store};
use arr_view::View;
use std::alloc::Global;
use std::marker::Model;

/// A block of a legal plan, with all that running it takes (docs/PLANS.md, "Running a block"). A contract sees the block's operations in
/// list order and the numbers that it keeps as scratch. Beside these numbers a block without a serial operation has its lanes: one for each
/// distinct view, one for each constant and one spare a type, each with room for as many numbers as a strip has positions (`strip`).
/// A block with a serial operation has one lane of 4,096 bytes.
#[derive(Drop)]
pub struct Prepared {
    ops: Vec<Op>,
    read_views: Vec<View>,
    written_views: Vec<View>,
    contracted_bases: Vec<u32>,
    is_serial: bool,
    numbers: Vec<i128>,
    machine: Machine,
}

impl Model for Prepared {
    ghost use Rattle.std.specs.Prelude.{◌≡◌, ◌≤◌, IsTrue, false, length, true};
    ghost use Rattle.std.specs.List.{list_any};
    ghost use Rattle.arr_ops.specs.Costs.{reads, writes};
    ghost use Rattle.arr_ops.specs.Ops.{serial};
    ghost use Rattle.arr_ops.specs.Traffic.{contracted};
    ghost use Rattle.arr_machine.specs.Machines.{IsMachineOf};
    ghost use Rattle.arr_contract.specs.Making.{HasLane};
    ghost use Rattle.arr_contract.specs.Prepared.{PreparedBlock, kept_numbers, may_share_block, strip};

    ghost Value = { PreparedBlock };

    ghost view = { λ p. record { ops = p.ops.items; numbers = p.numbers.items } };

    ghost invariant = { λ p. (IsTrue (may_share_block p.ops.items)) × (length p.ops.items ≤ 256) × (p.read_views.items ≡ reads p.ops.items) × (p.written_views.items ≡ writes p.ops.items) × (p.contracted_bases.items ≡ contracted p.ops.items) × (p.is_serial ≡ list_any serial p.ops.items) × (length p.numbers.items ≡ kept_numbers p.ops.items) × (p.is_serial ≡ false → IsMachineOf p.ops.items p.machine) × (p.is_serial ≡ false → p.machine.room ≡ strip p.ops.items) × (p.is_serial ≡ true → HasLane p.ops.items p.machine) };
}

impl Prepared {
    /// A block of a legal plan of a formed list of at most `MOST` operations, ready to run; the block is given by the numbers of its
    /// operations, from 1 (docs/PLANS.md, "Running a block"). Want of memory is its one refusal.
    pub fn of(alloc: Global, ops: &[Op], block: &[u32]) -> Result<Prepared, NoMemory>
        requires formed { IsTrue (is_formed ops.now) }
        requires block { IsBlockOf ops.now block.now }
        requires few { length ops.now ≤ MOST }
        ensures { IfOk result (λ p. p.ops ≡ ops_of (numbered ops.now) block.now) }
    {
        let ops = block_ops(alloc, ops, block)?;
        let read_views = block_reads(alloc, ops.as_slice())?;
        let written_views = block_writes(alloc, ops.as_slice())?;
        let contracted_bases = contracted(alloc, ops.as_slice())?;
        let is_serial = some_serial(alloc, ops.as_slice())?;
        let count = kept_numbers(alloc, ops.as_slice(), is_serial)?;
        let numbers = vec![in alloc; 0; count]?;
        let views = block_views(alloc, ops.as_slice())?;
        let machine = machine_for(alloc, ops.as_slice(), views.as_slice(), is_serial)?;
        Ok(Prepared {
            ops,
            read_views,
            written_views,
            contracted_bases,
            is_serial,
            numbers,
            machine,
        })
    }

    /// The block's operations, in list order (docs/PLANS.md, "Running a block"). It takes no memory.
    pub fn ops(&self) -> &[Op]
        ensures value { result.now ≡ self.now.ops }
        ensures block { IsTrue (may_share_block self.now.ops) }
        ensures few { length self.now.ops ≤ MOST }
        ensures kept { length self.now.numbers ≡ kept_numbers self.now.ops }
    {
        self.ops.as_slice()
    }

    /// The views that the block reads and whose base it does not create, each once, in the order of first sight (docs/PLANS.md, "Cost"). It takes
    /// no memory.
    pub fn reads(&self) -> &[View]
        ensures { result.now ≡ reads self.now.ops }
    {
        self.read_views.as_slice()
    }

    /// The views that the block writes and whose base it does not free, each once, in the order of first sight (docs/PLANS.md, "Cost"). It takes
    /// no memory.
    pub fn writes(&self) -> &[View]
        ensures { result.now ≡ writes self.now.ops }
    {
        self.written_views.as_slice()
    }

    /// The bases that the block both creates and frees, by their numbers, in the order of their creators: no buffer is made for them
    /// (docs/PLANS.md, "Running a block"). It takes no memory.
    pub fn contracted(&self) -> &[u32]
        ensures { result.now ≡ contracted self.now.ops }
    {
        self.contracted_bases.as_slice()
    }

    /// Whether an operation of the block is serial (docs/PLANS.md, "Serial operations and fusibility"). It takes no memory.
    pub fn serial(&self) -> bool
        ensures { result ≡ list_any serial self.now.ops }
    {
        self.is_serial
    }

    /// Whether the block has a serial operation that copies a view of one type some places on, and keeps its base (docs/PLANS.md,
    /// "Running a block"). It takes no memory.
    pub fn slides(&self) -> bool
        ensures { result ≡ slides self.now.ops }
    {
        slides(self.ops.as_slice(), self.is_serial)
    }

    /// How many numbers the block keeps as scratch (docs/PLANS.md, "Running a block"). It takes no memory.
    pub fn scratch(&self) -> u64
        ensures value { result ≡ kept_numbers self.now.ops }
        ensures most { result ≤ scratch self.now.ops }
        ensures numbers { result ≡ length self.now.numbers }
    {
        self.numbers.len() as u64
    }

    /// How many positions a strip of the block has at most, and so for how many numbers each of its lanes has room; the block has no serial
    /// operation (docs/PLANS.md, "Running a block"). It takes no memory.
    pub fn strip(&self) -> u64
        requires { list_any serial self.now.ops ≡ false }
        ensures { result ≡ strip self.now.ops }
    {
        self.machine.room as u64
    }

    /// The number kept at a place, counted from 0 (docs/PLANS.md, "Running a block"). It takes no memory.
    #[inline]
    pub fn number(&self, at: u64) -> i128
        requires { at < length self.now.numbers }
        ensures { result ≡ get_or self.now.numbers at (pos 0) }
    {
        self.numbers[at as usize]
    }

    /// The numbers that the block keeps, in order (docs/PLANS.md, "Running a block"). It takes no memory.
    pub fn numbers(&self) -> &[i128]
        ensures { result.now ≡ self.now.numbers }
    {
        self.numbers.as_slice()
    }

    /// Where the numbers begin that the block keeps for a reduction, which is given by its place in the block, counted from 0; the block has
    /// no serial operation (docs/PLANS.md, "Running a block"). It takes no memory.
    pub fn sums_from(&self, place: usize) -> usize
        requires parallel { list_any serial self.now.ops ≡ false }
        requires there { place < length self.now.ops }
        requires reduction { (op : Op) → op ≡ get_or self.now.ops place op → is_reduction op.code ≡ true }
        ensures { result ≡ kept_from self.now.ops place }
    {
        match self.machine.tasks[place] {
            Task::Fold(along) => along.kept,
            Task::Line(_) | Task::Link(_) | Task::Scan(_, _) | Task::Show(_, _) | Task::Nothing =>
                unreachable!(),
        }
    }

    /// Changes the number kept at a place, counted from 0; nothing else changes (docs/PLANS.md, "Running a block"). It takes no memory.
    #[inline]
    pub fn set_number(&mut self, at: u64, value: i128)
        requires { at < length self.old.numbers }
        ensures { self.new ≡ record self.old { numbers = set self.old.numbers at value } }
    {
        self.numbers[at as usize] = value;
    }

    /// Sets the numbers that the block keeps to where its folds begin (docs/PLANS.md, "Running a block"). It takes no memory.
    pub fn begin(&mut self)
        requires { list_any serial self.old.ops ≡ false }
        ensures block { IsTrue (may_share_block self.old.ops) }
        ensures few { length self.old.ops ≤ MOST }
        ensures ops { self.new.ops ≡ self.old.ops }
        ensures long { length self.new.numbers ≡ length self.old.numbers }
        ensures kept { TypedKept self.old.ops self.new.numbers }
        ensures starts { StartsFolds self.old.ops self.new.numbers }
    {
        begin_folds(
            self.ops.as_slice(),
            self.machine.lanes.as_slice(),
            self.machine.tasks.as_slice(),
            self.numbers.as_mut_slice(),
            self.machine.room,
        );
    }

    /// Walks the positions of the block in strips, from bases that are open: each strip loads the views that the block reads, runs its
    /// operations, and stores the views that a walk writes (docs/PLANS.md, "Running a block"). It takes no memory.
    pub fn walk(&mut self, store: &mut Store, slots: &mut Slots)
        requires parallel { list_any serial self.old.ops ≡ false }
        requires reads { AllByRecursion (IsThere self.old.ops (cells store.old)) (reads self.old.ops) }
        requires stores { AllByRecursion (IsThere self.old.ops (cells store.old)) (stores self.old.ops) }
        requires kept { TypedKept self.old.ops self.old.numbers }
        requires slots { SlotsMatch self.old.ops (slots_of slots.old) }
        requires loads { store.old.loads < 2 ^ 61 }
        requires saves { store.old.stores < 2 ^ 61 }
        ensures walks { WalksOn self.old.ops 0 (block_positions self.old.ops) store.old self.old.numbers slots.old store.new self.new.numbers slots.new }
        ensures same { (b : ℕ) → outline (cells store.new b) ≡ outline (cells store.old b) }
        ensures ops { self.new.ops ≡ self.old.ops }
        ensures long { length self.new.numbers ≡ length self.old.numbers }
        ensures kept { TypedKept self.old.ops self.new.numbers }
        ensures slots { SlotsMatch self.old.ops (slots_of slots.new) }
        ensures made { store.new.made ≡ store.old.made }
        ensures loads { store.new.loads
            ≡ store.old.loads + block_positions self.old.ops * widths (cells store.old) (reads self.old.ops) }
        ensures saves { store.new.stores
            ≡ store.old.stores + block_positions self.old.ops * widths (cells store.old) (stores self.old.ops) }
    {
        self.machine.walk(
            self.ops.as_slice(),
            self.numbers.as_mut_slice(),
            store,
            slots,
        );
    }

    /// Copies a view to one some places on in its base, for the first operation of the block that writes, one of its operations being serial:
    /// each number goes to its place as it was before (docs/PLANS.md, "Running a block"). It takes no memory.
    pub fn shift(&mut self, _op: &Op, out: &View, input: &View, store: &mut Store)
        requires serial { list_any serial self.old.ops ≡ true }
        requires writer { writer self.old.ops ≡ Some _op.now }
        requires shift { is_shift out.now input.now ≡ true }
        requires base { IsOf _op.now.to (cells store.old out.now.base) }
        requires inside { AllBelow (size_at (cells store.old out.now.base)) (elements out.now) }
        requires inside_input { AllBelow (size_at (cells store.old out.now.base)) (elements input.now) }
        requires loads { store.old.loads < 2 ^ 61 }
        requires saves { store.old.stores < 2 ^ 61 }
        ensures same { self.new ≡ self.old }
        ensures bases { cells store.new ≡ put_at out.now.base (elements out.now)
            (read (cells store.old out.now.base) (elements input.now)) (cells store.old) }
        ensures loads { store.new.loads
            ≡ store.old.loads + positions out.now.lengths * width_at (cells store.old out.now.base) }
        ensures saves { store.new.stores
            ≡ store.old.stores + positions out.now.lengths * width_at (cells store.old out.now.base) }
        ensures made { store.new.made ≡ store.old.made }
    {
        let room = self.machine.room;
        shift(out, input, store, &mut self.machine.lanes[0], room);
    }
}
