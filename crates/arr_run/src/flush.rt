//! One flush: its list is rewritten, planned and listed, runs block by block, and what it prints is written.
ghost use Rattle.std.specs.Prelude.{◌≡◌, ◌^◌, ◌≤◌, ℕ, IfOk, OnOk, Some, length, true};
ghost use Rattle.arr_listing.specs.Shown.{Shows};
ghost use Rattle.arr_io.specs.Buffered.{Puts, Writes, outgoing};
ghost use Rattle.arr_ops.specs.Fits.{fits};
ghost use Rattle.arr_ops.specs.Formed.{is_formed};
ghost use Rattle.arr_ops.specs.Memory.{eager, without_slots};
ghost use Rattle.arr_ops.specs.Plans.{is_legal};
ghost use Rattle.arr_rewrite.specs.NormalForm.{normal_form};
ghost use Rattle.arr_store.specs.Slots.{slots_of};
ghost use Rattle.arr_store.specs.Stored.{memory_of};
ghost use Rattle.arr_record.specs.declared.part.Part.TheVariants.{Flush};
ghost use Rattle.arr_run.specs.Flushes.{Moves, Reports, WritesFlush, arrays_text};
ghost use Rattle.arr_run.specs.Parts.{BreaksPart, Caused, CountsBelow, OnNoMemory, OnRan, OnWriteFault, RisesBy, StopsPart, Wrote};
ghost use Rattle.arr_run.specs.Shown.{AllShow, slot_text, slots_text};

use crate::choice::Choice;
use crate::head::write_head;
use crate::planning::{Prepared, prepare};
use arr_io::{NoMemory, Sink, SinkBuffer, WriteFault};
use arr_law::Certificate;
use arr_listing::put_array;
use arr_loop::run_plan;
use arr_ops::{Op, Plan};
use arr_sets::MOST;
use arr_store::{Slots, Store};
use std::alloc::Global;

/// Why a flush did not come to its end.
#[derive(Clone, Copy, Debug, PartialEq, Eq)]
pub enum RunFault {
    /// A write failed.
    WriteFault,
    /// No memory is left.
    NoMemory,
}

/// What a flush did.
#[derive(Debug, Drop)]
pub struct Report {
    /// How many operations were recorded.
    pub recorded: u32,
    /// How many are left of them after rewriting.
    pub rewritten: u32,
    /// The plan of the rewritten list.
    pub plan: Plan,
    /// How many blocks it has.
    pub blocks: u32,
    /// What it costs, in bytes.
    pub cost: u64,
    /// What no legal plan costs less than, in bytes; of best alone.
    pub bound: Option<u64>,
    /// How many steps and branches the search for a best plan took; 0 for the other planners.
    pub units: u64,
    /// The certificate of the plan and its bound; of best alone.
    pub certificate: Option<Certificate>,
    /// How many bytes operations loaded.
    pub loads: u64,
    /// How many bytes they stored.
    pub stores: u64,
    /// How many buffers were made.
    pub made: u64,
}

/// How many blocks a plan has.
pub(crate) fn block_count(plan: &Plan) -> u32
    requires { length plan.now ≤ 256 }
    ensures { result ≡ length plan.now }
{
    plan.blocks.len() as u32
}

/// Puts what the SYNCs of a list show, in its order.
fn put_slots<K: Sink>(ops: &[Op], slots: &Slots, out: &mut SinkBuffer, sink: &mut K)
    requires { AllShow (slots_of slots.now) ops.now }
    ensures { Puts (outgoing K.Sink out.old sink.old) (outgoing K.Sink out.new sink.new)
        (slots_text (slots_of slots.now) ops.now) }
{
    for op in ops {
        put_slot(op, slots, out, sink);
    }
}

/// Puts what an operation shows, if it is a SYNC.
fn put_slot<K: Sink>(op: &Op, slots: &Slots, out: &mut SinkBuffer, sink: &mut K)
    requires { (s : ℕ) → op.now.slot ≡ Some s → Shows op.now (slots_of slots.now s) }
    ensures { Puts (outgoing K.Sink out.old sink.old) (outgoing K.Sink out.new sink.new)
        (slot_text (slots_of slots.now) op.now) }
{
    if let Some(slot) = op.slot {
        put_array(op, slot, slots, out, sink);
    }
}

/// Writes what the SYNCs of a list show, in its order.
fn write_slots<K: Sink>(ops: &[Op], slots: &Slots, sink: &mut K) -> Result<(), WriteFault>
    requires { AllShow (slots_of slots.now) ops.now }
    ensures { Writes K.Sink sink.old sink.new result (slots_text (slots_of slots.now) ops.now) }
{
    let mut out = SinkBuffer::new();
    put_slots(ops, slots, &mut out, sink);
    out.finish(sink)
}

/// Runs a prepared list block by block, and answers the slots that its SYNCs filled.
pub(crate) fn run_list(
    alloc: Global,
    ops: &[Op],
    prepared: &Prepared,
    store: &mut Store,
) -> Result<Slots, NoMemory>
    requires normal { prepared.now.list.items ≡ normal_form ops.now }
    requires legal { is_legal (normal_form ops.now) prepared.now.planned.plan ≡ true }
    requires formed { is_formed ops.now ≡ true }
    requires fitting { fits (memory_of store.old) ops.now ≡ true }
    requires few { length ops.now ≤ MOST }
    requires counts { CountsBelow (2 ^ 60) store.old }
    ensures slots { IfOk result (λ slots. slots_of slots ≡ (eager (memory_of store.old) (normal_form ops.now)).slots) }
    ensures memory { OnOk result (memory_of store.new ≡ without_slots (eager (memory_of store.old) ops.now)) }
    ensures moved { OnOk result (Moves (normal_form ops.now) prepared.now.planned.plan store.old store.new) }
    ensures counts { OnOk result (RisesBy (2 ^ 32) store.old store.new) }
{
    let mut slots = Slots::for_list(alloc, &prepared.list)?;
    run_plan(
        alloc,
        &prepared.list,
        &prepared.planned.plan,
        store,
        &mut slots,
    )?;
    Ok(slots)
}

/// Runs a prepared list, and writes what it shows.
fn run_prepared<K: Sink>(
    alloc: Global,
    ops: &[Op],
    prepared: &Prepared,
    store: &mut Store,
    sink: &mut K,
) -> Result<(), RunFault>
    requires normal { prepared.now.list.items ≡ normal_form ops.now }
    requires legal { is_legal (normal_form ops.now) prepared.now.planned.plan ≡ true }
    requires formed { is_formed ops.now ≡ true }
    requires fitting { fits (memory_of store.old) ops.now ≡ true }
    requires few { length ops.now ≤ MOST }
    requires counts { CountsBelow (2 ^ 60) store.old }
    ensures wrote { Wrote result (K.written sink.old) (K.written sink.new)
        (arrays_text (memory_of store.old) ops.now) }
    ensures cause { Caused (K.faults sink.old) (K.faults sink.new) result }
    ensures memory { OnRan result (memory_of store.new ≡ without_slots (eager (memory_of store.old) ops.now)) }
    ensures moved { OnRan result (Moves (normal_form ops.now) prepared.now.planned.plan store.old store.new) }
    ensures counts { OnRan result (RisesBy (2 ^ 32) store.old store.new) }
{
    let Ok(slots) = run_list(alloc, ops, prepared, store) else {
        return Err(RunFault::NoMemory);
    };
    match write_slots(&prepared.list, &slots, sink) {
        Ok(()) => Ok(()),
        Err(WriteFault) => Err(RunFault::WriteFault),
    }
}

/// Runs one flush, which has this number, from 1: the list is rewritten, the rewritten list is planned, plan and certificate are written where
/// they are listed, the blocks run on the store one after another, and the arrays that the list prints are written (docs/PLANS.md, "Flushes" and
/// "The listing").
///
/// The list is formed and has at most `MOST` operations, and the store has what it needs. Afterwards the store has the bases that the recorded
/// list leaves, its operations run one after another.
///
/// `WriteFault` comes only where the sink's count of faults rose in this call; then a byte is missing of what was to be written, and the
/// store is as it was where it is one before the arrays, else as after the flush. After `NoMemory` a front was written, and nothing is said
/// of the store.
pub fn flush_once<K: Sink>(
    alloc: Global,
    store: &mut Store,
    number: u32,
    ops: &[Op],
    choice: Choice,
    sink: &mut K,
) -> Result<Report, RunFault>
    requires formed { is_formed ops.now ≡ true }
    requires fitting { fits (memory_of store.old) ops.now ≡ true }
    requires few { length ops.now ≤ MOST }
    requires counts { CountsBelow (2 ^ 60) store.old }
    ensures report { IfOk result (Reports choice number ops.now store.old store.new) }
    ensures wrote { IfOk result (WritesFlush K.Sink choice number ops.now sink.old sink.new store.old) }
    ensures memory { OnOk result (memory_of store.new ≡ without_slots (eager (memory_of store.old) ops.now)) }
    ensures counts { OnOk result (RisesBy (2 ^ 32) store.old store.new) }
    ensures cause { Caused (K.faults sink.old) (K.faults sink.new) result }
    ensures stopped { OnWriteFault result (StopsPart K.Sink choice number (Flush ops.now)
        sink.old sink.new store.old store.new) }
    ensures broke { OnNoMemory result (BreaksPart K.Sink choice number (Flush ops.now) sink.old sink.new store.old) }
{
    let Ok(prepared) = prepare(alloc, choice, number, ops) else {
        return Err(RunFault::NoMemory);
    };
    let Ok(()) = write_head(choice, number, ops, &prepared, sink) else {
        return Err(RunFault::WriteFault);
    };
    let (loads, stores, made) = (store.loads(), store.stores(), store.made());
    match run_prepared(alloc, ops, &prepared, store, sink) {
        Ok(()) => Ok(Report {
            recorded: ops.len() as u32,
            rewritten: prepared.list.len() as u32,
            blocks: block_count(&prepared.planned.plan),
            cost: prepared.cost,
            plan: prepared.planned.plan,
            bound: prepared.planned.bound,
            units: prepared.planned.units,
            certificate: prepared.planned.certificate,
            loads: store.loads() - loads,
            stores: store.stores() - stores,
            made: store.made() - made,
        }),
        Err(fault) => Err(fault),
    }
}
