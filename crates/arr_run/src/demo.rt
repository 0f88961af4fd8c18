//! A demo: the parts of its script run, and what the plans cost and move is written, and what the arrays sum to (docs/DEMO.md).
ghost use Rattle.std.specs.Prelude.{◌≡◌, ◌≤◌, ◌<◌, ◌^◌, ◌+◌, ◌-◌, ℕ, [], Some, OnOk, length, true};
ghost use Rattle.std.specs.List.{list_all};
ghost use Rattle.std.specs.Io.KnownBytes.{Appends};
ghost use Rattle.arr_elab.specs.Steps.{printed};
ghost use Rattle.arr_listing.specs.Shown.{Shows};
ghost use Rattle.arr_ops.specs.Fits.{fits};
ghost use Rattle.arr_ops.specs.Formed.{is_formed};
ghost use Rattle.arr_ops.specs.Memory.{eager, without_slots};
ghost use Rattle.arr_ops.specs.Plans.{is_legal};
ghost use Rattle.arr_record.specs.declared.part.Part.TheVariants.{Flush};
ghost use Rattle.arr_record.specs.Runs.{after_part, after_parts, each_fits, is_part, part_fits, printed_part, printed_parts};
ghost use Rattle.arr_rewrite.specs.NormalForm.{normal_form};
ghost use Rattle.arr_store.specs.Slots.{slots_of};
ghost use Rattle.arr_store.specs.Stored.{memory_of};
ghost use Rattle.arr_run.specs.Flushes.{Moves};
ghost use Rattle.arr_run.specs.Parts.{Caused, CountsBelow, OnNoMemory, OnWriteFault, RisesBy};
ghost use Rattle.arr_run.specs.Shown.{AllShow};
ghost use Rattle.arr_run.specs.Summing.{Adds, BreaksDemo, CutsDemo, PartCut, PartSummed, PartsBroke, PartsCut, PartsSummed, WritesDemo, shown_slot, shown_slots};

use crate::choice::{Choice, Fuse, Listing};
use crate::flush::{RunFault, block_count, run_list};
use crate::parts::{number_behind, run_gather, run_scatter};
use crate::planning::{Prepared, prepare};
use crate::summary::{Summary, script_line, summary_line};
use arr_io::{NoMemory, Sink, WriteFault, write_all};
use arr_listing::total_lines;
use arr_ops::Op;
use arr_record::Part;
use arr_store::{Slots, Store};
use std::alloc::Global;

/// How a demo is planned (docs/DEMO.md, "What it prints").
const CHOICE: Choice = Choice {
    fuse: Fuse::Best,
    budget: 2000,
    listing: Listing::Quiet,
};

/// The lines of the arrays so far, and how many arrays these are.
#[derive(Debug, Drop)]
struct Totals {
    lines: Vec<u8>,
    count: u32,
}

/// Adds the array of an operation, if it is a SYNC.
fn add_slot(alloc: Global, op: &Op, slots: &Slots, totals: &mut Totals) -> Result<(), NoMemory>
    requires shows { (s : ℕ) → op.now.slot ≡ Some s → Shows op.now (slots_of slots.now s) }
    requires few { totals.old.count < 2 ^ 32 - 1 }
    ensures adds { OnOk result (Adds totals.old totals.new (shown_slot (slots_of slots.now) op.now)) }
    ensures few { OnOk result (totals.new.count ≤ totals.old.count + 1) }
{
    let Some(slot) = op.slot else {
        return Ok(());
    };
    let lines = total_lines(alloc, totals.count + 1, op, slot, slots)?;
    totals.lines.extend_from_slice(&lines)?;
    totals.count += 1;
    Ok(())
}

/// Adds the arrays of a list, in its order.
fn add_slots(alloc: Global, ops: &[Op], slots: &Slots, totals: &mut Totals) -> Result<(), NoMemory>
    requires shows { AllShow (slots_of slots.now) ops.now }
    requires few { totals.old.count + length ops.now ≤ 2 ^ 32 - 1 }
    ensures adds { OnOk result (Adds totals.old totals.new (shown_slots (slots_of slots.now) ops.now)) }
    ensures few { OnOk result (totals.new.count ≤ totals.old.count + length ops.now) }
{
    for op in ops {
        add_slot(alloc, op, slots, totals)?;
    }
    Ok(())
}

/// Runs a prepared list, and adds its arrays.
fn sum_prepared(
    alloc: Global,
    ops: &[Op],
    prepared: &Prepared,
    store: &mut Store,
    totals: &mut Totals,
) -> Result<(), NoMemory>
    requires normal { prepared.now.list.items ≡ normal_form ops.now }
    requires legal { is_legal (normal_form ops.now) prepared.now.planned.plan ≡ true }
    requires formed { is_formed ops.now ≡ true }
    requires fitting { fits (memory_of store.old) ops.now ≡ true }
    requires few { length ops.now ≤ 256 }
    requires counts { CountsBelow (2 ^ 60) store.old }
    requires few_arrays { totals.old.count ≤ 2 ^ 30 }
    ensures memory { OnOk result (memory_of store.new ≡ without_slots (eager (memory_of store.old) ops.now)) }
    ensures moved { OnOk result (Moves (normal_form ops.now) prepared.now.planned.plan store.old store.new) }
    ensures counts { OnOk result (RisesBy (2 ^ 32) store.old store.new) }
    ensures adds { OnOk result (Adds totals.old totals.new (printed (memory_of store.old) ops.now)) }
    ensures few_arrays { OnOk result (totals.new.count ≤ totals.old.count + 256) }
{
    let slots = run_list(alloc, ops, prepared, store)?;
    add_slots(alloc, &prepared.list, &slots, totals)?;
    Ok(())
}

/// Runs a list as the flush with this number, adds its arrays, and writes its line.
fn sum_flush<K: Sink>(
    alloc: Global,
    number: u32,
    ops: &[Op],
    store: &mut Store,
    totals: &mut Totals,
    sink: &mut K,
) -> Result<(), RunFault>
    requires formed { is_formed ops.now ≡ true }
    requires fitting { fits (memory_of store.old) ops.now ≡ true }
    requires few { length ops.now ≤ 256 }
    requires counts { CountsBelow (2 ^ 60) store.old }
    requires few_arrays { totals.old.count ≤ 2 ^ 30 }
    ensures wrote { OnOk result (PartSummed number (Flush ops.now) (K.written sink.old)
        (K.written sink.new) store.old store.new) }
    ensures memory { OnOk result (memory_of store.new ≡ without_slots (eager (memory_of store.old) ops.now)) }
    ensures counts { OnOk result (RisesBy (2 ^ 32) store.old store.new) }
    ensures adds { OnOk result (Adds totals.old totals.new (printed (memory_of store.old) ops.now)) }
    ensures few_arrays { OnOk result (totals.new.count ≤ totals.old.count + 256) }
    ensures cause { Caused (K.faults sink.old) (K.faults sink.new) result }
    ensures cut { OnWriteFault result (PartCut number (Flush ops.now) (K.written sink.old) (K.written sink.new)) }
    ensures broke { OnNoMemory result (Appends (K.written sink.old) (K.written sink.new) []) }
{
    let Ok(prepared) = prepare(alloc, CHOICE, number, ops) else {
        return Err(RunFault::NoMemory);
    };
    let (loads, stores, made) = (store.loads(), store.stores(), store.made());
    let Ok(()) = sum_prepared(alloc, ops, &prepared, store, totals) else {
        return Err(RunFault::NoMemory);
    };
    let summary = Summary {
        number,
        recorded: ops.len() as u32,
        rewritten: prepared.list.len() as u32,
        blocks: block_count(&prepared.planned.plan),
        cost: prepared.cost,
        bound: prepared.planned.bound.unwrap_or(0),
        units: prepared.planned.units,
        loads: store.loads() - loads,
        stores: store.stores() - stores,
        made: store.made() - made,
    };
    let Ok(line) = summary_line(alloc, summary) else {
        return Err(RunFault::NoMemory);
    };
    match write_all(sink, &line) {
        Ok(()) => Ok(()),
        Err(WriteFault) => Err(RunFault::WriteFault),
    }
}

/// Runs a part: a list is a flush with this number, a gather or scatter writes nothing.
fn sum_part<K: Sink>(
    alloc: Global,
    number: u32,
    part: &Part,
    store: &mut Store,
    totals: &mut Totals,
    sink: &mut K,
) -> Result<(), RunFault>
    requires part { is_part part.now ≡ true }
    requires fitting { part_fits (memory_of store.old) part.now ≡ true }
    requires counts { CountsBelow (2 ^ 60) store.old }
    requires few_arrays { totals.old.count ≤ 2 ^ 30 }
    ensures wrote { OnOk result (PartSummed number part.now (K.written sink.old)
        (K.written sink.new) store.old store.new) }
    ensures memory { OnOk result (memory_of store.new ≡ after_part (memory_of store.old) part.now) }
    ensures counts { OnOk result (RisesBy (2 ^ 32) store.old store.new) }
    ensures adds { OnOk result (Adds totals.old totals.new (printed_part (memory_of store.old) part.now)) }
    ensures few_arrays { OnOk result (totals.new.count ≤ totals.old.count + 256) }
    ensures cause { Caused (K.faults sink.old) (K.faults sink.new) result }
    ensures cut { OnWriteFault result (PartCut number part.now (K.written sink.old) (K.written sink.new)) }
    ensures broke { OnNoMemory result (Appends (K.written sink.old) (K.written sink.new) []) }
{
    match part {
        Part::Flush(ops) => sum_flush(alloc, number, ops.list(), store, totals, sink),
        Part::Gather(op) => run_gather(alloc, op, store),
        Part::Scatter(op) => run_scatter(alloc, op, store),
    }
}

/// Runs parts one after another, the flushes having the numbers from 1 on.
fn sum_parts<K: Sink>(
    alloc: Global,
    parts: &[Part],
    store: &mut Store,
    totals: &mut Totals,
    sink: &mut K,
) -> Result<(), RunFault>
    requires each { list_all is_part parts.now ≡ true }
    requires fitting { each_fits (memory_of store.old) parts.now ≡ true }
    requires few { length parts.now ≤ 4_194_304 }
    requires counts { CountsBelow (2 ^ 59) store.old }
    requires none { totals.old.count ≡ 0 }
    ensures wrote { OnOk result (PartsSummed parts.now (K.written sink.old) (K.written sink.new) store.old store.new) }
    ensures memory { OnOk result (memory_of store.new ≡ after_parts (memory_of store.old) parts.now) }
    ensures adds { OnOk result (Adds totals.old totals.new (printed_parts (memory_of store.old) parts.now)) }
    ensures cause { Caused (K.faults sink.old) (K.faults sink.new) result }
    ensures cut { OnWriteFault result (PartsCut parts.now (K.written sink.old) (K.written sink.new)) }
    ensures broke { OnNoMemory result (PartsBroke parts.now (K.written sink.old) (K.written sink.new)) }
{
    let mut number = 1;
    for part in parts {
        sum_part(alloc, number, part, store, totals, sink)?;
        number = number_behind(part, number);
    }
    Ok(())
}

/// Runs the parts of a script, and writes the script's size, the line of each flush, and behind them the arrays with their sums.
pub(crate) fn run_demo<K: Sink>(
    alloc: Global,
    script: &[u8],
    parts: &[Part],
    store: &mut Store,
    sink: &mut K,
) -> Result<(), RunFault>
    requires each { list_all is_part parts.now ≡ true }
    requires fitting { each_fits (memory_of store.old) parts.now ≡ true }
    requires few { length parts.now ≤ 4_194_304 }
    requires counts { CountsBelow (2 ^ 59) store.old }
    ensures wrote { OnOk result (WritesDemo K.Sink script.now parts.now sink.old sink.new store.old store.new) }
    ensures memory { OnOk result (memory_of store.new ≡ after_parts (memory_of store.old) parts.now) }
    ensures cause { Caused (K.faults sink.old) (K.faults sink.new) result }
    ensures cut { OnWriteFault result (CutsDemo K.Sink script.now parts.now sink.old sink.new store.old) }
    ensures broke { OnNoMemory result (BreaksDemo K.Sink script.now parts.now sink.old sink.new store.old) }
{
    let Ok(line) = script_line(alloc, script) else {
        return Err(RunFault::NoMemory);
    };
    let Ok(()) = write_all(sink, &line) else {
        return Err(RunFault::WriteFault);
    };
    let mut totals = Totals {
        lines: Vec::new(alloc),
        count: 0,
    };
    sum_parts(alloc, parts, store, &mut totals, sink)?;
    match write_all(sink, &totals.lines) {
        Ok(()) => Ok(()),
        Err(WriteFault) => Err(RunFault::WriteFault),
    }
}
