//! Parts that run on the store one after another.
ghost use Rattle.std.specs.Prelude.{◌≡◌, ◌≤◌, ◌<◌, ◌-◌, ◌^◌, true, OnOk, length};
ghost use Rattle.std.specs.List.{list_all};
ghost use Rattle.arr_ops.specs.Fits.{fits};
ghost use Rattle.arr_ops.specs.Formed.{is_formed};
ghost use Rattle.arr_ops.specs.Memory.{eager, without_slots};
ghost use Rattle.arr_record.specs.declared.part.Part.TheVariants.{Flush};
ghost use Rattle.arr_ops.specs.Gathers.{gather_fits, gathered, is_gather, is_scatter, scatter_fits, scattered};
ghost use Rattle.arr_record.specs.Runs.{after_part, after_parts, each_fits, is_part, part_fits};
ghost use Rattle.arr_store.specs.Stored.{memory_of};
ghost use Rattle.arr_run.specs.Parts.{BreaksPart, BreaksParts, Caused, CountsBelow, OnNoMemory, OnWriteFault, RisesBy, StopsPart, StopsParts, WritesPart, WritesParts};
ghost use Rattle.arr_run.specs.Pieces.{Rises, gather_rise, number_behind, scatter_rise};

use crate::choice::Choice;
use crate::flush::{RunFault, flush_once};
use arr_gather::{gather, scatter};
use arr_io::{NoMemory, Sink};
use arr_ops::{Gather, Op, Scatter};
use arr_record::Part;
use arr_store::Store;
use std::alloc::Global;

/// Runs a gather.
pub(crate) fn run_gather(alloc: Global, op: &Gather, store: &mut Store) -> Result<(), RunFault>
    requires lawful { is_gather op.now ≡ true }
    requires fitting { gather_fits (memory_of store.old) op.now ≡ true }
    requires counts { CountsBelow (2 ^ 60) store.old }
    ensures memory { OnOk result (memory_of store.new ≡ gathered (memory_of store.old) op.now) }
    ensures rises { OnOk result (Rises (gather_rise op.now) store.old store.new) }
    ensures counts { OnOk result (RisesBy (2 ^ 32) store.old store.new) }
    ensures silent { OnWriteFault result ⊥ }
{
    match gather(alloc, op, store) {
        Ok(()) => Ok(()),
        Err(NoMemory) => Err(RunFault::NoMemory),
    }
}

/// Runs a scatter.
pub(crate) fn run_scatter(alloc: Global, op: &Scatter, store: &mut Store) -> Result<(), RunFault>
    requires lawful { is_scatter op.now ≡ true }
    requires fitting { scatter_fits (memory_of store.old) op.now ≡ true }
    requires counts { CountsBelow (2 ^ 60) store.old }
    ensures memory { OnOk result (memory_of store.new ≡ scattered (memory_of store.old) op.now) }
    ensures rises { OnOk result (Rises (scatter_rise op.now) store.old store.new) }
    ensures counts { OnOk result (RisesBy (2 ^ 32) store.old store.new) }
    ensures silent { OnWriteFault result ⊥ }
{
    match scatter(alloc, op, store) {
        Ok(()) => Ok(()),
        Err(NoMemory) => Err(RunFault::NoMemory),
    }
}

/// The number of the next flush behind a part.
pub(crate) fn number_behind(part: &Part, number: u32) -> u32
    requires { number < 2 ^ 32 - 1 }
    ensures { result ≡ number_behind part.now number }
{
    match part {
        Part::Flush(_) => number + 1,
        Part::Gather(_) => number,
        Part::Scatter(_) => number,
    }
}

/// Runs a list as the flush with this number.
fn run_flush<K: Sink>(
    alloc: Global,
    choice: Choice,
    number: u32,
    ops: &[Op],
    store: &mut Store,
    sink: &mut K,
) -> Result<(), RunFault>
    requires formed { is_formed ops.now ≡ true }
    requires fitting { fits (memory_of store.old) ops.now ≡ true }
    requires few { length ops.now ≤ 256 }
    requires counts { CountsBelow (2 ^ 60) store.old }
    ensures wrote { OnOk result (WritesPart K.Sink choice number (Flush ops.now)
        sink.old sink.new store.old store.new) }
    ensures cause { Caused (K.faults sink.old) (K.faults sink.new) result }
    ensures memory { OnOk result (memory_of store.new ≡ without_slots (eager (memory_of store.old) ops.now)) }
    ensures counts { OnOk result (RisesBy (2 ^ 32) store.old store.new) }
    ensures stopped { OnWriteFault result (StopsPart K.Sink choice number (Flush ops.now)
        sink.old sink.new store.old store.new) }
    ensures broke { OnNoMemory result (BreaksPart K.Sink choice number (Flush ops.now) sink.old sink.new store.old) }
{
    flush_once(alloc, store, number, ops, choice, sink)?;
    Ok(())
}

/// Runs a part: a list is a flush with this number, a gather or scatter writes nothing.
fn run_part<K: Sink>(
    alloc: Global,
    choice: Choice,
    number: u32,
    part: &Part,
    store: &mut Store,
    sink: &mut K,
) -> Result<(), RunFault>
    requires part { is_part part.now ≡ true }
    requires fitting { part_fits (memory_of store.old) part.now ≡ true }
    requires counts { CountsBelow (2 ^ 60) store.old }
    ensures wrote { OnOk result (WritesPart K.Sink choice number part.now sink.old sink.new store.old store.new) }
    ensures cause { Caused (K.faults sink.old) (K.faults sink.new) result }
    ensures memory { OnOk result (memory_of store.new ≡ after_part (memory_of store.old) part.now) }
    ensures counts { OnOk result (RisesBy (2 ^ 32) store.old store.new) }
    ensures stopped { OnWriteFault result (StopsPart K.Sink choice number part.now
        sink.old sink.new store.old store.new) }
    ensures broke { OnNoMemory result (BreaksPart K.Sink choice number part.now sink.old sink.new store.old) }
{
    match part {
        Part::Flush(ops) => run_flush(alloc, choice, number, ops.list(), store, sink),
        Part::Gather(op) => run_gather(alloc, op, store),
        Part::Scatter(op) => run_scatter(alloc, op, store),
    }
}

/// Runs parts one after another, the flushes having the numbers from 1 on.
pub(crate) fn run_parts<K: Sink>(
    alloc: Global,
    choice: Choice,
    parts: &[Part],
    store: &mut Store,
    sink: &mut K,
) -> Result<(), RunFault>
    requires each { list_all is_part parts.now ≡ true }
    requires fitting { each_fits (memory_of store.old) parts.now ≡ true }
    requires few { length parts.now ≤ 4_194_304 }
    requires counts { CountsBelow (2 ^ 59) store.old }
    ensures wrote { OnOk result (WritesParts K.Sink choice parts.now sink.old sink.new store.old store.new) }
    ensures cause { Caused (K.faults sink.old) (K.faults sink.new) result }
    ensures memory { OnOk result (memory_of store.new ≡ after_parts (memory_of store.old) parts.now) }
    ensures stopped { OnWriteFault result (StopsParts K.Sink choice parts.now sink.old sink.new store.old store.new) }
    ensures broke { OnNoMemory result (BreaksParts K.Sink choice parts.now sink.old sink.new store.old) }
{
    let mut number = 1;
    for part in parts {
        run_part(alloc, choice, number, part, store, sink)?;
        number = number_behind(part, number);
    }
    Ok(())
}
