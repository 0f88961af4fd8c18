//! Reductions and scans over a strip.
ghost use Rattle.std.specs.Prelude.{◌≡◌, ◌+◌, ◌<◌, ◌≤◌, length};
ghost use Rattle.arr_ops.specs.declared.op.Op.{Op};
ghost use Rattle.arr_store.specs.Stored.{cells};
ghost use Rattle.arr_lanes.specs.Spares.{HasRoom};
ghost use Rattle.arr_machine.specs.Standing.{Computes, IsStripOf, ReadyAt};
ghost use Rattle.arr_machine.specs.Tasks.{IsTaskAt, Steady};

use crate::task::{Along, Task};
use arr_lanes::{Lane, Place, Spares, Strip, numbers_of, put};
use arr_num::{Elem, fold_start};
use arr_ops::Op;
use arr_store::{Buffer, Store};
use arr_sums::{fold_strip, scan_strip};

/// A reduction folds the lane of its input into its accumulators.
pub(crate) fn fold_lane(
    ops: &[Op],
    index: usize,
    along: Along,
    lanes: &[Buffer],
    places: &[Option<Place>],
    store: &Store,
    numbers: &mut [i128],
    strip: Strip,
)
    requires strip { IsStripOf ops.now strip.position strip.count strip.room }
    requires there { index < length ops.now }
    requires task { IsTaskAt ops.now strip.room lanes.now index (Task.Fold along) }
    requires ready { ReadyAt ops.now strip lanes.now places.now (cells store.now) numbers.old }
    ensures stands { Computes ops.now strip places.now (cells store.now) index (index + 1) lanes.now numbers.old lanes.now numbers.new }
    ensures ready { ReadyAt ops.now strip lanes.now places.now (cells store.now) numbers.new }
{
    match along.elem {
        Elem::U8 => fold_typed::<u8>(ops, index, along, lanes, places, store, numbers, strip),
        Elem::I32 => fold_typed::<i32>(ops, index, along, lanes, places, store, numbers, strip),
        Elem::I64 => fold_typed::<i64>(ops, index, along, lanes, places, store, numbers, strip),
        Elem::U64 => fold_typed::<u64>(ops, index, along, lanes, places, store, numbers, strip),
    }
}

/// A reduction of the type `T`.
fn fold_typed<T: Lane>(
    _ops: &[Op],
    _index: usize,
    along: Along,
    lanes: &[Buffer],
    places: &[Option<Place>],
    store: &Store,
    numbers: &mut [i128],
    strip: Strip,
)
    requires strip { IsStripOf _ops.now strip.position strip.count strip.room }
    requires there { _index < length _ops.now }
    requires task { IsTaskAt _ops.now strip.room lanes.now _index (Task.Fold along) }
    requires ready { ReadyAt _ops.now strip lanes.now places.now (cells store.now) numbers.old }
    requires elem { along.elem ≡ T.elem }
    ensures stands { Computes _ops.now strip places.now (cells store.now) _index (_index + 1) lanes.now numbers.old lanes.now numbers.new }
    ensures ready { ReadyAt _ops.now strip lanes.now places.now (cells store.now) numbers.new }
{
    let source: &[T] = numbers_of(lanes, places, store, along.source, strip);
    fold_strip(
        along.code,
        numbers,
        along.kept,
        source,
        strip.position as usize,
        strip.count,
        along.axis,
    );
}

/// A scan puts the folds of the lane of its input into a lane.
pub(crate) fn scan_lane(
    ops: &[Op],
    index: usize,
    along: Along,
    dest: u32,
    lanes: &mut [Buffer],
    places: &[Option<Place>],
    store: &Store,
    spares: &mut Spares,
    numbers: &mut [i128],
    strip: Strip,
)
    requires strip { IsStripOf ops.now strip.position strip.count strip.room }
    requires there { index < length ops.now }
    requires task { IsTaskAt ops.now strip.room lanes.old index (Task.Scan along dest) }
    requires ready { ReadyAt ops.now strip lanes.old places.now (cells store.now) numbers.old }
    requires spares { HasRoom strip.room spares.old }
    ensures stands { Computes ops.now strip places.now (cells store.now) index (index + 1) lanes.old numbers.old lanes.new numbers.new }
    ensures ready { ReadyAt ops.now strip lanes.new places.now (cells store.now) numbers.new }
    ensures steady { Steady ops.now strip.room lanes.old lanes.new }
    ensures spares { HasRoom strip.room spares.new }
{
    match along.elem {
        Elem::U8 => scan_typed(
            ops,
            index,
            along,
            dest,
            lanes,
            places,
            store,
            &mut spares.bytes,
            numbers,
            strip,
        ),
        Elem::I32 => scan_typed(
            ops,
            index,
            along,
            dest,
            lanes,
            places,
            store,
            &mut spares.words,
            numbers,
            strip,
        ),
        Elem::I64 => scan_typed(
            ops,
            index,
            along,
            dest,
            lanes,
            places,
            store,
            &mut spares.longs,
            numbers,
            strip,
        ),
        Elem::U64 => scan_typed(
            ops,
            index,
            along,
            dest,
            lanes,
            places,
            store,
            &mut spares.naturals,
            numbers,
            strip,
        ),
    }
}

/// A scan of the type `T`.
fn scan_typed<T: Lane>(
    _ops: &[Op],
    _index: usize,
    along: Along,
    dest: u32,
    lanes: &mut [Buffer],
    places: &[Option<Place>],
    store: &Store,
    spare: &mut Vec<T>,
    numbers: &mut [i128],
    strip: Strip,
)
    requires strip { IsStripOf _ops.now strip.position strip.count strip.room }
    requires there { _index < length _ops.now }
    requires task { IsTaskAt _ops.now strip.room lanes.old _index (Task.Scan along dest) }
    requires ready { ReadyAt _ops.now strip lanes.old places.now (cells store.now) numbers.old }
    requires spare { strip.room ≤ length spare.old.items }
    requires elem { along.elem ≡ T.elem }
    ensures stands { Computes _ops.now strip places.now (cells store.now) _index (_index + 1) lanes.old numbers.old lanes.new numbers.new }
    ensures ready { ReadyAt _ops.now strip lanes.new places.now (cells store.now) numbers.new }
    ensures steady { Steady _ops.now strip.room lanes.old lanes.new }
    ensures spare { strip.room ≤ length spare.new.items }
{
    let start = T::narrow(fold_start(along.code, along.elem));
    let source: &[T] = numbers_of(lanes, places, store, along.source, strip);
    scan_strip(
        along.code,
        spare.as_mut_slice(),
        numbers,
        along.kept,
        source,
        start,
        strip.position as usize,
        strip.count,
        along.axis,
    );
    put(lanes, dest, spare, strip);
}
