//! The operations of a block, one after another, at one strip.
ghost use Rattle.std.specs.Prelude.{◌≡◌, ◌+◌, ◌<◌, ◌≤◌, get_or, length};
ghost use Rattle.arr_ops.specs.declared.op.Op.{Op};
ghost use Rattle.arr_store.specs.Slots.{slots_of};
ghost use Rattle.arr_store.specs.Stored.{cells};
ghost use Rattle.arr_lanes.specs.Spares.{HasRoom};
ghost use Rattle.arr_machine.specs.Chains.{IsSumAt, additions};
ghost use Rattle.arr_machine.specs.Shown.{SlotsMatch};
ghost use Rattle.arr_machine.specs.Standing.{Computes, GoesOn, IsStripOf, ReadyAt};
ghost use Rattle.arr_machine.specs.Tasks.{AreTasks, IsLine, IsTaskAt, Steady};

use crate::chain::{additions, sum_at};
use crate::folds::{fold_lane, scan_lane};
use crate::task::Task;
use arr_lanes::{Line, Place, Spares, Strip, Sum, run_line, run_sum};
use arr_ops::Op;
use arr_store::{Buffer, Run, Slots, Store};

/// An element-wise operation computes its lane.
fn compute_lane(
    _ops: &[Op],
    _index: usize,
    line: Line,
    lanes: &mut [Buffer],
    places: &[Option<Place>],
    store: &Store,
    spares: &mut Spares,
    _numbers: &[i128],
    strip: Strip,
)
    requires strip { IsStripOf _ops.now strip.position strip.count strip.room }
    requires there { _index < length _ops.now }
    requires task { (op : Op) → op ≡ get_or _ops.now _index op
        → IsLine _ops.now strip.room lanes.old op line }
    requires ready { ReadyAt _ops.now strip lanes.old places.now (cells store.now) _numbers.now }
    requires spares { HasRoom strip.room spares.old }
    ensures stands { Computes _ops.now strip places.now (cells store.now) _index (_index + 1) lanes.old _numbers.now lanes.new _numbers.now }
    ensures ready { ReadyAt _ops.now strip lanes.new places.now (cells store.now) _numbers.now }
    ensures steady { Steady _ops.now strip.room lanes.old lanes.new }
    ensures spares { HasRoom strip.room spares.new }
{
    run_line(line, lanes, places, store, spares, strip);
}

/// Additions that follow one another compute the lane of the last one.
fn compute_sum(
    _ops: &[Op],
    _index: usize,
    sum: Sum,
    _tasks: &[Task],
    lanes: &mut [Buffer],
    places: &[Option<Place>],
    store: &Store,
    spares: &mut Spares,
    _numbers: &[i128],
    strip: Strip,
)
    requires strip { IsStripOf _ops.now strip.position strip.count strip.room }
    requires tasks { AreTasks _ops.now strip.room lanes.old _tasks.now }
    requires sum { IsSumAt _tasks.now _index sum }
    requires ready { ReadyAt _ops.now strip lanes.old places.now (cells store.now) _numbers.now }
    requires spares { HasRoom strip.room spares.old }
    ensures stands { Computes _ops.now strip places.now (cells store.now) _index (_index + additions sum) lanes.old _numbers.now lanes.new _numbers.now }
    ensures ready { ReadyAt _ops.now strip lanes.new places.now (cells store.now) _numbers.now }
    ensures steady { Steady _ops.now strip.room lanes.old lanes.new }
    ensures spares { HasRoom strip.room spares.new }
{
    run_sum(sum, lanes, places, store, spares, strip);
}

/// A SYNC puts the lane of its input into its slot.
fn show_lane(
    _ops: &[Op],
    _index: usize,
    slot: u32,
    lane: u32,
    lanes: &[Buffer],
    _places: &[Option<Place>],
    _store: &Store,
    slots: &mut Slots,
    _numbers: &[i128],
    strip: Strip,
)
    requires strip { IsStripOf _ops.now strip.position strip.count strip.room }
    requires there { _index < length _ops.now }
    requires task { IsTaskAt _ops.now strip.room lanes.now _index (Task.Show slot lane) }
    requires ready { ReadyAt _ops.now strip lanes.now _places.now (cells _store.now) _numbers.now }
    requires slots { SlotsMatch _ops.now (slots_of slots.old) }
    ensures stands { GoesOn _ops.now strip _places.now (cells _store.now) _index (_index + 1) lanes.now _numbers.now slots.old lanes.now _numbers.now slots.new }
    ensures slots { SlotsMatch _ops.now (slots_of slots.new) }
{
    let run = Run {
        start: strip.position as u32,
        stride: 1,
        count: strip.count,
    };
    slots.put_run(slot, run, &lanes[lane as usize], 0);
}

/// The operation of a block with an index runs at a strip.
fn run_task(
    ops: &[Op],
    index: usize,
    task: Task,
    lanes: &mut [Buffer],
    places: &[Option<Place>],
    store: &Store,
    spares: &mut Spares,
    numbers: &mut [i128],
    slots: &mut Slots,
    strip: Strip,
)
    requires strip { IsStripOf ops.now strip.position strip.count strip.room }
    requires there { index < length ops.now }
    requires task { IsTaskAt ops.now strip.room lanes.old index task }
    requires ready { ReadyAt ops.now strip lanes.old places.now (cells store.now) numbers.old }
    requires spares { HasRoom strip.room spares.old }
    requires slots { SlotsMatch ops.now (slots_of slots.old) }
    ensures stands { GoesOn ops.now strip places.now (cells store.now) index (index + 1) lanes.old numbers.old slots.old lanes.new numbers.new slots.new }
    ensures ready { ReadyAt ops.now strip lanes.new places.now (cells store.now) numbers.new }
    ensures steady { Steady ops.now strip.room lanes.old lanes.new }
    ensures spares { HasRoom strip.room spares.new }
    ensures slots { SlotsMatch ops.now (slots_of slots.new) }
{
    match task {
        Task::Line(line) | Task::Link(line) => {
            compute_lane(
                ops, index, line, lanes, places, store, spares, numbers, strip,
            )
        }
        Task::Scan(along, dest) => {
            scan_lane(
                ops, index, along, dest, lanes, places, store, spares, numbers, strip,
            )
        }
        Task::Fold(along) => fold_lane(ops, index, along, lanes, places, store, numbers, strip),
        Task::Show(slot, lane) => show_lane(
            ops, index, slot, lane, lanes, places, store, slots, numbers, strip,
        ),
        Task::Nothing => {}
    }
}

/// The operations of a block from an index on run at a strip: those that add up several lanes at once, or the one with the index alone. The
/// result is the index of the next one.
fn run_next(
    ops: &[Op],
    index: usize,
    tasks: &[Task],
    lanes: &mut [Buffer],
    places: &[Option<Place>],
    store: &Store,
    spares: &mut Spares,
    numbers: &mut [i128],
    slots: &mut Slots,
    strip: Strip,
) -> usize
    requires strip { IsStripOf ops.now strip.position strip.count strip.room }
    requires there { index < length ops.now }
    requires tasks { AreTasks ops.now strip.room lanes.old tasks.now }
    requires ready { ReadyAt ops.now strip lanes.old places.now (cells store.now) numbers.old }
    requires spares { HasRoom strip.room spares.old }
    requires slots { SlotsMatch ops.now (slots_of slots.old) }
    ensures behind { index < result }
    ensures inside { result ≤ length ops.now }
    ensures stands { GoesOn ops.now strip places.now (cells store.now) index result lanes.old numbers.old slots.old lanes.new numbers.new slots.new }
    ensures ready { ReadyAt ops.now strip lanes.new places.now (cells store.now) numbers.new }
    ensures steady { Steady ops.now strip.room lanes.old lanes.new }
    ensures spares { HasRoom strip.room spares.new }
    ensures slots { SlotsMatch ops.now (slots_of slots.new) }
{
    let Some(sum) = sum_at(tasks, index) else {
        let task = tasks[index];
        run_task(
            ops, index, task, lanes, places, store, spares, numbers, slots, strip,
        );
        return index + 1;
    };
    compute_sum(
        ops, index, sum, tasks, lanes, places, store, spares, numbers, strip,
    );
    index + additions(sum)
}

/// The operations of a block run at a strip of its positions, one after another: each computes its lane, folds into the numbers that the
/// block keeps, or shows its input (docs/PLANS.md, "Running a block"). It takes no memory.
pub fn run_tasks(
    ops: &[Op],
    tasks: &[Task],
    lanes: &mut [Buffer],
    places: &[Option<Place>],
    store: &Store,
    spares: &mut Spares,
    numbers: &mut [i128],
    slots: &mut Slots,
    strip: Strip,
)
    requires strip { IsStripOf ops.now strip.position strip.count strip.room }
    requires tasks { AreTasks ops.now strip.room lanes.old tasks.now }
    requires ready { ReadyAt ops.now strip lanes.old places.now (cells store.now) numbers.old }
    requires spares { HasRoom strip.room spares.old }
    requires slots { SlotsMatch ops.now (slots_of slots.old) }
    ensures stands { GoesOn ops.now strip places.now (cells store.now) 0 (length ops.now) lanes.old numbers.old slots.old lanes.new numbers.new slots.new }
    ensures ready { ReadyAt ops.now strip lanes.new places.now (cells store.now) numbers.new }
    ensures steady { Steady ops.now strip.room lanes.old lanes.new }
    ensures spares { HasRoom strip.room spares.new }
    ensures slots { SlotsMatch ops.now (slots_of slots.new) }
{
    let mut index = 0;
    while index < tasks.len() {
        index = run_next(
            ops, index, tasks, lanes, places, store, spares, numbers, slots, strip,
        );
    }
}
