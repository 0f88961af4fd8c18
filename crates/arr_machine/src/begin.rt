//! Where the folds of a block begin.
ghost use Rattle.std.specs.Prelude.{◌≡◌, ◌+◌, ◌*◌, ◌<◌, ◌≤◌, length, pos, true};
ghost use Rattle.arr_num.specs.declared.elem.Elem.{Elem};
ghost use Rattle.arr_num.specs.Kinds.{is_fold};
ghost use Rattle.arr_num.specs.Numbers.{fold_start as start_of};
ghost use Rattle.arr_ops.specs.Formed.{each_typed};
ghost use Rattle.arr_ops.specs.Traffic.{scratch};
ghost use Rattle.arr_ops.specs.declared.op.Op.{Op};
ghost use Rattle.arr_strips.specs.Blocks.{is_block};
ghost use Rattle.arr_sums.specs.Kept.{StepsEach};
ghost use Rattle.arr_machine.specs.Kept.{StartsBelow, StartsFolds, TypedKept};
ghost use Rattle.arr_machine.specs.Tasks.{AreTasks, IsTaskAt};

use crate::task::{Along, Task};
use arr_num::fold_start;
use arr_ops::Op;
use arr_store::Buffer;

/// Sets the numbers that a block keeps to zeros.
fn clear(numbers: &mut [i128])
    ensures { StepsEach Elem.I64 (λ _ _. pos 0) numbers.old (λ _. pos 0) 0 (length numbers.old) numbers.new }
{
    for i in 0..numbers.len() {
        numbers[i] = 0;
    }
}

/// Sets the accumulators of a reduction to the start of its fold.
fn start_fold(along: Along, numbers: &mut [i128])
    requires code { is_fold along.code ≡ true }
    requires there { along.kept + along.axis.outer * along.axis.inner ≤ length numbers.old }
    ensures { StepsEach along.elem (λ sum x. start_of along.code along.elem) numbers.old (λ j. pos 0) along.kept
        (along.axis.outer * along.axis.inner) numbers.new }
{
    let start = fold_start(along.code, along.elem);
    for i in 0..along.axis.outer * along.axis.inner {
        numbers[along.kept + i] = start;
    }
}

/// Sets the accumulators of an operation that is a reduction to the start of its fold.
fn start_task(
    _ops: &[Op],
    _index: usize,
    task: Task,
    _lanes: &[Buffer],
    numbers: &mut [i128],
    _room: usize,
)
    requires block { is_block _ops.now ≡ true }
    requires types { each_typed _ops.now ≡ true }
    requires there { _index < length _ops.now }
    requires task { IsTaskAt _ops.now _room _lanes.now _index task }
    requires long { length numbers.old ≡ scratch _ops.now }
    requires kept { TypedKept _ops.now numbers.old }
    requires starts { StartsBelow _ops.now _index numbers.old }
    ensures long { length numbers.new ≡ length numbers.old }
    ensures kept { TypedKept _ops.now numbers.new }
    ensures starts { StartsBelow _ops.now (_index + 1) numbers.new }
{
    match task {
        Task::Fold(along) => start_fold(along, numbers),
        Task::Line(_line) | Task::Link(_line) => {}
        Task::Scan(_along, _dest) => {}
        Task::Show(_slot, _lane) => {}
        Task::Nothing => {}
    }
}

/// Sets the accumulators of the reductions of a block to the starts of their folds.
fn start_folds(ops: &[Op], tasks: &[Task], lanes: &[Buffer], numbers: &mut [i128], room: usize)
    requires block { is_block ops.now ≡ true }
    requires types { each_typed ops.now ≡ true }
    requires tasks { AreTasks ops.now room lanes.now tasks.now }
    requires long { length numbers.old ≡ scratch ops.now }
    requires kept { TypedKept ops.now numbers.old }
    ensures long { length numbers.new ≡ length numbers.old }
    ensures kept { TypedKept ops.now numbers.new }
    ensures starts { StartsFolds ops.now numbers.new }
{
    for (index, task) in tasks.iter().enumerate() {
        start_task(ops, index, *task, lanes, numbers, room);
    }
}

/// Sets the numbers that a block keeps to where its folds begin (docs/PLANS.md, "Running a block"). It takes no memory.
pub fn begin_folds(ops: &[Op], lanes: &[Buffer], tasks: &[Task], numbers: &mut [i128], room: usize)
    requires block { is_block ops.now ≡ true }
    requires types { each_typed ops.now ≡ true }
    requires tasks { AreTasks ops.now room lanes.now tasks.now }
    requires long { length numbers.old ≡ scratch ops.now }
    ensures long { length numbers.new ≡ length numbers.old }
    ensures kept { TypedKept ops.now numbers.new }
    ensures starts { StartsFolds ops.now numbers.new }
{
    clear(numbers);
    start_folds(ops, tasks, lanes, numbers, room);
}
