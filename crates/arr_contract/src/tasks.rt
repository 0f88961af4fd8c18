//! The task of each operation of a block.
ghost use Rattle.std.specs.Prelude.{◌≡◌, ◌+◌, ◌*◌, ◌<◌, ◌≤◌, IfOk, Some, drop, get_or, length, map, nat_le, pos, suc, take, false, true};
ghost use Rattle.std.specs.List.{flat_map, list_all};
ghost use Rattle.arr_num.specs.Kinds.{is_element_wise, is_fold};
ghost use Rattle.arr_view.specs.Views.{most_elements, positions};
ghost use Rattle.arr_ops.specs.Formed.{each_typed, well_formed};
ghost use Rattle.arr_ops.specs.Memory.{or_zero};
ghost use Rattle.arr_ops.specs.Ops.{inputs, view_of};
ghost use Rattle.arr_store.specs.Buffers.{cell_of};
ghost use Rattle.arr_strips.specs.Registers.{number_in, register_views};
ghost use Rattle.arr_strips.specs.Strips.{loaded};
ghost use Rattle.arr_machine.specs.Kept.{kept_from};
ghost use Rattle.arr_machine.specs.Tasks.{AreTasks, IsAlongAt, IsTask, Stands, WorkOf};
ghost use Rattle.arr_contract.specs.Making.{IsExponent, kept_second, lane_cells, operand_lane};
ghost use Rattle.arr_machine.specs.Needed.{needed};
ghost use Rattle.arr_ops.specs.declared.op.Op.{Op};

use crate::NoMemory;
use crate::contracted::frees;
use crate::scratch::kept_for;
use arr_lanes::{Line, Work};
use arr_machine::{Along, Task};
use arr_num::Code;
use arr_ops::{Op, Operand, array_view};
use arr_overlap::identical;
use arr_store::Buffer;
use arr_sums::Axis;
use arr_view::View;
use std::alloc::Global;

/// The place of the first view in a list that is identical to another; how many there are, where none is.
pub(crate) fn number_in(views: &[View], view: &View) -> u64
    ensures { result ≡ number_in views.now view.now }
{
    let mut at = 0;
    for other in views {
        if identical(other, view) {
            return at;
        }
        at += 1;
    }
    at
}

/// The lane of an operand: the register of a view, that of a constant, or another where there is none.
fn lane_of(views: &[View], operand: &Option<Operand>, constant: u32, other: u32) -> u32
    requires { length views.now ≤ 768 }
    ensures { result ≡ operand_lane views.now constant other operand.now }
{
    match operand {
        Some(Operand::Array(view)) => number_in(views, view) as u32,
        Some(Operand::Number(_)) => constant,
        None => other,
    }
}

/// The exponent of POWER.
fn exponent_of(operand: &Option<Operand>) -> u64
    requires { IsExponent operand.now }
    ensures { operand.now ≡ Some (Operand.Number (pos result)) }
{
    match operand {
        Some(Operand::Number(number)) => *number as u64,
        _ => unreachable!(),
    }
}

/// The lane of the second operand of an operation; an exponent has none.
fn second_lane_of(views: &[View], op: &Op, constant: u32, other: u32) -> u32
    requires { length views.now ≤ 768 }
    ensures { result ≡ operand_lane views.now constant other (kept_second op.now.code op.now.second) }
{
    match op.code {
        Code::Power => other,
        _ => lane_of(views, &op.second, constant, other),
    }
}

/// What an element-wise operation computes, from the lanes of its operands.
fn work_of(_ops: &[Op], _lanes: &[Buffer], op: &Op, first: u32, second: u32, _room: usize) -> Work
    requires well { well_formed op.now ≡ true }
    requires code { is_element_wise op.now.code ≡ true }
    requires first { Stands _ops.now _room _lanes.now op.now.from op.now.first first }
    requires second { Stands _ops.now _room _lanes.now op.now.from (kept_second op.now.code op.now.second) second }
    ensures { WorkOf _ops.now _room _lanes.now op.now result }
{
    match op.code {
        Code::Power => Work::Power(first, exponent_of(&op.second)),
        Code::Identity => Work::Conversion(op.from, first),
        Code::Range => Work::Positions,
        Code::Equal
        | Code::NotEqual
        | Code::Less
        | Code::LessEqual
        | Code::Greater
        | Code::GreaterEqual => Work::Comparison(op.code, op.from, first, second),
        _ => Work::Arithmetic(op.code, first, second),
    }
}

/// How many positions some lengths have.
fn product(lengths: &[u32]) -> usize
    requires each { list_all (nat_le 1) lengths.now ≡ true }
    requires few { positions lengths.now ≤ most_elements }
    ensures { result ≡ positions lengths.now }
{
    let mut count = 1;
    for length in lengths {
        count *= *length as usize;
    }
    count
}

/// An axis of a view.
fn axis_at(view: &View, axis: usize) -> Axis
    requires { axis < length view.now.lengths }
    ensures outer { result.outer ≡ positions (take axis view.now.lengths) }
    ensures length { result.length ≡ get_or view.now.lengths axis 1 }
    ensures inner { result.inner ≡ positions (drop (suc axis) view.now.lengths) }
{
    let shape = view.shape();
    Axis {
        outer: product(&shape[..axis]),
        length: shape[axis] as usize,
        inner: product(&shape[axis + 1..]),
    }
}

/// The axis that an operation folds along, or 0.
fn axis_of(op: &Op) -> usize
    ensures { result ≡ or_zero op.now.axis }
{
    match op.axis {
        Some(axis) => usize::from(axis),
        None => 0,
    }
}

/// What an operation folds along its axis; what is kept for it begins at a place.
fn along_of(views: &[View], op: &Op, kept: usize) -> Along
    requires well { well_formed op.now ≡ true }
    requires code { is_fold op.now.code ≡ true }
    requires few { length views.now ≤ 768 }
    ensures { IsAlongAt views.now kept op.now result }
{
    let view = array_view(&op.first);
    Along {
        code: op.code,
        elem: op.to,
        source: number_in(views, view) as u32,
        kept,
        axis: axis_at(view, axis_of(op)),
    }
}

/// Whether an operation of a block reads a view.
fn reads(op: &Op, view: &View) -> bool
    ensures { result ≡ loaded (inputs op.now) view.now }
{
    is_view(&op.first, view) || is_view(&op.second, view)
}

/// Whether an operand is a view.
fn is_view(operand: &Option<Operand>, view: &View) -> bool
    ensures { result ≡ loaded (view_of operand.now) view.now }
{
    match operand {
        Some(Operand::Array(input)) => identical(input, view),
        _ => false,
    }
}

/// Whether some operation from an index on reads a view.
fn is_read_from(ops: &[Op], index: usize, view: &View) -> bool
    ensures { result ≡ loaded (flat_map inputs (drop index ops.now)) view.now }
{
    ops.iter().skip(index).any(|op| reads(op, view))
}

/// Whether an operation adds numbers.
fn adds(ops: &[Op], index: usize) -> bool
    ensures { result ≡ true → index < length ops.now }
{
    index < ops.len() && matches!(ops[index].code, Code::Add)
}

/// Whether an addition of a block is followed by another, and its result is neither stored by the walk nor read behind that one.
fn is_link(ops: &[Op], index: usize, out: &View) -> bool
    requires few { length ops.now ≤ 256 }
    ensures { result ≡ true → needed ops.now (index + 2) out.now ≡ false }
{
    adds(ops, index)
        && adds(ops, index + 1)
        && frees(ops, out.base())
        && !is_read_from(ops, index + 2, out)
}

/// The task of the operation of a block with an index. Two lanes for its constants stand behind those of the operations before it, and
/// what is kept for it begins at a place.
fn task_of(
    ops: &[Op],
    views: &[View],
    lanes: &[Buffer],
    index: usize,
    kept: usize,
    room: usize,
) -> Task
    requires well { list_all well_formed ops.now ≡ true }
    requires few { length ops.now ≤ 256 }
    requires views { views.now ≡ register_views ops.now }
    requires few_views { length views.now ≤ 768 }
    requires lanes { map cell_of lanes.now ≡ lane_cells ops.now room views.now }
    requires typed { each_typed ops.now ≡ true }
    requires there { index < length ops.now }
    requires kept { kept ≡ kept_from ops.now index }
    ensures { (op : Op) → op ≡ get_or ops.now index op → IsTask ops.now room lanes.now index op result }
{
    let op = &ops[index];
    if op.code.is_reduction() {
        return Task::Fold(along_of(views, op, kept));
    }
    let constants = views.len() as u32 + 2 * index as u32;
    let first = lane_of(views, &op.first, constants, constants);
    if let Some(slot) = op.slot {
        return Task::Show(slot, first);
    }
    let Some(out) = &op.out else {
        return Task::Nothing;
    };
    let dest = number_in(views, out) as u32;
    if op.code.is_scan() {
        return Task::Scan(along_of(views, op, kept), dest);
    }
    let Some(_input) = &op.first else {
        return Task::Line(Line {
            work: Work::Positions,
            to: op.to,
            dest,
        });
    };
    let second = second_lane_of(views, op, constants + 1, first);
    let line = Line {
        work: work_of(ops, lanes, op, first, second, room),
        to: op.to,
        dest,
    };
    if is_link(ops, index, out) {
        return Task::Link(line);
    }
    Task::Line(line)
}

/// The tasks of the operations of a block.
pub(crate) fn tasks_of(
    alloc: Global,
    ops: &[Op],
    views: &[View],
    lanes: &[Buffer],
    room: usize,
) -> Result<Vec<Task>, NoMemory>
    requires well { list_all well_formed ops.now ≡ true }
    requires few { length ops.now ≤ 256 }
    requires views { views.now ≡ register_views ops.now }
    requires few_views { length views.now ≤ 768 }
    requires lanes { map cell_of lanes.now ≡ lane_cells ops.now room views.now }
    requires typed { each_typed ops.now ≡ true }
    ensures { IfOk result (λ tasks. AreTasks ops.now room lanes.now tasks.items) }
{
    let mut tasks = Vec::new(alloc);
    let mut kept = views.len();
    for (index, op) in ops.iter().enumerate() {
        tasks.push(task_of(ops, views, lanes, index, kept, room))?;
        kept += kept_for(alloc, op)? as usize;
    }
    Ok(tasks)
}
