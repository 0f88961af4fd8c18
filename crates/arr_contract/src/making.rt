//! All that a block takes to walk its positions in strips.
ghost use Rattle.std.specs.Prelude.{◌≡◌, ◌≤◌, ◌/◌, IfOk, false, length, map, max, min, slice_get, true};
ghost use Rattle.std.specs.List.{AllByRecursion, list_all};
ghost use Rattle.std.specs.Option.{option_to_list};
ghost use Rattle.arr_num.specs.Numbers.{width};
ghost use Rattle.arr_view.specs.Views.{positions};
ghost use Rattle.arr_ops.specs.Formed.{each_typed, well_formed};
ghost use Rattle.arr_ops.specs.Ops.{walked};
ghost use Rattle.arr_strips.specs.Blocks.{block_positions, is_block};
ghost use Rattle.arr_strips.specs.Registers.{register_views};
ghost use Rattle.arr_lanes.specs.Lanes.{IsLane};
ghost use Rattle.arr_machine.specs.Lent.{is_lent, leaves};
ghost use Rattle.arr_machine.specs.Machines.{IsMachineOf};
ghost use Rattle.arr_machine.specs.Ports.{ArePorts};
ghost use Rattle.arr_contract.specs.Making.{HasLane, IsWalked};
ghost use Rattle.arr_contract.specs.Prepared.{strip, widest};

use crate::NoMemory;
use crate::lanes::{filled_lane, lanes_of};
use crate::sliding::writer;
use crate::storing::stored_views;
use crate::tasks::{number_in, tasks_of};
use arr_cost::block_reads;
use arr_lanes::Spares;
use arr_machine::{Machine, Port};
use arr_num::Elem;
use arr_ops::{Op, array_view};
use arr_overlap::identical;
use arr_rows::Rows;
use arr_view::View;
use std::alloc::Global;

/// How many bytes of numbers a lane holds at most.
const LANE_BYTES: usize = 4096;

/// How many numbers a row has at least that strips end with.
const LONG_ROW: u32 = 512;

/// How many positions an operation walks; `None` for FREE.
fn walked_positions(op: &Op) -> Option<u32>
    requires { well_formed op.now ≡ true }
    ensures { option_to_list result ≡ map positions (walked op.now) }
{
    if op.code.walks_input() {
        return Some(array_view(&op.first).positions());
    }
    match &op.out {
        Some(out) => Some(out.positions()),
        None => None,
    }
}

/// How many positions the shape of a block has: that of its first operation that walks one.
fn positions_of(ops: &[Op]) -> u32
    requires { list_all well_formed ops.now ≡ true }
    ensures { result ≡ block_positions ops.now }
{
    for op in ops {
        if let Some(positions) = walked_positions(op) {
            return positions;
        }
    }
    1
}

/// How many bytes a number of the widest type in a block takes.
fn widest(ops: &[Op]) -> usize
    ensures exact { result ≡ widest ops.now }
    ensures some { 1 ≤ result }
{
    let mut widest = 1;
    for op in ops {
        widest = widest.max(width(op.to)).max(width(op.from));
    }
    widest
}

/// How many bytes a number of a type takes.
fn width(ty: Elem) -> usize
    ensures { result ≡ width ty }
{
    match ty {
        Elem::U8 => 1,
        Elem::I32 => 4,
        Elem::I64 | Elem::U64 => 8,
    }
}

/// How many positions a strip of a block has at most: its lanes hold few bytes, and no more numbers than it has positions.
fn room_of(ops: &[Op], positions: u32) -> usize
    ensures exact { result ≡ max (min (4096 / widest ops.now) positions) 1 }
    ensures some { 1 ≤ result }
    ensures most { result ≤ 4096 }
{
    let room = (LANE_BYTES / widest(ops)).min(positions as usize);
    room.max(1)
}

/// Whether an operation neither writes nor shows a view, or one that is identical to it.
fn leaves(op: &Op, view: &View) -> bool
    ensures { result ≡ leaves op.now view.now }
{
    if let Some(out) = &op.out {
        if identical(view, out) {
            return false;
        }
    }
    if op.slot.is_none() {
        return true;
    }
    match op.first_view() {
        Some(shown) => !identical(view, shown),
        None => true,
    }
}

/// Whether a view may be read where it stands: no operation of a block writes or shows it.
fn is_lent(ops: &[Op], view: &View) -> bool
    ensures { result ≡ is_lent ops.now view.now }
{
    ops.iter().all(|op| leaves(op, view))
}

/// How many positions a strip has at most, so that it ends where rows do: the fewest of the long rows of views that may be read where they
/// stand, else as many as the block has positions.
fn row_of(ports: &[Port], positions: u32) -> usize
    ensures { 1 ≤ result }
{
    let mut row = positions.max(1);
    for port in ports {
        let length = port.rows.row_length();
        if port.is_lent && length >= LONG_ROW {
            row = row.min(length);
        }
    }
    row as usize
}

/// Views with their registers.
fn ports_of(alloc: Global, ops: &[Op], views: &[View], some: &[View]) -> Result<Vec<Port>, NoMemory>
    requires views { views.now ≡ register_views ops.now }
    requires few { length views.now ≤ 768 }
    requires walked { AllByRecursion (IsWalked ops.now) some.now }
    ensures { IfOk result (λ ports. ArePorts ops.now some.now ports.items) }
{
    let mut ports = Vec::new(alloc);
    for view in some {
        ports.push(Port {
            rows: Rows::of(view),
            lane: number_in(views, view) as u32,
            is_lent: is_lent(ops, view),
        })?;
    }
    Ok(ports)
}

/// All that a block without serial operations takes.
pub(crate) fn machine_of(alloc: Global, ops: &[Op], views: &[View]) -> Result<Machine, NoMemory>
    requires block { is_block ops.now ≡ true }
    requires types { each_typed ops.now ≡ true }
    requires few { length ops.now ≤ 256 }
    requires views { views.now ≡ register_views ops.now }
    ensures machine { IfOk result (λ machine. IsMachineOf ops.now machine) }
    ensures strip { IfOk result (λ machine. machine.room ≡ strip ops.now) }
{
    let positions = positions_of(ops);
    let room = room_of(ops, positions);
    let lanes = lanes_of(alloc, ops, views, room)?;
    let tasks = tasks_of(alloc, ops, views, lanes.as_slice(), room)?;
    let read_views = block_reads(alloc, ops)?;
    let reads = ports_of(alloc, ops, views, read_views.as_slice())?;
    let stores = stored_views(alloc, ops)?;
    Ok(Machine {
        positions,
        room,
        tasks,
        stores: ports_of(alloc, ops, views, stores.as_slice())?,
        row: row_of(reads.as_slice(), positions),
        reads,
        places: vec![in alloc; None; lanes.len()]?,
        lanes,
        spares: Spares::new(alloc, room)?,
    })
}

/// All that a block takes to walk its positions; where it has a serial operation and so walks none, a lane of the type of that.
pub(crate) fn machine_for(
    alloc: Global,
    ops: &[Op],
    views: &[View],
    is_serial: bool,
) -> Result<Machine, NoMemory>
    requires block { is_serial ≡ false → is_block ops.now ≡ true }
    requires types { each_typed ops.now ≡ true }
    requires few { length ops.now ≤ 256 }
    requires views { views.now ≡ register_views ops.now }
    ensures machine { IfOk result (λ machine. is_serial ≡ false → IsMachineOf ops.now machine) }
    ensures strip { IfOk result (λ machine. is_serial ≡ false → machine.room ≡ strip ops.now) }
    ensures lane { IfOk result (λ machine. is_serial ≡ true → HasLane ops.now machine) }
{
    if is_serial {
        return idle_machine(alloc, ops);
    }
    machine_of(alloc, ops, views)
}

/// A machine that walks nothing, with a lane of the type of the first operation that writes.
fn idle_machine(alloc: Global, ops: &[Op]) -> Result<Machine, NoMemory>
    ensures { IfOk result (HasLane ops.now) }
{
    match writer(ops) {
        Some(op) => one_lane(alloc, op.to),
        None => one_lane(alloc, Elem::U8),
    }
}

/// A machine that walks nothing, with one lane.
fn one_lane(alloc: Global, ty: Elem) -> Result<Machine, NoMemory>
    ensures some { IfOk result (λ machine. 1 ≤ machine.room) }
    ensures lane { IfOk result (λ machine. IsLane ty machine.room (slice_get machine.lanes.items 0)) }
{
    let room = LANE_BYTES / width(ty);
    let mut lanes = Vec::new(alloc);
    lanes.push(filled_lane(alloc, ty, 0, room)?)?;
    Ok(Machine {
        positions: 0,
        room,
        tasks: Vec::new(alloc),
        reads: Vec::new(alloc),
        stores: Vec::new(alloc),
        row: 1,
        places: Vec::new(alloc),
        lanes,
        spares: Spares::new(alloc, 0)?,
    })
}
