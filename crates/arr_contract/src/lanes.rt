//! The lanes of a block: one for each of its views, and one for each constant that it takes.
ghost use Rattle.std.specs.Prelude.{◌≡◌, ◌++◌, IfOk, map, replicate, true};
ghost use Rattle.std.specs.List.{list_all};
ghost use Rattle.arr_num.specs.Numbers.{in_type};
ghost use Rattle.arr_ops.specs.Formed.{numbers_of, well_formed};
ghost use Rattle.arr_store.specs.Buffers.{cell_of};
ghost use Rattle.arr_contract.specs.Making.{constant_cell, constant_cells, kept_second, lane_cells, view_cells};

use crate::NoMemory;
use arr_cost::elem_of;
use arr_num::{Code, Elem};
use arr_ops::{Op, Operand};
use arr_store::Buffer;
use arr_view::View;
use std::alloc::Global;

/// A lane with one number at each of its places.
pub(crate) fn filled_lane(
    alloc: Global,
    ty: Elem,
    number: i128,
    room: usize,
) -> Result<Buffer, NoMemory>
    requires { in_type ty number ≡ true }
    ensures { IfOk result (λ lane. cell_of lane ≡ record { elem = ty; numbers = replicate room number }) }
{
    match ty {
        Elem::U8 => Ok(Buffer::Bytes(vec![in alloc; number as u8; room]?)),
        Elem::I32 => Ok(Buffer::Words(vec![in alloc; number as i32; room]?)),
        Elem::I64 => Ok(Buffer::Longs(vec![in alloc; number as i64; room]?)),
        Elem::U64 => Ok(Buffer::Naturals(vec![in alloc; number as u64; room]?)),
    }
}

/// The lane of a constant; an empty one for any other operand.
fn constant_lane(
    alloc: Global,
    ty: Elem,
    operand: &Option<Operand>,
    room: usize,
) -> Result<Buffer, NoMemory>
    requires { list_all (in_type ty) (numbers_of operand.now) ≡ true }
    ensures { IfOk result (λ lane. cell_of lane ≡ constant_cell ty room operand.now) }
{
    match operand {
        Some(Operand::Number(number)) => filled_lane(alloc, ty, *number, room),
        _ => filled_lane(alloc, ty, 0, 0),
    }
}

/// The lane of the second operand of an operation; an exponent has none.
fn second_lane(alloc: Global, op: &Op, room: usize) -> Result<Buffer, NoMemory>
    requires { well_formed op.now ≡ true }
    ensures { IfOk result (λ lane. cell_of lane
        ≡ constant_cell op.now.from room (kept_second op.now.code op.now.second)) }
{
    match op.code {
        Code::Power => filled_lane(alloc, op.from, 0, 0),
        _ => constant_lane(alloc, op.from, &op.second, room),
    }
}

/// Adds the lanes of the constants of an operation.
fn push_constants(
    alloc: Global,
    op: &Op,
    room: usize,
    lanes: &mut Vec<Buffer>,
) -> Result<(), NoMemory>
    requires { well_formed op.now ≡ true }
    ensures { IfOk result (λ done. map cell_of lanes.new.items
        ≡ map cell_of lanes.old.items ++ constant_cells room op.now) }
{
    lanes.push(constant_lane(alloc, op.from, &op.first, room)?)?;
    lanes.push(second_lane(alloc, op, room)?)?;
    Ok(())
}

/// The lanes of views, each of the type of its base.
fn view_lanes(
    alloc: Global,
    ops: &[Op],
    views: &[View],
    room: usize,
) -> Result<Vec<Buffer>, NoMemory>
    ensures { IfOk result (λ lanes. map cell_of lanes.items ≡ view_cells ops.now room views.now) }
{
    let mut lanes = Vec::new(alloc);
    for view in views {
        lanes.push(filled_lane(alloc, elem_of(ops, view.base()), 0, room)?)?;
    }
    Ok(lanes)
}

/// The lanes of a block: one with room for so many numbers for each of its views, and behind them two for each operation, which hold
/// its constants.
pub(crate) fn lanes_of(
    alloc: Global,
    ops: &[Op],
    views: &[View],
    room: usize,
) -> Result<Vec<Buffer>, NoMemory>
    requires { list_all well_formed ops.now ≡ true }
    ensures { IfOk result (λ lanes. map cell_of lanes.items ≡ lane_cells ops.now room views.now) }
{
    let mut lanes = view_lanes(alloc, ops, views, room)?;
    for op in ops {
        push_constants(alloc, op, room, &mut lanes)?;
    }
    Ok(lanes)
}
