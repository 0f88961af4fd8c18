//! How many numbers a block keeps as scratch.
ghost use Rattle.std.specs.Prelude.{◌≡◌, ◌≤◌, ◌&&◌, ◌||◌, ◌/◌, not, cond, get_or, IfOk, length};
ghost use Rattle.std.specs.List.{list_any};
ghost use Rattle.std.specs.Option.{option_map, option_to_list};
ghost use Rattle.arr_num.specs.Kinds.{is_reduction, is_scan};
ghost use Rattle.arr_view.specs.Views.{identical, overlap};
ghost use Rattle.arr_ops.specs.Ops.{serial};
ghost use Rattle.arr_ops.specs.Memory.{or_zero};
ghost use Rattle.arr_ops.specs.Traffic.{axis_length, kept_for, out_positions, scratch};

use crate::NoMemory;
use arr_cost::block_views;
use arr_ops::{Op, Operand};
use arr_overlap::{identical, overlaps};
use arr_view::View;
use std::alloc::Global;

/// Whether an output overlaps an input, if there is one, and is not that very view; for a reduction, whether it overlaps it at all.
fn collides(
    alloc: Global,
    out: &View,
    input: Option<&View>,
    reduces: bool,
) -> Result<bool, NoMemory>
    ensures { IfOk result (λ r. r ≡ list_any (λ v. overlap out.now v && (reduces || not (identical out.now v)))
        (option_to_list (option_map (λ v. v.now) input.entry))) }
{
    match input {
        Some(view) => {
            if !reduces && identical(out, view) {
                return Ok(false);
            }
            overlaps(alloc, out, view)
        }
        None => Ok(false),
    }
}

/// Whether an operation is serial.
fn is_serial(alloc: Global, op: &Op) -> Result<bool, NoMemory>
    ensures { IfOk result (λ r. r ≡ serial op.now) }
{
    let reduces = op.code.is_reduction();
    match &op.out {
        Some(out) => {
            if collides(alloc, out, op.first_view(), reduces)? {
                return Ok(true);
            }
            collides(alloc, out, op.second_view(), reduces)
        }
        None => Ok(false),
    }
}

/// Whether some operation of a block is serial.
pub(crate) fn some_serial(alloc: Global, block: &[Op]) -> Result<bool, NoMemory>
    ensures { IfOk result (λ r. r ≡ list_any serial block.now) }
{
    for op in block {
        if is_serial(alloc, op)? {
            return Ok(true);
        }
    }
    Ok(false)
}

/// The positions of the output.
fn out_positions(op: &Op) -> u64
    ensures value { result ≡ out_positions op.now }
    ensures few { result ≤ 1048576 }
{
    match &op.out {
        Some(out) => u64::from(out.positions()),
        None => 0,
    }
}

/// The axis that an operation folds along, or 0.
fn axis_of(op: &Op) -> usize
    ensures { result ≡ or_zero op.now.axis }
{
    match op.axis {
        Some(axis) => usize::from(axis),
        None => 0,
    }
}

/// The length of a view along an axis, or 1 where it has no such axis.
fn length_at(view: &View, axis: usize) -> u64
    ensures value { result ≡ get_or view.now.lengths axis 1 }
    ensures some { 1 ≤ result }
{
    let shape = view.shape();
    if axis < shape.len() {
        u64::from(shape[axis])
    } else {
        1
    }
}

/// The length of the axis that an operation folds along.
fn axis_length(op: &Op) -> u64
    ensures value { result ≡ axis_length op.now }
    ensures some { 1 ≤ result }
{
    match &op.first {
        Some(Operand::Array(view)) => length_at(view, axis_of(op)),
        _ => 1,
    }
}

/// The numbers of a reduction's or a serial operation's results.
fn kept_results(alloc: Global, op: &Op) -> Result<u64, NoMemory>
    ensures value { IfOk result (λ kept. kept
        ≡ cond (is_reduction op.now.code || serial op.now) (out_positions op.now) 0) }
    ensures few { IfOk result (λ kept. kept ≤ 1048576) }
{
    if op.code.is_reduction() {
        return Ok(out_positions(op));
    }
    if is_serial(alloc, op)? {
        return Ok(out_positions(op));
    }
    Ok(0)
}

/// The running results of a scan.
fn kept_sums(op: &Op) -> u64
    ensures value { result ≡ cond (is_scan op.now.code) (out_positions op.now / axis_length op.now) 0 }
    ensures few { result ≤ 1048576 }
{
    if op.code.is_scan() {
        out_positions(op) / axis_length(op)
    } else {
        0
    }
}

/// The numbers that an operation needs beside one for each view.
pub(crate) fn kept_for(alloc: Global, op: &Op) -> Result<u64, NoMemory>
    ensures value { IfOk result (λ kept. kept ≡ kept_for op.now) }
    ensures few { IfOk result (λ kept. kept ≤ 2097152) }
{
    let results = kept_results(alloc, op)?;
    Ok(results + kept_sums(op))
}

/// How many numbers the operations of a block keep as scratch.
pub(crate) fn scratch(alloc: Global, block: &[Op]) -> Result<usize, NoMemory>
    requires { length block.now ≤ 256 }
    ensures { IfOk result (λ count. count ≡ scratch block.now) }
{
    let views = block_views(alloc, block)?;
    let mut count = views.len() as u64;
    for op in block {
        count += kept_for(alloc, op)?;
    }
    Ok(count as usize)
}
