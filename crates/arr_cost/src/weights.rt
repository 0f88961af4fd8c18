//! What views weigh.
ghost use Rattle.std.specs.Prelude.{◌≡◌, ◌≤◌, ◌==◌, IfOk, map};
ghost use Rattle.std.specs.List.{All};
ghost use Rattle.std.specs.Option.{option_to_list};
ghost use Rattle.arr_view.specs.Views.{has};
ghost use Rattle.arr_ops.specs.Costs.{elem_of, weight};
ghost use Rattle.arr_ops.specs.Formed.{typed};
ghost use Rattle.arr_ops.specs.Ops.{inputs, outputs, view_of};
ghost use Rattle.arr_cost.specs.Footprints.{weights_of};
ghost use Rattle.arr_cost.specs.Types.{type_among};

use crate::NoMemory;
use arr_num::Elem;
use arr_ops::{Op, all_views, weight};
use arr_view::View;
use std::alloc::Global;

/// The type that an operation gives to a base, if it names it.
fn type_in(op: &Op, base: u32) -> Option<Elem>
    ensures { result ≡ type_among (typed op.now) base }
{
    if op.writes(base) {
        return Some(op.to);
    }
    if op.reads(base) {
        return Some(op.from);
    }
    if op.frees == Some(base) {
        return Some(op.to);
    }
    None
}

/// The type of a base of a list: what the first operation that names it gives it; u8 where none does (docs/LANGUAGE.md, "Operations"). It
/// takes no memory.
pub fn elem_of(list: &[Op], base: u32) -> Elem
    ensures { result ≡ elem_of list.now base }
{
    for op in list {
        if let Some(ty) = type_in(op, base) {
            return ty;
        }
    }
    Elem::U8
}

/// What one view weighs in a list, in bytes: what its elements take in the type of its base (docs/PLANS.md, "Cost"). It takes no memory.
pub fn view_weight(list: &[Op], view: &View) -> u64
    ensures value { result ≡ weight list.now view.now }
    ensures small { result ≤ 8388608 }
{
    weight(view, elem_of(list, view.base()))
}

/// What each view weighs.
fn weights_among(alloc: Global, ops: &[Op], all: &[View]) -> Result<Vec<u64>, NoMemory>
    ensures value { IfOk result (λ weights. weights.items ≡ map (weight ops.now) all.now) }
    ensures small { IfOk result (λ weights. All (λ w. w ≤ 8388608) weights.items) }
{
    let mut weights = Vec::new(alloc);
    for view in all {
        weights.push(view_weight(ops, view))?;
    }
    Ok(weights)
}

/// What each class weighs.
pub(crate) fn class_weights(alloc: Global, ops: &[Op]) -> Result<Vec<u64>, NoMemory>
    ensures value { IfOk result (λ weights. weights.items ≡ weights_of ops.now) }
    ensures small { IfOk result (λ weights. All (λ w. w ≤ 8388608) weights.items) }
{
    let all = all_views(alloc, ops)?;
    weights_among(alloc, ops, all.as_slice())
}
