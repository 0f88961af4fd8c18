//! What operations touch, in numbers.
ghost use Rattle.std.specs.Prelude.{◌≡◌, ◌≤◌, ◌<◌, ◌+◌, ◌*◌, ◌++◌, ◌==◌, ◌∷◌, IfOk, IsTrue, length, map};
ghost use Rattle.std.specs.List.{All, flat_map, position_or_len};
ghost use Rattle.std.specs.Option.{option_map, option_to_list};
ghost use Rattle.arr_view.specs.Views.{identical};
ghost use Rattle.arr_ops.specs.Costs.{weight};
ghost use Rattle.arr_ops.specs.Ops.{array_of, view_of, views};
ghost use Rattle.arr_cost.specs.Footprints.{bases_of};
ghost use Rattle.arr_cost.specs.Touches.{base_of, class_of, free_below, is_below, table_of, touch_below, touch_of, touches_of, untouched};

use crate::NoMemory;
use crate::weights::view_weight;
use arr_ops::{Op, Operand, all_views};
use arr_overlap::identical;
use arr_view::View;
use std::alloc::Global;

/// A view that an operation names: its class, its base, and what it weighs in bytes. Of all views of the list, a class is the place of the
/// first that is identical, and a base that of the first view of it, from 0.
#[derive(Drop)]
pub(crate) struct Touch {
    pub(crate) class: usize,
    pub(crate) base: usize,
    pub(crate) weight: u64,
}

/// The views that an operation reads and writes, whether it makes the base of its output, and the base that it frees.
#[derive(Drop)]
pub(crate) struct Touches {
    pub(crate) first: Option<Touch>,
    pub(crate) second: Option<Touch>,
    pub(crate) out: Option<Touch>,
    pub(crate) makes: bool,
    pub(crate) frees: Option<usize>,
}

fn class_of(all: &[View], view: &View) -> usize
    ensures value { result ≡ class_of all.now view.now }
    ensures few { result ≤ length all.now }
{
    for place in 0..all.len() {
        if identical(view, &all[place]) {
            return place;
        }
    }
    all.len()
}

fn base_of(all: &[View], base: u32) -> usize
    ensures value { result ≡ base_of all.now base }
    ensures few { result ≤ length all.now }
{
    for place in 0..all.len() {
        if all[place].base() == base {
            return place;
        }
    }
    all.len()
}

fn touch_of(list: &[Op], all: &[View], view: &View) -> Touch
    ensures value { result ≡ touch_of list.now all.now view.now }
    ensures class { result.class ≤ length all.now }
    ensures base { result.base ≤ length all.now }
    ensures weight { result.weight ≤ 8388608 }
{
    Touch {
        class: class_of(all, view),
        base: base_of(all, view.base()),
        weight: view_weight(list, view),
    }
}

fn output_touch(list: &[Op], all: &[View], view: &Option<View>) -> Option<Touch>
    ensures value { result ≡ option_map (touch_of list.now all.now) view.now }
    ensures below { IsTrue (touch_below (length all.now + 1) result) }
{
    match view {
        Some(view) => Some(touch_of(list, all, view)),
        None => None,
    }
}

fn operand_touch(list: &[Op], all: &[View], operand: &Option<Operand>) -> Option<Touch>
    ensures value { result ≡ option_map (touch_of list.now all.now) (array_of operand.now) }
    ensures below { IsTrue (touch_below (length all.now + 1) result) }
{
    match operand {
        Some(Operand::Array(view)) => Some(touch_of(list, all, view)),
        _ => None,
    }
}

fn freed_base(all: &[View], base: Option<u32>) -> Option<usize>
    ensures value { result ≡ option_map (base_of all.now) base }
    ensures below { IsTrue (free_below (length all.now + 1) result) }
{
    match base {
        Some(base) => Some(base_of(all, base)),
        None => None,
    }
}

fn touches_of(list: &[Op], all: &[View], op: &Op) -> Touches
    ensures value { result ≡ touches_of list.now all.now op.now }
    ensures below { IsTrue (is_below (length all.now + 1) result) }
{
    Touches {
        first: operand_touch(list, all, &op.first),
        second: operand_touch(list, all, &op.second),
        out: output_touch(list, all, &op.out),
        makes: op.makes,
        frees: freed_base(all, op.frees),
    }
}

/// Nothing.
fn untouched() -> Touches
    ensures { result ≡ untouched }
{
    Touches {
        first: None,
        second: None,
        out: None,
        makes: false,
        frees: None,
    }
}

/// For each number what its operation touches, and nothing for 0.
pub(crate) fn table_of(alloc: Global, ops: &[Op]) -> Result<Vec<Touches>, NoMemory>
    ensures value { IfOk result (λ table. table.items ≡ table_of ops.now) }
    ensures below { IfOk result (λ table. All (λ t. IsTrue (is_below (3 * length table.items) t)) table.items) }
{
    let all = all_views(alloc, ops)?;
    let mut table = Vec::new(alloc);
    table.push(untouched())?;
    for op in ops {
        table.push(touches_of(ops, all.as_slice(), op))?;
    }
    Ok(table)
}

/// The base of each view.
fn bases_among(alloc: Global, all: &[View]) -> Result<Vec<usize>, NoMemory>
    ensures { IfOk result (λ bases. bases.items ≡ map (λ v. base_of all.now v.base) all.now) }
{
    let mut bases = Vec::new(alloc);
    for view in all {
        bases.push(base_of(all, view.base()))?;
    }
    Ok(bases)
}

/// The base of each class.
pub(crate) fn class_bases(alloc: Global, ops: &[Op]) -> Result<Vec<usize>, NoMemory>
    ensures { IfOk result (λ bases. bases.items ≡ bases_of ops.now) }
{
    let all = all_views(alloc, ops)?;
    bases_among(alloc, all.as_slice())
}
