//! What is known of each class of views.
ghost use Rattle.std.specs.Prelude.{◌≡◌, ◌≤◌, ◌==◌, IfOk, length, map};
ghost use Rattle.std.specs.List.{All};
ghost use Rattle.std.specs.Option.{option_to_list};
ghost use Rattle.arr_view.specs.Views.{has};
ghost use Rattle.arr_ops.specs.Costs.{elem_of, weight};
ghost use Rattle.arr_ops.specs.Formed.{typed};
ghost use Rattle.arr_ops.specs.Ops.{freed, makes_base, view_of};
ghost use Rattle.arr_law.specs.ProblemOf.{first_where};
ghost use Rattle.arr_check.specs.Tables.{entry_of, type_among};

use crate::NoMemory;
use arr_num::Elem;
use arr_ops::{Op, Operand, weight};
use arr_view::View;
use std::alloc::Global;

/// Of a class of views: what a view of it takes, in bytes, and the numbers of the operations that create and end its base.
#[derive(Drop)]
pub(crate) struct Entry {
    pub(crate) weight: u64,
    pub(crate) creator: Option<u32>,
    pub(crate) freer: Option<u32>,
}

fn is_of(view: &Option<View>, base: u32) -> bool
    ensures { result ≡ has (map (λ v. v.base) (option_to_list view.now)) base }
{
    match view {
        Some(view) => base == view.base(),
        None => false,
    }
}

fn reads_base(operand: &Option<Operand>, base: u32) -> bool
    ensures { result ≡ has (map (λ v. v.base) (view_of operand.now)) base }
{
    match operand {
        Some(Operand::Array(view)) => base == view.base(),
        _ => false,
    }
}

/// The type that an operation gives to a base, if it names it.
fn type_in(op: &Op, base: u32) -> Option<Elem>
    ensures { result ≡ type_among (typed op.now) base }
{
    if is_of(&op.out, base) {
        return Some(op.to);
    }
    if reads_base(&op.first, base) || reads_base(&op.second, base) {
        return Some(op.from);
    }
    if op.frees == Some(base) {
        return Some(op.to);
    }
    None
}

/// The type of a base of a list.
fn elem_of(list: &[Op], base: u32) -> Elem
    ensures { result ≡ elem_of list.now base }
{
    for op in list {
        if let Some(ty) = type_in(op, base) {
            return ty;
        }
    }
    Elem::U8
}

fn creates(op: &Op, base: u32) -> bool
    ensures { result ≡ makes_base op.now base }
{
    op.makes && op.writes(base)
}

fn frees(op: &Op, base: u32) -> bool
    ensures { result ≡ has (freed op.now) base }
{
    match op.frees {
        Some(freed) => base == freed,
        None => false,
    }
}

/// The number of the operation that creates a base.
fn creator(ops: &[Op], base: u32) -> Option<u32>
    requires { length ops.now ≤ 256 }
    ensures { result ≡ first_where (λ op. makes_base op base) ops.now }
{
    for (at, op) in ops.iter().enumerate() {
        if creates(op, base) {
            return Some(at as u32 + 1);
        }
    }
    None
}

/// The number of the operation that ends a base.
fn freer(ops: &[Op], base: u32) -> Option<u32>
    requires { length ops.now ≤ 256 }
    ensures { result ≡ first_where (λ op. has (freed op) base) ops.now }
{
    for (at, op) in ops.iter().enumerate() {
        if frees(op, base) {
            return Some(at as u32 + 1);
        }
    }
    None
}

fn entry_of(ops: &[Op], view: &View) -> Entry
    requires { length ops.now ≤ 256 }
    ensures value { result ≡ entry_of ops.now view.now }
    ensures small { result.weight ≤ 8388608 }
{
    let base = view.base();
    Entry {
        weight: weight(view, elem_of(ops, base)),
        creator: creator(ops, base),
        freer: freer(ops, base),
    }
}

/// What is known of each class.
pub(crate) fn entries(alloc: Global, ops: &[Op], views: &[View]) -> Result<Vec<Entry>, NoMemory>
    requires { length ops.now ≤ 256 }
    ensures value { IfOk result (λ table. table.items ≡ map (entry_of ops.now) views.now) }
    ensures small { IfOk result (λ table. All (λ entry. entry.weight ≤ 8388608) table.items) }
{
    let mut table = Vec::new(alloc);
    for view in views {
        table.push(entry_of(ops, view))?;
    }
    Ok(table)
}
