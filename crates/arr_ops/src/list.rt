//! Which lists of operations there are.
ghost use Rattle.std.specs.Prelude.{◌≡◌, ◌==◌, ◌||◌, not, nat_lt};
ghost use Rattle.std.specs.List.{list_all};
ghost use Rattle.std.specs.Option.{option_map, option_to_list};
ghost use Rattle.arr_view.specs.Views.{elements, has, positions};
ghost use Rattle.arr_ops.specs.Ops.{named};
ghost use Rattle.arr_ops.specs.Formed.{all_pairs, each_inside, each_typed, inside_made, is_formed, may_precede, same_elem, same_types, slots_ascend, typed, well_formed};

use crate::{Op, well_formed};
use arr_num::Elem;
use arr_view::View;

/// Whether a list obeys every rule of lists (docs/LANGUAGE.md, "Operations"): each operation is well formed; the slots are 1, 2, 3 in
/// order; the views of a base that the list creates lie inside it; a base has one type; a base is named by nothing before its creator
/// and by nothing after its FREE. The empty list is formed.
pub fn list_formed(ops: &[Op]) -> bool
    ensures { result ≡ is_formed ops.now }
{
    all_well_formed(ops) && slots_ascend(ops) && each_inside(ops) && each_typed(ops) && in_turn(ops)
}

fn all_well_formed(ops: &[Op]) -> bool
    ensures { result ≡ list_all well_formed ops.now }
{
    ops.iter().all(|op| well_formed(op))
}

/// Whether the slots are 1, 2, 3 in order.
fn slots_ascend(ops: &[Op]) -> bool
    ensures { result ≡ slots_ascend ops.now }
{
    let mut next: u64 = 1;
    for op in ops {
        if let Some(slot) = op.slot {
            if u64::from(slot) != next {
                return false;
            }
            next += 1;
        }
    }
    true
}

/// Whether the views of each base that the list creates lie inside it.
fn each_inside(ops: &[Op]) -> bool
    ensures { result ≡ each_inside ops.now }
{
    ops.iter().all(|maker| all_inside(maker, ops))
}

fn all_inside(maker: &Op, ops: &[Op]) -> bool
    ensures { result ≡ list_all (inside_made maker.now) ops.now }
{
    ops.iter().all(|op| inside_made(maker, op))
}

/// Whether the views of `op` in a base that `maker` creates lie inside it.
fn inside_made(maker: &Op, op: &Op) -> bool
    ensures { result ≡ inside_made maker.now op.now }
{
    !maker.makes
        || match &maker.out {
            Some(base) => lies_inside(op.out_view(), base)
                && lies_inside(op.first_view(), base)
                && lies_inside(op.second_view(), base),
            None => true,
        }
}

/// Whether a view, if it is there, is one of another base, or has its elements below the positions of this whole one.
fn lies_inside(view: Option<&View>, base: &View) -> bool
    ensures { result ≡ list_all (λ v. not (base.now.base == v.base) || list_all
        (λ e. nat_lt e (positions base.now.lengths)) (elements v))
        (option_to_list (option_map (λ v. v.now) view.entry)) }
{
    match view {
        Some(view) => base.base() != view.base() || lies_below(view, base.positions()),
        None => true,
    }
}

/// Whether every element lies below the end.
fn lies_below(view: &View, end: u32) -> bool
    ensures { result ≡ list_all (λ e. nat_lt e end) (elements view.now) }
{
    let (_least, greatest) = view.ends();
    greatest < end
}

/// Whether each base has one type.
fn each_typed(ops: &[Op]) -> bool
    ensures { result ≡ each_typed ops.now }
{
    ops.iter().all(|left| all_typed_as(left, ops))
}

fn all_typed_as(left: &Op, ops: &[Op]) -> bool
    ensures { result ≡ list_all (same_types left.now) ops.now }
{
    ops.iter().all(|right| same_types(left, right))
}

/// Whether no base has one type in one operation and another in the other.
fn same_types(left: &Op, right: &Op) -> bool
    ensures { result ≡ same_types left.now right.now }
{
    view_agrees(left.out_view(), left.to, right)
        && view_agrees(left.first_view(), left.from, right)
        && view_agrees(left.second_view(), left.from, right)
        && freed_agrees(left.frees, left.to, right)
}

fn view_agrees(view: Option<&View>, ty: Elem, op: &Op) -> bool
    ensures { result ≡ list_all (λ v. list_all (λ q. not (v.base == q.0) || same_elem ty q.1) (typed op.now))
        (option_to_list (option_map (λ v. v.now) view.entry)) }
{
    match view {
        Some(view) => agrees(view.base(), ty, op),
        None => true,
    }
}

fn freed_agrees(frees: Option<u32>, ty: Elem, op: &Op) -> bool
    ensures { result ≡ list_all (λ b. list_all (λ q. not (b == q.0) || same_elem ty q.1) (typed op.now))
        (option_to_list frees) }
{
    match frees {
        Some(base) => agrees(base, ty, op),
        None => true,
    }
}

/// Whether the operation gives the base this type wherever it names it.
fn agrees(base: u32, ty: Elem, op: &Op) -> bool
    ensures { result ≡ list_all (λ q. not (base == q.0) || same_elem ty q.1) (typed op.now) }
{
    avoids_or(op.out_view(), base, ty == op.to)
        && avoids_or(op.first_view(), base, ty == op.from)
        && avoids_or(op.second_view(), base, ty == op.from)
        && (op.frees != Some(base) || ty == op.to)
}

/// Whether a view, if it is there, is one of another base, or else the types are the same.
fn avoids_or(view: Option<&View>, base: u32, same: bool) -> bool
    ensures { result ≡ list_all (λ v. not (base == v.base) || same)
        (option_to_list (option_map (λ v. v.now) view.entry)) }
{
    match view {
        Some(view) => base != view.base() || same,
        None => true,
    }
}

/// Whether each operation may stand before each later one.
fn in_turn(ops: &[Op]) -> bool
    ensures { result ≡ all_pairs may_precede ops.now }
{
    for (place, op) in ops.iter().enumerate() {
        if !precedes_all(op, &ops[place + 1..]) {
            return false;
        }
    }
    true
}

fn precedes_all(op: &Op, rest: &[Op]) -> bool
    ensures { result ≡ list_all (may_precede op.now) rest.now }
{
    rest.iter().all(|later| may_precede(op, later))
}

/// Whether `op` may stand before `later`: it names no base that `later` creates, and frees none that `later` names.
fn may_precede(op: &Op, later: &Op) -> bool
    ensures { result ≡ may_precede op.now later.now }
{
    makes_unnamed(op, later)
        && match op.frees {
            Some(base) => !later.names(base),
            None => true,
        }
}

fn makes_unnamed(op: &Op, later: &Op) -> bool
    ensures { result ≡ (not later.now.makes || list_all (λ o. not (has (named op.now) o.base))
        (option_to_list later.now.out)) }
{
    !later.makes
        || match &later.out {
            Some(made) => !op.names(made.base()),
            None => true,
        }
}
