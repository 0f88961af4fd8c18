//! Classes of identical views, counted from 0 in the order of first sight.
ghost use Rattle.std.specs.Prelude.{◌≡◌, ◌<◌, ◌≤◌, ◌++◌, IfOk, length, map, position};
ghost use Rattle.std.specs.List.{flat_map, list_any};
ghost use Rattle.std.specs.Option.{option_to_list};
ghost use Rattle.arr_view.specs.Views.{identical, overlap};
ghost use Rattle.arr_ops.specs.Costs.{distinct};
ghost use Rattle.arr_ops.specs.Ops.{view_of, views};
ghost use Rattle.arr_law.specs.ProblemOf.{views_of};
ghost use Rattle.arr_check.specs.Classed.{overlaps_of, view_in, with_first};

use crate::NoMemory;
use crate::alike::{identical, marks_of, overlaps};
use arr_ops::{Op, Operand};
use arr_view::View;
use std::alloc::Global;
use std::marker::Model;

/// The classes of the views of a list, and which of them overlap. A contract sees the first view of each class.
#[derive(Drop)]
pub(crate) struct Classes {
    views: Vec<View>,
    meets: Vec<bool>,
}

impl Model for Classes {
    ghost use Rattle.std.specs.Prelude.{◌≡◌, ◌≤◌, List, length};
    ghost use Rattle.arr_view.specs.Strided.{Strided};
    ghost use Rattle.arr_check.specs.Classed.{overlaps_of};

    ghost Value = { List Strided };

    ghost view = { λ c. c.views.items };

    ghost invariant = { λ c. (length c.views.items ≤ 768) × (c.meets.items ≡ overlaps_of c.views.items) };
}

fn is_among(found: &[View], view: &View) -> bool
    ensures { result ≡ list_any (identical view.now) found.now }
{
    found.iter().any(|other| identical(view, other))
}

/// Takes up a view, unless one that is identical to it is there.
fn push_new(found: &mut Vec<View>, view: &View) -> Result<(), NoMemory>
    ensures { IfOk result (λ done. found.new.items ≡ with_first found.old.items view.now) }
{
    if !is_among(found.as_slice(), view) {
        found.push(view.copied())?;
    }
    Ok(())
}

fn push_output(list: &mut Vec<View>, view: &Option<View>) -> Result<(), NoMemory>
    ensures { IfOk result (λ done. list.new.items ≡ list.old.items ++ option_to_list view.now) }
{
    if let Some(view) = view {
        list.push(view.copied())?;
    }
    Ok(())
}

fn push_operand(list: &mut Vec<View>, operand: &Option<Operand>) -> Result<(), NoMemory>
    ensures { IfOk result (λ done. list.new.items ≡ list.old.items ++ view_of operand.now) }
{
    if let Some(Operand::Array(view)) = operand {
        list.push(view.copied())?;
    }
    Ok(())
}

fn push_views(list: &mut Vec<View>, op: &Op) -> Result<(), NoMemory>
    ensures { IfOk result (λ done. list.new.items ≡ list.old.items ++ views op.now) }
{
    push_output(list, &op.out)?;
    push_operand(list, &op.first)?;
    push_operand(list, &op.second)
}

/// The views of each operation, one operation after another.
fn all_views(alloc: Global, ops: &[Op]) -> Result<Vec<View>, NoMemory>
    ensures { IfOk result (λ all. all.items ≡ flat_map views ops.now) }
{
    let mut all = Vec::new(alloc);
    for op in ops {
        push_views(&mut all, op)?;
    }
    Ok(all)
}

/// The views up to identity, each class by the view that comes first.
fn distinct(alloc: Global, views: &[View]) -> Result<Vec<View>, NoMemory>
    ensures { IfOk result (λ found. found.items ≡ distinct identical views.now) }
{
    let mut found = Vec::new(alloc);
    for view in views {
        push_new(&mut found, view)?;
    }
    Ok(found)
}

/// One view of each class, the first.
fn first_views(alloc: Global, ops: &[Op]) -> Result<Vec<View>, NoMemory>
    ensures { IfOk result (λ found. found.items ≡ views_of ops.now) }
{
    let all = all_views(alloc, ops)?;
    distinct(alloc, &all)
}

/// Joins a bit for each view: whether it overlaps one view, whose elements are marked.
fn push_row(
    alloc: Global,
    meets: &mut Vec<bool>,
    views: &[View],
    with: &View,
) -> Result<(), NoMemory>
    ensures { IfOk result (λ done. meets.new.items ≡ meets.old.items ++ map (λ v. overlap v with.now) views.now) }
{
    let marks = marks_of(alloc, with)?;
    for view in views {
        meets.push(overlaps(view, with, &marks))?;
    }
    Ok(())
}

/// For each view, one after another, which views overlap it.
fn meeting(alloc: Global, views: &[View]) -> Result<Vec<bool>, NoMemory>
    ensures { IfOk result (λ meets. meets.items ≡ overlaps_of views.now) }
{
    let mut meets = Vec::new(alloc);
    for view in views {
        push_row(alloc, &mut meets, views, view)?;
    }
    Ok(meets)
}

impl Classes {
    /// The classes of a list of at most 256 operations. Want of memory is its one refusal.
    pub(crate) fn of(alloc: Global, ops: &[Op]) -> Result<Classes, NoMemory>
        requires { length ops.now ≤ 256 }
        ensures { IfOk result (λ classes. classes ≡ views_of ops.now) }
    {
        let views = first_views(alloc, ops)?;
        let meets = meeting(alloc, &views)?;
        Ok(Classes { views, meets })
    }

    /// The first view of each class.
    pub(crate) fn views(&self) -> &[View]
        ensures value { result.now ≡ self.now }
        ensures few { length self.now ≤ 768 }
    {
        self.views.as_slice()
    }

    /// The class of a view; `None` exactly where no view of the list is identical to it.
    pub(crate) fn class(&self, view: &View) -> Option<u32>
        ensures { result ≡ position (identical view.now) self.now }
    {
        for (at, other) in self.views.iter().enumerate() {
            if identical(view, other) {
                return Some(at as u32);
            }
        }
        None
    }

    /// Whether the views of two classes overlap.
    pub(crate) fn meets(&self, a: u32, b: u32) -> bool
        requires first { a < length self.now }
        requires second { b < length self.now }
        ensures { result ≡ overlap (view_in self.now a) (view_in self.now b) }
    {
        self.meets[b as usize * self.views.len() + a as usize]
    }
}
