//! Classes of identical views, counted from 0 in the order of first sight.
ghost use Rattle.std.specs.Prelude.{ℕ, ◌<◌, ◌≡◌, ◌≤◌, IfOk, OnOk, IsSome, None, length, map, position, get_or, take};
ghost use Rattle.arr_view.specs.Views.{identical, overlap};
ghost use Rattle.arr_overlap.specs.Classes.{firsts, overlaps_among, view_at, AreMarks, AreOutlines};

use crate::NoMemory;
use crate::filters::{Outline, outline_of, told_apart};
use crate::meeting::marked;
use crate::pairs::told_by_steps;
use arr_sets::Bits;
use arr_view::View;
use indexmap::IndexSet;
use std::alloc::Global;
use std::marker::Model;

/// Classes are made of at most so many views.
pub const MOST_VIEWS: u32 = 1_048_576;

/// The classes of some views: two views are of one class exactly where they are identical (docs/PLANS.md, "Views").
/// A contract sees the first view of each class, in the order of first sight.
#[derive(Drop)]
pub struct Classes {
    views: IndexSet<View>,
    rows: Vec<Bits>,
}

impl Model for Classes {
    ghost use Rattle.std.specs.Prelude.{◌≡◌, ◌≤◌, List, true, length};
    ghost use Rattle.std.specs.List.{list_all};
    ghost use Rattle.arr_view.specs.Strided.{Strided};
    ghost use Rattle.arr_view.specs.Views.{is_view};
    ghost use Rattle.arr_overlap.specs.Classes.{overlaps_among};
    ghost use Rattle.arr_overlap.specs.declared.classes.TheConstants.{MOST_VIEWS};

    ghost Value = { List Strided };

    ghost view = { λ c. c.views.keys };

    ghost invariant = { λ c. (length c.views.keys ≤ MOST_VIEWS) × (list_all is_view c.views.keys ≡ true) × (c.rows.items ≡ overlaps_among c.views.keys) };
}

/// Where the elements of each view lie.
fn all_outlines(alloc: Global, views: &[View]) -> Result<Vec<Outline>, NoMemory>
    ensures { IfOk result (λ outlines. AreOutlines (length views.now) outlines.items views.now) }
{
    let mut outlines = Vec::new(alloc);
    for view in views {
        outlines.push(outline_of(view))?;
    }
    Ok(outlines)
}

/// Rows for so many views, none of them marked yet.
fn unmarked(alloc: Global, views: &[View]) -> Result<Vec<Option<Bits>>, NoMemory>
    ensures { IfOk result (λ marks. AreMarks marks.items views.now) }
{
    let mut marks = Vec::new(alloc);
    for _view in views {
        marks.push(None)?;
    }
    Ok(marks)
}

/// Marks the elements of the view at a place, unless they are marked.
fn mark(
    alloc: Global,
    views: &[View],
    marks: &mut Vec<Option<Bits>>,
    at: usize,
) -> Result<(), NoMemory>
    requires at { at < length views.now }
    requires marked { AreMarks marks.old.items views.now }
    ensures marked { OnOk result (AreMarks marks.new.items views.now) }
    ensures there { OnOk result (IsSome (get_or marks.new.items at None)) }
    ensures others { OnOk result ((i : ℕ) → IsSome (get_or marks.old.items i None)
        → IsSome (get_or marks.new.items i None)) }
{
    if marks[at].is_none() {
        marks[at] = Some(marked(alloc, &views[at])?);
    }
    Ok(())
}

/// Whether the views at two places overlap. Where neither their outlines nor their strides tell, the elements of both are marked.
fn met(
    alloc: Global,
    views: &[View],
    outlines: &[Outline],
    marks: &mut Vec<Option<Bits>>,
    at: usize,
    other: usize,
) -> Result<bool, NoMemory>
    requires at { at < length views.now }
    requires other { other < length views.now }
    requires outlined { AreOutlines (length views.now) outlines.now views.now }
    requires marked { AreMarks marks.old.items views.now }
    ensures value { IfOk result (λ r. r ≡ overlap (view_at views.now at) (view_at views.now other)) }
    ensures marked { OnOk result (AreMarks marks.new.items views.now) }
{
    if at == other {
        return Ok(true);
    }
    if views[at].base() != views[other].base() {
        return Ok(false);
    }
    if told_apart(&outlines[at], &outlines[other]) {
        return Ok(false);
    }
    if let Some(told) = told_by_steps(&views[at], &views[other]) {
        return Ok(told);
    }
    mark(alloc, views, marks, at)?;
    mark(alloc, views, marks, other)?;
    match (&marks[at], &marks[other]) {
        (Some(here), Some(there)) => Ok(here.meets(there)),
        _ => Ok(false),
    }
}

/// The views that overlap the view at a place; what the rows of the views before it tell is read there.
fn row_of(
    alloc: Global,
    views: &[View],
    outlines: &[Outline],
    marks: &mut Vec<Option<Bits>>,
    rows: &[Bits],
) -> Result<Bits, NoMemory>
    requires more { length rows.now < length views.now }
    requires few { length views.now ≤ MOST_VIEWS }
    requires outlined { AreOutlines (length views.now) outlines.now views.now }
    requires marked { AreMarks marks.old.items views.now }
    requires rows { rows.now ≡ map (λ v. map (overlap v) views.now) (take (length rows.now) views.now) }
    ensures row { IfOk result (λ row. row ≡ map (overlap (view_at views.now (length rows.now))) views.now) }
    ensures marked { OnOk result (AreMarks marks.new.items views.now) }
{
    let at = rows.len();
    let mut row = Bits::new(alloc, views.len() as u32)?;
    for other in 0..views.len() {
        let meets = if other < at {
            rows[other].has(at as u32)
        } else {
            met(alloc, views, outlines, marks, at, other)?
        };
        if meets {
            row.insert(other as u32);
        }
    }
    Ok(row)
}

/// For each view a row of the views that overlap it.
fn rows_of(alloc: Global, views: &[View]) -> Result<Vec<Bits>, NoMemory>
    requires { length views.now ≤ MOST_VIEWS }
    ensures { IfOk result (λ rows. rows.items ≡ overlaps_among views.now) }
{
    let outlines = all_outlines(alloc, views)?;
    let mut marks = unmarked(alloc, views)?;
    let mut rows = Vec::new(alloc);
    for _view in views {
        rows.push(row_of(
            alloc,
            views,
            outlines.as_slice(),
            &mut marks,
            rows.as_slice(),
        )?)?;
    }
    Ok(rows)
}

impl Classes {
    /// The classes of at most `MOST_VIEWS` views; want of memory where they can't be kept (docs/PLANS.md, "Views").
    pub fn of(alloc: Global, views: &[View]) -> Result<Classes, NoMemory>
        requires { length views.now ≤ MOST_VIEWS }
        ensures { IfOk result (λ c. c ≡ firsts views.now) }
    {
        let mut first_views = IndexSet::new(alloc);
        for view in views {
            first_views.insert(view.copied())?;
        }
        let rows = rows_of(alloc, first_views.as_slice())?;
        Ok(Classes {
            views: first_views,
            rows,
        })
    }

    /// The class of a view, counted from 0; `None` exactly where no view identical to it was given. It takes no memory.
    pub fn class(&self, view: &View) -> Option<u32>
        ensures { result ≡ position (identical view.now) self.now }
    {
        let _base = view.base();
        let index = self.views.get_index_of(view)?;
        Some(index as u32)
    }

    /// How many classes there are. It takes no memory.
    pub fn count(&self) -> u32
        ensures { result ≡ length self.now }
    {
        self.views.len() as u32
    }

    /// Whether the views of two classes overlap. It takes no memory.
    pub fn meets(&self, a: u32, b: u32) -> bool
        requires first { a < length self.now }
        requires second { b < length self.now }
        ensures { result ≡ overlap (view_at self.now a) (view_at self.now b) }
    {
        self.rows[a as usize].has(b)
    }
}
