//! Views that are loaded and stored by rows.
ghost use Rattle.std.specs.Prelude.{◌≡◌, ℕ, ◌+◌, ◌*◌, ◌<◌, ◌≤◌, ◌^◌, IfSome, get_or, length, pos, take};
ghost use Rattle.arr_view.specs.Views.{elements, positions};
ghost use Rattle.arr_picks.specs.Picks.{AllBelow};
ghost use Rattle.arr_store.specs.Buffers.{cell_of};
ghost use Rattle.arr_store.specs.Cells.{number_at, size_at, width_at};
ghost use Rattle.arr_store.specs.Runs.{IsOf};
ghost use Rattle.arr_store.specs.Stored.{cells};
ghost use Rattle.arr_strips.specs.Columns.{place_at};
ghost use Rattle.arr_strips.specs.Strips.{part, put_at};
ghost use Rattle.arr_rows.specs.Courses.{IsAt};
ghost use Rattle.arr_rows.specs.Rows.{HasRows, spot_at};

use crate::course::{Course, place_or_zero};
use crate::dimension::{Dimension, last_as_one};
use arr_store::{Buffer, Store};
use arr_view::{View, offset};
use std::marker::Model;

/// A view made ready for loading and storing by rows (docs/PLANS.md, "Strips by rows"). Its innermost dimensions that lie behind
/// one another are one row, and the next ones that do so are one page of rows.
#[derive(Debug, Drop)]
pub struct Rows {
    view: View,
    row: Dimension,
    page: Dimension,
}

impl Model for Rows {
    ghost use Rattle.arr_view.specs.Strided.{Strided};

    ghost Value = { Strided };

    ghost view = { λ r. r.view };

    ghost use Rattle.arr_rows.specs.Rows.{HasRows};

    ghost invariant = { λ r. HasRows r.view r.row r.page };
}

impl Rows {
    /// A view as rows (docs/PLANS.md, "Strips by rows").
    pub fn of(view: &View) -> Rows
        ensures { result ≡ view.now }
    {
        let (row, left) = last_as_one(view.shape(), view.strides(), view.shape().len());
        let (page, _outer) = last_as_one(view.shape(), view.strides(), left);
        Rows {
            view: view.copied(),
            row,
            page,
        }
    }

    /// Puts the numbers at some positions of the view, from `position` on, counted from 0, to the front of a lane of the type of its
    /// base; the bytes loaded rise by the width of that type for each (docs/PLANS.md, "Strips by rows").
    pub fn load(&self, store: &mut Store, position: u32, count: usize, lane: &mut Buffer)
        requires base { IsOf (cell_of lane.old).elem (cells store.old self.now.base) }
        requires inside { AllBelow (size_at (cells store.old self.now.base)) (elements self.now) }
        requires within { position + count ≤ positions self.now.lengths }
        requires lane { count ≤ length (cell_of lane.old).numbers }
        requires room { store.old.loads < 2 ^ 62 }
        ensures each { (i : ℕ) → i < count → get_or (cell_of lane.new).numbers i (pos 0)
            ≡ number_at (cells store.old self.now.base) (place_at self.now (position + i)) }
        ensures behind { (k : ℕ) → count ≤ k
            → get_or (cell_of lane.new).numbers k (pos 0) ≡ get_or (cell_of lane.old).numbers k (pos 0) }
        ensures elem { (cell_of lane.new).elem ≡ (cell_of lane.old).elem }
        ensures length { length (cell_of lane.new).numbers ≡ length (cell_of lane.old).numbers }
        ensures bases { store.new.bases ≡ store.old.bases }
        ensures loads { store.new.loads ≡ store.old.loads + count * width_at (cells store.old self.now.base) }
        ensures stores { store.new.stores ≡ store.old.stores }
        ensures made { store.new.made ≡ store.old.made }
    {
        let mut course = self.course(position);
        let mut done = 0;
        while done < count {
            let run = course.next_run(&self.view, count - done);
            store.load_run(self.view.base(), run, lane, done);
            done += run.count;
        }
    }

    /// Puts the numbers at the front of a lane of the type of the view's base to some positions of the view, from `position` on, counted
    /// from 0, one after another; the bytes stored rise by the width of that type for each (docs/PLANS.md, "Strips by rows").
    pub fn store(&self, store: &mut Store, position: u32, count: usize, lane: &Buffer)
        requires base { IsOf (cell_of lane.now).elem (cells store.old self.now.base) }
        requires inside { AllBelow (size_at (cells store.old self.now.base)) (elements self.now) }
        requires within { position + count ≤ positions self.now.lengths }
        requires lane { count ≤ length (cell_of lane.now).numbers }
        requires room { store.old.stores < 2 ^ 62 }
        ensures bases { cells store.new ≡ put_at self.now.base (part self.now position count)
            (take count (cell_of lane.now).numbers) (cells store.old) }
        ensures loads { store.new.loads ≡ store.old.loads }
        ensures stores { store.new.stores ≡ store.old.stores + count * width_at (cells store.old self.now.base) }
        ensures made { store.new.made ≡ store.old.made }
    {
        let mut course = self.course(position);
        let mut done = 0;
        while done < count {
            let run = course.next_run(&self.view, count - done);
            store.store_run(self.view.base(), run, lane, done);
            done += run.count;
        }
    }

    /// The base of the view.
    #[inline]
    pub fn base(&self) -> u32
        ensures { result ≡ self.now.base }
    {
        self.view.base()
    }

    /// How many numbers stand side by side in each row of the view; 1 where those of a row do not.
    #[inline]
    pub fn row_length(&self) -> u32
        ensures { 1 ≤ result }
    {
        if self.row.stride == 1 {
            self.row.length
        } else {
            1
        }
    }

    /// Where the first of some numbers of the view stands in its base, counted from 0, if all of them stand side by side in one row:
    /// those at `count` positions from `position` on, counted from 0 (docs/PLANS.md, "Strips by rows").
    #[inline]
    pub fn place(&self, position: u32, count: usize) -> Option<u32>
        requires some { 1 ≤ count }
        requires within { position + count ≤ positions self.now.lengths }
        ensures { IfSome result (λ start. (i : ℕ) → i < count → place_at self.now (position + i) ≡ start + i) }
    {
        let mut course = self.course(position);
        let run = course.next_run(&self.view, count);
        if run.stride == 1 && run.count == count {
            Some(run.start)
        } else {
            None
        }
    }

    /// A walk that stands at a position, or behind the last.
    #[inline]
    pub(crate) fn course(&self, position: u32) -> Course
        requires { position ≤ positions self.now.lengths }
        ensures at { IsAt self.now result }
        ensures position { result.position ≡ position }
    {
        let line = position / self.row.length;
        let column = position % self.row.length;
        let first = first_of_row(&self.view, self.row, self.page, line);
        Course {
            row: self.row,
            page: self.page,
            position,
            column,
            turn: line % self.page.length,
            first,
        }
    }
}

/// The first place of a row, counted from 0; 0 behind the last row. In the first page it costs no division.
#[inline]
fn first_of_row(view: &View, row: Dimension, page: Dimension, line: u32) -> i64
    requires rows { HasRows view.now row page }
    requires line { line * row.length ≤ positions view.now.lengths }
    ensures { line * row.length < positions view.now.lengths → result ≡ spot_at view.now (line * row.length) }
{
    if line < page.length {
        return i64::from(view.start()) + offset(line, page.stride);
    }
    place_or_zero(view, line * row.length)
}
