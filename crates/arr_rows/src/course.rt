//! Where a walk by rows stands.
ghost use Rattle.std.specs.Prelude.{◌≡◌, ◌+◌, ◌<◌, ◌≤◌};
ghost use Rattle.arr_view.specs.Views.{positions};
ghost use Rattle.arr_rows.specs.Courses.{IsAt, IsRunOf};
ghost use Rattle.arr_rows.specs.Rows.{spot_at};

use crate::dimension::Dimension;
use arr_store::Run;
use arr_view::{View, offset};

/// A position of a view, with its column in its row, the turn of that row in its page, and the first place of the row. Behind the
/// last position there is no row.
#[derive(Debug, Clone, Copy)]
pub(crate) struct Course {
    pub row: Dimension,
    pub page: Dimension,
    pub position: u32,
    pub column: u32,
    pub turn: u32,
    pub first: i64,
}

impl Course {
    /// The next numbers, as many of them as lie in the row, and no more than `most`; the walk then stands behind them.
    #[inline]
    pub(crate) fn next_run(&mut self, view: &View, most: usize) -> Run
        requires at { IsAt view.now self.old }
        requires some { 1 ≤ most }
        requires within { self.old.position + most ≤ positions view.now.lengths }
        ensures some { 1 ≤ result.count }
        ensures most { result.count ≤ most }
        ensures run { IsRunOf view.now self.old.position result }
        ensures at { IsAt view.now self.new }
        ensures position { self.new.position ≡ self.old.position + result.count }
    {
        let room = (self.row.length - self.column) as usize;
        let count = if room < most { room } else { most };
        let start = self.first + offset(self.column, self.row.stride);
        let run = Run {
            start: start as u32,
            stride: self.row.stride,
            count,
        };
        self.pass(view, count as u32);
        run
    }

    /// Goes on behind some numbers of the row.
    #[inline]
    fn pass(&mut self, view: &View, count: u32)
        requires at { IsAt view.now self.old }
        requires some { 1 ≤ count }
        requires row { self.old.column + count ≤ self.old.row.length }
        requires within { self.old.position + count ≤ positions view.now.lengths }
        ensures at { IsAt view.now self.new }
        ensures position { self.new.position ≡ self.old.position + count }
    {
        self.position += count;
        self.column += count;
        if self.column < self.row.length {
            return;
        }
        self.column = 0;
        self.turn += 1;
        if self.turn < self.page.length {
            self.first += i64::from(self.page.stride);
            return;
        }
        self.turn = 0;
        self.first = place_or_zero(view, self.position);
    }
}

/// The place of a view at a position, and 0 behind the last.
pub(crate) fn place_or_zero(view: &View, position: u32) -> i64
    ensures { position < positions view.now.lengths → result ≡ spot_at view.now position }
{
    if position < view.positions() {
        i64::from(view.element(position))
    } else {
        0
    }
}
