ghost use Rattle.std.specs.Prelude.{◌≡◌, ◌+◌, ◌-◌, ◌%◌, ◌≤◌, min};
ghost use Rattle.arr_sums.specs.Along.{width_of};

/// An axis of a shape: how many positions the dimensions before it have together, its own length, and how many the dimensions
/// after it have.
#[derive(Debug, Clone, Copy)]
pub struct Axis {
    pub outer: usize,
    pub length: usize,
    pub inner: usize,
}

impl Axis {
    /// How many positions lie side by side: those of a lane where no dimension comes after the axis, else those of a row.
    #[inline(always)]
    fn width(self) -> usize
        requires some { 1 ≤ self.length }
        requires inner { 1 ≤ self.inner }
        ensures value { result ≡ width_of self }
        ensures some { 1 ≤ result }
    {
        if self.inner == 1 {
            return self.length;
        }
        self.inner
    }

    /// How many of the next `left` positions, from a place on, lie side by side.
    #[inline(always)]
    pub(crate) fn run_from(self, place: usize, left: usize) -> usize
        requires some { 1 ≤ self.length }
        requires inner { 1 ≤ self.inner }
        requires left { 1 ≤ left }
        ensures value { result ≡ min (width_of self - place % width_of self) left }
        ensures some { 1 ≤ result }
        ensures together { place % width_of self + result ≤ width_of self }
    {
        let width = self.width();
        let room = width - place % width;
        room.min(left)
    }
}
