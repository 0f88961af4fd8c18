//! A view that is copied to another, some places before or behind it in its base.
ghost use Rattle.std.specs.Prelude.{◌≡◌, ◌+◌, ◌*◌, ◌<◌, ◌≤◌, ◌^◌, ◌||◌, false, int_lt, length, nat_le, true};
ghost use Rattle.std.specs.Cmp.Lexicographic.{pointwise};
ghost use Rattle.std.specs.List.{list_all};
ghost use Rattle.std.specs.Ordering.{int_eq};
ghost use Rattle.arr_view.specs.Views.{elements, positions, same_lists};
ghost use Rattle.arr_ops.specs.Memory.{read};
ghost use Rattle.arr_picks.specs.Picks.{AllBelow};
ghost use Rattle.arr_store.specs.Buffers.{cell_of};
ghost use Rattle.arr_store.specs.Cells.{size_at, width_at};
ghost use Rattle.arr_store.specs.Runs.{IsOf};
ghost use Rattle.arr_store.specs.Stored.{cells};
ghost use Rattle.arr_strips.specs.Strips.{put_at};
ghost use Rattle.arr_shift.specs.Shifts.{is_shift, reach, rises};

use arr_rows::Rows;
use arr_store::{Buffer, Store};
use arr_view::{View, offset};

/// How far the last place of some dimensions is from the first.
fn reach(lengths: &[u32], strides: &[i32]) -> i128
    requires same_rank { length strides.now ≡ length lengths.now }
    requires lengths { list_all (nat_le 1) lengths.now ≡ true }
    requires few { length lengths.now ≤ 4 }
    ensures { result ≡ reach lengths.now strides.now }
{
    let mut sum: i128 = 0;
    for (axis, length) in lengths.iter().enumerate() {
        sum += offset(*length - 1, strides[axis]) as i128;
    }
    sum
}

/// Whether a step of a dimension, if it is longer than 1, leads beyond the inner ones.
fn leads_beyond(length: u32, stride: i32, inner: i128) -> bool
    ensures { result ≡ (nat_le length 1 || int_lt inner stride) }
{
    if length <= 1 {
        return true;
    }
    inner < stride as i128
}

/// Whether places rise in row-major order.
fn rises(lengths: &[u32], strides: &[i32]) -> bool
    requires same_rank { length strides.now ≡ length lengths.now }
    requires lengths { list_all (nat_le 1) lengths.now ≡ true }
    requires few { length lengths.now ≤ 4 }
    ensures { result ≡ rises lengths.now strides.now }
{
    for (axis, length) in lengths.iter().enumerate() {
        let inner = reach(&lengths[axis + 1..], &strides[axis + 1..]);
        if !leads_beyond(*length, strides[axis], inner) {
            return false;
        }
    }
    true
}

fn same_lengths(left: &[u32], right: &[u32]) -> bool
    ensures { result ≡ same_lists left.now right.now }
{
    left == right
}

fn same_strides(left: &[i32], right: &[i32]) -> bool
    ensures { result ≡ pointwise int_eq left.now right.now }
{
    left == right
}

/// Whether two views have one base, one shape and the same strides, and places that rise in row-major order: each place of the one is
/// as far from that of the other (docs/PLANS.md, "Strips by rows"). It takes no memory.
pub fn is_shift(out: &View, input: &View) -> bool
    ensures { result ≡ is_shift out.now input.now }
{
    if out.base() != input.base() {
        return false;
    }
    if !same_lengths(out.shape(), input.shape()) {
        return false;
    }
    if !same_strides(out.strides(), input.strides()) {
        return false;
    }
    rises(out.shape(), out.strides())
}

/// Positions of a view that are left: the first of them, and how many there are.
#[derive(Clone, Copy)]
struct Stretch {
    first: u32,
    count: usize,
}

impl Stretch {
    /// Takes away some of the positions, those at the end or at the front: as many as there are, but no more than `most`.
    fn cut(&mut self, most: usize, at_end: bool) -> Stretch
        requires few { self.old.first + self.old.count < 2 ^ 32 }
        requires left { 1 ≤ self.old.count }
        requires some { 1 ≤ most }
        ensures some { 1 ≤ result.count }
        ensures most { result.count ≤ most }
        ensures left { self.old.count ≡ self.new.count + result.count }
        ensures front { at_end ≡ false → result.first ≡ self.old.first }
        ensures behind { at_end ≡ false → self.new.first ≡ self.old.first + result.count }
        ensures end { at_end ≡ true → result.first ≡ self.old.first + self.new.count }
        ensures before { at_end ≡ true → self.new.first ≡ self.old.first }
    {
        let count = if self.count < most { self.count } else { most };
        let front = self.first;
        self.count -= count;
        if at_end {
            return Stretch {
                first: front + self.count as u32,
                count,
            };
        }
        self.first = front + count as u32;
        Stretch {
            first: front,
            count,
        }
    }
}

/// Copies a view to one that stands some places before or behind it in its base, by a lane of its type that holds `room` numbers: each
/// number goes to its place as it was before. Where the output stands behind the input, strips go from the end to the front, so that what
/// is stored is not read again. The bytes loaded and stored rise by the width of the type for each position (docs/PLANS.md, "Strips by
/// rows").
pub fn shift(out: &View, input: &View, store: &mut Store, lane: &mut Buffer, room: usize)
    requires shift { is_shift out.now input.now ≡ true }
    requires base { IsOf (cell_of lane.old).elem (cells store.old out.now.base) }
    requires inside { AllBelow (size_at (cells store.old out.now.base)) (elements out.now) }
    requires inside_input { AllBelow (size_at (cells store.old out.now.base)) (elements input.now) }
    requires some { 1 ≤ room }
    requires lane { room ≤ length (cell_of lane.old).numbers }
    requires loads { store.old.loads < 2 ^ 61 }
    requires saves { store.old.stores < 2 ^ 61 }
    ensures bases { cells store.new ≡ put_at out.now.base (elements out.now)
        (read (cells store.old out.now.base) (elements input.now)) (cells store.old) }
    ensures elem { (cell_of lane.new).elem ≡ (cell_of lane.old).elem }
    ensures length { length (cell_of lane.new).numbers ≡ length (cell_of lane.old).numbers }
    ensures loads { store.new.loads
        ≡ store.old.loads + positions out.now.lengths * width_at (cells store.old out.now.base) }
    ensures stores { store.new.stores
        ≡ store.old.stores + positions out.now.lengths * width_at (cells store.old out.now.base) }
    ensures made { store.new.made ≡ store.old.made }
{
    let to = Rows::of(out);
    let from = Rows::of(input);
    let at_end = input.start() < out.start();
    let mut left = Stretch {
        first: 0,
        count: out.positions() as usize,
    };
    while left.count > 0 {
        let strip = left.cut(room, at_end);
        from.load(store, strip.first, strip.count, lane);
        to.store(store, strip.first, strip.count, lane);
    }
}
