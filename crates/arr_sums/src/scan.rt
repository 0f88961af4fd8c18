ghost use Rattle.std.specs.Prelude.{ℕ, ◌≡◌, ◌+◌, ◌*◌, ◌%◌, ◌<◌, ◌≤◌, IsTrue, cond, get_or, length, pos, true};
ghost use Rattle.arr_num.specs.Kinds.{is_fold};
ghost use Rattle.arr_num.specs.Numbers.{in_type};
ghost use Rattle.arr_native.specs.Entries.{entry};
ghost use Rattle.arr_sums.specs.Kept.{AreOf, ChangesWithin};
ghost use Rattle.arr_sums.specs.Along.{ScansAlong, StepsRow, width_of};

use crate::axis::Axis;
use crate::folds::{copy, fold_row, refill, scan_run};
use arr_lanes::Lane;
use arr_num::Code;
use arr_view::MOST_ELEMENTS;

/// The results of a scan along an axis (docs/LANGUAGE.md, "Opcodes") at the first `count` positions from `position` on, from the
/// first `count` numbers of `source`, into the front of `out`. The carries are the results of the positions just before, one for
/// each position of a row after the axis, among other numbers from the place `at` on; the first strip may find any numbers of the
/// type there. Each lane begins with `start`.
pub fn scan_strip<T: Lane>(
    code: Code,
    out: &mut [T],
    carries: &mut [i128],
    at: usize,
    source: &[T],
    start: T,
    position: usize,
    count: usize,
    axis: Axis,
)
    requires code { IsTrue (is_fold code) }
    requires out { count ≤ length out.old }
    requires source { count ≤ length source.now }
    requires carries { at + axis.inner ≤ length carries.old }
    requires typed { AreOf T.elem carries.old at axis.inner }
    requires some { 1 ≤ axis.length }
    requires inner { 1 ≤ axis.inner }
    requires inside { position + count ≤ axis.outer * (axis.length * axis.inner) }
    requires short { position + count ≤ MOST_ELEMENTS }
    ensures out { length out.new ≡ length out.old }
    ensures carries { ChangesWithin T.elem at axis.inner carries.old carries.new }
    ensures scanned { ScansAlong T.elem T.number code start axis at carries.old carries.new out.new source.now position 0 count }
{
    let mut done = 0;
    while done < count {
        let place = position + done;
        let run = axis.run_from(place, count - done);
        scan_part(
            code, out, carries, at, source, start, done, place, run, axis,
        );
        done += run;
    }
}

/// Scans positions that lie side by side, from one on.
#[inline(always)]
fn scan_part<T: Lane>(
    code: Code,
    out: &mut [T],
    carries: &mut [i128],
    at: usize,
    source: &[T],
    start: T,
    from: usize,
    place: usize,
    run: usize,
    axis: Axis,
)
    requires code { IsTrue (is_fold code) }
    requires out { from + run ≤ length out.old }
    requires source { from + run ≤ length source.now }
    requires carries { at + axis.inner ≤ length carries.old }
    requires typed { AreOf T.elem carries.old at axis.inner }
    requires some { 1 ≤ axis.length }
    requires inner { 1 ≤ axis.inner }
    requires run { 1 ≤ run }
    requires together { place % width_of axis + run ≤ width_of axis }
    requires inside { place + run ≤ axis.outer * (axis.length * axis.inner) }
    ensures out { length out.new ≡ length out.old }
    ensures carries { ChangesWithin T.elem at axis.inner carries.old carries.new }
    ensures before { (l : ℕ) → l < from → entry T.number out.new l ≡ entry T.number out.old l }
    ensures scanned { ScansAlong T.elem T.number code start axis at carries.old carries.new out.new source.now place from run }
{
    if axis.inner == 1 {
        scan_lane_part(
            code, out, carries, at, source, start, from, place, run, axis,
        );
    } else {
        scan_row_part(
            code, out, carries, at, source, start, from, place, run, axis,
        );
    }
}

/// Scans a part of a lane, from a position on.
#[inline(always)]
fn scan_lane_part<T: Lane>(
    code: Code,
    out: &mut [T],
    carries: &mut [i128],
    at: usize,
    source: &[T],
    start: T,
    from: usize,
    place: usize,
    run: usize,
    axis: Axis,
)
    requires code { IsTrue (is_fold code) }
    requires out { from + run ≤ length out.old }
    requires source { from + run ≤ length source.now }
    requires carries { at + axis.inner ≤ length carries.old }
    requires typed { AreOf T.elem carries.old at axis.inner }
    requires some { 1 ≤ axis.length }
    requires inner { axis.inner ≡ 1 }
    requires run { 1 ≤ run }
    requires lane { place % axis.length + run ≤ axis.length }
    requires inside { place + run ≤ axis.outer * (axis.length * axis.inner) }
    ensures out { length out.new ≡ length out.old }
    ensures carries { ChangesWithin T.elem at axis.inner carries.old carries.new }
    ensures before { (l : ℕ) → l < from → entry T.number out.new l ≡ entry T.number out.old l }
    ensures scanned { ScansAlong T.elem T.number code start axis at carries.old carries.new out.new source.now place from run }
{
    let before = fold_before(carries, at, start, place % axis.length == 0);
    carries[at] = scan_run(code, out, source, from, run, before).widen();
}

/// What the fold of a lane holds before a position: its start where the position is the first of the lane.
#[inline(always)]
fn fold_before<T: Lane>(carries: &[i128], at: usize, start: T, first: bool) -> T
    requires there { at < length carries.now }
    requires typed { in_type T.elem (get_or carries.now at (pos 0)) ≡ true }
    ensures { T.number result ≡ cond first (T.number start) (get_or carries.now at (pos 0)) }
{
    if first {
        return start;
    }
    T::narrow(carries[at])
}

/// Scans a part of a row, from a position on.
#[inline(always)]
fn scan_row_part<T: Lane>(
    code: Code,
    out: &mut [T],
    carries: &mut [i128],
    at: usize,
    source: &[T],
    start: T,
    from: usize,
    place: usize,
    run: usize,
    axis: Axis,
)
    requires code { IsTrue (is_fold code) }
    requires out { from + run ≤ length out.old }
    requires source { from + run ≤ length source.now }
    requires carries { at + axis.inner ≤ length carries.old }
    requires typed { AreOf T.elem carries.old at axis.inner }
    requires some { 1 ≤ axis.length }
    requires inner { 1 ≤ axis.inner }
    requires row { place % axis.inner + run ≤ axis.inner }
    requires inside { place + run ≤ axis.outer * (axis.length * axis.inner) }
    ensures out { length out.new ≡ length out.old }
    ensures carries { ChangesWithin T.elem at axis.inner carries.old carries.new }
    ensures before { (l : ℕ) → l < from → entry T.number out.new l ≡ entry T.number out.old l }
    ensures scanned { ScansAlong T.elem T.number code start axis at carries.old carries.new out.new source.now place from run }
{
    let column = at + place % axis.inner;
    let first = place / axis.inner % axis.length == 0;
    step_row(code, carries, column, source, from, run, start, first);
    copy(out, from, carries, column, run);
}

/// Folds one number into each of some carries side by side, each of which begins anew where the row is the first of its lanes.
#[inline(always)]
fn step_row<T: Lane>(
    code: Code,
    carries: &mut [i128],
    at: usize,
    source: &[T],
    from: usize,
    count: usize,
    start: T,
    first: bool,
)
    requires code { IsTrue (is_fold code) }
    requires carries { at + count ≤ length carries.old }
    requires typed { AreOf T.elem carries.old at count }
    requires source { from + count ≤ length source.now }
    ensures { StepsRow T.elem T.number code start first source.now from carries.old at count carries.new }
{
    if first {
        refill(carries, at, start, count);
    }
    fold_row(code, carries, at, source, from, count);
}
