ghost use Rattle.std.specs.Prelude.{◌≡◌, ◌+◌, ◌*◌, ◌%◌, ◌<◌, ◌≤◌, IsTrue, length};
ghost use Rattle.arr_num.specs.Kinds.{is_fold};
ghost use Rattle.arr_sums.specs.Kept.{AreOf, ChangesWithin};
ghost use Rattle.arr_sums.specs.Along.{FoldsAlong, width_of};

use crate::axis::Axis;
use crate::folds::{fold_lane, fold_row};
use arr_lanes::Lane;
use arr_num::Code;
use arr_view::MOST_ELEMENTS;

/// Folds the first `count` numbers of `source`, which stand at the positions from `position` on, into the accumulators of a fold
/// along an axis (docs/LANGUAGE.md, "Opcodes"), which stand among other numbers from the place `at` on. The accumulators, and the
/// positions, stand in row-major order.
pub fn fold_strip<T: Lane>(
    code: Code,
    sums: &mut [i128],
    at: usize,
    source: &[T],
    position: usize,
    count: usize,
    axis: Axis,
)
    requires code { IsTrue (is_fold code) }
    requires source { count ≤ length source.now }
    requires sums { at + axis.outer * axis.inner ≤ length sums.old }
    requires typed { AreOf T.elem sums.old at (axis.outer * axis.inner) }
    requires few { axis.outer * axis.inner ≤ MOST_ELEMENTS }
    requires some { 1 ≤ axis.length }
    requires inner { 1 ≤ axis.inner }
    requires inside { position + count ≤ axis.outer * (axis.length * axis.inner) }
    requires short { position + count ≤ MOST_ELEMENTS }
    ensures changes { ChangesWithin T.elem at (axis.outer * axis.inner) sums.old sums.new }
    ensures gathered { FoldsAlong T.elem T.number code axis at sums.old sums.new source.now position 0 count }
{
    let mut done = 0;
    while done < count {
        let place = position + done;
        let run = axis.run_from(place, count - done);
        fold_part(code, sums, at, source, done, place, run, axis);
        done += run;
    }
}

/// Folds positions that lie side by side, from one on: into one accumulator, or each into its own.
#[inline(always)]
fn fold_part<T: Lane>(
    code: Code,
    sums: &mut [i128],
    at: usize,
    source: &[T],
    from: usize,
    place: usize,
    run: usize,
    axis: Axis,
)
    requires code { IsTrue (is_fold code) }
    requires source { from + run ≤ length source.now }
    requires sums { at + axis.outer * axis.inner ≤ length sums.old }
    requires typed { AreOf T.elem sums.old at (axis.outer * axis.inner) }
    requires few { axis.outer * axis.inner ≤ MOST_ELEMENTS }
    requires some { 1 ≤ axis.length }
    requires inner { 1 ≤ axis.inner }
    requires together { place % width_of axis + run ≤ width_of axis }
    requires inside { place < axis.outer * (axis.length * axis.inner) }
    ensures changes { ChangesWithin T.elem at (axis.outer * axis.inner) sums.old sums.new }
    ensures gathered { FoldsAlong T.elem T.number code axis at sums.old sums.new source.now place from run }
{
    if axis.inner == 1 {
        fold_lane_part(code, sums, at, source, from, place, run, axis);
    } else {
        fold_row_part(code, sums, at, source, from, place, run, axis);
    }
}

/// Folds a part of a lane, from a position on.
#[inline(always)]
fn fold_lane_part<T: Lane>(
    code: Code,
    sums: &mut [i128],
    at: usize,
    source: &[T],
    from: usize,
    place: usize,
    run: usize,
    axis: Axis,
)
    requires code { IsTrue (is_fold code) }
    requires source { from + run ≤ length source.now }
    requires sums { at + axis.outer * axis.inner ≤ length sums.old }
    requires typed { AreOf T.elem sums.old at (axis.outer * axis.inner) }
    requires some { 1 ≤ axis.length }
    requires inner { axis.inner ≡ 1 }
    requires lane { place % axis.length + run ≤ axis.length }
    requires inside { place < axis.outer * (axis.length * axis.inner) }
    ensures changes { ChangesWithin T.elem at (axis.outer * axis.inner) sums.old sums.new }
    ensures gathered { FoldsAlong T.elem T.number code axis at sums.old sums.new source.now place from run }
{
    fold_lane(code, sums, at + place / axis.length, source, from, run);
}

/// Folds a part of a row, from a position on.
#[inline(always)]
fn fold_row_part<T: Lane>(
    code: Code,
    sums: &mut [i128],
    at: usize,
    source: &[T],
    from: usize,
    place: usize,
    run: usize,
    axis: Axis,
)
    requires code { IsTrue (is_fold code) }
    requires source { from + run ≤ length source.now }
    requires sums { at + axis.outer * axis.inner ≤ length sums.old }
    requires typed { AreOf T.elem sums.old at (axis.outer * axis.inner) }
    requires few { axis.outer * axis.inner ≤ MOST_ELEMENTS }
    requires some { 1 ≤ axis.length }
    requires inner { 1 ≤ axis.inner }
    requires row { place % axis.inner + run ≤ axis.inner }
    requires inside { place < axis.outer * (axis.length * axis.inner) }
    ensures changes { ChangesWithin T.elem at (axis.outer * axis.inner) sums.old sums.new }
    ensures gathered { FoldsAlong T.elem T.number code axis at sums.old sums.new source.now place from run }
{
    let row = place / axis.inner / axis.length * axis.inner;
    fold_row(
        code,
        sums,
        at + (row + place % axis.inner),
        source,
        from,
        run,
    );
}
