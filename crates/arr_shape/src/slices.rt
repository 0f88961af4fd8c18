//! Slices of views.
ghost use Rattle.std.specs.Prelude.{◌≡◌, ◌+◌, ◌-◌, ◌<◌, ◌≤◌, ◌/◌, ◌≤ℤ◌, ◌==◌, nat_le, true, Ok, Err, pos, negsuc, cond, unsigned_abs, IfOk, length, Option, Some, None, suc};
ghost use Rattle.std.specs.List.{list_all};
ghost use Rattle.std.specs.Result.{result_map_both};
ghost use Rattle.arr_view.specs.Views.{most_elements, positions};
ghost use Rattle.arr_shape.specs.Slices.{cut, cut_up, cut_down, whole_cut, all_cuts, cut_view, IsCut, AreCuts, sliced_element, slice};
ghost use Rattle.arr_shape.specs.Views.{AgreeAt, element_at};
ghost use Rattle.arr_view.specs.Strided.{Strided};

use crate::ShapeFault;
use crate::bounds::{Cut, Slice};
use arr_view::{View, offset};
use arrayvec::ArrayVec;

/// The cut of which the indices lie at most `span` from the first.
fn stepping(first: u32, span: u32, step: i128) -> Cut
    requires span { span < most_elements }
    requires step { 1 ≤ unsigned_abs step }
    ensures first { result.first ≡ first }
    ensures count { result.count ≡ span / unsigned_abs step + 1 }
    ensures step { result.step ≡ cond (span / unsigned_abs step == 0) (pos 0) step }
{
    let width = step.unsigned_abs();
    if width > u128::from(span) {
        return Cut {
            first,
            count: 1,
            step: 0,
        };
    }
    Cut {
        first,
        count: span / width as u32 + 1,
        step: step as i32,
    }
}

/// The cut of a slice with a step above 0.
fn rising(length: u64, slice: &Slice) -> Result<Cut, ShapeFault>
    requires some { 1 ≤ length }
    requires few { length ≤ most_elements }
    requires up { pos 1 ≤ℤ slice.now.step }
    ensures cut { result ≡ cut_up length slice.now.start slice.now.stop (unsigned_abs slice.now.step) }
    ensures lawful { IfOk result (IsCut length) }
{
    let start = slice.start.unwrap_or(0);
    let stop = slice.stop.unwrap_or(length);
    if start > length || stop > length {
        return Err(ShapeFault::SliceRange);
    }
    if start >= stop {
        return Err(ShapeFault::EmptyArray);
    }
    Ok(stepping(start as u32, (stop - 1 - start) as u32, slice.step))
}

/// The cut of a slice with a step below 0.
fn falling(length: u64, slice: &Slice) -> Result<Cut, ShapeFault>
    requires some { 1 ≤ length }
    requires few { length ≤ most_elements }
    requires down { slice.now.step ≤ℤ negsuc 0 }
    ensures cut { result ≡ cut_down length slice.now.start slice.now.stop (unsigned_abs slice.now.step - 1) }
    ensures lawful { IfOk result (IsCut length) }
{
    let last = length - 1;
    let start = slice.start.unwrap_or(last);
    let floor = match slice.stop {
        Some(stop) if stop > last => return Err(ShapeFault::SliceRange),
        Some(stop) => stop + 1,
        None => 0,
    };
    if start > last {
        return Err(ShapeFault::SliceRange);
    }
    if start < floor {
        return Err(ShapeFault::EmptyArray);
    }
    Ok(stepping(start as u32, (start - floor) as u32, slice.step))
}

/// What a slice takes of a dimension. Refusals, in this order: `ZeroStep`, `SliceRange`, `EmptyArray`.
fn cut(length: u32, slice: &Slice) -> Result<Cut, ShapeFault>
    requires some { 1 ≤ length }
    requires few { length ≤ most_elements }
    ensures cut { result ≡ cut length slice.now }
    ensures lawful { IfOk result (IsCut length) }
{
    let length = u64::from(length);
    if slice.step > 0 {
        rising(length, slice)
    } else if slice.step < 0 {
        falling(length, slice)
    } else {
        Err(ShapeFault::ZeroStep)
    }
}

/// What the slices take of each dimension; those without a slice stay whole.
fn all_cuts(lengths: &[u32], slices: &[Slice]) -> Result<ArrayVec<Cut, 4>, ShapeFault>
    requires rank { length lengths.now ≤ 4 }
    requires some { list_all (nat_le 1) lengths.now ≡ true }
    requires few { positions lengths.now ≤ most_elements }
    ensures cuts { result_map_both (λ cuts. cuts.items) (λ e. e) result ≡ all_cuts lengths.now slices.now }
    ensures lawful { IfOk result (λ cuts. AreCuts lengths.now cuts.items) }
{
    let mut cuts = ArrayVec::new();
    for (axis, length) in lengths.iter().enumerate() {
        if axis < slices.len() {
            cuts.push(cut(*length, &slices[axis])?);
        } else {
            cuts.push(Cut {
                first: 0,
                count: *length,
                step: if *length == 1 { 0 } else { 1 },
            });
        }
    }
    Ok(cuts)
}

/// The view of the indices that the cuts take.
fn cut_view(view: &View, cuts: &[Cut]) -> View
    requires { AreCuts view.now.lengths cuts.now }
    ensures { result ≡ cut_view view.now cuts.now }
{
    let mut start = i64::from(view.start());
    let mut lengths = ArrayVec::<u32, 4>::new();
    let mut strides = ArrayVec::<i32, 4>::new();
    for (axis, cut) in cuts.iter().enumerate() {
        let stride = view.strides()[axis];
        start += offset(cut.first, stride);
        lengths.push(cut.count);
        strides.push((i64::from(cut.step) * i64::from(stride)) as i32);
    }
    View::new(
        view.base(),
        start as u32,
        lengths.as_slice(),
        strides.as_slice(),
    )
    .unwrap()
}

/// The view of the indices that the slices take, of the first dimensions in turn; the other dimensions stay whole. Refusals, in this
/// order: `RankRange` where there are more slices than dimensions; then for each slice in turn `ZeroStep` for a step of 0,
/// `SliceRange` where a bound lies above the length, or above the last index for a step below 0, and `EmptyArray` where no index is
/// left.
pub fn slice(view: &View, slices: &[Slice]) -> Result<View, ShapeFault>
    ensures view { result ≡ slice view.now slices.now }
    ensures elements { IfOk result
        (λ (cut : Strided). AgreeAt cut.lengths (element_at cut) (sliced_element view.now slices.now)) }
{
    if slices.len() > view.shape().len() {
        return Err(ShapeFault::RankRange);
    }
    let cuts = all_cuts(view.shape(), slices)?;
    Ok(cut_view(view, cuts.as_slice()))
}
