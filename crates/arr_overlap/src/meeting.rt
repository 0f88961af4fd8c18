ghost use Rattle.std.specs.Prelude.{◌≡◌, ◌<◌, IfOk, get_or, length, pos};
ghost use Rattle.arr_view.specs.Views.{elements, overlap, repeats};
ghost use Rattle.arr_overlap.specs.Marks.{Marks};

use crate::NoMemory;
use crate::filters::decided;
use crate::fronts::first_of_axis;
use crate::strides::told_by_strides;
use arr_sets::Bits;
use arr_view::{MOST_ELEMENTS, View, Walk};
use std::alloc::Global;

/// The elements of a view, marked in a row of bits one by one.
fn marked_singly(alloc: Global, view: &View) -> Result<Bits, NoMemory>
    ensures { IfOk result (λ bits. Marks bits (elements view.now)) }
{
    let _base = view.base();
    let mut bits = Bits::new(alloc, MOST_ELEMENTS)?;
    for element in Walk::new(view) {
        bits.insert(element);
    }
    Ok(bits)
}

/// The elements of a view, marked in a row of bits by runs along a dimension of stride 1, counted from 0.
fn marked_in_runs(alloc: Global, view: &View, axis: usize) -> Result<Bits, NoMemory>
    requires axis { axis < length view.now.lengths }
    requires stride { get_or view.now.strides axis (pos 0) ≡ pos 1 }
    ensures { IfOk result (λ bits. Marks bits (elements view.now)) }
{
    let run = view.shape()[axis];
    let mut bits = Bits::new(alloc, MOST_ELEMENTS)?;
    for first in Walk::new(&first_of_axis(view, axis)) {
        bits.insert_run(first, run);
    }
    Ok(bits)
}

/// The elements of a view, marked in a row of bits.
pub(crate) fn marked(alloc: Global, view: &View) -> Result<Bits, NoMemory>
    ensures { IfOk result (λ bits. Marks bits (elements view.now)) }
{
    for (axis, stride) in view.strides().iter().enumerate() {
        if *stride == 1 {
            return marked_in_runs(alloc, view, axis);
        }
    }
    marked_singly(alloc, view)
}

/// Whether two positions of the view have one element (docs/PLANS.md, "Views").
pub fn repeats(alloc: Global, view: &View) -> Result<bool, NoMemory>
    ensures { IfOk result (λ r. r ≡ repeats view.now) }
{
    if let Some(told) = told_by_strides(view) {
        return Ok(told);
    }
    let mut bits = Bits::new(alloc, MOST_ELEMENTS)?;
    for element in Walk::new(view) {
        if bits.has(element) {
            return Ok(true);
        }
        bits.insert(element);
    }
    Ok(false)
}

/// Whether the views have the same base and a common element (docs/PLANS.md, "Views").
pub fn overlaps(alloc: Global, a: &View, b: &View) -> Result<bool, NoMemory>
    ensures { IfOk result (λ r. r ≡ overlap a.now b.now) }
{
    if let Some(told) = decided(a, b) {
        return Ok(told);
    }
    let bits = marked(alloc, b)?;
    for element in Walk::new(a) {
        if bits.has(element) {
            return Ok(true);
        }
    }
    Ok(false)
}
