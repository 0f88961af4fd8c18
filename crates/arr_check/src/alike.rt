//! Two views.
ghost use Rattle.std.specs.Prelude.{◌≡◌, IfOk, false, true, get_or};
ghost use Rattle.arr_view.specs.Views.{elements, identical, overlap, share};
ghost use Rattle.arr_check.specs.Classed.{Marks};

use crate::NoMemory;
use arr_view::{View, Walk};
use std::alloc::Global;

/// Whether two views have the same base, the same shape, and the same element at each position. Their parts decide: a stride of a
/// dimension of length 1 is always kept as 0.
pub(crate) fn identical(a: &View, b: &View) -> bool
    ensures { result ≡ identical a.now b.now }
{
    if a.base() != b.base() {
        return false;
    }
    a == b
}

/// The elements of a view, marked in a row of bits up to the greatest.
pub(crate) fn marks_of(alloc: Global, view: &View) -> Result<Vec<bool>, NoMemory>
    ensures { IfOk result (λ marks. Marks marks.items (elements view.now)) }
{
    let (_least, greatest) = view.ends();
    let mut marks = vec![in alloc; false; greatest as usize + 1]?;
    for element in Walk::new(view) {
        marks[element as usize] = true;
    }
    Ok(marks)
}

fn has_mark(marks: &[bool], element: u32) -> bool
    ensures { result ≡ get_or marks.now element false }
{
    let at = element as usize;
    at < marks.len() && marks[at]
}

/// Whether the elements of one view lie all below those of the other.
fn lie_apart(a: &View, b: &View) -> bool
    ensures { result ≡ true → share (elements a.now) (elements b.now) ≡ false }
{
    let (least, greatest) = a.ends();
    let (other_least, other_greatest) = b.ends();
    if greatest < other_least {
        return true;
    }
    other_greatest < least
}

/// Whether two views have the same base and a common element, where the elements of the second are marked.
pub(crate) fn overlaps(a: &View, b: &View, marks: &[bool]) -> bool
    requires { Marks marks.now (elements b.now) }
    ensures { result ≡ overlap a.now b.now }
{
    if a.base() != b.base() {
        return false;
    }
    if lie_apart(a, b) {
        return false;
    }
    for element in Walk::new(a) {
        if has_mark(marks, element) {
            return true;
        }
    }
    false
}
