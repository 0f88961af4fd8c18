//! What tells whether two views meet without a walk over their elements.
ghost use Rattle.std.specs.Prelude.{ℕ, ◌≡◌, ◌==◌, ◌≤◌, ◌<◌, IfSome, IsTrue, Some, true, false};
ghost use Rattle.std.specs.Int.{IsGcd};
ghost use Rattle.arr_view.specs.Strided.{Strided};
ghost use Rattle.arr_view.specs.Views.{elements, identical, is_view, overlap, share};
ghost use Rattle.arr_overlap.specs.Filters.{divides, is_spaced, IsOutline};

use crate::alike::identical;
use crate::fronts::first_row;
use crate::pairs::told_by_steps;
use arr_view::View;

/// Where the elements of a view lie.
#[derive(Clone, Copy)]
pub(crate) struct Outline {
    /// The element at index 0 in every dimension.
    start: u32,
    /// The least element.
    least: u32,
    /// The greatest element.
    greatest: u32,
    /// Each stride is a multiple of it.
    step: u32,
    /// How many elements a row has: the greatest stride.
    row: u32,
    /// The column, below `row`, from which the elements lie at most `width` columns behind, round the end of the row.
    column: u32,
    /// See `column`.
    width: u32,
}

/// The greatest common divisor of two numbers; that of 0 and a number is the number.
fn common_divisor(a: u32, b: u32) -> u32
    ensures { IsGcd a b result }
{
    let mut divisor = a;
    let mut rest = b;
    while rest != 0 {
        let left = divisor % rest;
        divisor = rest;
        rest = left;
    }
    divisor
}

/// The greatest common divisor of a number and strides.
fn spacing(number: u32, strides: &[i32]) -> u32
    ensures number { IsTrue (divides result number) }
    ensures strides { IsTrue (is_spaced result strides.now) }
    ensures greatest { (d : ℕ) → IsTrue (divides d number) → IsTrue (is_spaced d strides.now)
        → IsTrue (divides d result) }
{
    let mut divisor = number;
    for stride in strides {
        divisor = common_divisor(divisor, stride.unsigned_abs());
    }
    divisor
}

/// The greatest stride, up or down, and at least 1.
fn row_length(strides: &[i32]) -> u32
    ensures { 1 ≤ result }
{
    let mut row = 1;
    for stride in strides {
        row = row.max(stride.unsigned_abs());
    }
    row
}

/// Where the elements of a view lie.
pub(crate) fn outline_of(view: &View) -> Outline
    ensures { IsOutline result view.now }
{
    let (least, greatest) = view.ends();
    let row = row_length(view.strides());
    let (first, last) = first_row(view, row).ends();
    Outline {
        start: view.start(),
        least,
        greatest,
        step: spacing(0, view.strides()),
        row,
        column: first % row,
        width: last - first,
    }
}

/// Whether the elements of one view lie all below those of the other.
fn lie_apart(a: &Outline, b: &Outline) -> bool
    ensures { (v w : Strided) → IsOutline a.now v → IsOutline b.now w → result ≡ true → share (elements v) (elements w)
        ≡ false }
{
    a.greatest < b.least || b.greatest < a.least
}

/// Whether all strides of both views are multiples of a number above 1 that the difference of their starts is no multiple of.
fn step_apart(a: &Outline, b: &Outline) -> bool
    ensures { (v w : Strided) → IsOutline a.now v → IsOutline b.now w → result ≡ true → share (elements v) (elements w)
        ≡ false }
{
    let step = common_divisor(a.step, b.step);
    step > 1 && a.start % step != b.start % step
}

/// Whether the elements lie in different columns of rows of one length.
fn columns_apart(a: &Outline, b: &Outline) -> bool
    requires { a.now.column < a.now.row }
    ensures { (v w : Strided) → IsOutline a.now v → IsOutline b.now w → result ≡ true → share (elements v) (elements w)
        ≡ false }
{
    if a.row != b.row {
        return false;
    }
    let row = u64::from(a.row);
    let gap = (u64::from(b.column) + (row - u64::from(a.column))) % row;
    u64::from(a.width) < gap && u64::from(b.width) + gap < row
}

/// Whether the outlines tell that two views have no common element: they lie in ranges apart, in steps that miss each other, or in
/// different columns.
pub(crate) fn told_apart(a: &Outline, b: &Outline) -> bool
    requires { a.now.column < a.now.row }
    ensures { (v w : Strided) → IsOutline a.now v → IsOutline b.now w → result ≡ true → share (elements v) (elements w)
        ≡ false }
{
    lie_apart(a, b) || step_apart(a, b) || columns_apart(a, b)
}

/// Whether the views overlap, where that is told without a walk: views of different bases don't, identical views do, and views don't
/// whose outlines tell them apart; of other views the strides may tell.
pub(crate) fn decided(a: &View, b: &View) -> Option<bool>
    ensures value { IfSome result (λ r. r ≡ overlap a.now b.now) }
    ensures bases { (a.now.base == b.now.base) ≡ false → result ≡ Some false }
    ensures lawful { IsTrue (is_view a.now) × IsTrue (is_view b.now) }
{
    if a.base() != b.base() {
        return Some(false);
    }
    if identical(a, b) {
        return Some(true);
    }
    if told_apart(&outline_of(a), &outline_of(b)) {
        return Some(false);
    }
    told_by_steps(a, b)
}
