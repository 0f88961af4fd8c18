//! Views of a base by their strides.
ghost use Rattle.std.specs.Prelude.{◌≡◌, ◌≤◌, IfOk, IsTrue, map, nat_lt, option_map, pos, length};
ghost use Rattle.std.specs.List.{list_all};
ghost use Rattle.arr_view.specs.Views.{elements, places};
ghost use Rattle.arr_shape.specs.Shapes.{is_shape};
ghost use Rattle.arr_shape.specs.Views.{narrow, narrowed, strided};

use crate::ShapeFault;
use arr_view::{MOST_ELEMENTS, View};
use arrayvec::ArrayVec;

/// The stride that a view keeps: 0 for a dimension of length 1. `None` where it leads past every base.
fn narrow(length: u32, stride: i128) -> Option<i32>
    ensures { result ≡ narrow length stride }
{
    if length == 1 {
        return Some(0);
    }
    if stride.unsigned_abs() >= u128::from(MOST_ELEMENTS) {
        return None;
    }
    Some(stride as i32)
}

/// The strides that a view keeps; `None` where one of them leads past every base.
fn narrowed(shape: &[u32], strides: &[i128]) -> Option<ArrayVec<i32, 4>>
    requires same_rank { length strides.now ≡ length shape.now }
    requires rank { length shape.now ≤ 4 }
    ensures { option_map (λ kept. kept.items) result ≡ narrowed shape.now strides.now }
{
    let mut kept = ArrayVec::new();
    for (axis, length) in shape.iter().enumerate() {
        kept.push(narrow(*length, strides[axis])?);
    }
    Some(kept)
}

/// Whether every element lies below a number: the greatest decides.
fn lies_below(view: &View, count: u32) -> bool
    ensures { result ≡ list_all (λ element. nat_lt element count) (elements view.now) }
{
    let (_, greatest) = view.ends();
    greatest < count
}

/// The view of a base of `length` elements that starts at an element, counted from 0, and has these lengths and strides, in
/// elements, those of the first dimension first. Refusals, in this order: `RankRange` exactly where there are not as many strides as
/// lengths, `OutsideBase` exactly where an element does not lie in the base, which has at most 1,048,576. A stride of a dimension of
/// length 1 leads to no element; whatever it is, it is kept as 0 (docs/LANGUAGE.md, "Views").
pub fn strided(
    base: u32,
    length: u32,
    start: u64,
    shape: &[u32],
    strides: &[i128],
) -> Result<View, ShapeFault>
    requires { IsTrue (is_shape shape.now) }
    ensures view { result ≡ strided base length start shape.now strides.now }
    ensures elements { IfOk result (λ v. map pos (elements v) ≡ places shape.now strides.now (pos start)) }
{
    if strides.len() != shape.len() {
        return Err(ShapeFault::RankRange);
    }
    if start >= u64::from(MOST_ELEMENTS) {
        return Err(ShapeFault::OutsideBase);
    }
    let kept = narrowed(shape, strides).ok_or(ShapeFault::OutsideBase)?;
    let view = View::new(base, start as u32, shape, kept.as_slice()).ok_or(
        ShapeFault::OutsideBase,
    )?;
    if !lies_below(&view, length) {
        return Err(ShapeFault::OutsideBase);
    }
    Ok(view)
}
