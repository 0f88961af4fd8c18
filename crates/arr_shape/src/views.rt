//! Views that are spread, turned round or reshaped.
ghost use Rattle.std.specs.Prelude.{◌≡◌, ◌≤◌, IfOk, IsTrue, length, reverse};
ghost use Rattle.arr_shape.specs.Shapes.{is_shape};
ghost use Rattle.arr_shape.specs.Views.{AgreeAt, element_at, spread_element, turned_element, spread, transpose, reshape};
ghost use Rattle.arr_view.specs.Strided.{Strided};
ghost use Rattle.arr_view.specs.Views.{elements};

use crate::ShapeFault;
use crate::lengths::from_last;
use arr_view::View;
use arrayvec::ArrayVec;

/// The view spread to a shape. The lengths are matched from the last dimension on, and one that the view lacks counts as 1.
/// `ShapeMismatch` exactly where the view has more dimensions than the shape, or one of its lengths is neither the shape's nor 1. A
/// dimension that is spread has stride 0, so each of its indices gives the element at index 0.
pub fn spread(view: &View, shape: &[u32]) -> Result<View, ShapeFault>
    requires { IsTrue (is_shape shape.now) }
    ensures view { result ≡ spread view.now shape.now }
    ensures elements { IfOk result (λ wide. AgreeAt shape.now (element_at wide) (spread_element view.now)) }
{
    if view.shape().len() > shape.len() {
        return Err(ShapeFault::ShapeMismatch);
    }
    let mut strides = ArrayVec::<i32, 4>::new();
    for (axis, length) in shape.iter().enumerate() {
        let own = from_last(view.shape(), shape.len(), axis, 1);
        if own == *length {
            strides.push(from_last(view.strides(), shape.len(), axis, 0));
        } else if own == 1 {
            strides.push(0);
        } else {
            return Err(ShapeFault::ShapeMismatch);
        }
    }
    View::new(view.base(), view.start(), shape, strides.as_slice()).ok_or(ShapeFault::ShapeMismatch)
}

/// The same list, turned round.
fn reversed<T: Copy + Default + Drop>(list: &[T]) -> ArrayVec<T, 4>
    requires { length list.now ≤ 4 }
    ensures { result.items ≡ reverse list.now }
{
    let mut turned = ArrayVec::new();
    for item in list {
        turned.insert(0, *item);
    }
    turned
}

/// The view with its dimensions in the opposite order: the element at an index is that of the view at the index turned round.
pub fn transpose(view: &View) -> View
    ensures view { result ≡ transpose view.now }
    ensures elements { AgreeAt view.now.lengths (turned_element result) (element_at view.now) }
{
    let shape = reversed(view.shape());
    let strides = reversed(view.strides());
    View::new(
        view.base(),
        view.start(),
        shape.as_slice(),
        strides.as_slice(),
    )
    .unwrap()
}

/// The same elements in another shape. Refusals, in this order: `CountMismatch` exactly where the shape has another number of
/// positions than the view, `NotContiguous` exactly where the view's elements are not consecutive and rising in row-major order.
pub fn reshape(view: &View, shape: &[u32]) -> Result<View, ShapeFault>
    requires { IsTrue (is_shape shape.now) }
    ensures view { result ≡ reshape view.now shape.now }
    ensures elements { IfOk result (λ (reshaped : Strided). elements reshaped ≡ elements view.now) }
{
    let whole = View::whole(view.base(), shape).unwrap();
    if whole.positions() != view.positions() {
        return Err(ShapeFault::CountMismatch);
    }
    if !view.is_gapless() {
        return Err(ShapeFault::NotContiguous);
    }
    View::new(view.base(), view.start(), shape, whole.strides()).ok_or(ShapeFault::NotContiguous)
}
