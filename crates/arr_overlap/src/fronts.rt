//! Parts of a view at the first indices of its dimensions.
ghost use Rattle.std.specs.Prelude.{◌≡◌, ◌≤◌, IsTrue, set};
ghost use Rattle.arr_view.specs.Views.{is_view};
ghost use Rattle.arr_overlap.specs.Filters.{fits_in, front_of, row_lengths};

use arr_view::View;
use arrayvec::ArrayVec;

/// The part of a view at the first so many indices of each dimension.
fn front(view: &View, lengths: &[u32]) -> View
    requires { IsTrue (fits_in lengths.now view.now.lengths) }
    ensures value { result ≡ front_of view.now lengths.now }
    ensures lawful { IsTrue (is_view view.now) }
{
    View::new(view.base(), view.start(), lengths, view.strides()).unwrap()
}

/// The part of a view at index 0 of each dimension that leads from row to row, in rows of so many elements.
pub(crate) fn first_row(view: &View, row: u32) -> View
    requires { 1 ≤ row }
    ensures value { result ≡ front_of view.now (row_lengths row view.now.lengths view.now.strides) }
    ensures lawful { IsTrue (is_view view.now) }
{
    let strides = view.strides();
    let mut lengths = ArrayVec::<u32, 4>::new();
    for (axis, length) in view.shape().iter().enumerate() {
        let leads_on = strides[axis].unsigned_abs() % row == 0;
        lengths.push(if leads_on { 1 } else { *length });
    }
    front(view, lengths.as_slice())
}

/// The part of a view at index 0 of one dimension, counted from 0.
pub(crate) fn first_of_axis(view: &View, axis: usize) -> View
    ensures value { result ≡ front_of view.now (set view.now.lengths axis 1) }
    ensures lawful { IsTrue (is_view view.now) }
{
    let mut lengths = ArrayVec::<u32, 4>::new();
    for (dimension, length) in view.shape().iter().enumerate() {
        lengths.push(if dimension == axis { 1 } else { *length });
    }
    front(view, lengths.as_slice())
}
