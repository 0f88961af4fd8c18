//! The shapes that arrays have.

ghost use Rattle.std.specs.Prelude.{◌≡◌, ◌<◌, ◌≤◌, ◌∷◌, [], IsTrue, length};
ghost use Rattle.arr_shape.specs.Shapes.{is_shape, dropped_axis, checked_shape, broadcast};

use arr_shape::{ShapeFault, broadcast, checked_shape};
use arr_view::{MOST_ELEMENTS, Shape, View};
use std::marker::Model;

/// One to four lengths, none of them 0, and at most 1,048,576 elements.
#[derive(Debug, Drop)]
pub(crate) struct ArrayShape {
    lengths: Shape,
}

impl Model for ArrayShape {
    ghost use Rattle.std.specs.Prelude.{ℕ, List, IsTrue};
    ghost use Rattle.arr_shape.specs.Shapes.{is_shape};

    ghost Value = { List ℕ };

    ghost view = { λ s. s.lengths };

    ghost invariant = { λ s. IsTrue (is_shape s.lengths) };
}

impl ArrayShape {
    /// The shape of a view.
    pub(crate) fn of(view: &View) -> ArrayShape
        ensures { result ≡ view.now.lengths }
    {
        ArrayShape {
            lengths: Shape::new(view.shape()).unwrap(),
        }
    }

    /// The shape of a view without an axis, counted from 0.
    pub(crate) fn without_axis(view: &View, axis: u8) -> ArrayShape
        requires { axis < length view.now.lengths }
        ensures { result ≡ dropped_axis axis view.now.lengths }
    {
        ArrayShape {
            lengths: Shape::without_axis(view.shape(), usize::from(axis)),
        }
    }

    /// The shape of so many elements in a line.
    pub(crate) fn line(count: u32) -> ArrayShape
        requires some { 1 ≤ count }
        requires few { count ≤ MOST_ELEMENTS }
        ensures { result ≡ count ∷ [] }
    {
        ArrayShape {
            lengths: Shape::new(&[count]).unwrap(),
        }
    }

    /// The shape of these lengths.
    pub(crate) fn of_lengths(lengths: &[u64]) -> Result<ArrayShape, ShapeFault>
        ensures { result ≡ checked_shape lengths.now }
    {
        let lengths = checked_shape(lengths)?;
        Ok(ArrayShape { lengths })
    }

    /// The shape to which two views can be spread.
    pub(crate) fn of_both(left: &View, right: &View) -> Result<ArrayShape, ShapeFault>
        ensures { result ≡ broadcast left.now.lengths right.now.lengths }
    {
        let lengths = broadcast(left.shape(), right.shape())?;
        Ok(ArrayShape { lengths })
    }

    /// The lengths, the first dimension's first.
    pub(crate) fn lengths(&self) -> &[u32]
        ensures value { result.now ≡ self.now }
        ensures lawful { IsTrue (is_shape self.now) }
    {
        self.lengths.lengths()
    }
}
