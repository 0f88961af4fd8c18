//! Shapes: one to four lengths.
ghost use Rattle.std.specs.Prelude.{◌≡◌, ◌<◌, IsTrue, length};
ghost use Rattle.arr_view.specs.Views.{dropped_axis, has_rank, shape_from};

use arrayvec::ArrayVec;
use std::marker::Model;

/// The lengths of one to four dimensions, the last of which runs fastest (docs/LANGUAGE.md, "Views").
#[derive(Debug, Drop, PartialEq, Eq)]
pub struct Shape {
    lengths: ArrayVec<u32, 4>,
}

impl Model for Shape {
    ghost use Rattle.std.specs.Prelude.{ℕ, List, IsTrue};
    ghost use Rattle.arr_view.specs.Views.{has_rank};

    ghost Value = { List ℕ };

    ghost view = { λ s. s.lengths.items };

    ghost invariant = { λ s. IsTrue (has_rank s.lengths.items) };

    ghost inverse = { λ lengths. record { lengths = record { items = lengths } } };
}

impl Shape {
    /// The shape of these lengths, the first dimension's first; `None` exactly where there aren't one to four of them
    /// (docs/LANGUAGE.md, "Views").
    pub fn new(lengths: &[u32]) -> Option<Shape>
        ensures { result ≡ shape_from lengths.now }
    {
        if lengths.is_empty() {
            return None;
        }
        let lengths = ArrayVec::try_from(lengths).ok()?;
        Some(Shape { lengths })
    }

    /// The shape of these lengths without an axis, counted from 0; [1] where that is all it has (docs/LANGUAGE.md, "Shapes").
    pub fn without_axis(lengths: &[u32], axis: usize) -> Shape
        requires rank { IsTrue (has_rank lengths.now) }
        requires axis { axis < length lengths.now }
        ensures { result ≡ dropped_axis axis lengths.now }
    {
        let mut kept = ArrayVec::new();
        for length in lengths {
            kept.push(*length);
        }
        kept.remove(axis);
        if kept.is_empty() {
            kept.push(1);
        }
        Shape { lengths: kept }
    }

    /// The lengths, the first dimension's first (docs/LANGUAGE.md, "Views").
    pub fn lengths(&self) -> &[u32]
        ensures value { result.now ≡ self.now }
        ensures rank { IsTrue (has_rank self.now) }
    {
        self.lengths.as_slice()
    }

    /// An equal shape (docs/MAP.md, "Copies").
    pub fn copied(&self) -> Shape
        ensures { result ≡ self.now }
    {
        Shape {
            lengths: copied_list(&self.lengths),
        }
    }
}

/// An equal list.
pub(crate) fn copied_list<T: Copy + Default + Drop>(list: &ArrayVec<T, 4>) -> ArrayVec<T, 4>
    ensures { result.items ≡ list.now.items }
{
    let mut copy = ArrayVec::new();
    for item in list.iter() {
        copy.push(*item);
    }
    copy
}
