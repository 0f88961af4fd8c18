//! Shapes from lengths, with one axis less, and from two shapes.
ghost use Rattle.std.specs.Prelude.{◌≡◌, ◌-◌, ◌<◌, ◌≤◌, ◌++◌, IsTrue, Some, None, cond, nat_le, true, length, replicate, get_or};
ghost use Rattle.std.specs.List.{list_all};
ghost use Rattle.arr_view.specs.Views.{positions};
ghost use Rattle.arr_shape.specs.Shapes.{is_shape, checked_shape, checked_axis, reduced, broadcast};

use crate::ShapeFault;
use arr_view::{MOST_ELEMENTS, Shape};
use arrayvec::ArrayVec;

/// A shape has at most this many positions.
const MOST: u64 = MOST_ELEMENTS as u64;

/// The shape of these lengths. Refusals, in this order: `RankRange` where there are not one to four lengths, `EmptyArray` where a
/// length is 0, `TooManyElements` where there are more than 1,048,576 positions.
pub fn checked_shape(lengths: &[u64]) -> Result<Shape, ShapeFault>
    ensures { result ≡ checked_shape lengths.now }
{
    if lengths.is_empty() || lengths.len() > 4 {
        return Err(ShapeFault::RankRange);
    }
    if lengths.contains(&0) {
        return Err(ShapeFault::EmptyArray);
    }
    let mut count: u64 = 1;
    let mut shape = ArrayVec::<u32, 4>::new();
    for length in lengths {
        if *length > MOST / count {
            return Err(ShapeFault::TooManyElements);
        }
        count *= *length;
        shape.push(*length as u32);
    }
    Shape::new(shape.as_slice()).ok_or(ShapeFault::RankRange)
}

/// The axis, counted from 0; `AxisRange` exactly where it is not below the number of dimensions.
pub fn checked_axis(shape: &[u32], axis: u64) -> Result<u8, ShapeFault>
    requires { IsTrue (is_shape shape.now) }
    ensures { result ≡ checked_axis shape.now axis }
{
    if axis < shape.len() as u64 {
        Ok(axis as u8)
    } else {
        Err(ShapeFault::AxisRange)
    }
}

/// The shape without one axis, which is counted from 0; a shape that has only that axis becomes [1]. `AxisRange` exactly where the
/// axis is not below the number of dimensions.
pub fn reduced(shape: &[u32], axis: u64) -> Result<Shape, ShapeFault>
    requires { IsTrue (is_shape shape.now) }
    ensures { result ≡ reduced shape.now axis }
{
    let axis = checked_axis(shape, axis)?;
    Ok(Shape::without_axis(shape, usize::from(axis)))
}

/// The entry at an axis of a list that stands for so many dimensions, the last of them its own; the others have the entry `absent`.
pub(crate) fn from_last<T: Copy + Drop>(list: &[T], rank: usize, axis: usize, absent: T) -> T
    requires long { length list.now ≤ rank }
    requires axis { axis < rank }
    ensures { result ≡ get_or (replicate (rank - length list.now) absent ++ list.now) axis absent }
{
    let missing = rank - list.len();
    if axis < missing {
        absent
    } else {
        list[axis - missing]
    }
}

/// The shape to which both can be spread. The lengths are matched from the last dimension on, and one that is missing counts as 1.
/// Two lengths match where they are equal or one is 1, and the greater of them is the result's. Refusals, in this order:
/// `ShapeMismatch` where two lengths do not match, `TooManyElements` where the result has more than 1,048,576 positions.
pub fn broadcast(left: &[u32], right: &[u32]) -> Result<Shape, ShapeFault>
    requires left { IsTrue (is_shape left.now) }
    requires right { IsTrue (is_shape right.now) }
    ensures { result ≡ broadcast left.now right.now }
{
    let rank = left.len().max(right.len());
    let mut lengths = ArrayVec::<u64, 4>::new();
    for axis in 0..rank {
        let here = from_last(left, rank, axis, 1);
        let there = from_last(right, rank, axis, 1);
        if here != there && here != 1 && there != 1 {
            return Err(ShapeFault::ShapeMismatch);
        }
        lengths.push(u64::from(here.max(there)));
    }
    checked_shape(lengths.as_slice())
}
