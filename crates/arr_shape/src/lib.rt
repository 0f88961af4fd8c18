//! The rules of shapes: which shapes there are, what becomes of a shape or a view that is reduced, joined with another, spread,
//! sliced, turned round or reshaped, and which views of a base have given strides.
//!
//! Promise: each call answers exactly by its definition, which says for every argument which refusal comes, the first of them where
//! several could, and else which shape or view. A reshaped view has the elements of the one that it was made from. No call takes
//! memory or time in the elements of a view, and none can overflow, whatever the bounds and steps of a slice and the strides of a view
//! are.
//!
//! Definitions: specs/Shapes.antt has shapes from lengths, one axis less and two shapes; specs/Views.antt has spreading, turning
//! round, reshaping and views by strides; specs/Slices.antt has slices, from the list of the indices that each of them takes.
#![tactic(auto)]

mod bounds;
mod fault;
mod lengths;
mod slices;
mod strided_view;
mod views;

pub use bounds::Slice;
pub use fault::ShapeFault;
pub use lengths::{broadcast, checked_axis, checked_shape, reduced};
pub use slices::slice;
pub use strided_view::strided;
pub use views::{reshape, spread, transpose};
