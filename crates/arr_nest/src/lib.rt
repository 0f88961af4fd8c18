//! Nests of loops: the index lists of a shape, in row-major order.
//!
//! The promise: a [`Nest`] gives the index lists of a shape of rank R, each once, in the order in which views number their
//! elements. `nests_walk_views` is the law of that order: the elements of a view are those at the indices, one after another. No
//! call takes memory.
//!
//! The definitions: `specs/Indices.antt` has the index lists (`indices`), those behind one (`after`), and those that a nest still
//! gives (`to_come`); `element_at` of `arr_shape` is an element by its index.
#![tactic(auto)]

mod laws;
mod nest;

pub use laws::nests_walk_views;
pub use nest::Nest;
