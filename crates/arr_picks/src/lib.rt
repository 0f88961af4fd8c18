//! Numbers that an index names, picked out of native numbers.
//!
//! A number of an index names a position of a view: its remainder by how many positions there are ([`Index`] in its own width,
//! [`position_named`] of any number). [`picked`] goes through the numbers of an index and picks the number at each position that is
//! named, in the width that it is kept in; [`element_at`] gives where a position stands in the base, counted where a view has no gap.
//!
//! The promise: the numbers are those of the definition, `picked` of arr_ops, one after another. Only `picked` takes memory: for its
//! result, and for the numbers of a view with gaps that it puts in order first. An Err is want of it.
//!
//! The definitions: `position_named` and `picked` of arr_ops; `specs/Picks.antt` has the numbers of a list at places (`numbers_of`), the
//! one that an index names (`number_named`), and places that lie below a number (`AllBelow`).
#![tactic(auto)]

mod elements;
mod picking;
mod position;

pub use elements::element_at;
pub use picking::picked;
pub use position::{Index, position_named};
