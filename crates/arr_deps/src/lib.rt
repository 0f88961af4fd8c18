//! The dependence graph of a list: which operations depend, which may share a block, and which are serial.
//!
//! The promise: a `Graph` keeps a copy of its list, and answers `dep`, `fusible` and `serial` in a few steps, exactly as arr_ops defines
//! them (docs/PLANS.md, "Dependence" and "Serial operations and fusibility"). Only making it takes memory. It compares classes of
//! identical views, never elements: each view is given to its class once.
//!
//! The definitions are those of arr_ops, specs/Ops.antt; specs/Graph.antt names operations by their numbers, and specs/Classed.antt says what
//! the classes of views tell.
#![tactic(auto)]

mod classed;
mod graph;
mod pairs;
mod tables;

pub use graph::Graph;

/// Want of memory.
pub use std::alloc::AllocError as NoMemory;
