//! What blocks read and write outside themselves, and what plans cost.
//!
//! The promise: a `Costs` keeps a copy of its list; `reads`, `writes`, `block_cost` and `cost` are exactly the definitions of arr_ops
//! (docs/PLANS.md, "Cost"), and `saving` is what two blocks cost less their union, which is never below 0.
//!
//! Of each operation a `Costs` keeps, in numbers, which views it touches and what they weigh, so that what a block costs is found without its
//! operations: each class of identical views is marked once it is counted.
//!
//! `block_ops`, `block_reads`, `block_writes` and `block_views` answer for the operations of one block, without a `Costs`, `view_weight` for
//! one view, and `elem_of` for one base.
//!
//! The definitions are those of arr_ops, specs/Costs.antt; specs/Touches.antt says which numbers stand for the views.
#![tactic(auto)]

mod block;
mod costs;
mod distinct;
mod footprints;
mod tally;
mod touches;
mod weights;

pub use block::{block_reads, block_views, block_writes};
pub use costs::{Costs, block_ops};
pub use footprints::Footprint;
pub use weights::{elem_of, view_weight};

/// Want of memory.
pub use std::alloc::AllocError as NoMemory;
