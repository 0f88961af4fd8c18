//! The quick planners: `linear` and `greedy`.
//!
//! The promise: the plan of `linear` is exactly the definition in specs/Planners.antt, which docs/PLANS.md, "Planners", states in words. The
//! laws (`laws.rt`) hold of every list: the plans of both definitions are legal.
#![tactic(auto)]

mod laws;
mod order;
mod plans;

pub use laws::{greedy_is_legal, greedy_saves, linear_is_legal};
pub use order::ordered;
pub use plans::linear;

/// Want of memory.
pub use std::alloc::AllocError as NoMemory;
