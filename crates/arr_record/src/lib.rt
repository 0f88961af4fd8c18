//! From the steps of a script to the parts that run one after another.
//!
//! The promise: of the steps of an accepted script `parts` gives exactly the parts of `parts_of` (specs/Parts.antt): lists of operations,
//! with FREEs and slots, and the gathers and scatters between them. Each list is formed and has 1 to 256 operations, and each part fits
//! the memory that it meets; run one after another from the empty memory they print what the script prints when nothing is freed or put
//! off, and leave no base (specs/Runs.antt).
//! `docs/PLANS.md`, "Flushes", states the same rules in words.
#![tactic(auto)]

mod owners;
mod part;
mod recording;
mod writer;

pub use part::{Ops, Part};
pub use recording::parts;
use std::alloc::AllocError as NoMemory;
