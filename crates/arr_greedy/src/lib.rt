//! The plan of `greedy`.
//!
//! The promise: `greedy` gives exactly the plan that arr_heur defines (docs/PLANS.md, "Planners"). It keeps for each two blocks whether they
//! may be one, what one block in place of both saves where they may be merged, and which block reaches which by dependence, as bits; and for
//! each block the most that a pair of it with a later one may save.
//!
//! The definitions: specs/Ways.antt and specs/Reach.antt say what reach is and when two blocks may be merged, specs/Fast.antt what the tables
//! tell, specs/Bits.antt and specs/Tables.antt what they say row by row, specs/Standing.antt what is known of savings, specs/Blocks.antt and
//! specs/Start.antt how blocks stand and what the tables are at the beginning.
#![tactic(auto)]

mod choice;
mod grid;
mod merging;
mod plan;
mod pricing;
mod reach;
mod rows;
mod start;
mod tables;

pub use plan::greedy;

/// Want of memory.
pub use std::alloc::AllocError as NoMemory;
