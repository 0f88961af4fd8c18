//! Blocks of plans, ready to run.
//!
//! A [`Prepared`] is made from a list and a block of one of its legal plans. It holds all that running the block takes: the block's
//! operations, the views that it loads and stores, the bases for which no buffer is made, the numbers that it keeps as scratch, and, where
//! it has no serial operation, the machine that walks it in strips (arr_machine), else a lane for the one that it has. So a block that is prepared runs without taking memory.
//!
//! The promise: the operations are those of the block, in list order; reads, writes, contracted bases and the count of numbers are exactly
//! the definitions of arr_ops (docs/PLANS.md, "Cost" and "Running a block"), but that a block that copies a view some places on keeps no
//! number (`slides`). Only making one takes memory. `begin` and
//! `walk` run its machine from the first position to the last, and `shift` copies a view some places on. `blocks_weigh` is the law that what a
//! block reads and writes weighs, by the types of its own operations, what it weighs in its list.
//!
//! The definitions: `specs/Prepared.antt` has what a contract sees of a `Prepared` (`PreparedBlock`), which blocks are meant
//! (`IsBlockOf`), what holds of the operations of each (`may_share_block`), how many positions its strips have (`strip`), and how many numbers
//! it keeps (`kept_numbers`);
//! `specs/Laws.antt` has the law as a statement.
#![tactic(auto)]

mod contracted;
mod lanes;
mod laws;
mod making;
mod prepared;
mod scratch;
mod sliding;
mod storing;
mod tasks;

pub use laws::blocks_weigh;
pub use prepared::Prepared;
pub use sliding::writer;

/// Want of memory.
pub use std::alloc::AllocError as NoMemory;
