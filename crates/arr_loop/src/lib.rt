//! Blocks of plans, run on a store.
//!
//! [`run_plan`] runs a list by a legal plan, block after block: [`open`] makes the buffers that a block needs, and then [`run`] walks it in
//! strips, or [`run_serial`] runs it, if it has a serial operation.
//!
//! The promise: `run_plan` leaves the bases and slots that the list's operations leave, one after another, counts as loaded and stored exactly
//! what the plan's blocks read and write, and makes a buffer for each base that no block contracts. `open` makes exactly the buffers of the
//! bases that the block creates and does not free, and nothing else changes; where it is refused, some first of them may stand. `run` and
//! `run_serial` leave the bases and slots that the block's operations leave, take no memory, and count as loaded what the views that the
//! block reads weigh, and as stored what those that it writes weigh. `serial_blocks` is the law of blocks with a serial operation: that
//! operation stands among FREEs alone, and decides what the block reads, writes and leaves. `buffers_made` is the law that the blocks of a
//! plan make one buffer for each base that none of them contracts.
//!
//! The definitions: `specs/Opened.antt` has what opening leaves (`OpenedFor`), `specs/Ready.antt` from where a block may run (`IsOpen`),
//! `specs/Sums.antt` where the results of reductions stand when a walk ends, `specs/Laws.antt` the laws; the operations of a block are
//! those of arr_contract, and what they do is `eager` of arr_ops (docs/PLANS.md, "Running a block").
#![tactic(auto)]

mod along;
mod closing;
mod computing;
mod laws;
mod opening;
mod plans;
mod serial;
mod walking;

pub use laws::{buffers_made, serial_blocks};
pub use opening::open;
pub use plans::run_plan;
pub use serial::run_serial;
pub use walking::run;

/// Want of memory.
pub use std::alloc::AllocError as NoMemory;
