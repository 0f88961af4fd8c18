//! The machine that runs a block of operations, strip by strip.
//!
//! A block walks the positions of its shape in strips. At each strip the numbers of the views that it reads are loaded into lanes, or read
//! where they stand in their base: where they stand side by side, and no operation writes or shows the view. Then each operation does its
//! [`Task`]: an element-wise operation computes a lane from lanes, a reduction folds a lane into accumulators, a scan goes on from what it
//! carried, and a SYNC puts a lane into its slot. Additions of which each takes what the one before it gives, and nobody else does, are computed in one loop, so
//! that the sums between them are never written.
//!
//! The promise: whatever columns of numbers the views of the block had before the strip, `run_tasks` leaves in each lane the column
//! that the operations compute there, in the numbers that the block keeps what its reductions and scans have folded up to the end of
//! the strip, and in the slots what its SYNCs show, each at its own point of the list. It takes no memory, and cannot fail.
//!
//! The definitions: `specs/Standing.antt` says where a walk stands between two operations (`Standing`), and `specs/Needed.antt` which
//! views are still read there; `specs/Kept.antt` what is kept for folds, and where; `specs/Shown.antt` what slots hold so far;
//! `specs/Tasks.antt` which task an operation has, and which lanes stand for its operands; `specs/Lent.antt` which views may be read where
//! they stand; `specs/Chains.antt` which additions follow one another.
#![tactic(auto)]

mod begin;
mod chain;
mod folds;
mod port;
mod run;
mod task;
mod walk;

pub use begin::begin_folds;
pub use port::Port;
pub use run::run_tasks;
pub use task::{Along, Task};
pub use walk::Machine;
