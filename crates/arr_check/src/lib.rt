//! The checker of certificates: it judges a proof while it is read, and trusts nothing but the list.
//!
//! The promise: `check` reads the certificate of one list and answers exactly what arr_law's definition answers to it: yes with the cost and
//! the bound, or no with the line and the kind of the first wrong record. A yes shows that the plan read is legal and costs what is
//! answered, and that no legal plan costs less than the bound (`yes_is_sure`), whatever the source tells of its bytes. `finish` answers
//! what stands behind the last certificate. Neither reads past the line that decides, and what is kept is the tables of the list and what is
//! known at one place of the tree, never the records.
//!
//! What fuses, depends and costs is found anew, by other code than that of the planners: each view is given to its class, and classes of one
//! base are told apart by a walk (`classes`, `alike`); two operations are asked for by their classes (`pairs`), blocks are weighed by looking at
//! every operation (`plan`). A list of 256 operations with views of small arrays takes some 2 MiB; the marks of a view take a byte for each
//! element up to its greatest. To mark and to walk, classes of one base take time in the product of their number and their elements.
//!
//! The definitions, in `specs/`: `Judged` (a verdict is the answer to what was read, and what a yes shows); the others are for private calls:
//! `Stages`, `Steps`, `Known`, `Leaves`, `Places`, `Tables`, `Classed`. `docs/CERTIFICATES.md` says in words what is judged.
#![tactic(auto)]

mod alike;
mod checking;
mod classed;
mod classes;
mod known;
mod laws;
mod leaf;
mod pairs;
mod plan;
mod stages;
mod steps;
mod tables;
mod tree;
mod verdict;
mod weights;

/// Want of memory.
pub use checking::{check, finish};
pub use laws::yes_is_sure;
pub use std::alloc::AllocError as NoMemory;
pub use verdict::Verdict;
