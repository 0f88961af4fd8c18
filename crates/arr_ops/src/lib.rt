//! Operations on views, lists of them, and plans of such lists.
//!
//! This crate says what the whole project is about: what an operation does to memory, which lists are recorded, when two operations
//! depend or may share a loop, which plans are legal, and what a plan costs.
//!
//! The promise: `well_formed` and `list_formed` decide exactly which operations and lists there are, without taking memory;
//! `walked_shape`, `output`, `inputs`, `weight`, `copied_ops` and `all_views` are what the definitions say. The laws (`laws.rt`) hold of every formed list: a
//! legal plan, block after block, leaves what the list leaves; the memory before each block fits it; numbers stay in their types;
//! operations that do not depend commute; one block never costs more than its two parts; and `ordered` puts the blocks of a partition
//! into a legal plan wherever some order of them is one.
//!
//! The definitions, in `specs/`: `Ops` (views of an operation, dependence, fusibility), `Memory` (what a step does), `Formed` and `Fits`
//! (which operations, lists and memories go together), `Plans` (legal plans), `Costs`, `Traffic` (what a block loads, stores and keeps),
//! `Order` (partitions, and the order of one), `Gathers` (reading and writing by an index), `Laws`, and `Examples`, computed.
//! `docs/PLANS.md` states the same rules in words.
#![tactic(auto)]

mod copies;
mod formed;
mod gather;
mod laws;
mod list;
mod op;
mod plan;
mod shapes;

pub use copies::{all_views, copied_ops};
pub use formed::well_formed;
pub use gather::{Gather, Scatter};
pub use laws::{
    blocks_fit, independent_operations_commute, merging_saves, numbers_stay_typed,
    orders_are_found, orders_are_legal, plans_keep_memory,
};
pub use list::list_formed;
pub use op::{Op, Operand, copied_operand, copied_view};
pub use plan::Plan;
pub use shapes::{array_view, inputs, output, walked_shape, weight};
