//! What is known of where the operations of a list stand in a plan, and what follows from it.
//!
//! The promise: a `State` knows what its list alone gives, the decisions that were taken, and the facts of the steps since
//! (docs/CERTIFICATES.md, "Facts" and "Derivation"). `saturate` appends steps to a tree, each of which applies and gives a new fact, until
//! no rule gives one, or a pair is known to be both Same and Apart, or the budget is spent; it misses no rule. `undo_to` goes back to a mark. A
//! settled legal plan that meets the decisions meets all that is known (`plans_keep_facts`).
//!
//! Facts are kept in the order in which they came, with a bit for each in rows of words. A new fact is worked off once: each rule is tried at
//! each place at which the fact can stand as a premise, at the operations that "row and row and not row" leaves.
//!
//! The definitions, in `specs/`: `States` (what a contract sees of a state, and how a saturation ends), `Steps`, `Laws`; the others speak of
//! rows (`Rows`, `Kept`), of what is tried for a fact (`Jobs`, `Went`) and of how a state begins (`Opening`), which no public clause names.
//! Facts, rules and closed sets are defined in arr_law.
#![tactic(auto)]

mod clash;
mod jobs;
mod known;
mod laws;
mod opening;
mod outcome;
mod rows;
mod rules;
mod saturation;
mod sift;
mod state;

pub use laws::plans_keep_facts;
pub use opening::ops_of;
pub use outcome::Outcome;
pub use state::State;

/// Want of memory.
pub use std::alloc::AllocError as NoMemory;
