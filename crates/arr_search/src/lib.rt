//! The search for a best plan.
//!
//! The promise: `search` gives a legal plan, greedy's or a cheaper one, a bound that no legal plan costs less than, and the certificate of both,
//! with at most so many steps and branches (`IsBest` in specs/Best.antt). The certificate is accepted, and its text can be written. The bound is
//! the least of the cost and of the worths of the leaves; it is no less than the floors; all units are spent where it stays below the cost, and
//! with enough of them bound and cost are equal.
//!
//! Before its first node a search looks for a plan that costs less than greedy's and linear's, by random moves (`try_moves`), unless what follows
//! from the list shows that there is none. Nothing is known of what the moves find (`descent`, `partition`): it is tested whether it is legal
//! (`legal_plan`), and what it costs (`improve`).
//!
//! The search goes depth first. It holds what is known at the node where it stands, the nodes that wait, the records so far, and the best plan
//! (`explore`). Beside them it keeps a draft (`Draft`): a second state, in which all is known that follows at the node, with how each fact came.
//! At a node (`work`) it makes a leaf, takes the steps that the leaf of the draft rests on (`hint_at`, `trimmed`), and ends the node by a leaf, or
//! by a branch on the pair of which both sides gain most (`Candidates`); where that does not end it, it takes all steps that follow (`work_whole`),
//! and where all is decided it has a better plan (`plan_of`). Which steps are left out, which pair and which further plans are tried, nothing
//! depends on: they are policies (`draft`, `trim`, `estimate`, `hints`, `gains`).
//!
//! The definitions, in `specs/`: `Best` (what `search` promises), `Found` (what its tree shows), `Steps`, `Counts` (open pairs, missing facts),
//! `Running` (what is kept), `Laws`; `Nodes`, `Turns` and `Parts`, which private calls speak of. What a search may do at a node stands as laws
//! (`laws.rt`). docs/CERTIFICATES.md, "Searching", states the same in words.
#![tactic(auto)]

mod best;
mod choice;
mod decided;
mod descent;
mod draft;
mod estimate;
mod explore;
mod found;
mod gains;
mod hints;
mod laws;
mod moves;
mod node;
mod partition;
mod parts;
mod places;
mod progress;
mod rows;
mod ties;
mod trim;

pub use best::search;
pub use found::Found;
pub use laws::{
    branches, dies, finds_closure, finishes, improves, leaves, plans_pay, starts, steps_are_few,
    trees_are_accepted,
};

/// Want of memory.
pub use std::alloc::AllocError as NoMemory;
