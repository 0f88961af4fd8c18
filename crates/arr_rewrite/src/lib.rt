//! Rewriting: a recorded list becomes a shorter or cheaper one that leaves the same memory.
//!
//! Ten rules look at an operation and at the list around it: constants are computed, dropped, carried to where they are read and joined;
//! a copied view is read at its source; copies to themselves and bases that nothing uses are removed. The application of least place is
//! made first, at one place that of the earliest rule, and then that of the earlier operand, until none is left.
//!
//! The promise: of a formed list, `rewrite` answers exactly the normal form (`normal_form`). No rule applies to it, it is formed, every
//! memory that fits the list fits it, and from each of these it leaves what the list leaves. Want of memory is the one refusal: one copy
//! of the list is taken, which each application changes in its place. Which views overlap is asked of the classes of the list's views,
//! which are found once, and only where a rule asks. The search goes on at the place of the last application, since what a rule finds
//! before it can be an unused base alone.
//!
//! The definitions, in `specs/`: `Rules` (what an operation becomes, and the rules on one operation), `Writers` (who writes what an
//! operation reads), `NextRewrite` (the rules on the list, and the application that comes next), `NormalForm` (the end, and a number
//! that each application lowers), `Settled` (where the search need not begin anew), and `Examples`, computed. The code has a function for each definition, under its name.
//! `docs/PLANS.md` states the same rules in words ("Rewriting").
#![tactic(auto)]

mod applied;
mod carried;
mod joined;
mod meetings;
mod replaced;
mod rules;
mod tables;
mod unused;
mod writers;

pub use applied::rewrite;

/// Want of memory.
pub use std::alloc::AllocError as NoMemory;
