//! What every plan pays that meets what is known: the leaf of a search.
//!
//! The promise: `charges` gives a lawful leaf under what a state of a list knows, with its worth. The worth is no less than the
//! floor, and it is no less than what a plan costs of which all is known. `Views` keeps what each class of identical views is to a leaf: what it
//! weighs, which operations read and write it, and which one makes and which one ends its base; it is made once for a list.
//!
//! For each class the operations that surely pay for it are found as rows of words. Of these, operations are picked from the first on that are
//! pairwise apart, beginning with the first that is apart from another.
//!
//! The definitions are those of arr_law, specs/Leaves.antt and specs/Floor.antt; specs/Worth.antt says what is promised of the leaf, and
//! specs/Sets.antt, specs/Picks.antt and specs/Classes.antt what the rows and the picks are.
#![tactic(auto)]

mod classes;
mod leaf;
mod picks;
mod sets;

pub use classes::{Class, Views};
pub use leaf::charges;

/// Want of memory.
pub use std::alloc::AllocError as NoMemory;
