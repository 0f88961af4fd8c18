//! From the tree of a script to its steps: the operations that it records, and what its names stand for.
//!
//! **The promise.** [`elaborate`] answers the steps that the definition `outcome` gives of the script's statements, exactly where it
//! gives steps; else it answers the first refusal, with the token's place and the kind that `outcome` gives. Want of memory is the only
//! other answer.
//!
//! **The definitions**, in specs/, each to be read on its own:
//! - `State`: what is known while a script is read (names, bases, steps), which elements are live, and steps that may refuse.
//! - `Codes`: which opcode a sign or word stands for.
//! - `Expressions`: what an expression records and stands for, by its outermost form, with the refusals of each form in order.
//! - `Outcome`: targets, names and statements, and `outcome`, the whole script.
//! - `Recording`: what the steps of an accepted script keep to; `Steps`: what they print.
//! - `Contract`: what a function here ensures; `Totals`: what is counted as the script is read; `Examples`, computed.
//!
//! **How it reads.** Each function is one definition of the same name and relates its result, and the state before and after, to it
//! (`Reads`). reader.rt holds the state. The definitions count the live elements anew each time; names.rt and bases.rt keep them as
//! running totals, with how many names stand for each base, so that no step walks over all names or bases.
#![tactic(auto)]

mod bases;
mod codes;
mod fault;
mod forms;
mod gather;
mod joined;
mod names;
mod operation;
mod reader;
mod script;
mod shape;
mod step;
mod target;
mod value;

pub use fault::ElabFault;
pub use script::elaborate;
pub use step::Step;
pub(crate) use value::{Array, Pending, Prepared, Value};
