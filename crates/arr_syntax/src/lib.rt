//! The script language: from the tokens of a text to the tree of a script, or to the refusal of one token.
//!
//! **The promise.** [`parse`] answers the script that the grammar relates to the tokens of the text, exactly where no
//! token has a fault; else it answers the place of the first token that has one, and the first kind that fits it. Want
//! of memory is the only other answer. Both directions are clauses of `parse`, so that one text has one answer.
//!
//! **The definitions**, in specs/, each to be read on its own:
//! - `Grammar`: the grammar as a relation between tokens and trees, one constructor a rule, without limits.
//! - `Limits`: how open brackets and the tokens of a statement are counted.
//! - `Refused`: `Begins`, which faults fit a token (`Fits`), their order, and `IsRefused` and `IsScript`.
//!
//! The tokens are those of `arr_tokens`, the trees those of `arr_tree`.
//!
//! **How it reads.** `Machine`, `Filling` and `Run` in specs/ say what one token makes of what is still wanted: a stack
//! of frames with the innermost first, and no recursion. Each form is a row of parts, with what they make up: node.rt
//! has both. step.rt is the machine, fields.rt reads the parts that are no trees, reader.rt holds the limits. No clause
//! of `parse` names the machine: proofs/ shows that it takes a token exactly where some script goes on with it
//! (`Forward`, `Backward`, `Completable`), that the run refuses the first fault (`Reading`), and that nothing else can
//! be answered (`Unique`). `Weighed` counts tokens: a tree records no more operations than it has.
#![tactic(auto)]

mod fields;
mod node;
mod parser;
mod parts;
mod reader;
mod stack;
mod state;
mod step;

pub use parser::parse;
