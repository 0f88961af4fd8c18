//! The tree of a script, with the place of each of its parts, and why a script is refused.
//!
//! **The definitions**, in specs/: `Trees` names each form with the place that it bears, and `Weights` is the most
//! operations that a tree records. There is no function here: a parser makes trees, and the layers above read them.
#![tactic(auto)]

mod refusal;
mod tree;

pub use refusal::{Kind, ParseFault, Place, Refusal};
pub use tree::{Code16, Cut, Expr, ExprForm, Form, Lengths, Script, Statement, Steps, Type4, Word};
