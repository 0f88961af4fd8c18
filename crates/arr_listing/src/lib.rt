//! The lines of listings and arrays.
//!
//! The promise: each call appends exactly the text that its definition gives (specs/Texts.antt and specs/Plans.antt, in words docs/PLANS.md,
//! "The listing"), or answers `WriteFault`, for which the sink counted a fault, and then a byte of the text is missing. No call takes memory, but [`total_lines`], which gives its text to the caller.
//!
//! A `put_` call puts its text into a buffer, for callers that write several texts; a `write_` call writes one text to its end.
#![tactic(auto)]

mod arrays;
mod numbers;
mod operations;
mod plans;
mod totals;

pub use arrays::{put_array, write_array};
pub use numbers::write_number;
pub use operations::{put_op, write_op};
pub use plans::{put_bound, put_plan, write_bound, write_plan};
pub use totals::total_lines;
