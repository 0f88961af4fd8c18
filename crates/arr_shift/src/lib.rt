//! Views that are copied some places on in their base.
//!
//! An assignment such as `g[1:5] = g[0:4]` reads what it writes, one place on. [`shift`] copies such a view strip by strip through one
//! lane, from the front or from the end, so that no number is stored over one that is still to be read. It takes no memory.
//!
//! The promise: after [`shift`] each number stands at its place of the output as it stood in the input before, and exactly the bytes of
//! one load and one store of each position are counted. [`is_shift`] tells which views are meant.
//!
//! The definitions: `specs/Shifts.antt` has which views are meant (`is_shift`) and when places rise (`rises`); `put_at` is that of
//! arr_strips, and `read` that of arr_ops.
#![tactic(auto)]

mod shifts;

pub use shifts::{is_shift, shift};
