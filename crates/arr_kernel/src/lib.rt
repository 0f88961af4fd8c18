//! The values of opcodes, computed in the native type of each element.
//!
//! The loops over arrays call `apply` once for each element and element-wise operation, and `combine`
//! once for each step of a fold. Inside, a number is a `u8`, an `i32`, an `i64` or a `u64`, and only at
//! entry and exit an `i128`; the cases stand once, in a table that a macro spreads over the four types.
//!
//! The promise: both give exactly the value of the opcode, as `arr_num` defines it. No call takes memory
//! and none can fail.
//!
//! The definitions: `value` and `types_match` of `arr_num`; `specs/Inputs.antt` says which numbers a code
//! is applied to.
#![tactic(auto)]

mod conversion;
mod element_wise;
mod folds;
mod native;
mod powers;

pub use element_wise::apply;
pub use folds::{combine, step_i32, step_i64, step_u8, step_u64};
pub use native::{value_i32, value_i64, value_u8, value_u64};
pub use powers::{power_i32, power_i64, power_u8, power_u64};
