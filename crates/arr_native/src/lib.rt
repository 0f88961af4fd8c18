//! Numbers in the four native types.
//!
//! The numbers of an array are kept as `u8`, `i32`, `i64` or `u64`. What differs between these types is in the trait [`Native`], so
//! that whatever works on such numbers is written once, for all of them.
//!
//! The promise: each type's arithmetic gives the value of the opcode, as `arr_num` defines it. No call takes memory and none can
//! fail.
//!
//! The definitions: `value` of `arr_num`; `specs/Entries.antt` has `entry`, the number at a place of a list of native numbers.
#![tactic(auto)]

mod native;

pub use native::Native;
