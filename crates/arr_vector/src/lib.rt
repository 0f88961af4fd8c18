//! Opcodes over runs of native numbers.
//!
//! A fused block works on lanes, lists of numbers of one native type. Here each element-wise opcode runs over the front of such
//! lists, in a loop that does nothing else, so that it becomes vector instructions. Sums of three or five lists have one loop too, which
//! writes no list between. Each loop is written once, for all types.
//!
//! The promise: every number that is written is the value of the opcode, as `arr_num` defines it, at the numbers that stand at the
//! same place. No call takes memory and none can fail.
//!
//! The definitions: `value` of `arr_num`; `entry` of `arr_native`, the number at a place of a list; `specs/Sorts.antt` names
//! sorts of codes, and the sum (`plus`).
#![tactic(auto)]

mod element_wise;

pub use element_wise::{add_five, add_three, compare, compute, convert, count_up, raise};
