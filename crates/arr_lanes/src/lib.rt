//! Lanes: the numbers of a strip, side by side, and lines of opcodes over them.
//!
//! A walk in strips keeps, for each view of its block, a lane: the numbers that the view has at the positions of the strip. A
//! [`Line`] is an operation over lanes, for all positions of the strip at once, and a [`Sum`] adds three or five lanes in one loop. Where a
//! lane has a [`Place`], its numbers are read there, in a base, and not in the lane (`numbers_of`).
//! The result is computed into a spare list of its type, which then changes places with the lane that it is for; so a line or a sum
//! may read the lane that it writes.
//!
//! The promise: after a line its lane holds the value of its opcode, as `arr_num` defines it, at each position, after a sum the sum,
//! and every other lane is as it was. No call but `Spares::new` takes memory.
//!
//! The definitions: `specs/Lanes.antt` has the number at a place of a lane, in the lane or where it is read (`held`), and the line of `arr_strips` that a line stands for
//! (`shown`); `line_value` of `arr_strips` is what that computes, and `ran` runs lines at one position. `specs/Sums.antt` has the sum
//! at a place (`sum_value`).
#![tactic(auto)]

mod fill;
mod lane;
mod line;
mod spares;
mod strip;
mod sum;

pub use fill::numbers_of;
pub use lane::Lane;
pub use line::{Line, Work, put, run_line};
pub use spares::Spares;
pub use strip::{Place, Strip};
pub use sum::{Sum, run_sum};
