//! Sets of small numbers, as rows of bits.
//!
//! The promise: a `Bits` is a set of numbers below a bound. Contracts see it as the list that says of each number whether
//! the set has it. An `OpSet` is a set of the numbers of a list's operations, from 1 on, and a `Rows` a set of pairs of them; a list has
//! at most `MOST`. The definitions are in specs/Bits.antt and specs/Numbers.antt.
#![tactic(auto)]

mod bits;
mod numbers;

pub use bits::Bits;
pub use numbers::{MOST, OpSet, Rows};
