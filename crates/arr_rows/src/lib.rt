//! Strips of a view, loaded into lanes and stored from them by rows.
//!
//! A strip is some positions of a view, one after another in row-major order. [`Rows`] is a view that was made ready for them: its
//! dimensions that lie behind one another are one, so that a view without gaps is one row whatever its rank. A strip goes row by row:
//! what lies in one row is a run of numbers a stride apart, which the store moves in one loop; a strip may begin in the middle of a row
//! and go over many. No number costs a division, and a row costs some only where it begins a strip or a page of rows.
//!
//! The promise: a `Rows` is seen as its view. `load` puts the number at each position of a strip into a lane, `store` puts those of a
//! lane into the view, one after another, and `write_numbers` a list of numbers into a whole view. Each counts exactly the bytes that
//! it moves. `place` says where the numbers of a strip stand in their base, if they stand side by side in one row, so that they can be
//! read there. No call takes memory and none can fail.
//!
//! The definitions: `place_at`, the place of a view at a position, `part`, the places of a strip, and `put_at`, numbers written at
//! places of one base, are those of arr_strips. `specs/Rows.antt` has how positions stand by rows, which no public clause names.
#![tactic(auto)]

mod course;
mod dimension;
mod numbers;
mod rows;

pub use numbers::write_numbers;
pub use rows::Rows;
