//! Reading and writing by an index, on a store.
//!
//! [`gather`] makes a base whose numbers are those that an index names; [`scatter`] writes values to the positions that an index names,
//! the last one where several meet. A gather is one call of the store, which reads source and index where they stand and
//! counts what passed. A scatter goes number by number through the store's own calls. The places of a view without a gap are counted, not
//! walked.
//!
//! The promise: from a store that fits the operation, the bases are afterwards those that its definition leaves (`gathered`, `scattered` of
//! arr_ops); the bytes loaded rise by at most what index and results weigh, the bytes stored exactly by what is written, and a gather makes
//! one buffer. Memory is taken for the new base, for a source with gaps that is put in order first, and for a copy of the index or the
//! values of a scatter where they stand in the target's base; an Err is want of it, and then the bases are as they were.
//!
//! The definitions: `specs/Steps.antt` has what is loaded and the numbers of a view; `specs/Places.antt` the elements of a view that are
//! still to come (`to_visit`); `specs/Feeds.antt` its numbers that are (`to_come`), and what writing them one after another says. Of these,
//! clauses of the public calls name what is loaded alone.
#![tactic(auto)]

mod feed;
mod gathering;
mod places;
mod scattering;

pub use gathering::gather;
pub use scattering::scatter;
