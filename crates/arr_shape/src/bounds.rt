//! Slices, and what they take of one dimension.

/// Which indices of one dimension are taken, counted from 0: those from `start` on, `step` apart, up to `stop`, which is not taken
/// itself. An absent start is the first index, or the last for a step below 0; an absent stop lies past the last index, or before
/// the first for a step below 0.
#[derive(Debug, Clone, Copy, PartialEq, Eq)]
pub struct Slice {
    pub start: Option<u64>,
    pub stop: Option<u64>,
    pub step: i128,
}

/// The indices that are taken of one dimension: the first, how many, and the step, 0 where there is one alone.
#[derive(Debug, Clone, Copy, PartialEq, Eq, Default)]
pub(crate) struct Cut {
    pub(crate) first: u32,
    pub(crate) count: u32,
    pub(crate) step: i32,
}
