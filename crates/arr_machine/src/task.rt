use arr_lanes::Line;
use arr_num::{Code, Elem};
use arr_sums::Axis;

/// A fold along an axis: its code and type, the lane that it folds, where the numbers begin that its block keeps for it, and its axis.
#[derive(Debug, Clone, Copy)]
pub struct Along {
    pub code: Code,
    pub elem: Elem,
    pub source: u32,
    pub kept: usize,
    pub axis: Axis,
}

/// What an operation of a block does to the lanes of a strip, to the numbers that its block keeps, and to slots.
#[derive(Debug, Clone, Copy)]
pub enum Task {
    /// An element-wise operation (docs/LANGUAGE.md, "Opcodes").
    Line(Line),
    /// An element-wise operation whose result the next operation may read, but none behind that, and that the walk does not store.
    Link(Line),
    /// A scan, whose results go into a lane.
    Scan(Along, u32),
    /// A reduction.
    Fold(Along),
    /// A SYNC: the slot that it fills, and the lane that it shows.
    Show(u32, u32),
    /// A FREE.
    Nothing,
}
