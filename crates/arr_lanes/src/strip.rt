/// Positions of a walk side by side, over lanes.
#[derive(Debug, Clone, Copy)]
pub struct Strip {
    /// The first of the positions, counted from 0.
    pub position: u64,
    /// How many positions.
    pub count: usize,
    /// How many numbers a loop goes over: as many as there are positions, or some more.
    pub width: usize,
    /// How many numbers each lane has room for.
    pub room: usize,
}

/// Where the numbers of a lane stand in a base, if they are read there and not in the lane.
#[derive(Debug, Clone, Copy)]
pub struct Place {
    /// The number of the base.
    pub base: u32,
    /// The place of the first of them, counted from 0.
    pub start: u32,
}
