//! What a script does, step by step.

use arr_ops::{Gather, Op, Scatter};

/// A step of an accepted script (docs/LANGUAGE.md, "Steps").
#[derive(Debug, Drop)]
pub enum Step {
    /// An operation is recorded. A SYNC has no slot yet, and FREE isn't among them.
    Act(Op),
    /// A new base takes numbers by an index, once what waits has run.
    Gather(Gather),
    /// A view takes numbers by an index, once what waits has run.
    Scatter(Scatter),
    /// A name stands for a view of a base from here on. Names are numbered from 0 in the order in which they were first bound.
    Name { name: u32, base: u32 },
    /// A name stands for nothing from here on.
    Forget { name: u32 },
    /// A statement ends.
    Done,
    /// What waits is run.
    Cut,
}
