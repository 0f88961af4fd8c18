ghost use Rattle.std.specs.Prelude.{◌≡◌, ◌≤◌, IfOk};
ghost use Rattle.arr_lanes.specs.Spares.{HasRoom};

use std::alloc::{AllocError as NoMemory, Global};

/// A list of each native type that no lane holds.
#[derive(Debug, Drop)]
pub struct Spares {
    pub bytes: Vec<u8>,
    pub words: Vec<i32>,
    pub longs: Vec<i64>,
    pub naturals: Vec<u64>,
}

impl Spares {
    /// Lists of so many numbers. An Err is want of memory.
    pub fn new(alloc: Global, count: usize) -> Result<Spares, NoMemory>
        ensures { IfOk result (HasRoom count) }
    {
        Ok(Spares {
            bytes: vec![in alloc; 0; count]?,
            words: vec![in alloc; 0; count]?,
            longs: vec![in alloc; 0; count]?,
            naturals: vec![in alloc; 0; count]?,
        })
    }
}
