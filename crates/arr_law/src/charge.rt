ghost use Rattle.std.specs.Prelude.{◌≡◌, IfOk};

use crate::op_list::OpList;
use std::alloc::{AllocError as NoMemory, Global};

/// A group of a leaf: operations that each pay for the same view (docs/CERTIFICATES.md, "Leaves").
#[derive(Debug, Drop)]
pub struct Charge {
    /// Which view of the first operation it is: 0 the output, 1 and 2 the operands.
    pub operand: u8,
    /// The numbers of the operations.
    pub ops: OpList,
}

impl Charge {
    /// An equal group (docs/MAP.md, "Copies"). Want of memory is its one refusal.
    pub fn copied(&self, alloc: Global) -> Result<Charge, NoMemory>
        ensures { IfOk result (λ copy. copy ≡ self.now) }
    {
        Ok(Charge {
            operand: self.operand,
            ops: self.ops.copied(alloc)?,
        })
    }
}
