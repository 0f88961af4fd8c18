//! The bases that a block both creates and frees.
ghost use Rattle.std.specs.Prelude.{◌≡◌, ◌++◌, IfOk, map};
ghost use Rattle.std.specs.List.{filter};
ghost use Rattle.arr_ops.specs.Ops.{freed_by, outputs};
ghost use Rattle.arr_ops.specs.Traffic.{contracted};

use crate::NoMemory;
use arr_ops::Op;
use std::alloc::Global;

/// Whether some operation of a block frees a base.
pub(crate) fn frees(block: &[Op], base: u32) -> bool
    ensures { result ≡ freed_by block.now base }
{
    block.iter().any(|op| op.frees == Some(base))
}

/// Takes up the base that an operation creates, if the block frees it.
fn push_contracted(found: &mut Vec<u32>, op: &Op, block: &[Op]) -> Result<(), NoMemory>
    ensures { IfOk result (λ done. found.new.items
        ≡ found.old.items ++ filter (freed_by block.now)
        (map (λ o. o.base) (filter (λ _. op.now.makes) (outputs op.now)))) }
{
    if op.makes {
        if let Some(out) = &op.out {
            if frees(block, out.base()) {
                found.push(out.base())?;
            }
        }
    }
    Ok(())
}

/// The bases whose creator and FREE are in the block.
pub(crate) fn contracted(alloc: Global, block: &[Op]) -> Result<Vec<u32>, NoMemory>
    ensures { IfOk result (λ found. found.items ≡ contracted block.now) }
{
    let mut found = Vec::new(alloc);
    for op in block {
        push_contracted(&mut found, op, block)?;
    }
    Ok(found)
}
