//! The views that a walk of a block stores.
ghost use Rattle.std.specs.Prelude.{◌≡◌, IfOk, not, true};
ghost use Rattle.std.specs.List.{filter, list_all};
ghost use Rattle.arr_num.specs.Kinds.{is_reduction};
ghost use Rattle.arr_ops.specs.Formed.{well_formed};
ghost use Rattle.arr_strips.specs.Blocks.{stores};

use crate::NoMemory;
use arr_cost::block_writes;
use arr_ops::Op;
use arr_view::View;
use std::alloc::Global;

/// The operations of a block that are no reductions.
fn walked(alloc: Global, block: &[Op]) -> Result<Vec<Op>, NoMemory>
    ensures { IfOk result (λ found. found.items ≡ filter (λ op. not (is_reduction op.code)) block.now) }
{
    let mut found = Vec::new(alloc);
    for op in block {
        if !op.code.is_reduction() {
            found.push(op.copied())?;
        }
    }
    Ok(found)
}

/// The views that are stored while the shape of a block is walked: those that it writes but for the results of reductions.
pub(crate) fn stored_views(alloc: Global, block: &[Op]) -> Result<Vec<View>, NoMemory>
    requires { list_all well_formed block.now ≡ true }
    ensures { IfOk result (λ found. found.items ≡ stores block.now) }
{
    let walked = walked(alloc, block)?;
    block_writes(alloc, walked.as_slice())
}
