//! The views that the operations of a block read and write outside it.
ghost use Rattle.std.specs.Prelude.{◌≡◌, ◌++◌, IfOk};
ghost use Rattle.std.specs.List.{flat_map};
ghost use Rattle.arr_view.specs.Views.{identical};
ghost use Rattle.arr_ops.specs.Costs.{all_reads, all_writes, distinct, reads, writes};
ghost use Rattle.arr_ops.specs.Ops.{creates, freed_by, inputs, makes_base, outputs, view_of, views};
ghost use Rattle.arr_cost.specs.Blocks.{not_created, not_freed};

use crate::NoMemory;
use crate::distinct::distinct;
use arr_ops::{Op, Operand, all_views};
use arr_view::View;
use std::alloc::Global;

/// Whether an operation creates a base.
fn makes_base(op: &Op, base: u32) -> bool
    ensures { result ≡ makes_base op.now base }
{
    op.makes && op.writes(base)
}

/// Whether some operation of a block creates a base.
fn creates(block: &[Op], base: u32) -> bool
    ensures { result ≡ creates block.now base }
{
    block.iter().any(|op| makes_base(op, base))
}

/// Whether some operation of a block frees a base.
fn frees(block: &[Op], base: u32) -> bool
    ensures { result ≡ freed_by block.now base }
{
    block.iter().any(|op| op.frees == Some(base))
}

/// Takes up an operand that is a view of a base which the block does not create.
fn push_read(found: &mut Vec<View>, operand: &Option<Operand>, block: &[Op]) -> Result<(), NoMemory>
    ensures { IfOk result (λ done. found.new.items ≡ found.old.items ++ not_created block.now (view_of operand.now)) }
{
    if let Some(Operand::Array(view)) = operand {
        if !creates(block, view.base()) {
            found.push(view.copied())?;
        }
    }
    Ok(())
}

fn push_reads(found: &mut Vec<View>, op: &Op, block: &[Op]) -> Result<(), NoMemory>
    ensures { IfOk result (λ done. found.new.items ≡ found.old.items ++ not_created block.now (inputs op.now)) }
{
    push_read(found, &op.first, block)?;
    push_read(found, &op.second, block)
}

/// Takes up the output, unless the block frees its base.
fn push_write(found: &mut Vec<View>, op: &Op, block: &[Op]) -> Result<(), NoMemory>
    ensures { IfOk result (λ done. found.new.items ≡ found.old.items ++ not_freed block.now (outputs op.now)) }
{
    if let Some(view) = &op.out {
        if !frees(block, view.base()) {
            found.push(view.copied())?;
        }
    }
    Ok(())
}

/// The views that a block reads whose base it does not create.
fn all_reads(alloc: Global, block: &[Op]) -> Result<Vec<View>, NoMemory>
    ensures { IfOk result (λ found. found.items ≡ all_reads block.now) }
{
    let mut found = Vec::new(alloc);
    for op in block {
        push_reads(&mut found, op, block)?;
    }
    Ok(found)
}

/// The views that a block writes whose base it does not free, after those found so far.
fn push_writes(found: &mut Vec<View>, block: &[Op]) -> Result<(), NoMemory>
    ensures { IfOk result (λ done. found.new.items ≡ found.old.items ++ all_writes block.now) }
{
    for op in block {
        push_write(found, op, block)?;
    }
    Ok(())
}

/// The views that the operations of a block read and whose base they do not create, each once, in the order of first sight
/// (docs/PLANS.md, "Cost"). Want of memory is its one refusal.
pub fn block_reads(alloc: Global, block: &[Op]) -> Result<Vec<View>, NoMemory>
    ensures { IfOk result (λ found. found.items ≡ reads block.now) }
{
    let all = all_reads(alloc, block)?;
    distinct(alloc, all.as_slice())
}

/// The views that the operations of a block write and whose base they do not free, each once, in the order of first sight
/// (docs/PLANS.md, "Cost"). Want of memory is its one refusal.
pub fn block_writes(alloc: Global, block: &[Op]) -> Result<Vec<View>, NoMemory>
    ensures { IfOk result (λ found. found.items ≡ writes block.now) }
{
    let mut all = Vec::new(alloc);
    push_writes(&mut all, block)?;
    distinct(alloc, all.as_slice())
}

/// The views that the operations of a block read or write, each once, in the order of first sight (docs/PLANS.md, "Cost"). Want of memory is
/// its one refusal.
pub fn block_views(alloc: Global, block: &[Op]) -> Result<Vec<View>, NoMemory>
    ensures { IfOk result (λ found. found.items ≡ distinct identical (flat_map views block.now)) }
{
    let all = all_views(alloc, block)?;
    distinct(alloc, all.as_slice())
}
