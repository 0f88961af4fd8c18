//! The planners.
ghost use Rattle.std.specs.Prelude.{◌≡◌, ◌≤◌, ◌<◌, ◌+◌, ◌-◌, IfOk, length};
ghost use Rattle.std.specs.List.{list_all, range_with_len};
ghost use Rattle.arr_ops.specs.Ops.{fusible};
ghost use Rattle.arr_ops.specs.Plans.{numbered};
ghost use Rattle.arr_deps.specs.Graph.{op_in};
ghost use Rattle.arr_heur.specs.Planners.{linear_plan};
ghost use Rattle.arr_heur.specs.Segments.{segment};

use crate::NoMemory;
use arr_deps::Graph;
use arr_ops::Plan;
use arr_sets::MOST;
use std::alloc::Global;

/// Whether the operation at a place, counted from 0, may share a block with each from another place up to it.
fn joins(graph: &Graph, start: u32, place: u32) -> bool
    requires order { start ≤ place }
    requires inside { place < length graph.now }
    requires few { length graph.now ≤ MOST }
    ensures { result ≡ list_all (λ x. fusible x.1 (op_in graph.now place)) (segment (numbered graph.now) start place) }
{
    for f in start..place {
        if !graph.fusible(f + 1, place + 1) {
            return false;
        }
    }
    true
}

/// The numbers of the operations from a place up to another, places being counted from 0.
fn block_of(alloc: Global, start: u32, end: u32) -> Result<Vec<u32>, NoMemory>
    requires order { start ≤ end }
    requires few { end ≤ MOST }
    ensures { IfOk result (λ block. block.items ≡ range_with_len (start + 1) (end - start)) }
{
    let mut block = Vec::new(alloc);
    for place in start..end {
        block.push(place + 1)?;
    }
    Ok(block)
}

/// The plan that takes the operations in list order: each joins the last block if it may share it with every operation there, and else
/// opens a new last block (docs/PLANS.md, "Planners"). Want of memory is its one refusal.
pub fn linear(alloc: Global, graph: &Graph) -> Result<Plan, NoMemory>
    ensures { IfOk result (λ plan. plan ≡ linear_plan graph.now) }
{
    let count = graph.len();
    let mut blocks = Vec::new(alloc);
    if count == 0 {
        return Ok(Plan { blocks });
    }
    let mut start = 0;
    for place in 1..count {
        if !joins(graph, start, place) {
            blocks.push(block_of(alloc, start, place)?)?;
            start = place;
        }
    }
    blocks.push(block_of(alloc, start, count)?)?;
    Ok(Plan { blocks })
}
