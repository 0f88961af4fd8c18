//! The plan of greedy.
ghost use Rattle.std.specs.Prelude.{◌≡◌, ◌≤◌, ◌<◌, ◌+◌, ◌++◌, ◌∷◌, [], IfOk, cond, map};
ghost use Rattle.std.specs.List.{All, range_with_len};
ghost use Rattle.arr_ops.specs.Plans.{not_empty};
ghost use Rattle.arr_heur.specs.Planners.{greedy_blocks, greedy_plan};
ghost use Rattle.arr_heur.specs.Partitions.{lists_of};
ghost use Rattle.arr_greedy.specs.Standing.{ArePrinted, IsPrinted, blocks_of, rows_of};

use crate::NoMemory;
use crate::merging::{Block, merge_all, no_block};
use crate::pricing::price_all;
use crate::start::{reach_table, reached_table};
use crate::tables::fuse_table;
use arr_cost::Costs;
use arr_deps::Graph;
use arr_heur::ordered;
use arr_ops::Plan;
use std::alloc::Global;

/// The block of one operation.
fn one_block(alloc: Global, costs: &Costs, number: u32) -> Result<Block, NoMemory>
    ensures numbers { IfOk result (λ block. block.numbers.items ≡ number ∷ []) }
    ensures print { IfOk result (λ block. IsPrinted costs.now block) }
{
    let mut numbers = Vec::new(alloc);
    numbers.push(number)?;
    let print = costs.footprint(alloc, numbers.as_slice())?;
    Ok(Block { numbers, print })
}

/// The block of one operation at each number, and none at 0.
fn single_blocks(alloc: Global, costs: &Costs, count: usize) -> Result<Vec<Block>, NoMemory>
    requires { count ≤ 256 }
    ensures rows { IfOk result (λ blocks. rows_of blocks.items ≡ [] ∷ map (λ i. i ∷ []) (range_with_len 1 count)) }
    ensures printed { IfOk result (λ blocks. ArePrinted costs.now blocks.items) }
{
    let mut blocks = Vec::new(alloc);
    blocks.push(no_block(alloc, costs)?)?;
    for place in 0..count {
        blocks.push(one_block(alloc, costs, place as u32 + 1)?)?;
    }
    Ok(blocks)
}

/// The numbers from 1 on.
fn all_numbers(alloc: Global, count: usize) -> Result<Vec<usize>, NoMemory>
    requires { count ≤ 256 }
    ensures value { IfOk result (λ numbers. numbers.items ≡ range_with_len 1 count) }
    ensures below { IfOk result (λ numbers. All (λ k. k < count + 1) numbers.items) }
{
    let mut numbers = Vec::new(alloc);
    for place in 0..count {
        numbers.push(place + 1)?;
    }
    Ok(numbers)
}

fn push_live(kept: &mut Vec<Vec<u32>>, alloc: Global, row: &[u32]) -> Result<(), NoMemory>
    ensures { IfOk result (λ done. lists_of kept.new.items ≡ lists_of kept.old.items ++ cond (not_empty row.now) (row.now ∷ []) []) }
{
    if row.is_empty() {
        return Ok(());
    }
    kept.push(row.to_vec(alloc)?)?;
    Ok(())
}

/// The blocks, without the places where none stands.
fn live_rows(alloc: Global, blocks: &[Block]) -> Result<Vec<Vec<u32>>, NoMemory>
    ensures { IfOk result (λ kept. lists_of kept.items ≡ blocks_of blocks.now) }
{
    let mut kept = Vec::new(alloc);
    for block in blocks {
        push_live(&mut kept, alloc, block.numbers.as_slice())?;
    }
    Ok(kept)
}

/// The blocks of greedy, each two merged as long as that is possible.
fn greedy_blocks(alloc: Global, graph: &Graph, costs: &Costs) -> Result<Vec<Vec<u32>>, NoMemory>
    requires { costs.now ≡ graph.now }
    ensures { IfOk result (λ blocks. lists_of blocks.items ≡ greedy_blocks graph.now) }
{
    let count = graph.len() as usize;
    let width = count + 1;
    let mut blocks = single_blocks(alloc, costs, count)?;
    let mut keys = all_numbers(alloc, count)?;
    let mut fuses = fuse_table(alloc, graph, width)?;
    let mut reaches = reach_table(alloc, graph, width)?;
    let mut reached = reached_table(alloc, reaches.as_slice(), keys.as_slice(), width)?;
    let mut saved = vec![in alloc; 0; width * width]?;
    let mut bounds = vec![in alloc; None; width]?;
    price_all(
        costs,
        blocks.as_slice(),
        keys.as_slice(),
        fuses.as_slice(),
        reaches.as_slice(),
        reached.as_slice(),
        saved.as_mut_slice(),
        bounds.as_mut_slice(),
        width,
    );
    merge_all(
        alloc,
        costs,
        &mut blocks,
        &mut keys,
        fuses.as_mut_slice(),
        reaches.as_mut_slice(),
        reached.as_mut_slice(),
        saved.as_mut_slice(),
        bounds.as_mut_slice(),
        width,
        count,
    )?;
    let left = live_rows(alloc, blocks.as_slice())?;
    Ok(left)
}

/// The plan that begins with one block an operation and merges the two that save most, as long as the partition has an order
/// (docs/PLANS.md, "Planners"). The costs are those of the graph's list. Want of memory is its one refusal.
pub fn greedy(alloc: Global, graph: &Graph, costs: &Costs) -> Result<Plan, NoMemory>
    requires { costs.now ≡ graph.now }
    ensures { IfOk result (λ plan. plan ≡ greedy_plan graph.now) }
{
    let blocks = greedy_blocks(alloc, graph, costs)?;
    let plan = ordered(alloc, graph, blocks.as_slice())?;
    match plan {
        Some(plan) => Ok(plan),
        None => unreachable!(),
    }
}
