//! The order of a partition.
ghost use Rattle.std.specs.Prelude.{◌≡◌, ◌≤◌, ◌<◌, ◌&&◌, ◌++◌, ◌∷◌, [], Some, IfOk, IsTrue, cond, length, map, not};
ghost use Rattle.std.specs.List.{All, list_any, range_with_len};
ghost use Rattle.std.specs.Option.{option_map};
ghost use Rattle.arr_ops.specs.Order.{leads, least_of, ordered, same_block};
ghost use Rattle.arr_ops.specs.Plans.{ascends, numbered};
ghost use Rattle.arr_deps.specs.Graph.{leads_to};
ghost use Rattle.arr_heur.specs.Partitions.{AllAscend, AllNumbersTo, NumbersTo, block_in, blocks_at, comes_first, earlier_ready, first_ready, found_below, lists_of, others, stands_first, waits};

use crate::NoMemory;
use arr_deps::Graph;
use arr_ops::Plan;
use std::alloc::Global;

/// Whether an operation leads some operation of a block.
fn leads_some(graph: &Graph, f: u32, block: &[u32]) -> bool
    requires least { 0 < f }
    requires most { f ≤ length graph.now }
    requires block { NumbersTo (length graph.now) block.now }
    ensures { result ≡ list_any (leads_to graph.now f) block.now }
{
    for g in block {
        if graph.dep(f, *g) {
            return true;
        }
    }
    false
}

/// Whether some operation of a block leads some operation of another.
fn leads_any(graph: &Graph, block: &[u32], other: &[u32]) -> bool
    requires block { NumbersTo (length graph.now) block.now }
    requires other { NumbersTo (length graph.now) other.now }
    ensures { result ≡ list_any (λ f. list_any (leads_to graph.now f) other.now) block.now }
{
    for f in block {
        if leads_some(graph, *f, other) {
            return true;
        }
    }
    false
}

fn leads(graph: &Graph, block: &[u32], other: &[u32]) -> bool
    requires block { NumbersTo (length graph.now) block.now }
    requires other { NumbersTo (length graph.now) other.now }
    ensures { result ≡ leads (numbered graph.now) block.now other.now }
{
    leads_any(graph, block, other)
}

/// The least number of a block, which is its first.
fn least_of(block: &[u32]) -> u32
    requires { IsTrue (ascends block.now) }
    ensures { result ≡ least_of block.now }
{
    match block {
        [] => 0,
        [first, ..] => *first,
    }
}

/// The numbers of the block at a place.
fn block_at(blocks: &[Vec<u32>], place: usize) -> &[u32]
    requires { place < length blocks.now }
    ensures { result.now ≡ block_in (lists_of blocks.now) place }
{
    blocks[place].as_slice()
}

/// Whether the block at a place is another than the one at a second place, and has to stand before it.
fn stands_first(graph: &Graph, blocks: &[Vec<u32>], other: usize, place: usize) -> bool
    requires other_in { other < length blocks.now }
    requires place_in { place < length blocks.now }
    requires inside { AllNumbersTo (length graph.now) blocks.now }
    requires ascending { AllAscend blocks.now }
    ensures { result ≡ stands_first graph.now (lists_of blocks.now) other place }
{
    let before = block_at(blocks, other);
    let behind = block_at(blocks, place);
    least_of(before) != least_of(behind) && leads(graph, before, behind)
}

/// Whether some block of those left has to stand before the one at a place.
fn waits(graph: &Graph, blocks: &[Vec<u32>], left: &[usize], place: usize) -> bool
    requires left_in { All (λ k. k < length blocks.now) left.now }
    requires place_in { place < length blocks.now }
    requires inside { AllNumbersTo (length graph.now) blocks.now }
    requires ascending { AllAscend blocks.now }
    ensures { result ≡ waits graph.now (lists_of blocks.now) left.now place }
{
    for other in left {
        if stands_first(graph, blocks, *other, place) {
            return true;
        }
    }
    false
}

/// Whether the block at a place has a lesser number than what was found.
fn comes_first(blocks: &[Vec<u32>], found: Option<usize>, place: usize) -> bool
    requires found_in { IsTrue (found_below (length blocks.now) found) }
    requires place_in { place < length blocks.now }
    requires ascending { AllAscend blocks.now }
    ensures { result ≡ comes_first (lists_of blocks.now) found place }
{
    match found {
        None => true,
        Some(other) => least_of(block_at(blocks, place)) < least_of(block_at(blocks, other)),
    }
}

/// The block at a place if it comes before what was found and waits for none; else what was found.
fn earlier_ready(
    graph: &Graph,
    blocks: &[Vec<u32>],
    left: &[usize],
    found: Option<usize>,
    place: usize,
) -> Option<usize>
    requires left_in { All (λ k. k < length blocks.now) left.now }
    requires found_in { IsTrue (found_below (length blocks.now) found) }
    requires place_in { place < length blocks.now }
    requires inside { AllNumbersTo (length graph.now) blocks.now }
    requires ascending { AllAscend blocks.now }
    ensures earlier { result ≡ earlier_ready graph.now (lists_of blocks.now) left.now found place }
    ensures below { IsTrue (found_below (length blocks.now) result) }
{
    if comes_first(blocks, found, place) && !waits(graph, blocks, left, place) {
        Some(place)
    } else {
        found
    }
}

/// Of the blocks left the first that is ready: the one with the least number.
fn first_ready(graph: &Graph, blocks: &[Vec<u32>], left: &[usize]) -> Option<usize>
    requires left_in { All (λ k. k < length blocks.now) left.now }
    requires inside { AllNumbersTo (length graph.now) blocks.now }
    requires ascending { AllAscend blocks.now }
    ensures first { option_map (block_in (lists_of blocks.now)) result
        ≡ first_ready graph.now (blocks_at blocks.now left.now) }
    ensures below { IsTrue (found_below (length blocks.now) result) }
{
    let mut found = None;
    for place in left {
        found = earlier_ready(graph, blocks, left, found, *place);
    }
    found
}

/// The places from 0 on.
fn all_places(alloc: Global, count: usize) -> Result<Vec<usize>, NoMemory>
    ensures value { IfOk result (λ places. places.items ≡ range_with_len 0 count) }
    ensures below { IfOk result (λ places. All (λ k. k < count) places.items) }
{
    let mut places = Vec::new(alloc);
    for place in 0..count {
        places.push(place)?;
    }
    Ok(places)
}

fn push_if(inside: bool, kept: &mut Vec<usize>, place: usize) -> Result<(), NoMemory>
    ensures { IfOk result (λ done. kept.new.items ≡ kept.old.items ++ cond inside (place ∷ []) []) }
{
    if inside {
        kept.push(place)?;
    }
    Ok(())
}

/// Whether two blocks are not the same, by their least numbers.
fn differ(blocks: &[Vec<u32>], other: usize, place: usize) -> bool
    requires other_in { other < length blocks.now }
    requires place_in { place < length blocks.now }
    requires ascending { AllAscend blocks.now }
    ensures { result ≡ not (same_block (block_in (lists_of blocks.now) other) (block_in (lists_of blocks.now) place)) }
{
    least_of(block_at(blocks, other)) != least_of(block_at(blocks, place))
}

/// The blocks left without the one at a place.
fn others(
    alloc: Global,
    blocks: &[Vec<u32>],
    left: &[usize],
    place: usize,
) -> Result<Vec<usize>, NoMemory>
    requires left_in { All (λ k. k < length blocks.now) left.now }
    requires place_in { place < length blocks.now }
    requires ascending { AllAscend blocks.now }
    ensures value { IfOk result (λ kept. kept.items ≡ others (lists_of blocks.now) left.now place) }
    ensures below { IfOk result (λ kept. All (λ k. k < length blocks.now) kept.items) }
{
    let mut kept = Vec::new(alloc);
    for other in left {
        push_if(differ(blocks, *other, place), &mut kept, *other)?;
    }
    Ok(kept)
}

/// The blocks at places, one after another, as a plan.
fn plan_of(alloc: Global, blocks: &[Vec<u32>], places: &[usize]) -> Result<Plan, NoMemory>
    requires places_in { All (λ k. k < length blocks.now) places.now }
    requires ascending { AllAscend blocks.now }
    ensures { IfOk result (λ plan. plan ≡ blocks_at blocks.now places.now) }
{
    let mut copies = Vec::new(alloc);
    for place in places {
        copies.push(block_at(blocks, *place).to_vec(alloc)?)?;
    }
    Ok(Plan { blocks: copies })
}

/// The blocks of a partition in their order, where they have one (docs/PLANS.md, "The order of a partition"): each block has ascending
/// numbers from 1 to the length of the list. Want of memory is its one refusal.
pub fn ordered(alloc: Global, graph: &Graph, blocks: &[Vec<u32>]) -> Result<Option<Plan>, NoMemory>
    requires inside { AllNumbersTo (length graph.now) blocks.now }
    requires ascending { AllAscend blocks.now }
    ensures { IfOk result (λ plan. plan ≡ ordered graph.now (lists_of blocks.now)) }
{
    let mut left = all_places(alloc, blocks.len())?;
    let mut placed = Vec::new(alloc);
    for turn in 0..blocks.len() {
        match first_ready(graph, blocks, left.as_slice()) {
            None => return Ok(None),
            Some(place) => {
                placed.push(place)?;
                left = others(alloc, blocks, left.as_slice(), place)?;
            }
        }
    }
    let plan = plan_of(alloc, blocks, placed.as_slice())?;
    Ok(Some(plan))
}
