//! The merges of `greedy`.
ghost use Rattle.std.specs.Prelude.{◌≡◌, ◌<◌, ◌*◌, ◌+◌, ◌==◌, ◌||◌, ◌≢◌, ◌^◌, ◌++◌, ◌∷◌, [], cond, length, ℕ, IfOk, IsTrue, not, false, get_or, map};
ghost use Rattle.std.specs.List.{All, filter, range_with_len};
ghost use Rattle.arr_view.specs.Views.{has};
ghost use Rattle.arr_ops.specs.Plans.{not_empty};
ghost use Rattle.arr_ops.specs.Order.{In, least_of};
ghost use Rattle.arr_heur.specs.Planners.{greedy_within};
ghost use Rattle.arr_greedy.specs.Bits.{bit, words};
ghost use Rattle.arr_greedy.specs.Blocks.{row_at, Keyed};
ghost use Rattle.arr_greedy.specs.Fast.{flag, fuses_after, Told};
ghost use Rattle.arr_greedy.specs.Tables.{AreFlags, NoLoopsAfter, ReachesAfter, TellsWays};
ghost use Rattle.arr_greedy.specs.Standing.{AllPriced, ArePriced, ArePrinted, IsPrinted, IsUnion, PricesStay, blocks_of, merged_at, rows_of, union_at};

use crate::NoMemory;
use crate::choice::next_pair;
use crate::grid::put_bit;
use crate::pricing::price_row;
use crate::reach::reach_rows;
use crate::rows::fuse_rows;
use arr_cost::{Costs, Footprint};
use std::alloc::Global;

/// A block: the numbers of its operations, ascending, and what it touches. Where no block stands there are no numbers.
#[derive(Drop)]
pub(crate) struct Block {
    pub(crate) numbers: Vec<u32>,
    pub(crate) print: Footprint,
}

impl Block {
    /// This block and another as one.
    fn union(&self, alloc: Global, costs: &Costs, other: &Block) -> Result<Block, NoMemory>
        requires first { IsPrinted costs.now self.now }
        requires second { IsPrinted costs.now other.now }
        ensures numbers { IfOk result (λ both. IsUnion costs.now self.now other.now both) }
        ensures print { IfOk result (λ block. IsPrinted costs.now block) }
    {
        let numbers = union_of(
            alloc,
            self.numbers.as_slice(),
            other.numbers.as_slice(),
            costs.len(),
        )?;
        let print = self.print.joined(alloc, &other.print)?;
        Ok(Block { numbers, print })
    }
}

/// Marks a number, if it is below the bound.
fn mark(marks: &mut [bool], number: u32)
    ensures size { length marks.new ≡ length marks.old }
    ensures marks { (i : ℕ) → i < length marks.old → get_or marks.new i false ≡ (get_or marks.old i false || i == number) }
{
    let place = number as usize;
    if place < marks.len() {
        marks[place] = true;
    }
}

/// Marks the numbers of a block that are below the bound.
fn mark_all(marks: &mut [bool], block: &[u32])
    ensures size { length marks.new ≡ length marks.old }
    ensures marks { (i : ℕ) → i < length marks.old → get_or marks.new i false ≡ (get_or marks.old i false || has block.now i) }
{
    for number in block {
        mark(marks, *number);
    }
}

/// Of each number below a bound, whether one of two blocks has it.
fn marks_of(alloc: Global, left: &[u32], right: &[u32], bound: usize) -> Result<Vec<bool>, NoMemory>
    requires { bound < 2 ^ 32 }
    ensures long { IfOk result (λ marks. length marks.items ≡ bound) }
    ensures marks { IfOk result (λ marks. (i : ℕ) → i < bound → get_or marks.items i false ≡ (has left.now i || has right.now i)) }
{
    let mut marks = vec![in alloc; false; bound]?;
    mark_all(marks.as_mut_slice(), left);
    mark_all(marks.as_mut_slice(), right);
    Ok(marks)
}

fn is_marked(marks: &[bool], number: u32) -> bool
    requires { number < length marks.now }
    ensures { result ≡ get_or marks.now number false }
{
    marks[number as usize]
}

/// Puts a number last, where it is one of those looked for.
fn push_if(inside: bool, found: &mut Vec<u32>, number: u32) -> Result<(), NoMemory>
    ensures { IfOk result (λ done. found.new.items ≡ found.old.items ++ cond inside (number ∷ []) []) }
{
    if inside {
        found.push(number)?;
    }
    Ok(())
}

/// The numbers of two blocks, ascending.
fn union_of(alloc: Global, left: &[u32], right: &[u32], count: u32) -> Result<Vec<u32>, NoMemory>
    requires { count < 256 + 1 }
    ensures { IfOk result (λ both. both.items ≡ filter (λ i. has left.now i || has right.now i) (range_with_len 1 count)) }
{
    let marks = marks_of(alloc, left, right, count as usize + 1)?;
    let mut both = Vec::new(alloc);
    for place in 0..count {
        let number = place + 1;
        push_if(is_marked(marks.as_slice(), number), &mut both, number)?;
    }
    Ok(both)
}

/// The place where no block stands.
pub(crate) fn no_block(alloc: Global, costs: &Costs) -> Result<Block, NoMemory>
    ensures numbers { IfOk result (λ block. block.numbers.items ≡ []) }
    ensures print { IfOk result (λ block. IsPrinted costs.now block) }
{
    Ok(Block {
        numbers: Vec::new(alloc),
        print: costs.footprint(alloc, &[])?,
    })
}

/// Makes one block of two, at the place of the first.
fn join(
    alloc: Global,
    costs: &Costs,
    blocks: &mut Vec<Block>,
    left: usize,
    right: usize,
) -> Result<(), NoMemory>
    requires left_in { left < length blocks.old.items }
    requires right_in { right < length blocks.old.items }
    requires apart { left ≢ right }
    requires some { 0 < left }
    requires left_block { IsTrue (not_empty (row_at (rows_of blocks.old.items) left)) }
    requires right_block { IsTrue (not_empty (row_at (rows_of blocks.old.items) right)) }
    requires key { least_of (union_at costs.now blocks.old.items left right) ≡ left }
    requires keyed { Keyed (rows_of blocks.old.items) }
    requires printed { ArePrinted costs.now blocks.old.items }
    ensures long { IfOk result (λ done. length blocks.new.items ≡ length blocks.old.items) }
    ensures keyed { IfOk result (λ done. Keyed (rows_of blocks.new.items)) }
    ensures printed { IfOk result (λ done. ArePrinted costs.now blocks.new.items) }
    ensures blocks { IfOk result (λ done. blocks_of blocks.new.items ≡ merged_at costs.now blocks.old.items left right) }
{
    let both = blocks[left].union(alloc, costs, &blocks[right])?;
    let none = no_block(alloc, costs)?;
    blocks[left] = both;
    blocks[right] = none;
    Ok(())
}

/// Takes a key out.
fn drop_key(keys: &mut Vec<usize>, key: usize)
    ensures { keys.new.items ≡ filter (λ k. not (k == key)) keys.old.items }
{
    keys.retain(|k| *k != key);
}

/// One merge, with the rows after it.
fn one_turn(
    alloc: Global,
    costs: &Costs,
    blocks: &mut Vec<Block>,
    keys: &mut Vec<usize>,
    fuses: &mut [bool],
    reaches: &mut [u64],
    reached: &mut [u64],
    saved: &mut [u64],
    bounds: &mut [Option<u64>],
    width: usize,
    left: usize,
    right: usize,
) -> Result<(), NoMemory>
    requires left_in { left < width }
    requires right_in { right < width }
    requires apart { left ≢ right }
    requires some { 0 < left }
    requires left_block { IsTrue (not_empty (row_at (rows_of blocks.old.items) left)) }
    requires right_block { IsTrue (not_empty (row_at (rows_of blocks.old.items) right)) }
    requires key { least_of (union_at costs.now blocks.old.items left right) ≡ left }
    requires keyed { Keyed (rows_of blocks.old.items) }
    requires printed { ArePrinted costs.now blocks.old.items }
    requires blocks_in { length blocks.old.items ≡ width }
    requires keys_in { All (λ k. k < width) keys.old.items }
    requires fuses_size { length fuses.old ≡ width * width }
    requires reaches_size { length reaches.old ≡ width * words width }
    requires reached_size { length reached.old ≡ width * words width }
    requires ways { TellsWays keys.old.items reaches.old reached.old width }
    requires left_key { In left keys.old.items }
    requires right_key { In right keys.old.items }
    requires positive { All (λ k. 0 < k) keys.old.items }
    requires loopless { NoLoopsAfter reaches.old width keys.old.items left right }
    requires saved_size { length saved.old ≡ width * width }
    requires bounds_size { length bounds.old ≡ width }
    ensures blocks { IfOk result (λ done. blocks_of blocks.new.items ≡ merged_at costs.now blocks.old.items left right) }
    ensures blocks_in { IfOk result (λ done. length blocks.new.items ≡ width) }
    ensures keyed { IfOk result (λ done. Keyed (rows_of blocks.new.items)) }
    ensures printed { IfOk result (λ done. ArePrinted costs.now blocks.new.items) }
    ensures keys { IfOk result (λ done. keys.new.items ≡ filter (λ k. not (k == right)) keys.old.items) }
    ensures keys_in { IfOk result (λ done. All (λ k. k < width) keys.new.items) }
    ensures fuses_size { length fuses.new ≡ width * width }
    ensures reaches_size { length reaches.new ≡ width * words width }
    ensures reached_size { length reached.new ≡ width * words width }
    ensures saved_size { IfOk result (λ done. length saved.new ≡ width * width) }
    ensures bounds_size { IfOk result (λ done. length bounds.new ≡ width) }
    ensures fuses { AreFlags fuses.new width (fuses_after (flag fuses.old width) left right) }
    ensures reaches { ReachesAfter keys.old.items reaches.old reaches.new width left right }
    ensures ways { IfOk result (λ done. TellsWays keys.new.items reaches.new reached.new width) }
    ensures priced { IfOk result (λ done. ArePriced costs.now blocks.new.items fuses.new reaches.new keys.new.items saved.new bounds.new width left 0) }
    ensures stays { IfOk result (λ done. PricesStay costs.now blocks.new.items fuses.new reaches.new saved.old bounds.old saved.new bounds.new width) }
{
    fuse_rows(fuses, width, left, right);
    reach_rows(reaches, keys.as_slice(), width, left, right);
    reach_rows(reached, keys.as_slice(), width, left, right);
    put_bit(reached, width, 0, right, false);
    join(alloc, costs, blocks, left, right)?;
    drop_key(keys, right);
    price_row(
        costs,
        blocks.as_slice(),
        keys.as_slice(),
        0,
        fuses,
        reaches,
        reached,
        saved,
        bounds,
        width,
        left,
    );
    Ok(())
}

/// The merges of greedy, at most a count of them.
pub(crate) fn merge_all(
    alloc: Global,
    costs: &Costs,
    blocks: &mut Vec<Block>,
    keys: &mut Vec<usize>,
    fuses: &mut [bool],
    reaches: &mut [u64],
    reached: &mut [u64],
    saved: &mut [u64],
    bounds: &mut [Option<u64>],
    width: usize,
    count: usize,
) -> Result<(), NoMemory>
    requires keyed { Keyed (rows_of blocks.old.items) }
    requires printed { ArePrinted costs.now blocks.old.items }
    requires blocks_in { length blocks.old.items ≡ width }
    requires keys_in { All (λ k. k < width) keys.old.items }
    requires fuses_size { length fuses.old ≡ width * width }
    requires reaches_size { length reaches.old ≡ width * words width }
    requires reached_size { length reached.old ≡ width * words width }
    requires ways { TellsWays keys.old.items reaches.old reached.old width }
    requires saved_size { length saved.old ≡ width * width }
    requires bounds_size { length bounds.old ≡ width }
    requires keys { keys.old.items ≡ map least_of (blocks_of blocks.old.items) }
    requires told { Told costs.now (blocks_of blocks.old.items) (flag fuses.old width) (bit reaches.old width) }
    requires priced { AllPriced costs.now blocks.old.items fuses.old reaches.old keys.old.items saved.old bounds.old width }
    ensures { IfOk result (λ done. blocks_of blocks.new.items ≡ greedy_within count costs.now (blocks_of blocks.old.items)) }
{
    for turn in 0..count {
        match next_pair(
            keys.as_slice(),
            fuses,
            reaches,
            reached,
            saved,
            bounds,
            width,
        ) {
            None => return Ok(()),
            Some((left, right)) => one_turn(
                alloc, costs, blocks, keys, fuses, reaches, reached, saved, bounds, width, left,
                right,
            )?,
        }
    }
    Ok(())
}
