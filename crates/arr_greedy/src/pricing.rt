//! What one block in place of two saves, for each two that may be merged, and the most that is saved in each row.
ghost use Rattle.std.specs.Prelude.{◌≡◌, ◌<◌, ◌≤◌, ◌*◌, IsTrue, length, None, get_or, nat_lt};
ghost use Rattle.std.specs.List.{All};
ghost use Rattle.arr_ops.specs.Formed.{all_pairs};
ghost use Rattle.arr_ops.specs.Order.{In};
ghost use Rattle.arr_greedy.specs.Bits.{words};
ghost use Rattle.arr_greedy.specs.Blocks.{Keyed};
ghost use Rattle.arr_greedy.specs.Fast.{CoverStill, amount, covers};
ghost use Rattle.arr_greedy.specs.Tables.{AreAmounts, TellsWays, with_cell};
ghost use Rattle.arr_greedy.specs.Standing.{AllPriced, ArePriced, ArePrinted, IsPricedOf, PricesStay, rows_of, saving_at};

use crate::choice::may_merge;
use crate::merging::Block;
use arr_cost::Costs;

/// What one block in place of two saves.
fn pair_saving(costs: &Costs, blocks: &[Block], left: usize, right: usize) -> u64
    requires left_in { left < length blocks.now }
    requires right_in { right < length blocks.now }
    requires keyed { Keyed (rows_of blocks.now) }
    requires printed { ArePrinted costs.now blocks.now }
    ensures { result ≡ saving_at costs.now blocks.now left right }
{
    costs.joint_saving(&blocks[left].print, &blocks[right].print)
}

/// Sets one number.
fn put_amount(rows: &mut [u64], width: usize, row: usize, column: usize, value: u64)
    requires row_in { row < width }
    requires column_in { column < width }
    requires size { length rows.old ≡ width * width }
    ensures size { length rows.new ≡ width * width }
    ensures put { AreAmounts rows.new width (with_cell (amount rows.old width) row column value) }
{
    rows[row * width + column] = value;
}

/// Raises a row's bound to a saving, where it is below it.
fn raise(bounds: &mut [Option<u64>], row: usize, saving: u64)
    requires row_in { row < length bounds.old }
    ensures size { length bounds.new ≡ length bounds.old }
    ensures raised { IsTrue (covers (get_or bounds.new row None) saving) }
    ensures rest { CoverStill bounds.old bounds.new }
{
    if let Some(most) = bounds[row] {
        if saving <= most {
            return;
        }
    }
    bounds[row] = Some(saving);
}

/// Finds what one block in place of two saves, if the two may be merged.
fn price_pair(
    costs: &Costs,
    blocks: &[Block],
    fuses: &[bool],
    reaches: &[u64],
    reached: &[u64],
    saved: &mut [u64],
    bounds: &mut [Option<u64>],
    width: usize,
    left: usize,
    right: usize,
)
    requires left_in { left < width }
    requires right_in { right < width }
    requires blocks_in { length blocks.now ≡ width }
    requires keyed { Keyed (rows_of blocks.now) }
    requires printed { ArePrinted costs.now blocks.now }
    requires fuses_size { length fuses.now ≡ width * width }
    requires reaches_size { length reaches.now ≡ width * words width }
    requires reached_size { length reached.now ≡ width * words width }
    requires saved_size { length saved.old ≡ width * width }
    requires bounds_size { length bounds.old ≡ width }
    ensures saved_size { length saved.new ≡ width * width }
    ensures bounds_size { length bounds.new ≡ width }
    ensures priced { IsPricedOf costs.now blocks.now fuses.now reaches.now reached.now saved.new bounds.new width left right }
    ensures stays { PricesStay costs.now blocks.now fuses.now reaches.now saved.old bounds.old saved.new bounds.new width }
{
    if !may_merge(fuses, reaches, reached, width, left, right) {
        return;
    }
    let saving = pair_saving(costs, blocks, left, right);
    put_amount(saved, width, left, right, saving);
    raise(bounds, left, saving);
}

/// Finds what one block saves in place of a block and each of those from a place on that it may be merged with.
pub(crate) fn price_row(
    costs: &Costs,
    blocks: &[Block],
    keys: &[usize],
    from: usize,
    fuses: &[bool],
    reaches: &[u64],
    reached: &[u64],
    saved: &mut [u64],
    bounds: &mut [Option<u64>],
    width: usize,
    left: usize,
)
    requires left_in { In left keys.now }
    requires from_in { from ≤ length keys.now }
    requires blocks_in { length blocks.now ≡ width }
    requires keyed { Keyed (rows_of blocks.now) }
    requires printed { ArePrinted costs.now blocks.now }
    requires keys_in { All (λ k. k < width) keys.now }
    requires ways { TellsWays keys.now reaches.now reached.now width }
    requires fuses_size { length fuses.now ≡ width * width }
    requires reaches_size { length reaches.now ≡ width * words width }
    requires reached_size { length reached.now ≡ width * words width }
    requires saved_size { length saved.old ≡ width * width }
    requires bounds_size { length bounds.old ≡ width }
    ensures saved_size { length saved.new ≡ width * width }
    ensures bounds_size { length bounds.new ≡ width }
    ensures priced { ArePriced costs.now blocks.now fuses.now reaches.now keys.now saved.new bounds.new width left from }
    ensures stays { PricesStay costs.now blocks.now fuses.now reaches.now saved.old bounds.old saved.new bounds.new width }
{
    for place in from..keys.len() {
        let other = keys[place];
        price_pair(
            costs,
            blocks,
            fuses,
            reaches,
            reached,
            saved,
            bounds,
            width,
            left.min(other),
            left.max(other),
        );
    }
}

/// Finds what one block saves in place of each two that may be merged.
pub(crate) fn price_all(
    costs: &Costs,
    blocks: &[Block],
    keys: &[usize],
    fuses: &[bool],
    reaches: &[u64],
    reached: &[u64],
    saved: &mut [u64],
    bounds: &mut [Option<u64>],
    width: usize,
)
    requires blocks_in { length blocks.now ≡ width }
    requires keyed { Keyed (rows_of blocks.now) }
    requires printed { ArePrinted costs.now blocks.now }
    requires keys_in { All (λ k. k < width) keys.now }
    requires rising { IsTrue (all_pairs nat_lt keys.now) }
    requires ways { TellsWays keys.now reaches.now reached.now width }
    requires fuses_size { length fuses.now ≡ width * width }
    requires reaches_size { length reaches.now ≡ width * words width }
    requires reached_size { length reached.now ≡ width * words width }
    requires saved_size { length saved.old ≡ width * width }
    requires bounds_size { length bounds.old ≡ width }
    ensures saved_size { length saved.new ≡ width * width }
    ensures bounds_size { length bounds.new ≡ width }
    ensures priced { AllPriced costs.now blocks.now fuses.now reaches.now keys.now saved.new bounds.new width }
{
    for place in 0..keys.len() {
        price_row(
            costs,
            blocks,
            keys,
            place + 1,
            fuses,
            reaches,
            reached,
            saved,
            bounds,
            width,
            keys[place],
        );
    }
}
