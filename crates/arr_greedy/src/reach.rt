//! Which blocks reach which, and what a merge makes of that.
ghost use Rattle.std.specs.Prelude.{◌≡◌, ◌<◌, ◌*◌, ◌≢◌, ℕ, length};
ghost use Rattle.std.specs.List.{All};
ghost use Rattle.arr_ops.specs.Order.{In};
ghost use Rattle.arr_greedy.specs.Bits.{AreBits, bit, columns, words};
ghost use Rattle.arr_greedy.specs.Tables.{Onward, ReachesAfter, with_gained, with_gains};

use crate::grid::{has, join_rows, put_bit};

/// Gives the first block's row what each block gains that reaches one of two: what either reaches, and the first itself.
fn gain_row(rows: &mut [u64], width: usize, left: usize, right: usize)
    requires left_in { left < width }
    requires right_in { right < width }
    requires size { length rows.old ≡ width * words width }
    ensures size { length rows.new ≡ width * words width }
    ensures row { AreBits rows.new width (with_gains (bit rows.old width) left right) }
{
    join_rows(rows, width, left, left, right);
    put_bit(rows, width, left, left, true);
}

/// One row, if it is neither block's: where it reaches one of the two and not the other it gains what the first block's row has.
/// A block that reaches both reaches all that already.
fn reach_other(rows: &mut [u64], width: usize, left: usize, right: usize, row: usize)
    requires left_in { left < width }
    requires right_in { right < width }
    requires row_in { row < width }
    requires size { length rows.old ≡ width * words width }
    ensures size { length rows.new ≡ width * words width }
    ensures row { AreBits rows.new width (with_gained (bit rows.old width) left right row) }
{
    if row == left || row == right {
        return;
    }
    if has(rows, width, row, left) != has(rows, width, row, right) {
        join_rows(rows, width, row, row, left);
    }
}

/// Which blocks that stand reach which, once the second is part of the first. Row 0 is left as it was.
pub(crate) fn reach_rows(rows: &mut [u64], keys: &[usize], width: usize, left: usize, right: usize)
    requires left_in { left < width }
    requires right_in { right < width }
    requires left_key { In left keys.now }
    requires right_key { In right keys.now }
    requires apart { left ≢ right }
    requires keys_in { All (λ k. k < width) keys.now }
    requires positive { All (λ k. 0 < k) keys.now }
    requires onward { Onward keys.now (bit rows.old width) }
    requires size { length rows.old ≡ width * words width }
    ensures size { length rows.new ≡ width * words width }
    ensures rows { ReachesAfter keys.now rows.old rows.new width left right }
    ensures first { (y : ℕ) → y < columns width → bit rows.new width 0 y ≡ bit rows.old width 0 y }
{
    gain_row(rows, width, left, right);
    for key in keys {
        reach_other(rows, width, left, right, *key);
    }
    put_bit(rows, width, left, left, false);
}
