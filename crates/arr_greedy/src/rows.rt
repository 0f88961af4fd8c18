//! Which blocks may be one block, and what a merge makes of that.
ghost use Rattle.std.specs.Prelude.{◌≡◌, ◌<◌, ◌*◌, ◌==◌, ◌&&◌, ◌≢◌, ◌||◌, length};
ghost use Rattle.arr_greedy.specs.Fast.{flag, fuses_after};
ghost use Rattle.arr_greedy.specs.Tables.{AreFlags, with_both, with_cell, with_shared};

use crate::choice::at;

/// Sets one flag.
pub(crate) fn put(rows: &mut [bool], width: usize, row: usize, column: usize, value: bool)
    requires row_in { row < width }
    requires column_in { column < width }
    requires size { length rows.old ≡ width * width }
    ensures size { length rows.new ≡ width * width }
    ensures put { AreFlags rows.new width (with_cell (flag rows.old width) row column value) }
{
    rows[row * width + column] = value;
}

/// The first block's row, once the second is part of it: what both may be one block with.
fn fuse_row(rows: &mut [bool], width: usize, left: usize, right: usize)
    requires left_in { left < width }
    requires right_in { right < width }
    requires apart { left ≢ right }
    requires size { length rows.old ≡ width * width }
    ensures size { length rows.new ≡ width * width }
    ensures row { AreFlags rows.new width (with_shared (flag rows.old width) left right) }
{
    for column in 0..width {
        let both = at(rows, width, left, column) && at(rows, width, right, column);
        put(rows, width, left, column, both);
    }
}

/// Whether a block may be one block with both; the first one's own place stays.
fn both_fuse(rows: &[bool], width: usize, left: usize, right: usize, row: usize) -> bool
    requires left_in { left < width }
    requires right_in { right < width }
    requires row_in { row < width }
    requires size { length rows.now ≡ width * width }
    ensures { result ≡ (flag rows.now width row left && (row == left || flag rows.now width row right)) }
{
    at(rows, width, row, left) && (row == left || at(rows, width, row, right))
}

/// The first block's column: what may be one block with both.
fn fuse_column(rows: &mut [bool], width: usize, left: usize, right: usize)
    requires left_in { left < width }
    requires right_in { right < width }
    requires apart { left ≢ right }
    requires size { length rows.old ≡ width * width }
    ensures size { length rows.new ≡ width * width }
    ensures column { AreFlags rows.new width (with_both (flag rows.old width) left right) }
{
    for row in 0..width {
        let both = both_fuse(rows, width, left, right, row);
        put(rows, width, row, left, both);
    }
}

/// Which blocks may be one block, once the second is part of the first.
pub(crate) fn fuse_rows(rows: &mut [bool], width: usize, left: usize, right: usize)
    requires left_in { left < width }
    requires right_in { right < width }
    requires apart { left ≢ right }
    requires size { length rows.old ≡ width * width }
    ensures size { length rows.new ≡ width * width }
    ensures rows { AreFlags rows.new width (fuses_after (flag rows.old width) left right) }
{
    fuse_row(rows, width, left, right);
    fuse_column(rows, width, left, right);
}
