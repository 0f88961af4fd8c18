//! What each block reaches at the start, and what reaches each.
ghost use Rattle.std.specs.Prelude.{◌≡◌, ◌<◌, ◌≤◌, ◌+◌, ◌*◌, length, ℕ, IfOk, false, nat_eq, nat_lt};
ghost use Rattle.std.specs.List.{All};
ghost use Rattle.arr_greedy.specs.Bits.{AreBits, bit, columns, words};
ghost use Rattle.arr_greedy.specs.Start.{deps_at};
ghost use Rattle.arr_greedy.specs.Tables.{HasLive, IsFilled, IsTurned, with_filled, with_keys, with_taken, with_turned};

use crate::NoMemory;
use crate::grid::{has, join_rows, put_bit, words};
use arr_deps::Graph;
use std::alloc::Global;

/// Takes another row into a row, and the other itself, if it is to be taken.
fn take_row(rows: &mut [u64], width: usize, row: usize, other: usize, take: bool)
    requires row_in { row < width }
    requires other_in { other < width }
    requires size { length rows.old ≡ width * words width }
    ensures size { length rows.new ≡ width * words width }
    ensures row { AreBits rows.new width (with_taken (bit rows.old width) row other take) }
{
    if !take {
        return;
    }
    join_rows(rows, width, row, row, other);
    put_bit(rows, width, row, other, true);
}

/// Whether one operation leads another.
fn deps_at(graph: &Graph, i: usize, j: usize) -> bool
    requires first { i ≤ length graph.now }
    requires second { j ≤ length graph.now }
    requires few { length graph.now ≤ 256 }
    ensures { result ≡ deps_at graph.now i j }
{
    if i == 0 || j == 0 || i == j {
        return false;
    }
    graph.dep(i as u32, j as u32)
}

/// Fills a row, clear until now, with what an operation reaches. Those that it leads stand behind it, and their rows are filled.
fn fill_row(graph: &Graph, rows: &mut [u64], width: usize, row: usize)
    requires width { width ≡ length graph.now + 1 }
    requires few { length graph.now ≤ 256 }
    requires row_in { row < width }
    requires size { length rows.old ≡ width * words width }
    requires clear { (y : ℕ) → y < columns width → bit rows.old width row y ≡ false }
    ensures size { length rows.new ≡ width * words width }
    ensures row { AreBits rows.new width (with_filled (deps_at graph.now) (bit rows.old width) width row) }
{
    for other in row + 1..width {
        let take = deps_at(graph, row, other);
        take_row(rows, width, row, other, take);
    }
}

/// Fills the rows, the last first.
fn fill_rows(graph: &Graph, rows: &mut [u64], width: usize)
    requires width { width ≡ length graph.now + 1 }
    requires few { length graph.now ≤ 256 }
    requires size { length rows.old ≡ width * words width }
    requires clear { (x y : ℕ) → x < width → y < columns width → bit rows.old width x y ≡ false }
    ensures size { length rows.new ≡ width * words width }
    ensures filled { IsFilled (deps_at graph.now) rows.new width }
{
    for back in 0..width {
        fill_row(graph, rows, width, width - 1 - back);
    }
}

/// What each operation reaches, by the steps that lead from one to another.
pub(crate) fn reach_table(alloc: Global, graph: &Graph, width: usize) -> Result<Vec<u64>, NoMemory>
    requires width { width ≡ length graph.now + 1 }
    requires few { length graph.now ≤ 256 }
    ensures long { IfOk result (λ rows. length rows.items ≡ width * words width) }
    ensures filled { IfOk result (λ rows. IsFilled (deps_at graph.now) rows.items width) }
{
    let mut rows = vec![in alloc; 0; width * words(width)]?;
    fill_rows(graph, rows.as_mut_slice(), width);
    Ok(rows)
}

/// Turns a row: what it has becomes a column of another table, but for row 0 of that.
fn turn_row(rows: &[u64], turned: &mut [u64], width: usize, row: usize)
    requires row_in { row < width }
    requires rows_size { length rows.now ≡ width * words width }
    requires size { length turned.old ≡ width * words width }
    ensures size { length turned.new ≡ width * words width }
    ensures column { AreBits turned.new width (with_turned (bit rows.now width) (bit turned.old width) (nat_eq row)) }
{
    for column in 1..width {
        let flag = has(rows, width, row, column);
        put_bit(turned, width, column, row, flag);
    }
}

/// Turns all rows.
fn turn_rows(rows: &[u64], turned: &mut [u64], width: usize)
    requires rows_size { length rows.now ≡ width * words width }
    requires size { length turned.old ≡ width * words width }
    ensures size { length turned.new ≡ width * words width }
    ensures columns { AreBits turned.new width (with_turned (bit rows.now width) (bit turned.old width) (λ x. nat_lt x width)) }
{
    for row in 0..width {
        turn_row(rows, turned, width, row);
    }
}

/// Gives row 0 the keys.
fn mark_keys(rows: &mut [u64], width: usize, keys: &[usize])
    requires some { 0 < width }
    requires keys_in { All (λ k. k < width) keys.now }
    requires size { length rows.old ≡ width * words width }
    ensures size { length rows.new ≡ width * words width }
    ensures marked { AreBits rows.new width (with_keys (bit rows.old width) keys.now) }
{
    for key in keys {
        put_bit(rows, width, 0, *key, true);
    }
}

/// What reaches each block, told what each reaches; row 0 has the keys of those that stand.
pub(crate) fn reached_table(
    alloc: Global,
    reaches: &[u64],
    keys: &[usize],
    width: usize,
) -> Result<Vec<u64>, NoMemory>
    requires some { 0 < width }
    requires few { width ≤ 257 }
    requires reaches_size { length reaches.now ≡ width * words width }
    requires keys_in { All (λ k. k < width) keys.now }
    ensures long { IfOk result (λ rows. length rows.items ≡ width * words width) }
    ensures live { IfOk result (λ rows. HasLive rows.items width keys.now) }
    ensures turned { IfOk result (λ rows. IsTurned reaches.now rows.items width) }
{
    let mut rows = vec![in alloc; 0; width * words(width)]?;
    turn_rows(reaches, rows.as_mut_slice(), width);
    mark_keys(rows.as_mut_slice(), width, keys);
    Ok(rows)
}
