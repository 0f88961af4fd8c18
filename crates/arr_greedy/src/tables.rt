//! Which operations may share a block: rows and columns are numbers, and those of 0 are empty.
ghost use Rattle.std.specs.Prelude.{◌≡◌, ◌≤◌, ◌<◌, ◌+◌, ◌*◌, IfOk, length};
ghost use Rattle.arr_greedy.specs.Start.{fuses_at};
ghost use Rattle.arr_greedy.specs.Fast.{flag};
ghost use Rattle.arr_greedy.specs.Tables.{AreFlags, with_row};

use crate::NoMemory;
use crate::rows::put;
use arr_deps::Graph;
use std::alloc::Global;

/// Whether two operations may share a block.
fn fuses_at(graph: &Graph, i: usize, j: usize) -> bool
    requires first { i ≤ length graph.now }
    requires second { j ≤ length graph.now }
    requires few { length graph.now ≤ 256 }
    ensures { result ≡ fuses_at graph.now i j }
{
    if i == 0 || j == 0 || i == j {
        return false;
    }
    graph.fusible(i.min(j) as u32, i.max(j) as u32)
}

/// Fills a row with which operations may share a block with one.
fn fuse_row(graph: &Graph, rows: &mut [bool], width: usize, row: usize)
    requires width { width ≡ length graph.now + 1 }
    requires few { length graph.now ≤ 256 }
    requires row_in { row < width }
    requires size { length rows.old ≡ width * width }
    ensures size { length rows.new ≡ width * width }
    ensures row { AreFlags rows.new width (with_row (flag rows.old width) row (λ x y. fuses_at graph.now row y)) }
{
    for column in 0..width {
        let fuses = fuses_at(graph, row, column);
        put(rows, width, row, column, fuses);
    }
}

/// Fills the rows.
fn fuse_rows(graph: &Graph, rows: &mut [bool], width: usize)
    requires width { width ≡ length graph.now + 1 }
    requires few { length graph.now ≤ 256 }
    requires size { length rows.old ≡ width * width }
    ensures size { length rows.new ≡ width * width }
    ensures flags { AreFlags rows.new width (fuses_at graph.now) }
{
    for row in 0..width {
        fuse_row(graph, rows, width, row);
    }
}

/// For each two operations whether they may share a block.
pub(crate) fn fuse_table(alloc: Global, graph: &Graph, width: usize) -> Result<Vec<bool>, NoMemory>
    requires width { width ≡ length graph.now + 1 }
    requires few { length graph.now ≤ 256 }
    ensures long { IfOk result (λ rows. length rows.items ≡ width * width) }
    ensures flags { IfOk result (λ rows. AreFlags rows.items width (fuses_at graph.now)) }
{
    let mut rows = vec![in alloc; false; width * width]?;
    fuse_rows(graph, rows.as_mut_slice(), width);
    Ok(rows)
}
