//! Tables of a list: which operations are serial, and rows that say of each two whether they depend and whether they may share a block.
ghost use Rattle.std.specs.Prelude.{◌≡◌, ◌≤◌, ◌<◌, IfOk, IsTrue, length, map, take};
ghost use Rattle.std.specs.List.{list_all};
ghost use Rattle.arr_ops.specs.Ops.{dep, fusible, serial};
ghost use Rattle.arr_deps.specs.Classed.{classes_of, has_classes};
ghost use Rattle.arr_deps.specs.Graph.{op_in, rows_by};

use crate::NoMemory;
use crate::classed::Classed;
use crate::pairs::{depend, is_serial, may_fuse};
use arr_ops::Op;
use arr_overlap::Classes;
use arr_sets::{Bits, MOST};
use std::alloc::Global;

/// Whether two operations depend. Where the second stands before the first, its row tells.
fn depend_at(
    classes: &Classes,
    ops: &[Op],
    table: &[Classed],
    earlier: &[Bits],
    f: usize,
    g: usize,
) -> bool
    requires first { f < length ops.now }
    requires second { g < length ops.now }
    requires few { length ops.now ≤ MOST }
    requires table { table.now ≡ map (classes_of classes.now) ops.now }
    requires known { IsTrue (list_all (has_classes classes.now) ops.now) }
    requires earlier { earlier.now ≡ take f (rows_by dep ops.now) }
    ensures { result ≡ dep (op_in ops.now f) (op_in ops.now g) }
{
    if g < f {
        return earlier[g].has(f as u32);
    }
    depend(classes, &ops[f], &ops[g], &table[f], &table[g])
}

/// Whether two operations may share a block. Where the second stands before the first, its row tells.
fn may_fuse_at(
    classes: &Classes,
    ops: &[Op],
    table: &[Classed],
    serials: &Bits,
    earlier: &[Bits],
    f: usize,
    g: usize,
) -> bool
    requires first { f < length ops.now }
    requires second { g < length ops.now }
    requires few { length ops.now ≤ MOST }
    requires table { table.now ≡ map (classes_of classes.now) ops.now }
    requires known { IsTrue (list_all (has_classes classes.now) ops.now) }
    requires serials { serials.now ≡ map serial ops.now }
    requires earlier { earlier.now ≡ take f (rows_by fusible ops.now) }
    ensures { result ≡ fusible (op_in ops.now f) (op_in ops.now g) }
{
    if g < f {
        return earlier[g].has(f as u32);
    }
    may_fuse(
        classes,
        &ops[f],
        &ops[g],
        &table[f],
        &table[g],
        serials.has(f as u32),
        serials.has(g as u32),
    )
}

fn serial_at(classes: &Classes, ops: &[Op], table: &[Classed], f: usize) -> bool
    requires place { f < length ops.now }
    requires table { table.now ≡ map (classes_of classes.now) ops.now }
    requires known { IsTrue (list_all (has_classes classes.now) ops.now) }
    ensures { result ≡ serial (op_in ops.now f) }
{
    is_serial(classes, &ops[f], &table[f])
}

/// The operations that are serial.
pub(crate) fn serial_row(
    alloc: Global,
    classes: &Classes,
    ops: &[Op],
    table: &[Classed],
) -> Result<Bits, NoMemory>
    requires few { length ops.now ≤ MOST }
    requires table { table.now ≡ map (classes_of classes.now) ops.now }
    requires known { IsTrue (list_all (has_classes classes.now) ops.now) }
    ensures { IfOk result (λ row. row ≡ map serial ops.now) }
{
    let mut row = Bits::new(alloc, ops.len() as u32)?;
    for place in 0..ops.len() {
        if serial_at(classes, ops, table, place) {
            row.insert(place as u32);
        }
    }
    Ok(row)
}

/// The operations that depend with one, by the rows of those before it.
fn dep_row(
    alloc: Global,
    classes: &Classes,
    ops: &[Op],
    table: &[Classed],
    earlier: &[Bits],
    f: usize,
) -> Result<Bits, NoMemory>
    requires place { f < length ops.now }
    requires few { length ops.now ≤ MOST }
    requires table { table.now ≡ map (classes_of classes.now) ops.now }
    requires known { IsTrue (list_all (has_classes classes.now) ops.now) }
    requires earlier { earlier.now ≡ take f (rows_by dep ops.now) }
    ensures { IfOk result (λ row. row ≡ map (dep (op_in ops.now f)) ops.now) }
{
    let mut row = Bits::new(alloc, ops.len() as u32)?;
    for place in 0..ops.len() {
        if depend_at(classes, ops, table, earlier, f, place) {
            row.insert(place as u32);
        }
    }
    Ok(row)
}

/// The operations that may share a block with one, by the rows of those before it.
fn fuse_row(
    alloc: Global,
    classes: &Classes,
    ops: &[Op],
    table: &[Classed],
    serials: &Bits,
    earlier: &[Bits],
    f: usize,
) -> Result<Bits, NoMemory>
    requires place { f < length ops.now }
    requires few { length ops.now ≤ MOST }
    requires table { table.now ≡ map (classes_of classes.now) ops.now }
    requires known { IsTrue (list_all (has_classes classes.now) ops.now) }
    requires serials { serials.now ≡ map serial ops.now }
    requires earlier { earlier.now ≡ take f (rows_by fusible ops.now) }
    ensures { IfOk result (λ row. row ≡ map (fusible (op_in ops.now f)) ops.now) }
{
    let mut row = Bits::new(alloc, ops.len() as u32)?;
    for place in 0..ops.len() {
        if may_fuse_at(classes, ops, table, serials, earlier, f, place) {
            row.insert(place as u32);
        }
    }
    Ok(row)
}

/// For each operation the row of those that depend with it, whichever stands first.
pub(crate) fn dep_rows(
    alloc: Global,
    classes: &Classes,
    ops: &[Op],
    table: &[Classed],
) -> Result<Vec<Bits>, NoMemory>
    requires few { length ops.now ≤ MOST }
    requires table { table.now ≡ map (classes_of classes.now) ops.now }
    requires known { IsTrue (list_all (has_classes classes.now) ops.now) }
    ensures { IfOk result (λ rows. rows.items ≡ rows_by dep ops.now) }
{
    let mut rows = Vec::new(alloc);
    for f in 0..ops.len() {
        let row = dep_row(alloc, classes, ops, table, rows.as_slice(), f)?;
        rows.push(row)?;
    }
    Ok(rows)
}

/// For each operation the row of those that may share a block with it.
pub(crate) fn fuse_rows(
    alloc: Global,
    classes: &Classes,
    ops: &[Op],
    table: &[Classed],
    serials: &Bits,
) -> Result<Vec<Bits>, NoMemory>
    requires few { length ops.now ≤ MOST }
    requires table { table.now ≡ map (classes_of classes.now) ops.now }
    requires known { IsTrue (list_all (has_classes classes.now) ops.now) }
    requires serials { serials.now ≡ map serial ops.now }
    ensures { IfOk result (λ rows. rows.items ≡ rows_by fusible ops.now) }
{
    let mut rows = Vec::new(alloc);
    for f in 0..ops.len() {
        let row = fuse_row(alloc, classes, ops, table, serials, rows.as_slice(), f)?;
        rows.push(row)?;
    }
    Ok(rows)
}
