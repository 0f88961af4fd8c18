//! The results of scans and reductions, number by number.
ghost use Rattle.std.specs.Prelude.{◌≡◌, ◌+◌, ◌*◌, ◌/◌, ◌%◌, ◌≤◌, ◌<◌, ◌^◌, [], ◌∷◌, Some, drop, get_or, length, nat_le, pos, suc, true};
ghost use Rattle.std.specs.List.{list_all};
ghost use Rattle.arr_num.specs.Kinds.{Reduction, Scan, kind};
ghost use Rattle.arr_view.specs.Views.{most_elements, positions};
ghost use Rattle.arr_ops.specs.Fits.{op_fits};
ghost use Rattle.arr_ops.specs.Formed.{well_formed};
ghost use Rattle.arr_ops.specs.Memory.{computed, or_zero};
ghost use Rattle.arr_ops.specs.Traffic.{axis_length};
ghost use Rattle.arr_store.specs.Stored.{memory_of};
ghost use Rattle.arr_strips.specs.Columns.{count};
ghost use Rattle.arr_loop.specs.Numbers.{AreResults, loads_each};
ghost use Rattle.arr_machine.specs.Kept.{inner_of};

use crate::computing::view_number;
use arr_contract::Prepared;
use arr_kernel::combine;
use arr_num::fold_start;
use arr_ops::{Op, Operand};
use arr_store::Store;
use arr_view::View;

/// The rows along an axis: how many there are, and how many numbers each has.
#[derive(Clone, Copy)]
pub(crate) struct Rows {
    pub(crate) count: u32,
    pub(crate) inner: u32,
}

/// How many positions the lengths have.
fn product(lengths: &[u32]) -> u32
    requires each { list_all (nat_le 1) lengths.now ≡ true }
    requires few { positions lengths.now ≤ most_elements }
    ensures value { result ≡ positions lengths.now }
    ensures some { 1 ≤ result }
{
    let mut count = 1;
    for length in lengths {
        count *= *length;
    }
    count
}

/// The rows of a view along an axis; one of one number, where it has no such axis.
fn rows_at(view: &View, axis: usize) -> Rows
    ensures rows { result.count ≡ get_or view.now.lengths axis 1 }
    ensures inner { result.inner ≡ positions (drop (suc axis) view.now.lengths) }
    ensures some { 1 ≤ result.count }
    ensures some_inner { 1 ≤ result.inner }
{
    let shape = view.shape();
    if axis < shape.len() {
        Rows {
            count: shape[axis],
            inner: product(&shape[axis + 1..]),
        }
    } else {
        Rows { count: 1, inner: 1 }
    }
}

/// The axis that an operation folds along, or 0.
fn axis_of(op: &Op) -> usize
    ensures { result ≡ or_zero op.now.axis }
{
    match op.axis {
        Some(axis) => usize::from(axis),
        None => 0,
    }
}

/// The rows of an operation's input along its axis.
pub(crate) fn rows_of(op: &Op) -> Rows
    ensures rows { result.count ≡ axis_length op.now }
    ensures inner { result.inner ≡ inner_of op.now }
    ensures some { 1 ≤ result.count }
    ensures some_inner { 1 ≤ result.inner }
    ensures few { result.count < 2 ^ 32 }
{
    match &op.first {
        Some(Operand::Array(view)) => rows_at(view, axis_of(op)),
        _ => Rows { count: 1, inner: 1 },
    }
}

/// The result of a scan at a position, from the results before it, which stand among the numbers that the block keeps: it goes on from the
/// one a row before, or from the start of the fold in the first row.
pub(crate) fn scan_result(
    op: &Op,
    input: &View,
    rows: Rows,
    position: u32,
    prepared: &Prepared,
    store: &mut Store,
) -> i128
    requires well { well_formed op.now ≡ true }
    requires code { kind op.now.code ≡ Scan }
    requires input { op.now.first ≡ Some (Operand.Array input.now) }
    requires rows { rows.count ≡ axis_length op.now }
    requires inner { rows.inner ≡ inner_of op.now }
    requires some { 1 ≤ rows.count }
    requires some_inner { 1 ≤ rows.inner }
    requires fits { op_fits (memory_of store.old) (op.now ∷ []) op.now ≡ true }
    requires there { position < count op.now }
    requires enough { position ≤ length prepared.now.numbers }
    requires earlier { AreResults prepared.now.numbers (memory_of store.old) op.now position }
    requires room { store.old.loads < 2 ^ 62 }
    ensures value { result ≡ get_or (computed (memory_of store.old) op.now) position (pos 0) }
    ensures loads { store.new.loads ≡ store.old.loads + loads_each op.now }
    ensures bases { store.new.bases ≡ store.old.bases }
    ensures stores { store.new.stores ≡ store.old.stores }
    ensures made { store.new.made ≡ store.old.made }
{
    let number = view_number(input, position, store);
    if position / rows.inner % rows.count == 0 {
        return combine(op.code, op.to, fold_start(op.code, op.to), number);
    }
    let before = prepared.number(u64::from(position - rows.inner));
    combine(op.code, op.to, before, number)
}

/// Where a number of the line of a result stands: in so many a row.
fn line_place(line: u32, rows: Rows, row: u32) -> u32
    requires some_inner { 1 ≤ rows.inner }
    requires inside { (line / rows.inner * rows.count + row) * rows.inner + line % rows.inner < 1048576 }
    ensures { result ≡ (line / rows.inner * rows.count + row) * rows.inner + line % rows.inner }
{
    (line / rows.inner * rows.count + row) * rows.inner + line % rows.inner
}

/// The result of a reduction with a number: the fold of the numbers of its line along the axis.
pub(crate) fn fold_result(op: &Op, input: &View, rows: Rows, line: u32, store: &mut Store) -> i128
    requires well { well_formed op.now ≡ true }
    requires code { kind op.now.code ≡ Reduction }
    requires input { op.now.first ≡ Some (Operand.Array input.now) }
    requires rows { rows.count ≡ axis_length op.now }
    requires inner { rows.inner ≡ inner_of op.now }
    requires some_inner { 1 ≤ rows.inner }
    requires fits { op_fits (memory_of store.old) (op.now ∷ []) op.now ≡ true }
    requires there { line < count op.now }
    requires room { store.old.loads + 16777216 ≤ 2 ^ 62 }
    ensures value { result ≡ get_or (computed (memory_of store.old) op.now) line (pos 0) }
    ensures loads { store.new.loads ≡ store.old.loads + loads_each op.now }
    ensures bases { store.new.bases ≡ store.old.bases }
    ensures stores { store.new.stores ≡ store.old.stores }
    ensures made { store.new.made ≡ store.old.made }
{
    let mut sum = fold_start(op.code, op.to);
    for row in 0..rows.count {
        let number = view_number(input, line_place(line, rows, row), store);
        sum = combine(op.code, op.to, sum, number);
    }
    sum
}
