//! The results of one operation, number by number, into the numbers that a block keeps.
ghost use Rattle.std.specs.Prelude.{◌≡◌, ◌+◌, ◌*◌, ◌≤◌, ◌<◌, ◌^◌, [], ◌∷◌, Some, cond, get_or, length, nat_lt, pos, true};
ghost use Rattle.std.specs.List.{list_all};
ghost use Rattle.arr_num.specs.Kinds.{is_element_wise};
ghost use Rattle.arr_view.specs.Views.{elements, positions};
ghost use Rattle.arr_ops.specs.Fits.{op_fits};
ghost use Rattle.arr_ops.specs.Formed.{well_formed};
ghost use Rattle.arr_ops.specs.Memory.{computed};
ghost use Rattle.arr_ops.specs.Ops.{view_of};
ghost use Rattle.arr_store.specs.Cells.{takes, width_at};
ghost use Rattle.arr_store.specs.Stored.{cells, memory_of};
ghost use Rattle.arr_strips.specs.Columns.{first_taken, taken};
ghost use Rattle.arr_ops.specs.Traffic.{axis_length};
ghost use Rattle.arr_loop.specs.Numbers.{AreResults, lie_inside, loads_each, numbers_for, row_at, same_inputs, views_lie_inside};
ghost use Rattle.arr_machine.specs.Kept.{inner_of};
ghost use Rattle.arr_machine.specs.Ports.{widths};

use crate::along::{Rows, fold_result, rows_of, scan_result};
use arr_contract::Prepared;
use arr_kernel::apply;
use arr_num::Code;
use arr_ops::{Op, Operand, array_view};
use arr_overlap::identical;
use arr_store::Store;
use arr_view::View;

/// Whether both inputs are views, and identical.
fn same_inputs(op: &Op) -> bool
    ensures { result ≡ same_inputs op.now }
{
    match op.first_view() {
        Some(first) => match op.second_view() {
            Some(second) => identical(first, second),
            None => false,
        },
        None => false,
    }
}

/// The number of a view at a position.
pub(crate) fn view_number(view: &View, position: u32, store: &mut Store) -> i128
    requires inside { lie_inside (elements view.now) (cells store.old view.now.base) ≡ true }
    requires there { nat_lt position (positions view.now.lengths) ≡ true }
    requires room { store.old.loads < 2 ^ 62 }
    ensures number { result ≡ row_at (cells store.old) position view.now }
    ensures typed { takes (cells store.old view.now.base) result ≡ true }
    ensures loads { store.new.loads ≡ store.old.loads + width_at (cells store.old view.now.base) }
    ensures bases { store.new.bases ≡ store.old.bases }
    ensures stores { store.new.stores ≡ store.old.stores }
    ensures made { store.new.made ≡ store.old.made }
{
    store.load(view.base(), view.element(position))
}

/// The number of an operand at a position; a constant stands at each, and 0 for none.
fn operand_number(source: &Option<Operand>, position: u32, store: &mut Store) -> i128
    requires inside { views_lie_inside (cells store.old) (view_of source.now) ≡ true }
    requires there { list_all (λ v. nat_lt position (positions v.lengths)) (view_of source.now) ≡ true }
    requires room { store.old.loads < 2 ^ 62 }
    ensures number { result ≡ taken (row_at (cells store.old) position) source.now }
    ensures loads { store.new.loads
        ≡ store.old.loads + widths (cells store.old) (view_of source.now) }
    ensures bases { store.new.bases ≡ store.old.bases }
    ensures stores { store.new.stores ≡ store.old.stores }
    ensures made { store.new.made ≡ store.old.made }
{
    match source {
        Some(Operand::Array(view)) => view_number(view, position, store),
        Some(Operand::Number(number)) => *number,
        None => 0,
    }
}

/// The number of the first operand at a position; RANGE has the position.
fn first_number(op: &Op, position: u32, store: &mut Store) -> i128
    requires well { well_formed op.now ≡ true }
    requires inside { views_lie_inside (cells store.old) (view_of op.now.first) ≡ true }
    requires there { list_all (λ v. nat_lt position (positions v.lengths)) (view_of op.now.first) ≡ true }
    requires room { store.old.loads < 2 ^ 62 }
    ensures number { result ≡ first_taken op.now.code position (row_at (cells store.old) position) op.now.first }
    ensures loads { store.new.loads
        ≡ store.old.loads + widths (cells store.old) (view_of op.now.first) }
    ensures bases { store.new.bases ≡ store.old.bases }
    ensures stores { store.new.stores ≡ store.old.stores }
    ensures made { store.new.made ≡ store.old.made }
{
    match op.code {
        Code::Range => position as i128,
        _ => operand_number(&op.first, position, store),
    }
}

/// The number of the second operand at a position; the first one's, where both are the same view.
fn second_number(op: &Op, shared: bool, left: i128, position: u32, store: &mut Store) -> i128
    requires shared { shared ≡ same_inputs op.now }
    requires left { shared ≡ true → left ≡ taken (row_at (cells store.old) position) op.now.first }
    requires inside { views_lie_inside (cells store.old) (view_of op.now.second) ≡ true }
    requires there { list_all (λ v. nat_lt position (positions v.lengths)) (view_of op.now.second) ≡ true }
    requires room { store.old.loads < 2 ^ 62 }
    ensures number { result ≡ taken (row_at (cells store.old) position) op.now.second }
    ensures loads { store.new.loads
        ≡ store.old.loads + cond shared 0 (widths (cells store.old) (view_of op.now.second)) }
    ensures bases { store.new.bases ≡ store.old.bases }
    ensures stores { store.new.stores ≡ store.old.stores }
    ensures made { store.new.made ≡ store.old.made }
{
    if shared {
        return left;
    }
    operand_number(&op.second, position, store)
}

/// The result of an element-wise operation at a position.
fn element_result(op: &Op, out: &View, shared: bool, position: u32, store: &mut Store) -> i128
    requires well { well_formed op.now ≡ true }
    requires code { is_element_wise op.now.code ≡ true }
    requires out { op.now.out ≡ Some out.now }
    requires shared { shared ≡ same_inputs op.now }
    requires fits { op_fits (memory_of store.old) (op.now ∷ []) op.now ≡ true }
    requires there { position < positions out.now.lengths }
    requires room { store.old.loads + 16777216 ≤ 2 ^ 62 }
    ensures value { result ≡ get_or (computed (memory_of store.old) op.now) position (pos 0) }
    ensures loads { store.new.loads ≡ store.old.loads + loads_each op.now }
    ensures bases { store.new.bases ≡ store.old.bases }
    ensures stores { store.new.stores ≡ store.old.stores }
    ensures made { store.new.made ≡ store.old.made }
{
    let left = first_number(op, position, store);
    let right = second_number(op, shared, left, position, store);
    apply(op.code, op.to, op.from, left, right)
}

/// The result of an operation at a position of its output. The results before it stand among the numbers that the block keeps.
fn result_at(
    op: &Op,
    out: &View,
    shared: bool,
    rows: Rows,
    position: u32,
    prepared: &Prepared,
    store: &mut Store,
) -> i128
    requires well { well_formed op.now ≡ true }
    requires out { op.now.out ≡ Some out.now }
    requires shared { shared ≡ same_inputs op.now }
    requires rows { rows.count ≡ axis_length op.now }
    requires inner { rows.inner ≡ inner_of op.now }
    requires some { 1 ≤ rows.count }
    requires some_inner { 1 ≤ rows.inner }
    requires fits { op_fits (memory_of store.old) (op.now ∷ []) op.now ≡ true }
    requires there { position < positions out.now.lengths }
    requires enough { position ≤ length prepared.now.numbers }
    requires earlier { AreResults prepared.now.numbers (memory_of store.old) op.now position }
    requires room { store.old.loads + 16777216 ≤ 2 ^ 62 }
    ensures value { result ≡ get_or (computed (memory_of store.old) op.now) position (pos 0) }
    ensures loads { store.new.loads ≡ store.old.loads + loads_each op.now }
    ensures bases { store.new.bases ≡ store.old.bases }
    ensures stores { store.new.stores ≡ store.old.stores }
    ensures made { store.new.made ≡ store.old.made }
{
    match op.code {
        Code::AddAccumulate | Code::MultiplyAccumulate => {
            scan_result(op, array_view(&op.first), rows, position, prepared, store)
        }
        Code::AddReduce | Code::MultiplyReduce | Code::MinimumReduce | Code::MaximumReduce => {
            fold_result(op, array_view(&op.first), rows, position, store)
        }
        _ => element_result(op, out, shared, position, store),
    }
}

/// Computes the results of an operation, in order, into the first of the numbers that a block keeps.
pub(crate) fn compute(op: &Op, out: &View, prepared: &mut Prepared, store: &mut Store)
    requires well { well_formed op.now ≡ true }
    requires out { op.now.out ≡ Some out.now }
    requires fits { op_fits (memory_of store.old) (op.now ∷ []) op.now ≡ true }
    requires enough { positions out.now.lengths ≤ length prepared.old.numbers }
    requires room { store.old.loads < 2 ^ 61 }
    ensures numbers { numbers_for out.now prepared.new.numbers ≡ computed (memory_of store.old) op.now }
    ensures ops { prepared.new.ops ≡ prepared.old.ops }
    ensures long { length prepared.new.numbers ≡ length prepared.old.numbers }
    ensures loads { store.new.loads ≡ store.old.loads + positions out.now.lengths * loads_each op.now }
    ensures bases { store.new.bases ≡ store.old.bases }
    ensures stores { store.new.stores ≡ store.old.stores }
    ensures made { store.new.made ≡ store.old.made }
{
    let shared = same_inputs(op);
    let rows = rows_of(op);
    for position in 0..out.positions() {
        let number = result_at(op, out, shared, rows, position, prepared, store);
        prepared.set_number(u64::from(position), number);
    }
}
