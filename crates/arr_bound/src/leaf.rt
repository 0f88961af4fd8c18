//! The leaf: for each class of views the operations that pay for it.
ghost use Rattle.std.specs.Prelude.{◌≡◌, ◌≤◌, ◌<◌, ◌+◌, ◌*◌, ◌/◌, ◌%◌, ◌==◌, ◌&&◌, ◌||◌, ◌∷◌, ℕ, List, true, false, cond, IfOk, IsTrue, OnOk, length};
ghost use Rattle.std.specs.Int.{bit_at};
ghost use Rattle.std.specs.List.{list_any};
ghost use Rattle.std.specs.Option.{option_to_list};
ghost use Rattle.arr_view.specs.Views.{identical};
ghost use Rattle.arr_ops.specs.Ops.{views};
ghost use Rattle.arr_sets.specs.Bits.{is_set};
ghost use Rattle.arr_law.specs.Floor.{IsSymmetric};
ghost use Rattle.arr_law.specs.declared.fact.Fact.TheVariants.{Apart};
ghost use Rattle.arr_state.specs.States.{known};
ghost use Rattle.arr_law.specs.ProblemOf.{numbered_view, op_at, problem_of, view_at};
ghost use Rattle.arr_bound.specs.Classes.{IsClass};
ghost use Rattle.arr_bound.specs.Sets.{in_row, IsTable};
ghost use Rattle.arr_bound.specs.Worth.{in_rows, IsLargeLeaf, IsLeafBy, Joined, Rises, surely_pays, Within};

use crate::NoMemory;
use crate::classes::{Class, Views, is_operand, writes};
use crate::picks::picks_of;
use arr_law::{Charge, Charges, OpList};
use arr_ops::Op;
use arr_sets::MOST;
use arr_state::State;
use arr_view::View;
use std::alloc::Global;

/// A word of the row of an operation; all ones where there is none.
fn open_word(apart: &[u64], width: usize, other: Option<u32>, index: usize) -> u64
    requires narrow { width ≤ 5 }
    requires within { index < width }
    requires other { Within width (length apart.now) other }
    ensures { (k : ℕ) → k < 64 → (bit_at result k == 1) ≡ in_rows width apart.now other (64 * index + k) }
{
    match other {
        Some(f) => apart[f as usize * width + index],
        None => u64::MAX,
    }
}

/// The operations that surely pay for a class: those that read it and are apart from the one that makes its base, and those that write it and
/// are apart from the one that ends it.
fn payers(alloc: Global, class: &Class, apart: &[u64], width: usize) -> Result<Vec<u64>, NoMemory>
    requires narrow { width ≤ 5 }
    requires readers { length class.now.readers.items ≡ width }
    requires writers { length class.now.writers.items ≡ width }
    requires creator { Within width (length apart.now) class.now.creator }
    requires freer { Within width (length apart.now) class.now.freer }
    ensures long { IfOk result (λ set. length set.items ≡ width) }
    ensures members { IfOk result (λ set. (g : ℕ) → is_set set.items g ≡ surely_pays class.now width apart.now g) }
{
    let mut set = Vec::new(alloc);
    for index in 0..width {
        let reads = class.readers[index] & open_word(apart, width, class.creator, index);
        let writes = class.writers[index] & open_word(apart, width, class.freer, index);
        set.push(reads | writes)?;
    }
    Ok(set)
}

/// Which view of an operation is identical to this one, the least such number: 0 the output, 1 and 2 the operands.
fn operand_of(op: &Op, view: &View) -> u8
    requires { IsTrue (list_any (identical view.now) (views op.now)) }
    ensures { IsTrue (list_any (identical view.now) (option_to_list (numbered_view op.now result))) }
{
    if writes(op, view) {
        return 0;
    }
    if is_operand(&op.first, view) {
        return 1;
    }
    2
}

/// Joins the group of a class, if there is an operation that pays for it.
fn push_group(
    groups: &mut Charges,
    ops: &[Op],
    at: usize,
    view: &View,
    picks: OpList,
) -> Result<(), NoMemory>
    requires view { view.now ≡ view_at ops.now at }
    requires within { at < (problem_of ops.now).classes }
    requires touches { (f : ℕ) (fs : List ℕ) → picks ≡ f ∷ fs
        → IsTrue (list_any (identical view.now) (views (op_at ops.now f))) }
    requires ops { (f : ℕ) (fs : List ℕ) → picks ≡ f ∷ fs → (0 < f) × (f ≤ length ops.now) }
    ensures { OnOk result (Joined (problem_of ops.now) at picks groups.old groups.new) }
{
    if picks.len() == 0 {
        return Ok(());
    }
    let first = *picks.at(0);
    let operand = operand_of(&ops[first as usize - 1], view);
    groups.push(Charge {
        operand,
        ops: picks,
    })
}

/// Joins the group of a class, told what the class is. The answer is by how much the worth rises, in bytes.
fn join_class(
    alloc: Global,
    groups: &mut Charges,
    ops: &[Op],
    at: usize,
    class: &Class,
    apart: &[u64],
) -> Result<u64, NoMemory>
    requires few { length ops.now ≤ MOST }
    requires within { at < (problem_of ops.now).classes }
    requires class { IsClass ops.now at class.now }
    requires table { IsTable (length ops.now) apart.now }
    ensures small { IfOk result (λ rise. rise ≤ 2684354560) }
    ensures below { IfOk result (λ rise. Rises (problem_of ops.now) apart.now at rise groups.old groups.new) }
{
    let mut set = payers(alloc, class, apart, ops.len() / 64 + 1)?;
    let picks = picks_of(alloc, &mut set, apart, ops.len() as u32)?;
    let rise = class.weight * picks.len() as u64;
    push_group(groups, ops, at, &class.view, picks)?;
    Ok(rise)
}

/// A lawful leaf under what the rows tell, with its worth in bytes: bit g of row f, from row 0 on, says that operations f and g are known to stand
/// apart.
fn leaf_by(alloc: Global, views: &Views, apart: &[u64]) -> Result<(u64, Charges), NoMemory>
    requires { IsTable (length views.now) apart.now }
    ensures { IfOk result (λ (worth, groups). IsLeafBy (problem_of views.now) apart.now worth groups) }
{
    let mut groups = Charges::new(alloc);
    let mut worth = 0;
    for at in 0..views.classes.len() {
        let class = &views.classes[at];
        worth += join_class(alloc, &mut groups, views.ops.as_slice(), at, class, apart)?;
    }
    Ok((worth, groups))
}

/// A lawful leaf under what a state of the list knows, with its worth in bytes: for each class of views the first operations that surely pay for it
/// and are pairwise apart, two at least where two such are apart (docs/CERTIFICATES.md, "Leaves"). Want of memory is its one refusal.
pub fn charges(alloc: Global, views: &Views, state: &State) -> Result<(u64, Charges), NoMemory>
    requires list { state.now.list ≡ views.now }
    requires even { IsSymmetric (known state.now) }
    requires plain { (f : ℕ) → known state.now (Apart f f) ≡ false }
    ensures { IfOk result (λ (worth, groups). IsLargeLeaf (problem_of views.now) (known state.now) worth groups) }
{
    leaf_by(alloc, views, state.apart_rows())
}
