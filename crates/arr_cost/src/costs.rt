//! The costs of a list.
ghost use Rattle.std.specs.Prelude.{◌≡◌, ◌≤◌, ◌<◌, ◌+◌, ◌-◌, ◌*◌, ◌++◌, ◌∷◌, [], IfOk, IsTrue, cond, length, slice_index_or, List, ℕ};
ghost use Rattle.arr_view.specs.Views.{has};
ghost use Rattle.arr_ops.specs.Costs.{block_cost, cost, reads, writes};
ghost use Rattle.arr_ops.specs.Formed.{is_formed};
ghost use Rattle.arr_ops.specs.Plans.{is_legal, numbered, ops_of};
ghost use Rattle.arr_cost.specs.Footprints.{IsFootprint};
ghost use Rattle.arr_cost.specs.Blocks.{Saves};

use crate::NoMemory;
use crate::block::{block_reads, block_writes};
use crate::footprints::{Footprint, footprint_of};
use crate::tally::{touched_weight, touches_at};
use crate::touches::{Touches, class_bases, table_of};
use crate::weights::class_weights;
use arr_ops::{Op, Plan, copied_ops};
use arr_sets::MOST;
use arr_view::View;
use std::alloc::Global;
use std::marker::Model;

/// The costs of a list of operations, which are numbered from 1 (docs/PLANS.md, "Cost"). A contract sees the list.
#[derive(Drop)]
pub struct Costs {
    ops: Vec<Op>,
    table: Vec<Touches>,
    bases: Vec<usize>,
    weights: Vec<u64>,
}

impl Model for Costs {
    ghost use Rattle.std.specs.Prelude.{◌≡◌, ◌≤◌, ◌*◌, List, IsTrue, length};
    ghost use Rattle.std.specs.List.{All};
    ghost use Rattle.arr_ops.specs.declared.op.Op.{Op};
    ghost use Rattle.arr_ops.specs.Formed.{is_formed};
    ghost use Rattle.arr_cost.specs.Footprints.{bases_of, weights_of};
    ghost use Rattle.arr_cost.specs.Touches.{is_below, table_of};

    ghost Value = { List Op };

    ghost view = { λ c. c.ops.items };

    ghost invariant = { λ c. (length c.ops.items ≤ 256) × (IsTrue (is_formed c.ops.items)) × (c.table.items ≡ table_of c.ops.items) × (All (λ t. IsTrue (is_below (3 * length c.table.items) t)) c.table.items) × (c.bases.items ≡ bases_of c.ops.items) × (c.weights.items ≡ weights_of c.ops.items) × (All (λ w. w ≤ 8388608) c.weights.items) };
}

fn has(block: &[u32], number: u32) -> bool
    ensures { result ≡ has block.now number }
{
    block.iter().any(|other| number == *other)
}

fn push_if(inside: bool, found: &mut Vec<Op>, op: &Op) -> Result<(), NoMemory>
    ensures { IfOk result (λ done. found.new.items ≡ found.old.items ++ cond inside (op.now ∷ []) []) }
{
    if inside {
        found.push(op.copied())?;
    }
    Ok(())
}

/// The operations of a block, in the order of the list, which has at most `MOST` (docs/PLANS.md, "Legal plans"). Want of memory is its
/// one refusal.
pub fn block_ops(alloc: Global, ops: &[Op], block: &[u32]) -> Result<Vec<Op>, NoMemory>
    requires { length ops.now ≤ MOST }
    ensures { IfOk result (λ found. found.items ≡ ops_of (numbered ops.now) block.now) }
{
    let mut found = Vec::new(alloc);
    for place in 0..ops.len() {
        push_if(has(block, place as u32 + 1), &mut found, &ops[place])?;
    }
    Ok(found)
}

/// What a block costs, in bytes.
fn cost_of(alloc: Global, costs: &Costs, block: &[u32]) -> Result<u64, NoMemory>
    ensures value { IfOk result (λ sum. sum ≡ block_cost costs.now block.now) }
    ensures small { IfOk result (λ sum. sum ≤ 771 * 8388608) }
    ensures few { IfOk result (λ sum. length costs.now ≤ 256) }
{
    let sum = touched_weight(alloc, costs.table.as_slice(), block)?;
    Ok(sum)
}

/// What the block of the one operation with a number touches: nothing, where the list has none.
fn one_footprint(alloc: Global, costs: &Costs, number: u32) -> Result<Footprint, NoMemory>
    ensures { IfOk result (λ f. IsFootprint costs.now (number ∷ []) f) }
{
    let touches = touches_at(costs.table.as_slice(), number, 3 * costs.table.len());
    footprint_of(alloc, touches, costs.bases.as_slice())
}

impl Costs {
    /// The costs of a formed list of at most `MOST` operations, with a copy of the list. Want of memory is its one refusal
    /// (docs/PLANS.md, "Cost").
    pub fn of(alloc: Global, ops: &[Op]) -> Result<Costs, NoMemory>
        requires formed { IsTrue (is_formed ops.now) }
        requires few { length ops.now ≤ MOST }
        ensures { IfOk result (λ costs. costs ≡ ops.now) }
    {
        Ok(Costs {
            ops: copied_ops(alloc, ops)?,
            table: table_of(alloc, ops)?,
            bases: class_bases(alloc, ops)?,
            weights: class_weights(alloc, ops)?,
        })
    }

    /// How many operations the list has, at most `MOST`. It takes no memory.
    pub fn len(&self) -> u32
        ensures value { result ≡ length self.now }
        ensures few { result ≤ MOST }
        ensures formed { IsTrue (is_formed self.now) }
    {
        self.ops.len() as u32
    }

    /// The operation with the number `f`, from 1 to `len`. It takes no memory.
    pub fn op(&self, f: u32) -> &Op
        requires least { 0 < f }
        requires most { f ≤ length self.now }
        ensures { result.now ≡ slice_index_or self.now (f - 1) result.now }
    {
        &self.ops[f as usize - 1]
    }

    /// The views that a block reads and whose base it does not create, each once, in the order of first sight (docs/PLANS.md, "Cost"). Want of
    /// memory is its one refusal.
    pub fn reads(&self, alloc: Global, block: &[u32]) -> Result<Vec<View>, NoMemory>
        ensures { IfOk result (λ found. found.items ≡ reads (ops_of (numbered self.now) block.now)) }
    {
        let ops = block_ops(alloc, self.ops.as_slice(), block)?;
        block_reads(alloc, ops.as_slice())
    }

    /// The views that a block writes and whose base it does not free, each once, in the order of first sight (docs/PLANS.md, "Cost"). Want of
    /// memory is its one refusal.
    pub fn writes(&self, alloc: Global, block: &[u32]) -> Result<Vec<View>, NoMemory>
        ensures { IfOk result (λ found. found.items ≡ writes (ops_of (numbered self.now) block.now)) }
    {
        let ops = block_ops(alloc, self.ops.as_slice(), block)?;
        block_writes(alloc, ops.as_slice())
    }

    /// What a block costs, in bytes: what the views weigh that it reads or writes outside itself (docs/PLANS.md, "Cost"). Want of memory is
    /// its one refusal.
    pub fn block_cost(&self, alloc: Global, block: &[u32]) -> Result<u64, NoMemory>
        ensures { IfOk result (λ sum. sum ≡ block_cost self.now block.now) }
    {
        cost_of(alloc, self, block)
    }

    /// What a legal plan of the list costs, in bytes (docs/PLANS.md, "Cost"). Want of memory is its one refusal.
    pub fn cost(&self, alloc: Global, plan: &Plan) -> Result<u64, NoMemory>
        requires { IsTrue (is_legal self.now plan.now) }
        ensures { IfOk result (λ sum. sum ≡ cost self.now plan.now) }
    {
        let mut sum = 0;
        for block in &plan.blocks {
            sum += cost_of(alloc, self, block.as_slice())?;
        }
        Ok(sum)
    }

    /// What one block in place of two saves, in bytes: the costs of both are the cost of their union and the saving (docs/PLANS.md, "Cost").
    /// Want of memory is its one refusal.
    pub fn saving(&self, alloc: Global, a: &[u32], b: &[u32]) -> Result<u64, NoMemory>
        ensures { IfOk result (λ saved. Saves self.now a.now b.now saved) }
    {
        let mut both = a.to_vec(alloc)?;
        both.extend_from_slice(b)?;
        let first = cost_of(alloc, self, a)?;
        let second = cost_of(alloc, self, b)?;
        let whole = cost_of(alloc, self, both.as_slice())?;
        Ok(first + second - whole)
    }

    /// What a block touches (docs/PLANS.md, "Cost"). Want of memory is its one refusal.
    pub fn footprint(&self, alloc: Global, block: &[u32]) -> Result<Footprint, NoMemory>
        ensures { IfOk result (λ f. IsFootprint self.now block.now f) }
    {
        let mut print = one_footprint(alloc, self, 0)?;
        for place in 0..block.len() {
            let other = one_footprint(alloc, self, block[place])?;
            print = print.joined(alloc, &other)?;
        }
        Ok(print)
    }

    /// What one block in place of two saves, in bytes, told what each of the two touches: the same as `saving`, and quick
    /// (docs/PLANS.md, "Cost"). It takes no memory.
    pub fn joint_saving(&self, a: &Footprint, b: &Footprint) -> u64
        ensures { (x y : List ℕ) → IsFootprint self.now x a.now → IsFootprint self.now y b.now
            → Saves self.now x y result }
    {
        a.saving(self.weights.as_slice(), b)
    }
}
