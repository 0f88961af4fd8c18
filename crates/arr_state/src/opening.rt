//! What a list alone gives.
ghost use Rattle.std.specs.Prelude.{◌≡◌, ◌<◌, ◌≤◌, [], ℕ, Bool, IfOk, IsTrue, cond, get_or, length, map, not, ◌==◌, ◌&&◌};
ghost use Rattle.std.specs.List.{list_any};
ghost use Rattle.std.specs.Option.{option_to_list};
ghost use Rattle.arr_law.specs.Facts.{with_fact};
ghost use Rattle.arr_law.specs.Problem.{ends_base_of};
ghost use Rattle.arr_law.specs.ProblemOf.{problem_of};
ghost use Rattle.arr_law.specs.declared.fact.Fact.TheVariants.{Same};
ghost use Rattle.arr_ops.specs.Formed.{is_formed};
ghost use Rattle.arr_ops.specs.Ops.{views};
ghost use Rattle.arr_state.specs.Kept.{IsKept};
ghost use Rattle.arr_state.specs.Known.{AreOps, HoldRoots, after};
ghost use Rattle.arr_state.specs.Opening.{Gain, all_below, all_users_below, no_facts, row_below, users_below, with_pair, with_user};
ghost use Rattle.arr_state.specs.Rows.{AreRowed, all_words};
ghost use Rattle.arr_view.specs.Strided.{Strided};
ghost use Rattle.arr_view.specs.Views.{has};

use crate::NoMemory;
use crate::known::{Known, count_of};
use crate::rows::{ENDS, USERS, set_bit, set_rows};
use arr_deps::Graph;
use arr_law::Fact;
use arr_ops::Op;
use arr_view::View;
use std::alloc::Global;

/// A copy of the operations of a graph, in the order of its list. Want of memory is its one refusal (docs/PLANS.md, "Graph and costs").
pub fn ops_of(alloc: Global, graph: &Graph) -> Result<Vec<Op>, NoMemory>
    ensures is { IfOk result (λ ops. ops.items ≡ graph.now) }
    ensures few { IfOk result (λ ops. length ops.items ≤ 256) }
    ensures formed { IfOk result (λ ops. IsTrue (is_formed ops.items)) }
{
    let mut ops = Vec::new(alloc);
    for f in 0..graph.len() {
        ops.push(graph.op(f + 1).copied())?;
    }
    Ok(ops)
}

/// Whether the list alone gives that two operations stand apart.
fn are_apart(graph: &Graph, f: u32, g: u32) -> bool
    requires first_least { 0 < f }
    requires first_most { f ≤ length graph.now }
    requires second_least { 0 < g }
    requires second_most { g ≤ length graph.now }
    ensures { result ≡ (not (f == g) && not ((problem_of graph.now).fusible f g)) }
{
    f != g && !graph.fusible(f, g)
}

/// Whether the list alone gives that one operation stands before another.
fn is_before(graph: &Graph, f: u32, g: u32) -> bool
    requires first_least { 0 < f }
    requires first_most { f ≤ length graph.now }
    requires second_least { 0 < g }
    requires second_most { g ≤ length graph.now }
    ensures { result ≡ (not (f == g) && (problem_of graph.now).dep f g) }
{
    f != g && graph.dep(f, g)
}

/// Joins a fact, if it is given.
fn push_if(given: bool, roots: &mut Vec<Fact>, fact: Fact) -> Result<(), NoMemory>
    ensures { IfOk result (λ done. after no_facts roots.new.items
        ≡ cond given (with_fact fact (after no_facts roots.old.items)) (after no_facts roots.old.items)) }
{
    if given {
        roots.push(fact)?;
    }
    Ok(())
}

/// Joins what the list alone gives of two operations.
fn push_pair(graph: &Graph, roots: &mut Vec<Fact>, f: u32, g: u32) -> Result<(), NoMemory>
    requires first_least { 0 < f }
    requires first_most { f ≤ length graph.now }
    requires second_least { 0 < g }
    requires second_most { g ≤ length graph.now }
    ensures { IfOk result (λ done. after no_facts roots.new.items
        ≡ with_pair (problem_of graph.now) f g (after no_facts roots.old.items)) }
{
    push_if(are_apart(graph, f, g), roots, Fact::Apart(f, g))?;
    push_if(is_before(graph, f, g), roots, Fact::Before(f, g))?;
    Ok(())
}

/// Joins what the list alone gives of an operation and each other.
fn push_row(graph: &Graph, roots: &mut Vec<Fact>, f: u32) -> Result<(), NoMemory>
    requires least { 0 < f }
    requires most { f ≤ length graph.now }
    ensures { IfOk result (λ done. after no_facts roots.new.items
        ≡ row_below (problem_of graph.now) (length graph.now) f (after no_facts roots.old.items)) }
{
    for g in 0..graph.len() {
        push_pair(graph, roots, f, g + 1)?;
    }
    Ok(())
}

/// The facts that the list alone gives.
pub(crate) fn roots_of(alloc: Global, graph: &Graph) -> Result<Vec<Fact>, NoMemory>
    ensures is { IfOk result (λ roots. after no_facts roots.items
        ≡ all_below (problem_of graph.now) (length graph.now)) }
    ensures held { IfOk result (λ roots. HoldRoots (problem_of graph.now) roots.items) }
{
    let mut roots = Vec::new(alloc);
    for f in 0..graph.len() {
        push_row(graph, &mut roots, f + 1)?;
    }
    Ok(roots)
}

/// Whether a view, if it is there, is one of the base.
fn is_of(view: Option<&View>, base: u32) -> bool
    ensures { result ≡ has (map (λ v. v.now.base) (option_to_list view.entry)) base }
{
    match view {
        Some(view) => base == view.base(),
        None => false,
    }
}

/// Whether one operation has a view of the base that another ends.
fn ends_base(user: &Op, other: &Op) -> bool
    ensures { result ≡ list_any (has (map (λ (v : Strided). v.base) (views user.now)))
        (option_to_list other.now.frees) }
{
    match other.frees {
        Some(base) => {
            is_of(user.out_view(), base)
                || is_of(user.first_view(), base)
                || is_of(user.second_view(), base)
        }
        None => false,
    }
}

/// The same of two operations by their numbers.
fn ends_base_at(ops: &[Op], u: u32, g: u32) -> bool
    requires first_least { 0 < u }
    requires first_most { u ≤ length ops.now }
    requires second_least { 0 < g }
    requires second_most { g ≤ length ops.now }
    ensures { result ≡ ends_base_of (problem_of ops.now) u g }
{
    ends_base(&ops[u as usize - 1], &ops[g as usize - 1])
}

/// Sets the bits of two operations, if the second ends a base of which the first has a view.
fn set_user(ops: &[Op], rows: &mut Vec<u64>, u: u32, g: u32)
    requires few { length ops.now ≤ 256 }
    requires long { length rows.old.items ≡ all_words (length ops.now) }
    requires first_least { 0 < u }
    requires first_most { u ≤ length ops.now }
    requires second_least { 0 < g }
    requires second_most { g ≤ length ops.now }
    ensures long { length rows.new.items ≡ all_words (length ops.now) }
    ensures sets { Gain (length ops.now) rows.old.items rows.new.items (with_user (problem_of ops.now) u g) }
{
    if ends_base_at(ops, u, g) {
        set_bit(rows, count_of(ops), ENDS, u, g, true);
        set_bit(rows, count_of(ops), USERS, g, u, true);
    }
}

/// Sets the bits of an operation and each other.
fn set_users(ops: &[Op], rows: &mut Vec<u64>, g: u32)
    requires few { length ops.now ≤ 256 }
    requires long { length rows.old.items ≡ all_words (length ops.now) }
    requires least { 0 < g }
    requires most { g ≤ length ops.now }
    ensures long { length rows.new.items ≡ all_words (length ops.now) }
    ensures sets { Gain (length ops.now) rows.old.items rows.new.items
        (users_below (problem_of ops.now) (length ops.now) g) }
{
    for u in 0..count_of(ops) {
        set_user(ops, rows, u + 1, g);
    }
}

/// Rows that know which FREEs end bases of which operations have a view, and no fact.
fn rows_of(alloc: Global, ops: &[Op]) -> Result<Vec<u64>, NoMemory>
    requires few { length ops.now ≤ 256 }
    ensures { IfOk result (λ rows. AreRowed (length ops.now)
        (all_users_below (problem_of ops.now) (length ops.now)) rows.items no_facts) }
{
    let count = ops.len();
    let mut rows: Vec<u64> = vec![in alloc; 0; 6 * (count + 1) * (count / 64 + 1)]?;
    for g in 0..count_of(ops) {
        set_users(ops, &mut rows, g + 1);
    }
    Ok(rows)
}

/// Rows that know facts.
fn known_rows(alloc: Global, ops: &[Op], facts: &[Fact]) -> Result<Vec<u64>, NoMemory>
    requires few { length ops.now ≤ 256 }
    requires about { (k : ℕ) → k < length facts.now → AreOps (problem_of ops.now) (get_or facts.now k (Same 0 0)) }
    ensures { IfOk result (λ rows. AreRowed (length ops.now)
        (all_users_below (problem_of ops.now) (length ops.now)) rows.items (after no_facts facts.now)) }
{
    let mut rows = rows_of(alloc, ops)?;
    for fact in facts {
        set_rows(&mut rows, count_of(ops), *fact, true);
    }
    Ok(rows)
}

/// What is known where the list alone gives these facts.
pub(crate) fn opened(alloc: Global, ops: &[Op], roots: &[Fact]) -> Result<Known, NoMemory>
    requires few { length ops.now ≤ 256 }
    requires formed { IsTrue (is_formed ops.now) }
    requires roots { after no_facts roots.now ≡ all_below (problem_of ops.now) (length ops.now) }
    ensures kept { IfOk result (λ known. IsKept (problem_of ops.now) known) }
    ensures none { IfOk result (λ known. known.facts.items ≡ []) }
{
    Ok(Known {
        facts: Vec::new(alloc),
        rows: known_rows(alloc, ops, roots)?,
        closed: Vec::new(alloc),
    })
}
