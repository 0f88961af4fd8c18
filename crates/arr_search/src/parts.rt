//! Plans from labels: operations with one label share a block.
ghost use Rattle.std.specs.Prelude.{◌≡◌, ◌≤◌, ◌<◌, ◌++◌, ◌∷◌, [], IfOk, IsTrue, MatchOption, cond, length, map, nat_lt};
ghost use Rattle.std.specs.List.{list_all};
ghost use Rattle.arr_ops.specs.Plans.{is_legal};
ghost use Rattle.arr_law.specs.Plans.{is_together};
ghost use Rattle.arr_law.specs.Problem.{operations};
ghost use Rattle.arr_law.specs.ProblemOf.{problem_of};
ghost use Rattle.arr_search.specs.Parts.{if_some, may_share, parts, plan_by, with_label};

use crate::NoMemory;
use arr_deps::Graph;
use arr_heur::ordered;
use arr_ops::Plan;
use arr_sets::MOST;
use std::alloc::Global;

fn push_if(inside: bool, block: &mut Vec<u32>, f: u32) -> Result<(), NoMemory>
    ensures { IfOk result (λ done. block.new.items ≡ block.old.items ++ cond inside (f ∷ []) []) }
{
    if inside {
        block.push(f)?;
    }
    Ok(())
}

/// The operations with a label.
fn with_label(alloc: Global, labels: &[u32], label: u32) -> Result<Vec<u32>, NoMemory>
    requires { length labels.now ≤ MOST }
    ensures { IfOk result (λ block. block.items ≡ with_label labels.now label) }
{
    let mut block = Vec::new(alloc);
    for place in 0..labels.len() {
        push_if(labels[place] == label, &mut block, place as u32 + 1)?;
    }
    Ok(block)
}

fn push_some(blocks: &mut Vec<Vec<u32>>, block: Vec<u32>) -> Result<(), NoMemory>
    ensures { IfOk result (λ done. map (λ b. b.items) blocks.new.items
        ≡ map (λ b. b.items) blocks.old.items ++ if_some block.items) }
{
    if block.len() > 0 {
        blocks.push(block)?;
    }
    Ok(())
}

/// For each label that is used its operations.
fn parts(alloc: Global, labels: &[u32]) -> Result<Vec<Vec<u32>>, NoMemory>
    requires { length labels.now ≤ MOST }
    ensures { IfOk result (λ blocks. map (λ b. b.items) blocks.items ≡ parts labels.now) }
{
    let mut blocks = Vec::new(alloc);
    for label in 0..labels.len() {
        let block = with_label(alloc, labels, label as u32)?;
        push_some(&mut blocks, block)?;
    }
    Ok(blocks)
}

/// Whether two operations of one label may share a block.
fn may_share(graph: &Graph, labels: &[u32], f: u32, g: u32) -> bool
    requires all { length labels.now ≡ length graph.now }
    requires first_least { 0 < f }
    requires first_most { f ≤ length graph.now }
    requires second_least { 0 < g }
    requires second_most { g ≤ length graph.now }
    ensures { result ≡ may_share (problem_of graph.now) labels.now f g }
{
    if f == g {
        return true;
    }
    if labels[f as usize - 1] != labels[g as usize - 1] {
        return true;
    }
    graph.fusible(f, g)
}

fn may_share_all(graph: &Graph, labels: &[u32], f: u32) -> bool
    requires all { length labels.now ≡ length graph.now }
    requires least { 0 < f }
    requires most { f ≤ length graph.now }
    ensures { result ≡ list_all (may_share (problem_of graph.now) labels.now f) (operations (problem_of graph.now)) }
{
    for k in 0..graph.len() {
        if !may_share(graph, labels, f, k + 1) {
            return false;
        }
    }
    true
}

/// Whether each two operations of one label may share a block.
fn is_together(graph: &Graph, labels: &[u32]) -> bool
    requires { length labels.now ≡ length graph.now }
    ensures value { result ≡ is_together (problem_of graph.now) labels.now }
    ensures few { length graph.now ≤ MOST }
{
    for k in 0..graph.len() {
        if !may_share_all(graph, labels, k + 1) {
            return false;
        }
    }
    true
}

/// The plan in which operations share a block where they have one label, if there is a legal one.
pub(crate) fn plan_by(
    alloc: Global,
    graph: &Graph,
    labels: &[u32],
) -> Result<Option<Plan>, NoMemory>
    requires { length labels.now ≡ length graph.now }
    ensures { IfOk result (λ plan. plan ≡ plan_by graph.now labels.now) }
{
    if !is_together(graph, labels) {
        return Ok(None);
    }
    let blocks = parts(alloc, labels)?;
    ordered(alloc, graph, blocks.as_slice())
}

/// Whether each label is below a count.
fn are_below(labels: &[u32], count: u32) -> bool
    ensures { result ≡ list_all (λ label. nat_lt label count) labels.now }
{
    labels.iter().all(|label| *label < count)
}

/// The plan in which operations share a block where they have one label, if it is legal.
pub(crate) fn legal_plan(
    alloc: Global,
    graph: &Graph,
    labels: &[u32],
) -> Result<Option<Plan>, NoMemory>
    ensures { IfOk result (λ plan. MatchOption plan (Unit {0}) (λ p. IsTrue (is_legal graph.now p))) }
{
    if labels.len() != graph.len() as usize {
        return Ok(None);
    }
    if !are_below(labels, graph.len()) {
        return Ok(None);
    }
    plan_by(alloc, graph, labels)
}
