//! The plan of a node at which it is known of each two operations whether they share a block.
ghost use Rattle.std.specs.Prelude.{◌≡◌, ◌≤◌, ◌<◌, ◌==◌, ◌||◌, IfOk, length};
ghost use Rattle.arr_law.specs.ProblemOf.{problem_of};
ghost use Rattle.arr_law.specs.declared.fact.Fact.TheVariants.{Same};
ghost use Rattle.arr_state.specs.States.{known};
ghost use Rattle.arr_search.specs.Nodes.{IsDecided, IsPlanOf, IsSettledNode};
ghost use Rattle.arr_search.specs.Parts.{label_of, labels_of};

use crate::NoMemory;
use crate::parts::plan_by;
use arr_deps::Graph;
use arr_law::Fact;
use arr_ops::Plan;
use arr_state::State;
use std::alloc::Global;

/// Whether two operations are known to share a block, or are one.
fn shares(state: &State, h: u32, f: u32) -> bool
    ensures { result ≡ ((h == f) || known state.now (Same h f)) }
{
    if h == f {
        return true;
    }
    state.known(Fact::Same(h, f))
}

/// How many operations stand before the first that is known to share the block of `f`.
fn label_of(graph: &Graph, state: &State, f: u32) -> u32
    requires list { state.now.list ≡ graph.now }
    requires least { 0 < f }
    requires most { f ≤ length graph.now }
    ensures { result ≡ label_of (problem_of graph.now) (known state.now) f }
{
    for place in 0..graph.len() {
        if shares(state, place + 1, f) {
            return place;
        }
    }
    graph.len()
}

fn labels_of(alloc: Global, graph: &Graph, state: &State) -> Result<Vec<u32>, NoMemory>
    requires { state.now.list ≡ graph.now }
    ensures { IfOk result (λ labels. labels.items ≡ labels_of (problem_of graph.now) (known state.now)) }
{
    let mut labels = Vec::new(alloc);
    for place in 0..graph.len() {
        labels.push(label_of(graph, state, place + 1))?;
    }
    Ok(labels)
}

/// The plan in which two operations share a block exactly where that is known. Want of memory is its one refusal.
pub(crate) fn plan_of(alloc: Global, graph: &Graph, state: &State) -> Result<Plan, NoMemory>
    requires list { state.now.list ≡ graph.now }
    requires node { IsSettledNode (problem_of graph.now) (known state.now) }
    requires decided { IsDecided (problem_of graph.now) (known state.now) }
    ensures { IfOk result (λ plan. IsPlanOf graph.now (known state.now) plan) }
{
    let labels = labels_of(alloc, graph, state)?;
    let plan = plan_by(alloc, graph, labels.as_slice())?;
    match plan {
        Some(plan) => Ok(plan),
        None => unreachable!(),
    }
}
