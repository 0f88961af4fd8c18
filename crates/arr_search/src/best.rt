//! The search for a best plan.
ghost use Rattle.std.specs.Prelude.{◌≡◌, ◌≤◌, ◌∷◌, [], ℕ, IfOk, IsTrue, length};
ghost use Rattle.arr_ops.specs.Formed.{is_formed};
ghost use Rattle.arr_ops.specs.Plans.{is_legal};
ghost use Rattle.arr_law.specs.Facts.{root_facts};
ghost use Rattle.arr_law.specs.ProblemOf.{problem_of};
ghost use Rattle.arr_search.specs.Best.{IsBest};
ghost use Rattle.arr_search.specs.Nodes.{IsSearch, StaysSearch};

use crate::NoMemory;
use crate::explore::explore;
use crate::found::Found;
use crate::moves::try_moves;
use crate::places::places_of;
use crate::progress::Progress;
use arr_bound::Views;
use arr_cost::Costs;
use arr_deps::Graph;
use arr_greedy::greedy;
use arr_heur::linear;
use arr_law::{Certificate, Records};
use arr_ops::Plan;
use arr_state::{State, ops_of};
use std::alloc::Global;

/// What a search begins with: greedy's plan, and no record.
fn begin(alloc: Global, graph: &Graph, costs: &Costs) -> Result<Progress, NoMemory>
    requires costs { costs.now ≡ graph.now }
    requires formed { IsTrue (is_formed graph.now) }
    requires few { length graph.now ≤ 256 }
    ensures { IfOk result (λ p. (budget : ℕ) → IsSearch graph.now budget (root_facts (problem_of graph.now) ∷ []) p) }
{
    let plan = greedy(alloc, graph, costs)?;
    let cost = costs.cost(alloc, &plan)?;
    Ok(Progress {
        tree: Records::new(alloc),
        units: 0,
        least: cost,
        cost,
        plan,
    })
}

/// Takes a legal plan in place of the best so far, where it costs less.
pub(crate) fn improve(
    alloc: Global,
    graph: &Graph,
    costs: &Costs,
    progress: &mut Progress,
    plan: Plan,
) -> Result<(), NoMemory>
    requires costs { costs.now ≡ graph.now }
    requires legal { IsTrue (is_legal graph.now plan) }
    ensures { IfOk result (λ done. StaysSearch graph.now progress.old progress.new) }
{
    let cost = costs.cost(alloc, &plan)?;
    if cost >= progress.cost {
        return Ok(());
    }
    progress.plan = plan;
    progress.cost = cost;
    Ok(())
}

/// What a search answers once no node is left.
fn finish(
    alloc: Global,
    graph: &Graph,
    number: u32,
    budget: u64,
    progress: Progress,
) -> Result<Found, NoMemory>
    requires { IsSearch graph.now budget [] progress }
    ensures { IfOk result (λ found. IsBest graph.now number budget found) }
{
    let Progress {
        tree,
        units,
        least,
        cost,
        plan,
    } = progress;
    let bound = cost.min(least);
    let places = places_of(alloc, &plan, graph.len())?;
    Ok(Found {
        plan,
        cost,
        bound,
        units,
        certificate: Certificate {
            version: 2,
            number,
            count: graph.len(),
            places,
            cost,
            bound,
            tree,
        },
    })
}

/// A legal plan of a list, a bound that no legal plan costs less than, and the certificate of both, with at most `budget` steps and branches
/// (docs/CERTIFICATES.md, "Searching"). `number` is the list's number in the certificate; the costs are those of the graph's list. The same list,
/// number and budget give the same answer. Want of memory is its one refusal.
pub fn search(
    alloc: Global,
    graph: &Graph,
    costs: &Costs,
    number: u32,
    budget: u64,
) -> Result<Found, NoMemory>
    requires { costs.now ≡ graph.now }
    ensures { IfOk result (λ found. IsBest graph.now number budget found) }
{
    let ops = ops_of(alloc, graph)?;
    let views = Views::of(alloc, ops.as_slice())?;
    let mut state = State::new(alloc, graph)?;
    let mut progress = begin(alloc, graph, costs)?;
    let other = linear(alloc, graph)?;
    improve(alloc, graph, costs, &mut progress, other)?;
    try_moves(alloc, graph, costs, &views, &mut state, &mut progress)?;
    explore(alloc, graph, &views, &mut state, &mut progress, budget)?;
    finish(alloc, graph, number, budget, progress)
}
