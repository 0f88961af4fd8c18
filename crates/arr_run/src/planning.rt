//! Which plan a list gets: it is rewritten, and a planner chooses the plan (docs/PLANS.md, "Planners").
ghost use Rattle.std.specs.Prelude.{◌≡◌, ◌≤◌, ℕ, List, IfOk, length, map, true};
ghost use Rattle.arr_ops.specs.declared.op.Op.{Op};
ghost use Rattle.arr_ops.specs.Costs.{block_cost};
ghost use Rattle.arr_ops.specs.Formed.{is_formed};
ghost use Rattle.arr_search.specs.Best.{IsBest};
ghost use Rattle.arr_run.specs.Chosen.{IsChosen, Searched, alone};
ghost use Rattle.arr_run.specs.Flushes.{Prepares};

use crate::choice::{Choice, Fuse};
use arr_cost::Costs;
use arr_deps::Graph;
use arr_greedy::greedy;
use arr_heur::linear;
use arr_io::NoMemory;
use arr_law::Certificate;
use arr_ops::{Op, Plan};
use arr_rewrite::rewrite;
use arr_search::{Found, search};
use std::alloc::Global;

/// A plan of a list, and what the search for a best plan shows of it.
#[derive(Debug, Drop)]
pub(crate) struct Planned {
    pub(crate) plan: Plan,
    /// What no legal plan costs less than, in bytes; of best alone.
    pub(crate) bound: Option<u64>,
    /// How many steps and branches the certificate has.
    pub(crate) units: u64,
    /// The certificate of the plan and the bound; of best alone.
    pub(crate) certificate: Option<Certificate>,
}

/// A rewritten list with its plan, what each block costs, and what all cost.
#[derive(Debug, Drop)]
pub(crate) struct Prepared {
    pub(crate) list: Vec<Op>,
    pub(crate) planned: Planned,
    pub(crate) costs: Vec<u64>,
    pub(crate) cost: u64,
}

impl Planned {
    /// A plan of which nothing is shown.
    fn alone(plan: Plan) -> Planned
        ensures { result ≡ alone plan }
    {
        Planned {
            plan,
            bound: None,
            units: 0,
            certificate: None,
        }
    }

    /// What a search found.
    fn searched(found: Found) -> Planned
        ensures { (list : List Op) (number budget : ℕ) → IsBest list number budget found
            → Searched list number budget result }
    {
        Planned {
            plan: found.plan,
            bound: Some(found.bound),
            units: found.units,
            certificate: Some(found.certificate),
        }
    }
}

/// The plan that the planner chooses for the list of this number.
fn choose(
    alloc: Global,
    choice: Choice,
    number: u32,
    graph: &Graph,
    costs: &Costs,
) -> Result<Planned, NoMemory>
    requires { costs.now ≡ graph.now }
    ensures { IfOk result (IsChosen choice.fuse graph.now number choice.budget) }
{
    match choice.fuse {
        Fuse::Linear => Ok(Planned::alone(linear(alloc, graph)?)),
        Fuse::Greedy => Ok(Planned::alone(greedy(alloc, graph, costs)?)),
        Fuse::Best => Ok(Planned::searched(search(alloc, graph, costs, number, choice.budget)?)),
    }
}

/// What each block of a plan costs.
fn costs_of(alloc: Global, costs: &Costs, plan: &Plan) -> Result<Vec<u64>, NoMemory>
    ensures { IfOk result (λ all. all.items ≡ map (block_cost costs.now) plan.now) }
{
    let mut all = Vec::new(alloc);
    for block in &plan.blocks {
        all.push(costs.block_cost(alloc, block)?)?;
    }
    Ok(all)
}

/// Rewrites a list and plans it.
pub(crate) fn prepare(
    alloc: Global,
    choice: Choice,
    number: u32,
    ops: &[Op],
) -> Result<Prepared, NoMemory>
    requires formed { is_formed ops.now ≡ true }
    requires few { length ops.now ≤ 256 }
    ensures prepared { IfOk result (Prepares choice number ops.now) }
    ensures few { IfOk result (λ p. length p.list.items ≤ 256) }
    ensures few_blocks { IfOk result (λ p. length p.planned.plan ≤ 256) }
{
    let list = rewrite(alloc, ops)?;
    let graph = Graph::of(alloc, &list)?;
    let costs = Costs::of(alloc, &list)?;
    let planned = choose(alloc, choice, number, &graph, &costs)?;
    Ok(Prepared {
        costs: costs_of(alloc, &costs, &planned.plan)?,
        cost: costs.cost(alloc, &planned.plan)?,
        list,
        planned,
    })
}
