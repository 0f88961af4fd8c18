//! Plans that random moves find, before the first node.
ghost use Rattle.std.specs.Prelude.{◌≡◌, IfOk};
ghost use Rattle.arr_search.specs.Nodes.{StaysSearch};

use crate::NoMemory;
use crate::best::improve;
use crate::descent::descend;
use crate::estimate::estimate;
use crate::partition::Partition;
use crate::parts::legal_plan;
use crate::progress::Progress;
use crate::ties::Ties;
use arr_bound::Views;
use arr_cost::Costs;
use arr_deps::Graph;
use arr_heur::linear;
use arr_law::Records;
use arr_state::State;
use rand_pcg::Pcg32;
use std::alloc::Global;

/// How many steps are tried for what follows from the list.
const CLOSING_STEPS: u64 = 1_000_000;

/// What a leaf is worth once all is known that follows from what is known now.
fn closed_worth(
    alloc: Global,
    graph: &Graph,
    views: &Views,
    state: &mut State,
) -> Result<u64, NoMemory>
    requires list { state.old.list ≡ graph.now }
    requires views { views.now ≡ graph.now }
    ensures list { state.new.list ≡ state.old.list }
    ensures kept { IfOk result (λ worth. state.new ≡ state.old) }
{
    let mark = state.mark();
    let mut scratch = Records::new(alloc);
    state.saturate(CLOSING_STEPS, &mut scratch)?;
    let worth = estimate(views, state, graph.len());
    state.undo_to(mark);
    Ok(worth)
}

/// Takes the plan that random moves lead to from a partition, where it costs less than the best so far.
fn try_from(
    alloc: Global,
    graph: &Graph,
    costs: &Costs,
    ties: &Ties,
    start: &mut Partition,
    random: &mut Pcg32,
    target: u64,
    progress: &mut Progress,
) -> Result<(), NoMemory>
    requires costs { costs.now ≡ graph.now }
    ensures { IfOk result (λ done. StaysSearch graph.now progress.old progress.new) }
{
    descend(ties, start, target, random);
    let labels = start.all_labels(alloc, ties, graph.len())?;
    match legal_plan(alloc, graph, labels.as_slice())? {
        Some(plan) => improve(alloc, graph, costs, progress, plan),
        None => Ok(()),
    }
}

/// Takes plans that random moves find, where they cost less than the best so far, unless what follows from the list shows that none does.
pub(crate) fn try_moves(
    alloc: Global,
    graph: &Graph,
    costs: &Costs,
    views: &Views,
    state: &mut State,
    progress: &mut Progress,
) -> Result<(), NoMemory>
    requires costs { costs.now ≡ graph.now }
    requires list { state.old.list ≡ graph.now }
    requires views { views.now ≡ graph.now }
    ensures list { state.new.list ≡ state.old.list }
    ensures kept { IfOk result (λ done. state.new ≡ state.old) }
    ensures search { IfOk result (λ done. StaysSearch graph.now progress.old progress.new) }
{
    let target = closed_worth(alloc, graph, views, state)?;
    if target >= progress.cost {
        return Ok(());
    }
    let ties = Ties::of(alloc, graph, views)?;
    let mut random = Pcg32::new(42, 54);
    let mut start = Partition::of(&progress.plan, &ties);
    try_from(
        alloc,
        graph,
        costs,
        &ties,
        &mut start,
        &mut random,
        target,
        progress,
    )?;
    let mut other = Partition::of(&linear(alloc, graph)?, &ties);
    try_from(
        alloc,
        graph,
        costs,
        &ties,
        &mut other,
        &mut random,
        target,
        progress,
    )
}
