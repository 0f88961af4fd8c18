//! One node of a search.
ghost use Rattle.std.specs.Prelude.{◌≡◌, ◌≤◌, ◌<◌, ◌+◌, ◌^◌, true, IfOk, IsTrue, MatchOption};
ghost use Rattle.arr_law.specs.declared.fact.Fact.{Fact};
ghost use Rattle.arr_law.specs.Floor.{floor};
ghost use Rattle.arr_law.specs.ProblemOf.{problem_of};
ghost use Rattle.arr_law.specs.Trees.{may_branch};
ghost use Rattle.arr_state.specs.Known.{AreOps};
ghost use Rattle.arr_state.specs.States.{known};
ghost use Rattle.arr_search.specs.Nodes.{IsNode, IsSettledNode};
ghost use Rattle.arr_search.specs.Running.{IsAmple};
ghost use Rattle.arr_search.specs.Turns.{Advanced, Settled, Took, Worked, WorkedOn};

use crate::NoMemory;
use crate::choice::may_branch;
use crate::decided::plan_of;
use crate::draft::{Draft, Reason};
use crate::gains::Candidates;
use crate::hints::{Hint, hint_at};
use crate::progress::{Next, Progress, close_dead, close_leaf, open_branch};
use arr_bound::{Views, charges};
use arr_deps::Graph;
use arr_state::{Outcome, State};
use std::alloc::Global;

/// Appends steps within the budget that is left, and counts them.
fn advance(state: &mut State, progress: &mut Progress, budget: u64) -> Result<Outcome, NoMemory>
    requires { progress.old.units ≤ budget }
    ensures list { state.new.list ≡ state.old.list }
    ensures about { (x : Fact) → IsTrue (known state.new x) → AreOps (problem_of state.new.list) x }
    ensures advanced { IfOk result
        (λ outcome. Advanced
        (problem_of state.old.list) budget state.old.trail state.new.trail progress.old progress.new outcome) }
{
    let before = progress.tree.len();
    let outcome = state.saturate(budget - progress.units, &mut progress.tree)?;
    progress.units += (progress.tree.len() - before) as u64;
    Ok(outcome)
}

/// Ends a node at which no rule gives a new fact: by a leaf that is worth the cost, by a branch, by a leaf because the budget is spent, or,
/// where it is known of each two operations whether they share a block, by a better plan and a leaf.
fn settle(
    alloc: Global,
    graph: &Graph,
    views: &Views,
    state: &mut State,
    candidates: &mut Candidates,
    progress: &mut Progress,
    budget: u64,
) -> Result<Next, NoMemory>
    requires list { state.old.list ≡ graph.now }
    requires views { views.now ≡ graph.now }
    requires node { IsSettledNode (problem_of graph.now) (known state.old) }
    requires within { progress.old.units ≤ budget }
    ensures list { state.new.list ≡ state.old.list }
    ensures kept { IfOk result (λ next. state.new ≡ state.old) }
    ensures settled { IfOk result (λ next. Settled graph.now budget (known state.old) progress.old progress.new next) }
{
    let (worth, groups) = charges(alloc, views, state)?;
    if worth >= progress.cost {
        close_leaf(progress, worth, groups)?;
        return Ok(Next::Close);
    }
    let pair = candidates.pick(alloc, graph, views, state, progress.cost)?;
    match pair {
        None => {
            progress.plan = plan_of(alloc, graph, state)?;
            progress.cost = worth;
            close_leaf(progress, worth, groups)?;
            Ok(Next::Close)
        }
        Some((f, g)) => {
            if progress.units == budget {
                close_leaf(progress, worth, groups)?;
                return Ok(Next::Close);
            }
            open_branch(progress, f, g)?;
            Ok(Next::Split(f, g))
        }
    }
}

/// Takes a step, if its rule applies, and counts it.
fn take_one(state: &mut State, progress: &mut Progress, step: &Reason) -> Result<(), NoMemory>
    requires { progress.old.units + 1 < 2 ^ 64 }
    ensures list { state.new.list ≡ state.old.list }
    ensures took { IfOk result (λ done. Took (problem_of state.old.list)
        (progress.old.units + 1) state.old.trail state.new.trail progress.old progress.new) }
{
    let taken = state.take_step(step.rule, step.f, step.g, step.h, &mut progress.tree)?;
    if !taken {
        return Ok(());
    }
    progress.units += 1;
    Ok(())
}

/// Takes those of some steps whose rules apply, one after another, within the budget, and counts them.
fn take_all(
    state: &mut State,
    progress: &mut Progress,
    budget: u64,
    steps: &[Reason],
) -> Result<(), NoMemory>
    requires { progress.old.units ≤ budget }
    ensures list { state.new.list ≡ state.old.list }
    ensures took { IfOk result (λ done. Took
        (problem_of state.old.list) budget state.old.trail state.new.trail progress.old progress.new) }
{
    for step in steps {
        if progress.units >= budget {
            return Ok(());
        }
        take_one(state, progress, step)?;
    }
    Ok(())
}

/// Works off a node by all steps that follow.
fn work_whole(
    alloc: Global,
    graph: &Graph,
    views: &Views,
    state: &mut State,
    candidates: &mut Candidates,
    progress: &mut Progress,
    budget: u64,
) -> Result<Next, NoMemory>
    requires list { state.old.list ≡ graph.now }
    requires views { views.now ≡ graph.now }
    requires node { IsNode (problem_of graph.now) (known state.old) }
    requires within { progress.old.units ≤ budget }
    ensures list { state.new.list ≡ state.old.list }
    ensures worked { IfOk result
        (λ next. WorkedOn graph.now budget state.old.trail state.new.trail progress.old progress.new next) }
{
    match advance(state, progress, budget)? {
        Outcome::Contradiction(f, g) => {
            close_dead(progress, f, g)?;
            Ok(Next::Close)
        }
        Outcome::Spent => {
            let (rest, more) = charges(alloc, views, state)?;
            close_leaf(progress, rest, more)?;
            Ok(Next::Close)
        }
        Outcome::Closed => settle(alloc, graph, views, state, candidates, progress, budget),
    }
}

/// Whether a node may branch before all that follows is recorded: it is not the first, or the budget may not be enough for that.
fn opens_early(graph: &Graph, units: u64, budget: u64) -> bool
    ensures { result ≡ true → IsAmple (problem_of graph.now) budget → 0 < units }
{
    if units > 0 {
        return true;
    }
    let count = graph.len() as u64;
    budget < 3 * (count * count)
}

/// A pair, if the node may branch on it.
fn if_open(graph: &Graph, state: &State, pair: Option<(u32, u32)>) -> Option<(u32, u32)>
    requires list { state.now.list ≡ graph.now }
    ensures { MatchOption result (Unit {0}) (λ p. may_branch (problem_of graph.now) (known state.now) p.0 p.1 ≡ true) }
{
    let (f, g) = pair?;
    if !may_branch(graph, state, f, g) {
        return None;
    }
    Some((f, g))
}

/// Works off a node as a hint proposes: takes its steps, and ends the node by a leaf, where that is worth the cost then, or by a branch on its pair,
/// where that may be; else by all steps that follow.
fn work_by(
    alloc: Global,
    graph: &Graph,
    views: &Views,
    state: &mut State,
    candidates: &mut Candidates,
    progress: &mut Progress,
    budget: u64,
    hint: Hint,
    opens: bool,
) -> Result<Next, NoMemory>
    requires list { state.old.list ≡ graph.now }
    requires views { views.now ≡ graph.now }
    requires node { IsNode (problem_of graph.now) (known state.old) }
    requires within { progress.old.units ≤ budget }
    requires low { floor (problem_of graph.now) (known state.old) < progress.old.cost }
    requires opens { opens ≡ true → IsAmple (problem_of graph.now) budget → 0 < progress.old.units }
    ensures list { state.new.list ≡ state.old.list }
    ensures worked { IfOk result
        (λ next. Worked graph.now budget state.old.trail state.new.trail progress.old progress.new next) }
{
    if hint.is_empty() {
        return work_whole(alloc, graph, views, state, candidates, progress, budget);
    }
    take_all(state, progress, budget, hint.steps.as_slice())?;
    let (worth, groups) = charges(alloc, views, state)?;
    if worth >= progress.cost {
        close_leaf(progress, worth, groups)?;
        return Ok(Next::Close);
    }
    if opens {
        if progress.units < budget {
            if let Some((f, g)) = if_open(graph, state, hint.pair) {
                open_branch(progress, f, g)?;
                return Ok(Next::Split(f, g));
            }
        }
    }
    work_whole(alloc, graph, views, state, candidates, progress, budget)
}

/// Works off the node whose facts the state knows.
pub(crate) fn work(
    alloc: Global,
    graph: &Graph,
    views: &Views,
    state: &mut State,
    draft: &mut Draft,
    candidates: &mut Candidates,
    progress: &mut Progress,
    budget: u64,
) -> Result<Next, NoMemory>
    requires list { state.old.list ≡ graph.now }
    requires draft { draft.old.state.list ≡ graph.now }
    requires views { views.now ≡ graph.now }
    requires node { IsNode (problem_of graph.now) (known state.old) }
    requires within { progress.old.units ≤ budget }
    ensures list { state.new.list ≡ state.old.list }
    ensures draft { draft.new.state.list ≡ draft.old.state.list }
    ensures worked { IfOk result
        (λ next. Worked graph.now budget state.old.trail state.new.trail progress.old progress.new next) }
{
    let (worth, groups) = charges(alloc, views, state)?;
    if worth >= progress.cost {
        close_leaf(progress, worth, groups)?;
        return Ok(Next::Close);
    }
    let opens = opens_early(graph, progress.units, budget);
    let hint = hint_at(
        alloc,
        graph,
        views,
        state,
        draft,
        candidates,
        progress.cost,
        opens,
    )?;
    work_by(
        alloc, graph, views, state, candidates, progress, budget, hint, opens,
    )
}
