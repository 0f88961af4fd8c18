//! Which pair a node branches on: the one of which both sides gain most, each tried.
ghost use Rattle.std.specs.Prelude.{◌≡◌, ◌<◌, ◌≤◌, IfOk, IsTrue, MatchOption, length, true};
ghost use Rattle.arr_law.specs.ProblemOf.{problem_of};
ghost use Rattle.arr_law.specs.Trees.{may_branch};
ghost use Rattle.arr_state.specs.States.{known};
ghost use Rattle.arr_search.specs.Nodes.{MayPick};

use crate::NoMemory;
use crate::choice::{choose, may_branch};
use crate::estimate::estimate;
use arr_bound::Views;
use arr_deps::Graph;
use arr_law::Records;
use arr_ops::Op;
use arr_overlap::identical;
use arr_state::{Outcome, State};
use arr_view::View;
use std::alloc::Global;

/// How many steps a side may take while it is tried.
const TRIED_STEPS: u64 = 1_000_000;

/// How many pairs are tried again at a node.
const TRIES: u32 = 3;

/// How many pairs are tried again at all nodes together.
const ALL_TRIES: u32 = 8_000;

/// A pair that a node may branch on, with what its two sides were worth when they were tried last, the lesser first.
#[derive(Clone, Copy)]
struct Candidate {
    f: u32,
    g: u32,
    low: u64,
    high: u64,
}

/// The pairs that are tried, whether they were looked for, and how many may be tried again.
#[derive(Drop)]
pub(crate) struct Candidates {
    pairs: Vec<Candidate>,
    found: bool,
    left: u32,
}

fn is_view_of(view: Option<&View>, other: Option<&View>) -> bool {
    match (view, other) {
        (Some(a), Some(b)) => identical(a, b),
        _ => false,
    }
}

/// Whether a view of an operation is identical to this one.
fn has_view(op: &Op, view: Option<&View>) -> bool {
    is_view_of(op.out_view(), view)
        || is_view_of(op.first_view(), view)
        || is_view_of(op.second_view(), view)
}

/// Whether an operation makes or ends a base that another names.
fn rules_base_of(op: &Op, other: &Op) -> bool {
    if let Some(base) = op.frees {
        return other.names(base);
    }
    match op.out_view() {
        Some(view) => op.makes && other.names(view.base()),
        None => false,
    }
}

/// Whether it matters to a leaf how two operations stand: they have an identical view, or one makes or ends a base of the other.
fn matters(op: &Op, other: &Op) -> bool {
    rules_base_of(op, other)
        || rules_base_of(other, op)
        || has_view(op, other.out_view())
        || has_view(op, other.first_view())
        || has_view(op, other.second_view())
}

/// What a leaf is worth on one side of a pair, at most the cost, and the cost where no plan reaches it.
fn side_worth(
    alloc: Global,
    graph: &Graph,
    views: &Views,
    state: &mut State,
    f: u32,
    g: u32,
    same: bool,
    cost: u64,
) -> Result<u64, NoMemory>
    requires list { state.old.list ≡ graph.now }
    requires views { views.now ≡ graph.now }
    requires open { may_branch (problem_of graph.now) (known state.old) f g ≡ true }
    ensures list { state.new.list ≡ state.old.list }
    ensures kept { IfOk result (λ worth. state.new ≡ state.old) }
{
    let mark = state.mark();
    state.decide(f, g, same)?;
    let mut scratch = Records::new(alloc);
    let worth = match state.saturate(TRIED_STEPS, &mut scratch)? {
        Outcome::Contradiction(_, _) => cost,
        _ => estimate(views, state, graph.len()).min(cost),
    };
    state.undo_to(mark);
    Ok(worth)
}

/// A pair with what its two sides are worth.
fn try_pair(
    alloc: Global,
    graph: &Graph,
    views: &Views,
    state: &mut State,
    f: u32,
    g: u32,
    cost: u64,
) -> Result<Candidate, NoMemory>
    requires list { state.old.list ≡ graph.now }
    requires views { views.now ≡ graph.now }
    requires open { may_branch (problem_of graph.now) (known state.old) f g ≡ true }
    ensures list { state.new.list ≡ state.old.list }
    ensures kept { IfOk result (λ pair. state.new ≡ state.old) }
{
    let together = side_worth(alloc, graph, views, state, f, g, true, cost)?;
    let apart = side_worth(alloc, graph, views, state, f, g, false, cost)?;
    Ok(Candidate {
        f,
        g,
        low: together.min(apart),
        high: together.max(apart),
    })
}

/// Joins a pair with what its sides are worth, if the node may branch on it and it matters.
fn join_pair(
    alloc: Global,
    graph: &Graph,
    views: &Views,
    state: &mut State,
    pairs: &mut Vec<Candidate>,
    f: u32,
    g: u32,
    cost: u64,
) -> Result<(), NoMemory>
    requires list { state.old.list ≡ graph.now }
    requires views { views.now ≡ graph.now }
    requires least { 0 < f }
    requires most { g ≤ length graph.now }
    ensures list { state.new.list ≡ state.old.list }
    ensures kept { IfOk result (λ done. state.new ≡ state.old) }
{
    if may_branch(graph, state, f, g) && matters(graph.op(f), graph.op(g)) {
        pairs.push(try_pair(alloc, graph, views, state, f, g, cost)?)?;
    }
    Ok(())
}

/// Joins the pairs of one operation.
fn join_pairs(
    alloc: Global,
    graph: &Graph,
    views: &Views,
    state: &mut State,
    pairs: &mut Vec<Candidate>,
    f: u32,
    cost: u64,
) -> Result<(), NoMemory>
    requires list { state.old.list ≡ graph.now }
    requires views { views.now ≡ graph.now }
    requires least { 0 < f }
    ensures list { state.new.list ≡ state.old.list }
    ensures kept { IfOk result (λ done. state.new ≡ state.old) }
{
    for g in 0..graph.len() {
        join_pair(alloc, graph, views, state, pairs, f, g + 1, cost)?;
    }
    Ok(())
}

/// The open pair whose sides are worth most, the lesser first.
fn best_place(graph: &Graph, state: &State, pairs: &[Candidate]) -> Option<usize>
    requires list { state.now.list ≡ graph.now }
    ensures { MatchOption result (Unit {0}) (λ k. k < length pairs.now) }
{
    let mut best: Option<usize> = None;
    for place in 0..pairs.len() {
        if may_branch(graph, state, pairs[place].f, pairs[place].g) {
            best = match best {
                Some(k)
                    if pairs[k].low > pairs[place].low
                        || pairs[k].low == pairs[place].low && pairs[k].high >= pairs[place].high =>
                    Some(k),
                _ => Some(place),
            };
        }
    }
    best
}

impl Candidates {
    /// No pair yet.
    pub(crate) fn new(alloc: Global) -> Candidates {
        Candidates {
            pairs: Vec::new(alloc),
            found: false,
            left: ALL_TRIES,
        }
    }

    /// Tries each pair that matters, at the first node that asks.
    fn find(
        &mut self,
        alloc: Global,
        graph: &Graph,
        views: &Views,
        state: &mut State,
        cost: u64,
    ) -> Result<(), NoMemory>
        requires list { state.old.list ≡ graph.now }
        requires views { views.now ≡ graph.now }
        ensures list { state.new.list ≡ state.old.list }
        ensures kept { IfOk result (λ done. state.new ≡ state.old) }
    {
        if !self.found {
            self.found = true;
            for f in 0..graph.len() {
                join_pairs(alloc, graph, views, state, &mut self.pairs, f + 1, cost)?;
            }
        }
        Ok(())
    }

    /// Tries the best pair again until it stays the best, a few times at most.
    fn try_again(
        &mut self,
        alloc: Global,
        graph: &Graph,
        views: &Views,
        state: &mut State,
        cost: u64,
    ) -> Result<(), NoMemory>
        requires list { state.old.list ≡ graph.now }
        requires views { views.now ≡ graph.now }
        ensures list { state.new.list ≡ state.old.list }
        ensures kept { IfOk result (λ done. state.new ≡ state.old) }
    {
        let mut last = self.pairs.len();
        for _turn in 0..TRIES {
            let Some(place) = best_place(graph, state, self.pairs.as_slice()) else {
                return Ok(());
            };
            let (f, g) = (self.pairs[place].f, self.pairs[place].g);
            if place == last {
                return Ok(());
            }
            if self.left == 0 {
                return Ok(());
            }
            self.left -= 1;
            if !may_branch(graph, state, f, g) {
                return Ok(());
            }
            self.pairs[place] = try_pair(alloc, graph, views, state, f, g, cost)?;
            last = place;
        }
        Ok(())
    }

    /// The pair to branch on, if the node may branch: the best is tried again until it stays the best, a few times at most.
    pub(crate) fn pick(
        &mut self,
        alloc: Global,
        graph: &Graph,
        views: &Views,
        state: &mut State,
        cost: u64,
    ) -> Result<Option<(u32, u32)>, NoMemory>
        requires list { state.old.list ≡ graph.now }
        requires views { views.now ≡ graph.now }
        ensures list { state.new.list ≡ state.old.list }
        ensures kept { IfOk result (λ pair. state.new ≡ state.old) }
        ensures picks { IfOk result (MayPick (problem_of graph.now) (known state.old)) }
    {
        self.find(alloc, graph, views, state, cost)?;
        self.try_again(alloc, graph, views, state, cost)?;
        let Some(place) = best_place(graph, state, self.pairs.as_slice()) else {
            return Ok(choose(graph, state));
        };
        let (f, g) = (self.pairs[place].f, self.pairs[place].g);
        if !may_branch(graph, state, f, g) {
            return Ok(choose(graph, state));
        }
        Ok(Some((f, g)))
    }
}
