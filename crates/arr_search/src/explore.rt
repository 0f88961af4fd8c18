//! The nodes of a search, one after another.
ghost use Rattle.std.specs.Prelude.{◌≡◌, ◌≤◌, [], ◌∷◌, IfOk};
ghost use Rattle.arr_law.specs.Facts.{root_facts};
ghost use Rattle.arr_law.specs.ProblemOf.{problem_of};
ghost use Rattle.arr_search.specs.Nodes.{IsSearch};

use crate::NoMemory;
use crate::draft::Draft;
use crate::gains::Candidates;
use crate::node::work;
use crate::progress::{Next, Progress};
use arr_bound::Views;
use arr_deps::Graph;
use arr_state::State;
use std::alloc::Global;

/// A node that is still to come: what is known up to a mark, and that two operations stand apart.
#[derive(Clone, Copy)]
pub(crate) struct Waiting {
    pub(crate) mark: u64,
    pub(crate) f: u32,
    pub(crate) g: u32,
}

/// Works off all nodes.
pub(crate) fn explore(
    alloc: Global,
    graph: &Graph,
    views: &Views,
    state: &mut State,
    progress: &mut Progress,
    budget: u64,
) -> Result<(), NoMemory>
    requires list { state.old.list ≡ graph.now }
    requires start { state.old.trail ≡ [] }
    requires views { views.now ≡ graph.now }
    requires search { IsSearch graph.now budget (root_facts (problem_of graph.now) ∷ []) progress.old }
    ensures { IfOk result (λ done. IsSearch graph.now budget [] progress.new) }
{
    let mut waits: Vec<Waiting> = Vec::new(alloc);
    let mut candidates = Candidates::new(alloc);
    let mut draft = Draft::new(alloc, graph)?;
    loop {
        match work(
            alloc,
            graph,
            views,
            state,
            &mut draft,
            &mut candidates,
            progress,
            budget,
        )? {
            Next::Split(f, g) => {
                waits.push(Waiting {
                    mark: state.mark(),
                    f,
                    g,
                })?;
                state.decide(f, g, true)?;
                draft.split(graph, f, g)?;
            }
            Next::Close => match waits.pop() {
                Some(next) => {
                    state.undo_to(next.mark);
                    state.decide(next.f, next.g, false)?;
                    draft.turn(graph, next.f, next.g)?;
                }
                None => return Ok(()),
            },
        }
    }
}
