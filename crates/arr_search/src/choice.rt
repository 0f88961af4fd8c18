//! On which pair a node branches.
ghost use Rattle.std.specs.Prelude.{◌≡◌, true, MatchOption};
ghost use Rattle.arr_law.specs.ProblemOf.{problem_of};
ghost use Rattle.arr_law.specs.Trees.{may_branch};
ghost use Rattle.arr_state.specs.States.{known};
ghost use Rattle.arr_search.specs.Nodes.{HasNoPartner, MayPick};

use arr_deps::Graph;
use arr_law::Fact;
use arr_state::State;

/// Whether a node may branch on two operations, the lesser first.
pub(crate) fn may_branch(graph: &Graph, state: &State, f: u32, g: u32) -> bool
    requires list { state.now.list ≡ graph.now }
    ensures { result ≡ may_branch (problem_of graph.now) (known state.now) f g }
{
    1 <= f
        && g <= graph.len()
        && f < g
        && !state.known(Fact::Same(f, g))
        && !state.known(Fact::Apart(f, g))
}

/// The first partner with which a node may branch on an operation.
fn partner_of(graph: &Graph, state: &State, f: u32) -> Option<u32>
    requires list { state.now.list ≡ graph.now }
    ensures { MatchOption result (HasNoPartner graph.now (known state.now) f)
        (λ g. may_branch (problem_of graph.now) (known state.now) f g ≡ true) }
{
    for g in 0..graph.len() + 1 {
        if may_branch(graph, state, f, g) {
            return Some(g);
        }
    }
    None
}

/// A pair on which a node may branch, if there is one.
pub(crate) fn choose(graph: &Graph, state: &State) -> Option<(u32, u32)>
    requires list { state.now.list ≡ graph.now }
    ensures { MayPick (problem_of graph.now) (known state.now) result }
{
    for f in 0..graph.len() + 1 {
        if let Some(g) = partner_of(graph, state, f) {
            return Some((f, g));
        }
    }
    None
}
