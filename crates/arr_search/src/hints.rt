//! What is proposed at a node: the steps to record, and the pair to branch on. Nothing is promised of it.
ghost use Rattle.std.specs.Prelude.{◌≡◌};

use crate::NoMemory;
use crate::draft::{Draft, Reason};
use crate::estimate::estimate;
use crate::gains::Candidates;
use crate::trim::trimmed;
use arr_bound::Views;
use arr_deps::Graph;
use arr_state::State;
use std::alloc::Global;

/// Steps to record at a node, in order, and a pair to branch on, if one is proposed.
#[derive(Drop)]
pub(crate) struct Hint {
    pub(crate) steps: Vec<Reason>,
    pub(crate) pair: Option<(u32, u32)>,
}

impl Hint {
    /// Whether neither a step nor a pair is proposed.
    pub(crate) fn is_empty(&self) -> bool {
        self.steps.len() == 0 && self.pair.is_none()
    }
}

/// No step and no pair.
fn no_hint(alloc: Global) -> Hint {
    Hint {
        steps: Vec::new(alloc),
        pair: None,
    }
}

/// What is proposed at a node: the steps that a leaf rests on which is worth the cost; or, where there is none and the node may branch before
/// all is recorded, a pair, and the steps that the leaf there rests on.
pub(crate) fn hint_at(
    alloc: Global,
    graph: &Graph,
    views: &Views,
    state: &State,
    draft: &mut Draft,
    candidates: &mut Candidates,
    cost: u64,
    opens: bool,
) -> Result<Hint, NoMemory>
    requires list { draft.old.state.list ≡ graph.now }
    requires views { views.now ≡ graph.now }
    ensures list { draft.new.state.list ≡ draft.old.state.list }
{
    if !draft.close(alloc)? {
        return Ok(no_hint(alloc));
    }
    let worth = estimate(views, &draft.state, graph.len());
    if worth >= cost {
        let steps = trimmed(alloc, views, state, draft, graph.len(), worth - cost)?;
        return Ok(Hint { steps, pair: None });
    }
    if !opens {
        return Ok(no_hint(alloc));
    }
    let pair = candidates.pick(alloc, graph, views, &mut draft.state, cost)?;
    if pair.is_none() {
        return Ok(no_hint(alloc));
    }
    let steps = trimmed(alloc, views, state, draft, graph.len(), 0)?;
    Ok(Hint { steps, pair })
}
