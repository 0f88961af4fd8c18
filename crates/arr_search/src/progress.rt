//! What a search has so far.
ghost use Rattle.std.specs.Prelude.{◌≡◌, ◌+◌, ◌++◌, ◌∷◌, ◌<◌, ◌^◌, [], IfOk, min};
ghost use Rattle.arr_law.specs.declared.record.Record.TheVariants.{Branch, Dead, Worth};

use crate::NoMemory;
use arr_law::{Charges, Record, Records};
use arr_ops::Plan;

/// The records so far, how many of them are steps and branches, the least worth of a leaf or the first cost, and the best plan with its
/// cost, in bytes.
#[derive(Drop)]
pub(crate) struct Progress {
    pub(crate) tree: Records,
    pub(crate) units: u64,
    pub(crate) least: u64,
    pub(crate) cost: u64,
    pub(crate) plan: Plan,
}

/// What follows a node.
#[derive(Clone, Copy)]
pub(crate) enum Next {
    /// Two subtrees: one where both operations stand in one block, then one where they don't.
    Split(u32, u32),
    /// Nothing: the node is a leaf.
    Close,
}

/// Ends a node by a leaf with its worth.
pub(crate) fn close_leaf(
    progress: &mut Progress,
    worth: u64,
    groups: Charges,
) -> Result<(), NoMemory>
    ensures { IfOk result (λ done. progress.new
        ≡ record progress.old { tree = progress.old.tree ++ Worth groups ∷ []; least = min progress.old.least worth }) }
{
    progress.tree.push(Record::Worth(groups))?;
    progress.least = progress.least.min(worth);
    Ok(())
}

/// Ends a node by a leaf that no plan reaches.
pub(crate) fn close_dead(progress: &mut Progress, f: u32, g: u32) -> Result<(), NoMemory>
    ensures { IfOk result (λ done. progress.new ≡ record progress.old { tree = progress.old.tree ++ Dead f g ∷ [] }) }
{
    progress.tree.push(Record::Dead { f, g })?;
    Ok(())
}

/// Ends a node by a branch.
pub(crate) fn open_branch(progress: &mut Progress, f: u32, g: u32) -> Result<(), NoMemory>
    requires { progress.old.units + 1 < 2 ^ 64 }
    ensures { IfOk result (λ done. progress.new
        ≡ record progress.old { tree = progress.old.tree ++ Branch f g ∷ []; units = progress.old.units + 1 }) }
{
    progress.tree.push(Record::Branch { f, g })?;
    progress.units += 1;
    Ok(())
}
