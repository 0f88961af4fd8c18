//! What runs between two others: a list of operations, or a gather or scatter.
ghost use Rattle.std.specs.Prelude.{◌≡◌};

use arr_ops::{Gather, Op, Scatter};
use std::marker::Model;

/// The operations between two flushes (docs/PLANS.md, "Flushes"). A contract sees their list.
#[derive(Debug, Drop)]
pub struct Ops {
    pub(crate) list: Vec<Op>,
}

impl Model for Ops {
    ghost use Rattle.std.specs.Prelude.{List};
    ghost use Rattle.arr_ops.specs.declared.op.Op.{Op};

    ghost Value = { List Op };

    ghost view = { λ o. o.list.items };
}

impl Ops {
    /// The operations, in order.
    pub fn list(&self) -> &[Op]
        ensures { result.now ≡ self.now }
    {
        self.list.as_slice()
    }
}

/// A part of a script (docs/PLANS.md, "Flushes"): parts run one after another.
#[derive(Debug, Drop)]
pub enum Part {
    /// A list of operations; its arrays are printed when it has run.
    Flush(Ops),
    /// Reading by an index.
    Gather(Gather),
    /// Writing by an index.
    Scatter(Scatter),
}
