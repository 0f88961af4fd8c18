ghost use Rattle.std.specs.Prelude.{◌≡◌, IfOk};

use crate::charges::Charges;
use crate::places::Places;
use std::alloc::{AllocError as NoMemory, Global};

/// A line of a certificate (docs/CERTIFICATES.md, "The text"). Operations, flushes and places are numbered from 1.
#[derive(Debug, Drop)]
pub enum Record {
    /// The certificate of a flush begins: its number, how many operations its list has, and the version of the rules, 1 or 2.
    Flush {
        number: u32,
        count: u32,
        version: u8,
    },
    /// The place of the block of each operation.
    Plan(Places),
    /// What the plan costs, in bytes.
    Cost(u64),
    /// What no legal plan costs less than, in bytes.
    Bound(u64),
    /// A new fact by a rule at some operations; the third is 0 where the rule takes two.
    Step {
        rule: u8,
        f: u32,
        g: u32,
        h: u32,
    },
    /// Two subtrees follow: one where both operations stand in one block, then one where they don't.
    Branch {
        f: u32,
        g: u32,
    },
    /// A leaf that no plan reaches: the operations are known to stand in one block, and in two.
    Dead {
        f: u32,
        g: u32,
    },
    /// A leaf that shows what every plan that reaches it pays.
    Worth(Charges),
    /// The certificate of the flush ends.
    End,
}

impl Record {
    /// An equal record (docs/MAP.md, "Copies"). Want of memory is its one refusal.
    pub fn copied(&self, alloc: Global) -> Result<Record, NoMemory>
        ensures { IfOk result (λ copy. copy ≡ self.now) }
    {
        Ok(match self {
            Record::Flush {
                number,
                count,
                version,
            } => Record::Flush {
                number: *number,
                count: *count,
                version: *version,
            },
            Record::Plan(places) => Record::Plan(places.copied(alloc)?),
            Record::Cost(cost) => Record::Cost(*cost),
            Record::Bound(bound) => Record::Bound(*bound),
            Record::Step { rule, f, g, h } => Record::Step {
                rule: *rule,
                f: *f,
                g: *g,
                h: *h,
            },
            Record::Branch { f, g } => Record::Branch { f: *f, g: *g },
            Record::Dead { f, g } => Record::Dead { f: *f, g: *g },
            Record::Worth(charges) => Record::Worth(charges.copied(alloc)?),
            Record::End => Record::End,
        })
    }
}
