ghost use Rattle.std.specs.Prelude.{◌≡◌, IfOk};

use crate::places::Places;
use crate::records::Records;
use std::alloc::{AllocError as NoMemory, Global};

/// The certificate of a list (docs/CERTIFICATES.md, "The text").
#[derive(Debug, Drop)]
pub struct Certificate {
    /// The version of the rules, 1 or 2.
    pub version: u8,
    /// The number of the list, counted from 1.
    pub number: u32,
    /// How many operations the list has.
    pub count: u32,
    /// The place of the block of each operation, counted from 1.
    pub places: Places,
    /// What the plan costs, in bytes.
    pub cost: u64,
    /// What no legal plan costs less than, in bytes.
    pub bound: u64,
    /// The tree that shows it.
    pub tree: Records,
}

impl Certificate {
    /// An equal certificate (docs/MAP.md, "Copies"). Want of memory is its one refusal.
    pub fn copied(&self, alloc: Global) -> Result<Certificate, NoMemory>
        ensures { IfOk result (λ copy. copy ≡ self.now) }
    {
        Ok(Certificate {
            version: self.version,
            number: self.number,
            count: self.count,
            places: self.places.copied(alloc)?,
            cost: self.cost,
            bound: self.bound,
            tree: self.tree.copied(alloc)?,
        })
    }
}
