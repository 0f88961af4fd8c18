ghost use Rattle.std.specs.Prelude.{◌≡◌, ◌<◌, ◌++◌, [], ◌∷◌, length, slice_get, IfOk, OnErr, OnOk, Some};

use crate::charge::Charge;
use std::alloc::{AllocError as NoMemory, Global};
use std::marker::Model;

/// The groups of a leaf (docs/CERTIFICATES.md, "Leaves"). Contracts see them as a list.
#[derive(Debug, Drop)]
pub struct Charges {
    charges: Vec<Charge>,
}

impl Model for Charges {
    ghost use Rattle.std.specs.Prelude.{List};
    ghost use Rattle.arr_law.specs.declared.charge.Charge.{Charge};

    ghost Value = { List Charge };

    ghost view = { λ l. l.charges.items };
}

impl Charges {
    /// No group yet. It can't be refused.
    pub fn new(alloc: Global) -> Charges
        ensures { result ≡ [] }
    {
        Charges {
            charges: Vec::new(alloc),
        }
    }

    /// How many there are.
    pub fn len(&self) -> usize
        ensures { result ≡ length self.now }
    {
        self.charges.len()
    }

    /// The group at an index, counted from 0.
    pub fn at(&self, index: usize) -> &Charge
        requires { index < length self.now }
        ensures { slice_get self.now index ≡ Some result.now }
    {
        &self.charges[index]
    }

    /// Joins a group to the end. Where memory is wanting, an error: the group is gone and the list is as it was.
    pub fn push(&mut self, entry: Charge) -> Result<(), NoMemory>
        ensures ok { OnOk result (self.new ≡ self.old ++ entry ∷ []) }
        ensures err { OnErr result (self.new ≡ self.old) }
    {
        self.charges.push(entry)?;
        Ok(())
    }

    /// An equal list (docs/MAP.md, "Copies"). Want of memory is its one refusal.
    pub fn copied(&self, alloc: Global) -> Result<Charges, NoMemory>
        ensures { IfOk result (λ copy. copy ≡ self.now) }
    {
        let mut charges = Vec::new(alloc);
        for charge in &self.charges {
            charges.push(charge.copied(alloc)?)?;
        }
        Ok(Charges { charges })
    }
}
