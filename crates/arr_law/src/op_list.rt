ghost use Rattle.std.specs.Prelude.{◌≡◌, ◌<◌, ◌++◌, [], ◌∷◌, length, slice_get, IfOk, OnErr, OnOk, Some};

use std::alloc::{AllocError as NoMemory, Global};
use std::marker::Model;

/// The numbers of operations, counted from 1 (docs/CERTIFICATES.md, "Leaves"). Contracts see them as a list.
#[derive(Debug, Drop)]
pub struct OpList {
    ops: Vec<u32>,
}

impl Model for OpList {
    ghost use Rattle.std.specs.Prelude.{List, ℕ};

    ghost Value = { List ℕ };

    ghost view = { λ l. l.ops.items };
}

impl OpList {
    /// No number yet. It can't be refused.
    pub fn new(alloc: Global) -> OpList
        ensures { result ≡ [] }
    {
        OpList {
            ops: Vec::new(alloc),
        }
    }

    /// How many there are.
    pub fn len(&self) -> usize
        ensures { result ≡ length self.now }
    {
        self.ops.len()
    }

    /// The number at an index, counted from 0.
    pub fn at(&self, index: usize) -> &u32
        requires { index < length self.now }
        ensures { slice_get self.now index ≡ Some result.now }
    {
        &self.ops[index]
    }

    /// Joins a number to the end. Where memory is wanting, an error: the number is gone and the list is as it was.
    pub fn push(&mut self, entry: u32) -> Result<(), NoMemory>
        ensures ok { OnOk result (self.new ≡ self.old ++ entry ∷ []) }
        ensures err { OnErr result (self.new ≡ self.old) }
    {
        self.ops.push(entry)?;
        Ok(())
    }

    /// An equal list (docs/MAP.md, "Copies"). Want of memory is its one refusal.
    pub fn copied(&self, alloc: Global) -> Result<OpList, NoMemory>
        ensures { IfOk result (λ copy. copy ≡ self.now) }
    {
        Ok(OpList {
            ops: self.ops.as_slice().to_vec(alloc)?,
        })
    }
}
