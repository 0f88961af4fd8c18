ghost use Rattle.std.specs.Prelude.{◌≡◌, ◌<◌, ◌++◌, [], ◌∷◌, length, slice_get, IfOk, OnErr, OnOk, Some};

use std::alloc::{AllocError as NoMemory, Global};
use std::marker::Model;

/// For each operation the place of its block, counted from 1 (docs/CERTIFICATES.md, "The text"). Contracts see them as a list.
#[derive(Debug, Drop)]
pub struct Places {
    places: Vec<u32>,
}

impl Model for Places {
    ghost use Rattle.std.specs.Prelude.{List, ℕ};

    ghost Value = { List ℕ };

    ghost view = { λ l. l.places.items };
}

impl Places {
    /// No place yet. It can't be refused.
    pub fn new(alloc: Global) -> Places
        ensures { result ≡ [] }
    {
        Places {
            places: Vec::new(alloc),
        }
    }

    /// How many there are.
    pub fn len(&self) -> usize
        ensures { result ≡ length self.now }
    {
        self.places.len()
    }

    /// The place at an index, counted from 0.
    pub fn at(&self, index: usize) -> &u32
        requires { index < length self.now }
        ensures { slice_get self.now index ≡ Some result.now }
    {
        &self.places[index]
    }

    /// Joins a place to the end. Where memory is wanting, an error: the place is gone and the list is as it was.
    pub fn push(&mut self, entry: u32) -> Result<(), NoMemory>
        ensures ok { OnOk result (self.new ≡ self.old ++ entry ∷ []) }
        ensures err { OnErr result (self.new ≡ self.old) }
    {
        self.places.push(entry)?;
        Ok(())
    }

    /// An equal list (docs/MAP.md, "Copies"). Want of memory is its one refusal.
    pub fn copied(&self, alloc: Global) -> Result<Places, NoMemory>
        ensures { IfOk result (λ copy. copy ≡ self.now) }
    {
        Ok(Places {
            places: self.places.as_slice().to_vec(alloc)?,
        })
    }
}
