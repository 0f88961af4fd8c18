ghost use Rattle.std.specs.Prelude.{◌≡◌, ◌<◌, ◌++◌, [], ◌∷◌, length, slice_get, IfOk, OnErr, OnOk, Some};

use crate::record::Record;
use std::alloc::{AllocError as NoMemory, Global};
use std::marker::Model;

/// The records of a tree, in the order in which they are read (docs/CERTIFICATES.md, "The text"). Contracts see them as a list.
#[derive(Debug, Drop)]
pub struct Records {
    records: Vec<Record>,
}

impl Model for Records {
    ghost use Rattle.std.specs.Prelude.{List};
    ghost use Rattle.arr_law.specs.declared.record.Record.{Record};

    ghost Value = { List Record };

    ghost view = { λ l. l.records.items };
}

impl Records {
    /// No record yet. It can't be refused.
    pub fn new(alloc: Global) -> Records
        ensures { result ≡ [] }
    {
        Records {
            records: Vec::new(alloc),
        }
    }

    /// How many there are.
    pub fn len(&self) -> usize
        ensures { result ≡ length self.now }
    {
        self.records.len()
    }

    /// The record at an index, counted from 0.
    pub fn at(&self, index: usize) -> &Record
        requires { index < length self.now }
        ensures { slice_get self.now index ≡ Some result.now }
    {
        &self.records[index]
    }

    /// Joins a record to the end. Where memory is wanting, an error: the record is gone and the list is as it was.
    pub fn push(&mut self, entry: Record) -> Result<(), NoMemory>
        ensures ok { OnOk result (self.new ≡ self.old ++ entry ∷ []) }
        ensures err { OnErr result (self.new ≡ self.old) }
    {
        self.records.push(entry)?;
        Ok(())
    }

    /// An equal list (docs/MAP.md, "Copies"). Want of memory is its one refusal.
    pub fn copied(&self, alloc: Global) -> Result<Records, NoMemory>
        ensures { IfOk result (λ copy. copy ≡ self.now) }
    {
        let mut records = Vec::new(alloc);
        for entry in &self.records {
            records.push(entry.copied(alloc)?)?;
        }
        Ok(Records { records })
    }
}
