//! The parts so far, and the operations that wait.
ghost use Rattle.std.specs.Prelude.{suc, [], ◌∷◌, ◌≡◌, OnOk, None};
ghost use Rattle.arr_elab.specs.Steps.{slot_from, slot_count};
ghost use Rattle.arr_record.specs.Parts.{append, cut, free, next_op, put};

use crate::NoMemory;
use crate::part::{Ops, Part};
use arr_num::{Code, Elem};
use arr_ops::Op;
use std::alloc::Global;
use std::marker::Model;
use std::mem;

/// The most operations of a list.
const MOST: usize = 256;

/// The parts so far and the list that waits. A contract sees both.
#[derive(Drop)]
pub(crate) struct Writer {
    parts: Vec<Part>,
    waiting: Vec<Op>,
    /// How many slots the waiting list fills.
    slots: u32,
}

impl Model for Writer {
    ghost use Rattle.std.specs.Prelude.{◌≡◌, ◌<◌, length};
    ghost use Rattle.arr_elab.specs.Steps.{slot_count};
    ghost use Rattle.arr_record.specs.Parts.{Written};

    ghost Value = { Written };

    ghost view = { λ w. record { parts = w.parts.items; waiting = w.waiting.items } };

    ghost invariant = { λ w. (w.slots ≡ slot_count w.waiting.items) × (length w.waiting.items < 256) };
}

/// The FREE of a base of a type.
pub(crate) fn free_of(base: u32, elem: Elem) -> Op
    ensures { result ≡ free (base, elem) }
{
    Op {
        code: Code::Free,
        to: elem,
        from: elem,
        out: None,
        first: None,
        second: None,
        axis: None,
        slot: None,
        frees: Some(base),
        makes: false,
    }
}

impl Writer {
    pub(crate) fn new(alloc: Global) -> Writer
        ensures { result ≡ record { parts = []; waiting = [] } }
    {
        Writer {
            parts: Vec::new(alloc),
            waiting: Vec::new(alloc),
            slots: 0,
        }
    }

    /// The slot that an operation of the code fills when it is appended.
    fn slot_for(&self, code: Code) -> Option<u32>
        ensures { result ≡ slot_from (suc (slot_count self.now.waiting)) code }
    {
        match code {
            Code::Sync => Some(self.slots + 1),
            _ => None,
        }
    }

    /// The list that waits; nothing waits then.
    fn take(&mut self, alloc: Global) -> Vec<Op>
        ensures taken { result.items ≡ self.old.waiting }
        ensures left { self.new ≡ record self.old { waiting = [] } }
    {
        self.slots = 0;
        mem::replace(&mut self.waiting, Vec::new(alloc))
    }

    /// Cuts what waits, if something does.
    pub(crate) fn cut(&mut self, alloc: Global) -> Result<(), NoMemory>
        ensures { OnOk result (self.new ≡ cut self.old) }
    {
        if self.waiting.is_empty() {
            return Ok(());
        }
        let list = self.take(alloc);
        self.parts.push(Part::Flush(Ops { list }))?;
        Ok(())
    }

    /// Appends an operation with its slot, and cuts a list that is full.
    pub(crate) fn append(&mut self, alloc: Global, mut op: Op) -> Result<(), NoMemory>
        ensures { OnOk result (self.new ≡ append self.old op) }
    {
        let slot = self.slot_for(op.code);
        op.slot = slot;
        if self.waiting.len() + 1 == MOST {
            let mut list = self.take(alloc);
            list.push(op)?;
            self.parts.push(Part::Flush(Ops { list }))?;
            return Ok(());
        }
        self.waiting.push(op)?;
        if let Some(slots) = slot {
            self.slots = slots;
        }
        Ok(())
    }

    /// A gather or scatter stands behind what waits.
    pub(crate) fn put(&mut self, alloc: Global, part: Part) -> Result<(), NoMemory>
        ensures { OnOk result (self.new ≡ put self.old part) }
    {
        self.cut(alloc)?;
        self.parts.push(part)?;
        Ok(())
    }

    /// The parts.
    pub(crate) fn into_parts(self) -> Vec<Part>
        ensures { result.items ≡ self.parts }
    {
        self.parts
    }
}
