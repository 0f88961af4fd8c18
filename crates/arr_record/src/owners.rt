//! Which names stand for which bases, and which live bases no name stands for.
ghost use Rattle.std.specs.Prelude.{◌+◌, ◌<◌, ◌^◌, ◌≡◌, [], ◌∷◌, true, length, OnOk};
ghost use Rattle.arr_elab.specs.Recording.{other_names};
ghost use Rattle.std.specs.List.{AllByRecursion};
ghost use Rattle.arr_ops.specs.Ops.{outputs};
ghost use Rattle.arr_record.specs.Parts.{free_each, made};
ghost use Rattle.arr_record.specs.Ledger.{lives, loose_bases, Binds, Known, Makes, Owned, Renames};

use crate::NoMemory;
use crate::writer::{Writer, free_of};
use arr_num::Elem;
use arr_ops::Op;
use std::alloc::Global;
use std::collections::{BTreeMap, BTreeSet};
use std::marker::Model;

/// The bases made so far, and how many names stand for each. A contract sees the lists that they are.
#[derive(Drop)]
pub(crate) struct Owners {
    names: BTreeMap<u32, u32>,
    elems: Vec<Elem>,
    counts: Vec<usize>,
    /// The live bases that no name stands for.
    loose: BTreeSet<u32>,
}

impl Model for Owners {
    ghost use Rattle.arr_record.specs.Ledger.{Ledger};

    ghost Value = { Ledger };

    ghost view = { λ o. record { names = o.names.entries; elems = o.elems.items; counts = o.counts.items; loose = o.loose.keys } };
}

impl Owners {
    pub(crate) fn new(alloc: Global) -> Owners
        ensures owned { Owned result [] [] }
        ensures made { length result.elems ≡ 0 }
    {
        Owners {
            names: BTreeMap::new(alloc),
            elems: Vec::new(alloc),
            counts: Vec::new(alloc),
            loose: BTreeSet::new(alloc),
        }
    }

    /// The next base is made. No name stands for it yet.
    pub(crate) fn make(&mut self, base: u32, elem: Elem) -> Result<(), NoMemory>
        requires { base ≡ length self.old.elems }
        ensures owned { OnOk result (Makes self.old self.new ((base, elem) ∷ [])) }
        ensures made { OnOk result (length self.new.elems ≡ length self.old.elems + 1) }
    {
        self.elems.push(elem)?;
        self.counts.push(0)?;
        self.loose.insert(base)?;
        Ok(())
    }

    /// The base that an operation makes, if it makes one.
    pub(crate) fn make_for(&mut self, op: &Op) -> Result<(), NoMemory>
        requires { op.now.makes ≡ true → AllByRecursion (λ o. o.base ≡ length self.old.elems) (outputs op.now) }
        ensures owned { OnOk result (Makes self.old self.new (made op.now)) }
        ensures made { OnOk result (length self.new.elems ≡ length self.old.elems + length (made op.now)) }
    {
        if !op.makes {
            return Ok(());
        }
        match &op.out {
            Some(out) => self.make(out.base(), op.to),
            None => Ok(()),
        }
    }

    /// The name stands for nothing from here on.
    pub(crate) fn release(&mut self, name: u32) -> Result<(), NoMemory>
        requires { Known self.old }
        ensures owned { OnOk result (Renames self.old self.new (other_names name)) }
        ensures made { OnOk result (self.new.elems ≡ self.old.elems) }
    {
        let Some(base) = self.names.remove(&name) else {
            return Ok(());
        };
        let count = self.counts[base as usize];
        self.counts[base as usize] = count - 1;
        let last = count == 1;
        if last {
            self.loose.insert(base)?;
        }
        Ok(())
    }

    /// The name stands for a live base from here on.
    pub(crate) fn bind(&mut self, name: u32, base: u32) -> Result<(), NoMemory>
        requires { (known : Known self.old) × (lives known.live base ≡ true) × (length known.names < 2 ^ 63) }
        ensures owned { OnOk result (Binds self.old self.new name base) }
        ensures made { OnOk result (self.new.elems ≡ self.old.elems) }
    {
        self.release(name)?;
        self.names.insert(name, base)?;
        self.counts[base as usize] += 1;
        self.loose.remove(&base);
        Ok(())
    }

    /// Frees the live bases that no name stands for, in ascending order.
    pub(crate) fn free_loose(&mut self, alloc: Global, writer: &mut Writer) -> Result<(), NoMemory>
        requires { Known self.old }
        ensures freed { OnOk result (writer.new ≡ free_each writer.old (loose_bases self.old)) }
        ensures left { OnOk result (self.new ≡ record self.old { loose = [] }) }
    {
        for base in &self.loose {
            writer.append(alloc, free_of(*base, self.elems[*base as usize]))?;
        }
        self.loose.clear();
        Ok(())
    }

    /// No name stands for anything from here on.
    pub(crate) fn release_all(&mut self, alloc: Global) -> Result<(), NoMemory>
        requires { Known self.old }
        ensures { OnOk result (Renames self.old self.new (λ names. [])) }
    {
        let names: Vec<u32> = self.names.keys().copied().collect(alloc)?;
        for name in &names {
            self.release(*name)?;
        }
        Ok(())
    }
}
