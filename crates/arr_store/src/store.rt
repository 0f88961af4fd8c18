//! The store: buffers by base, and what passed through them.
ghost use Rattle.std.specs.Prelude.{ℕ, ◌≡◌, ◌+◌, ◌-◌, ◌<◌, ◌≤◌, ◌^◌, ◌++◌, IsTrue, IfOk, OnOk, OnErr, IsSome, Some, None, length, replicate};
ghost use Rattle.std.specs.FinMap as finite;
ghost use Rattle.arr_view.specs.Views.{most_elements};
ghost use Rattle.arr_store.specs.Cells.{assigned, blank, number_at, size_at, takes, width_at, with_number};
ghost use Rattle.arr_store.specs.Stored.{IsLawful, cells};

mod strips;
mod whole;

use crate::buffer::Buffer;
use arr_num::Elem;
use slab::Slab;
use std::alloc::{AllocError as NoMemory, Global};
use std::marker::Model;

/// A buffer, with the base that it is kept for.
#[derive(Debug, Drop)]
pub(crate) struct Kept {
    base: u32,
    buffer: Buffer,
}

/// The bases of a program, and what was loaded, stored and made (docs/PLANS.md, "The store").
///
/// The index has at each base the key of its buffer. What it has at a base that is not there does not matter: the buffer at
/// that key, if there is one, is kept for another base.
#[derive(Debug, Drop)]
pub struct Store {
    index: Vec<usize>,
    buffers: Slab<Kept>,
    loads: u64,
    stores: u64,
    made: u64,
}

impl Model for Store {
    ghost use Rattle.arr_store.specs.Stored.{Stored, stored_code};

    ghost Value = { Stored };

    ghost coded = { stored_code };

    ghost use Rattle.arr_store.specs.Tables.{AllKept, shown};

    ghost view = { λ s. record { bases = shown s.index.items s.buffers.slots; loads = s.loads; stores = s.stores; made = s.made } };

    ghost invariant = { λ s. AllKept s.index.items s.buffers.slots };
}

impl Store {
    /// A store with no base, whose counters are 0 (docs/PLANS.md, "The store"). An Err is want of memory.
    pub fn new(alloc: Global) -> Result<Store, NoMemory>
        ensures value { IfOk result (λ s. s ≡ record { bases = finite.empty; loads = 0; stores = 0; made = 0 }) }
        ensures empty { IfOk result (λ s. (b : ℕ) → cells s b ≡ None) }
    {
        Ok(Store {
            index: Vec::new(alloc),
            buffers: Slab::new(alloc),
            loads: 0,
            stores: 0,
            made: 0,
        })
    }

    /// Makes a buffer of so many zeros for a base that has none, and counts it (docs/PLANS.md, "The store"). An Err is want of
    /// memory, and then the store is as it was.
    pub fn make(&mut self, alloc: Global, base: u32, ty: Elem, length: u32) -> Result<(), NoMemory>
        requires absent { cells self.old base ≡ None }
        requires some { 1 ≤ length }
        requires few { length ≤ most_elements }
        requires room { self.old.made < 2 ^ 62 }
        ensures bases { OnOk result (cells self.new ≡ assigned (cells self.old) base (Some (blank ty length))) }
        ensures made { OnOk result (self.new.made ≡ self.old.made + 1) }
        ensures loads { self.new.loads ≡ self.old.loads }
        ensures stores { self.new.stores ≡ self.old.stores }
        ensures refused { OnErr result (self.new ≡ self.old) }
    {
        let buffer = Buffer::blank(alloc, ty, length)?;
        self.keep(base, buffer)
    }

    /// Ends a base and gives its memory back (docs/PLANS.md, "The store").
    pub fn drop_base(&mut self, base: u32)
        requires { IsSome (cells self.old base) }
        ensures bases { cells self.new ≡ assigned (cells self.old) base None }
        ensures loads { self.new.loads ≡ self.old.loads }
        ensures stores { self.new.stores ≡ self.old.stores }
        ensures made { self.new.made ≡ self.old.made }
    {
        let _ended = self.buffers.try_remove(self.index[base as usize]);
    }

    /// The number at a place of a base, which is of the base's type; the bytes loaded rise by the width of that type
    /// (docs/PLANS.md, "The store").
    #[inline]
    pub fn load(&mut self, base: u32, place: u32) -> i128
        requires there { place < size_at (cells self.old base) }
        requires room { self.old.loads < 2 ^ 62 }
        ensures number { result ≡ number_at (cells self.old base) place }
        ensures typed { IsTrue (takes (cells self.old base) result) }
        ensures bases { self.new.bases ≡ self.old.bases }
        ensures loads { self.new.loads ≡ self.old.loads + width_at (cells self.old base) }
        ensures stores { self.new.stores ≡ self.old.stores }
        ensures made { self.new.made ≡ self.old.made }
    {
        match self.buffers.get(self.index[base as usize]) {
            Some(kept) => {
                self.loads += kept.buffer.width();
                kept.buffer.get(place)
            }
            None => unreachable!(),
        }
    }

    /// Changes the number at a place of a base to one of its type; the bytes stored rise by the width of that type
    /// (docs/PLANS.md, "The store").
    #[inline]
    pub fn store(&mut self, base: u32, place: u32, value: i128)
        requires there { place < size_at (cells self.old base) }
        requires typed { IsTrue (takes (cells self.old base) value) }
        requires room { self.old.stores < 2 ^ 62 }
        ensures bases { cells self.new
            ≡ assigned (cells self.old) base (with_number (cells self.old base) place value) }
        ensures loads { self.new.loads ≡ self.old.loads }
        ensures stores { self.new.stores ≡ self.old.stores + width_at (cells self.old base) }
        ensures made { self.new.made ≡ self.old.made }
    {
        match self.buffers.get_mut(self.index[base as usize]) {
            Some(kept) => {
                self.stores += kept.buffer.width();
                kept.buffer.put(place, value);
            }
            None => unreachable!(),
        }
    }

    /// How many bytes were loaded (docs/PLANS.md, "The store").
    pub fn loads(&self) -> u64
        ensures value { result ≡ self.now.loads }
        ensures lawful { IsLawful (cells self.now) }
    {
        self.loads
    }

    /// How many bytes were stored (docs/PLANS.md, "The store").
    pub fn stores(&self) -> u64
        ensures value { result ≡ self.now.stores }
        ensures lawful { IsLawful (cells self.now) }
    {
        self.stores
    }

    /// How many buffers were made (docs/PLANS.md, "The store").
    pub fn made(&self) -> u64
        ensures value { result ≡ self.now.made }
        ensures lawful { IsLawful (cells self.now) }
    {
        self.made
    }
}

/// Lengthens the index so that it has the base.
pub(crate) fn cover(index: &mut Vec<usize>, base: u32) -> Result<(), NoMemory>
    ensures covered { OnOk result (index.new.items
        ≡ index.old.items ++ replicate (base + 1 - length index.old.items) 0) }
    ensures refused { OnErr result (index.new.items ≡ index.old.items) }
{
    let count = base as usize + 1;
    if index.len() < count {
        index.resize(count, 0)?;
    }
    Ok(())
}
