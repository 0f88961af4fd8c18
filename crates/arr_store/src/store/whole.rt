//! The calls on whole buffers.
ghost use Rattle.std.specs.Prelude.{◌≡◌, ◌+◌, ◌*◌, ◌<◌, ◌≤◌, ◌^◌, IsSome, IsTrue, OnErr, OnOk, Some, None};
ghost use Rattle.arr_view.specs.Views.{elements, positions};
ghost use Rattle.arr_picks.specs.Picks.{AllBelow};
ghost use Rattle.arr_store.specs.Buffers.{cell_of};
ghost use Rattle.arr_store.specs.Cells.{assigned, lawful, size_at, width_at};
ghost use Rattle.arr_store.specs.Stored.{cells, picked_cell};

use crate::buffer::Buffer;
use crate::store::{Kept, Store, cover};
use arr_view::View;
use std::alloc::{AllocError as NoMemory, Global};

impl Store {
    /// Makes a base that has, for each number of an index, the number of the source at the position that it names (docs/LANGUAGE.md,
    /// "Gather and scatter"): a base of the source's type, with as many numbers as the index has positions.
    ///
    /// Source and index are views whose elements lie inside their bases, which are there. For each position of the index the bytes loaded
    /// rise by the width of the index's type and of the source's, the bytes stored by the width of the source's; one buffer is made
    /// (docs/PLANS.md, "The store"). An Err is want of memory, and then the store is as it was.
    pub fn pick(
        &mut self,
        alloc: Global,
        out: u32,
        source: &View,
        index: &View,
    ) -> Result<(), NoMemory>
        requires source { AllBelow (size_at (cells self.old source.now.base)) (elements source.now) }
        requires index { AllBelow (size_at (cells self.old index.now.base)) (elements index.now) }
        requires absent { cells self.old out ≡ None }
        requires room_loads { self.old.loads < 2 ^ 62 }
        requires room_stores { self.old.stores < 2 ^ 62 }
        requires room_made { self.old.made < 2 ^ 62 }
        ensures bases { OnOk result (cells self.new
            ≡ assigned (cells self.old) out (picked_cell self.old source.now index.now)) }
        ensures loads { OnOk result (self.new.loads ≡ self.old.loads + positions index.now.lengths
            * (width_at (cells self.old index.now.base) + width_at (cells self.old source.now.base))) }
        ensures stores { OnOk result (self.new.stores
            ≡ self.old.stores + positions index.now.lengths * width_at (cells self.old source.now.base)) }
        ensures made { OnOk result (self.new.made ≡ self.old.made + 1) }
        ensures refused { OnErr result (self.new ≡ self.old) }
    {
        let from = self.buffer(source.base());
        let by = self.buffer(index.base());
        let numbers = from.picked(alloc, source, by, index)?;
        let count = index.positions() as usize;
        let stored = from.bytes(count);
        let loaded = by.bytes(count) + stored;
        self.keep(out, numbers)?;
        self.count(loaded, stored);
        Ok(())
    }

    /// The numbers of a base, to be read where they stand: of its type, and as the store has them. No counter changes, so the bytes loaded
    /// are not counted here: `count_loads` does that (docs/PLANS.md, "The store").
    pub fn buffer(&self, base: u32) -> &Buffer
        requires { IsSome (cells self.now base) }
        ensures value { cells self.now base ≡ Some (cell_of result.now) }
        ensures lawful { IsTrue (lawful (cell_of result.now)) }
    {
        match self.buffers.get(self.index[base as usize]) {
            Some(kept) => &kept.buffer,
            None => unreachable!(),
        }
    }

    /// Makes a buffer with these numbers the one of a base that has none, and counts it as made.
    pub(crate) fn keep(&mut self, base: u32, buffer: Buffer) -> Result<(), NoMemory>
        requires absent { cells self.old base ≡ None }
        requires lawful { IsTrue (lawful (cell_of buffer)) }
        requires room { self.old.made < 2 ^ 62 }
        ensures bases { OnOk result (cells self.new ≡ assigned (cells self.old) base (Some (cell_of buffer))) }
        ensures made { OnOk result (self.new.made ≡ self.old.made + 1) }
        ensures loads { self.new.loads ≡ self.old.loads }
        ensures stores { self.new.stores ≡ self.old.stores }
        ensures refused { OnErr result (self.new ≡ self.old) }
    {
        self.buffers.reserve(1)?;
        cover(&mut self.index, base)?;
        let key = self.buffers.insert_reserved(Kept { base, buffer });
        self.index[base as usize] = key;
        self.made += 1;
        Ok(())
    }

    /// Counts bytes that were loaded and stored.
    fn count(&mut self, loaded: u64, stored: u64)
        requires loaded { loaded ≤ 16777216 }
        requires stored { stored ≤ 8388608 }
        requires room_loads { self.old.loads < 2 ^ 62 }
        requires room_stores { self.old.stores < 2 ^ 62 }
        ensures bases { self.new.bases ≡ self.old.bases }
        ensures loads { self.new.loads ≡ self.old.loads + loaded }
        ensures stores { self.new.stores ≡ self.old.stores + stored }
        ensures made { self.new.made ≡ self.old.made }
    {
        self.loads += loaded;
        self.stores += stored;
    }
}
