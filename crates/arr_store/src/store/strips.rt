//! The calls that move many numbers at once.
ghost use Rattle.std.specs.Prelude.{ℕ, ◌≡◌, ◌+◌, ◌*◌, ◌<◌, ◌≤◌, ◌^◌, drop, get_or, length, pos, take, true, IsSome};
ghost use Rattle.std.specs.List.{list_all};
ghost use Rattle.arr_store.specs.Buffers.{cell_of};
ghost use Rattle.arr_store.specs.Cells.{assigned, number_at, size_at, takes, width_at};
ghost use Rattle.arr_store.specs.Runs.{IsOf, LiesIn, run_place, with_run};
ghost use Rattle.arr_store.specs.Stored.{cells};

use crate::buffer::Buffer;
use crate::runs::Run;
use crate::store::Store;
use arr_view::MOST_ELEMENTS;

impl Store {
    /// Copies the numbers of a run of a base to a lane of its type, from its number `at` on, counted from 0; the bytes loaded rise by
    /// the width of that type for each (docs/PLANS.md, "The store").
    #[inline]
    pub fn load_run(&mut self, base: u32, run: Run, lane: &mut Buffer, at: usize)
        requires base { IsOf (cell_of lane.old).elem (cells self.old base) }
        requires lane { at + run.count ≤ length (cell_of lane.old).numbers }
        requires there { LiesIn (size_at (cells self.old base)) run.start run.stride run.count }
        requires few { run.count ≤ MOST_ELEMENTS }
        requires room { self.old.loads < 2 ^ 63 }
        ensures each { (i : ℕ) → i < run.count → get_or (cell_of lane.new).numbers (at + i) (pos 0)
            ≡ number_at (cells self.old base) (run_place run.start run.stride i) }
        ensures before { (k : ℕ) → k < at
            → get_or (cell_of lane.new).numbers k (pos 0) ≡ get_or (cell_of lane.old).numbers k (pos 0) }
        ensures behind { (k : ℕ) → at + run.count ≤ k
            → get_or (cell_of lane.new).numbers k (pos 0) ≡ get_or (cell_of lane.old).numbers k (pos 0) }
        ensures elem { (cell_of lane.new).elem ≡ (cell_of lane.old).elem }
        ensures length { length (cell_of lane.new).numbers ≡ length (cell_of lane.old).numbers }
        ensures bases { self.new.bases ≡ self.old.bases }
        ensures loads { self.new.loads ≡ self.old.loads + run.count * width_at (cells self.old base) }
        ensures stores { self.new.stores ≡ self.old.stores }
        ensures made { self.new.made ≡ self.old.made }
    {
        match self.buffers.get(self.index[base as usize]) {
            Some(kept) => {
                self.loads += kept.buffer.bytes(run.count);
                kept.buffer.load_run(run, lane, at);
            }
            None => unreachable!(),
        }
    }

    /// Counts so many numbers of a base that are read where they stand; the bytes loaded rise by the width of its type for each
    /// (docs/PLANS.md, "The store").
    #[inline]
    pub fn count_loads(&mut self, base: u32, count: usize)
        requires base { IsSome (cells self.old base) }
        requires few { count ≤ MOST_ELEMENTS }
        requires room { self.old.loads < 2 ^ 63 }
        ensures bases { self.new.bases ≡ self.old.bases }
        ensures loads { self.new.loads ≡ self.old.loads + count * width_at (cells self.old base) }
        ensures stores { self.new.stores ≡ self.old.stores }
        ensures made { self.new.made ≡ self.old.made }
    {
        match self.buffers.get(self.index[base as usize]) {
            Some(kept) => self.loads += kept.buffer.bytes(count),
            None => unreachable!(),
        }
    }

    /// Copies numbers of a lane of the type of a base, from its number `at` on, counted from 0, to the places of a run of it; the
    /// bytes stored rise by the width of that type for each (docs/PLANS.md, "The store").
    #[inline]
    pub fn store_run(&mut self, base: u32, run: Run, lane: &Buffer, at: usize)
        requires base { IsOf (cell_of lane.now).elem (cells self.old base) }
        requires lane { at + run.count ≤ length (cell_of lane.now).numbers }
        requires there { LiesIn (size_at (cells self.old base)) run.start run.stride run.count }
        requires few { run.count ≤ MOST_ELEMENTS }
        requires room { self.old.stores < 2 ^ 63 }
        ensures bases { cells self.new ≡ assigned (cells self.old) base
            (with_run (cells self.old base) run.start run.stride run.count (take run.count (drop at (cell_of lane.now).numbers))) }
        ensures loads { self.new.loads ≡ self.old.loads }
        ensures stores { self.new.stores ≡ self.old.stores + run.count * width_at (cells self.old base) }
        ensures made { self.new.made ≡ self.old.made }
    {
        match self.buffers.get_mut(self.index[base as usize]) {
            Some(kept) => {
                self.stores += kept.buffer.bytes(run.count);
                kept.buffer.store_run(run, lane, at);
            }
            None => unreachable!(),
        }
    }

    /// Changes the numbers at the places of a run of a base to numbers of its type, those of a list from its number `at` on, counted
    /// from 0; the bytes stored rise by the width of that type for each (docs/PLANS.md, "The store").
    pub fn store_numbers(&mut self, base: u32, run: Run, numbers: &[i128], at: usize)
        requires numbers { at + run.count ≤ length numbers.now }
        requires typed { list_all (takes (cells self.old base)) (take run.count (drop at numbers.now)) ≡ true }
        requires base { IsSome (cells self.old base) }
        requires there { LiesIn (size_at (cells self.old base)) run.start run.stride run.count }
        requires few { run.count ≤ MOST_ELEMENTS }
        requires room { self.old.stores < 2 ^ 63 }
        ensures bases { cells self.new ≡ assigned (cells self.old) base
            (with_run (cells self.old base) run.start run.stride run.count (take run.count (drop at numbers.now))) }
        ensures loads { self.new.loads ≡ self.old.loads }
        ensures stores { self.new.stores ≡ self.old.stores + run.count * width_at (cells self.old base) }
        ensures made { self.new.made ≡ self.old.made }
    {
        match self.buffers.get_mut(self.index[base as usize]) {
            Some(kept) => {
                self.stores += kept.buffer.bytes(run.count);
                kept.buffer.put_numbers(run, numbers, at);
            }
            None => unreachable!(),
        }
    }
}
