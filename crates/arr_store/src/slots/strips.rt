//! The call that puts many numbers at once.
ghost use Rattle.std.specs.Prelude.{◌≡◌, ◌+◌, ◌≤◌, drop, length, take};
ghost use Rattle.arr_store.specs.Buffers.{cell_of};
ghost use Rattle.arr_store.specs.Cells.{assigned};
ghost use Rattle.arr_store.specs.Runs.{IsOfSlot, LiesIn, with_slot_run};
ghost use Rattle.arr_store.specs.Slots.{slot_size, slots_of};

use crate::buffer::Buffer;
use crate::runs::Run;
use crate::slots::Slots;

impl Slots {
    /// Changes the numbers at a run of positions of a slot to those of a lane of its type, from its number `at` on, counted from 0
    /// (docs/PLANS.md, "The store").
    #[inline]
    pub fn put_run(&mut self, slot: u32, run: Run, lane: &Buffer, at: usize)
        requires slot { IsOfSlot (cell_of lane.now).elem (slots_of self.old slot) }
        requires lane { at + run.count ≤ length (cell_of lane.now).numbers }
        requires there { LiesIn (slot_size (slots_of self.old slot)) run.start run.stride run.count }
        ensures { slots_of self.new ≡ assigned (slots_of self.old) slot (with_slot_run (slots_of self.old slot)
            run.start run.stride run.count (take run.count (drop at (cell_of lane.now).numbers))) }
    {
        let page = &mut self.pages[slot as usize - 1];
        page.numbers.store_run(run, lane, at);
    }
}
