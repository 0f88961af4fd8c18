//! The numbers that an index names, from buffer to buffer.
ghost use Rattle.std.specs.Prelude.{◌≡◌, IfOk, length, map};
ghost use Rattle.arr_view.specs.Views.{elements};
ghost use Rattle.arr_ops.specs.Gathers.{picked};
ghost use Rattle.arr_picks.specs.Picks.{AllBelow, numbers_of};
ghost use Rattle.arr_store.specs.Buffers.{cell_of};

use crate::buffer::Buffer;
use arr_native::Native;
use arr_picks::picked;
use arr_view::View;
use std::alloc::{AllocError as NoMemory, Global};

impl Buffer {
    /// For each number of an index, which `by` has at `places`, the number of a view of this buffer at the position that it names.
    pub(crate) fn picked(
        &self,
        alloc: Global,
        view: &View,
        by: &Buffer,
        places: &View,
    ) -> Result<Buffer, NoMemory>
        requires inside { AllBelow (length (cell_of self.now).numbers) (elements view.now) }
        requires there { AllBelow (length (cell_of by.now).numbers) (elements places.now) }
        ensures elem { IfOk result (λ b. (cell_of b).elem ≡ (cell_of self.now).elem) }
        ensures numbers { IfOk result (λ b. (cell_of b).numbers
            ≡ picked (numbers_of (cell_of self.now).numbers (elements view.now)) (numbers_of (cell_of by.now).numbers (elements places.now))) }
    {
        match self {
            Buffer::Bytes(from) => Ok(Buffer::Bytes(pick(alloc, from, view, by, places)?)),
            Buffer::Words(from) => Ok(Buffer::Words(pick(alloc, from, view, by, places)?)),
            Buffer::Longs(from) => Ok(Buffer::Longs(pick(alloc, from, view, by, places)?)),
            Buffer::Naturals(from) => Ok(Buffer::Naturals(pick(alloc, from, view, by, places)?)),
        }
    }
}

/// The same out of native numbers of any type, by an index of any type.
fn pick<T: Native>(
    alloc: Global,
    from: &[T],
    view: &View,
    by: &Buffer,
    places: &View,
) -> Result<Vec<T>, NoMemory>
    requires inside { AllBelow (length from.now) (elements view.now) }
    requires there { AllBelow (length (cell_of by.now).numbers) (elements places.now) }
    ensures { IfOk result (λ v. map T.number v.items
        ≡ picked (numbers_of (map T.number from.now) (elements view.now)) (numbers_of (cell_of by.now).numbers (elements places.now))) }
{
    match by {
        Buffer::Bytes(by) => picked(alloc, from, view, by, places),
        Buffer::Words(by) => picked(alloc, from, view, by, places),
        Buffer::Longs(by) => picked(alloc, from, view, by, places),
        Buffer::Naturals(by) => picked(alloc, from, view, by, places),
    }
}
