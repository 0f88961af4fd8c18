//! The buffers that a block needs.
ghost use Rattle.std.specs.Prelude.{◌≡◌, ◌+◌, ◌≤◌, ◌<◌, ◌^◌, OnOk, OnErr, length, true};
ghost use Rattle.arr_view.specs.Views.{has};
ghost use Rattle.arr_ops.specs.Fits.{fits};
ghost use Rattle.arr_store.specs.Stored.{cells, memory_of};
ghost use Rattle.arr_loop.specs.Opened.{IsOpened, OpenedFor, PartOpened, are_absent, kept_of, unopened};

use crate::NoMemory;
use arr_contract::Prepared;
use arr_ops::Op;
use arr_store::Store;
use std::alloc::Global;

/// Whether a base is one of a list.
pub(crate) fn has(bases: &[u32], base: u32) -> bool
    ensures { result ≡ has bases.now base }
{
    bases.iter().any(|other| base == *other)
}

/// Makes the buffer of the base that an operation creates, unless it is a contracted one.
fn open_base(alloc: Global, op: &Op, contracted: &[u32], store: &mut Store) -> Result<(), NoMemory>
    requires absent { are_absent (cells store.old) (kept_of contracted.now op.now) ≡ true }
    requires room { store.old.made < 2 ^ 62 }
    ensures bases { OnOk result (IsOpened contracted.now op.now (cells store.old) (cells store.new)) }
    ensures made { OnOk result (store.new.made
        ≡ store.old.made + length (kept_of contracted.now op.now)) }
    ensures one { OnOk result (store.new.made ≤ store.old.made + 1) }
    ensures loads { store.new.loads ≡ store.old.loads }
    ensures stores { store.new.stores ≡ store.old.stores }
    ensures refused { OnErr result (store.new ≡ store.old) }
{
    if !op.makes {
        return Ok(());
    }
    match &op.out {
        Some(out) => {
            if has(contracted, out.base()) {
                return Ok(());
            }
            store.make(alloc, out.base(), op.to, out.positions())
        }
        None => Ok(()),
    }
}

/// Makes a buffer of zeros for each base that a block creates and does not free, in list order. The store fits the block's operations,
/// and fewer than 2^61 buffers were made. Want of memory is its one refusal: then the buffers of some first operations stand, and
/// nothing else changed (docs/PLANS.md, "Running a block").
pub fn open(alloc: Global, prepared: &Prepared, store: &mut Store) -> Result<(), NoMemory>
    requires fit { fits (memory_of store.old) prepared.now.ops ≡ true }
    requires room { store.old.made < 2 ^ 61 }
    ensures opened { OnOk result (OpenedFor prepared.now.ops prepared.now.ops store.old store.new) }
    ensures back { OnOk result (unopened prepared.now.ops (cells store.new) ≡ cells store.old) }
    ensures refused { OnErr result
        (PartOpened prepared.now.ops store.old store.new) }
{
    let ops = prepared.ops();
    let contracted = prepared.contracted();
    for op in ops {
        open_base(alloc, op, contracted, store)?;
    }
    Ok(())
}
