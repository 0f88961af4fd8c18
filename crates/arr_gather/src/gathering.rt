//! Reading by an index.
ghost use Rattle.std.specs.Prelude.{◌≡◌, ◌+◌, ◌<◌, ◌≤◌, ◌^◌, OnErr, OnOk, true};
ghost use Rattle.arr_ops.specs.Costs.{weight_of};
ghost use Rattle.arr_ops.specs.Gathers.{gather_fits, gathered, is_gather};
ghost use Rattle.arr_store.specs.Stored.{cells, memory_of};
ghost use Rattle.arr_gather.specs.Steps.{gather_loads};

use arr_ops::Gather;
use arr_store::Store;
use std::alloc::{AllocError as NoMemory, Global};

/// Reads by an index (docs/LANGUAGE.md, "Gather and scatter"): makes the new base and gives it, for each number of the index, the source's
/// number at the position that it names.
///
/// Source and index are in the store with their types, every element of theirs lies inside its base, and the new base is not there.
/// The bytes loaded rise by at most what the index and the new base weigh, the bytes stored by what the new base weighs, and one buffer
/// is made. An Err is want of memory, and then the store is as it was.
pub fn gather(alloc: Global, op: &Gather, store: &mut Store) -> Result<(), NoMemory>
    requires lawful { is_gather op.now ≡ true }
    requires fitting { gather_fits (memory_of store.old) op.now ≡ true }
    requires room_loads { store.old.loads + gather_loads op.now ≤ 2 ^ 62 }
    requires room_stores { store.old.stores + weight_of op.now.to op.now.out ≤ 2 ^ 62 }
    requires room_made { store.old.made < 2 ^ 62 }
    ensures bases { OnOk result (cells store.new ≡ (gathered (memory_of store.old) op.now).bases) }
    ensures loads { OnOk result (store.new.loads ≤ store.old.loads + gather_loads op.now) }
    ensures stores { OnOk result (store.new.stores ≡ store.old.stores + weight_of op.now.to op.now.out) }
    ensures made { OnOk result (store.new.made ≡ store.old.made + 1) }
    ensures refused { OnErr result (store.new ≡ store.old) }
{
    store.pick(alloc, op.out.base(), &op.source, &op.index)
}
