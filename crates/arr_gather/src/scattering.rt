//! Writing by an index.
ghost use Rattle.std.specs.Prelude.{◌≡◌, ◌+◌, ◌<◌, ◌≤◌, ◌^◌, OnErr, OnOk, true};
ghost use Rattle.arr_ops.specs.Costs.{weight_of};
ghost use Rattle.arr_ops.specs.Gathers.{is_scatter, scatter_fits, scattered};
ghost use Rattle.arr_store.specs.Stored.{cells, memory_of};
ghost use Rattle.arr_gather.specs.Feeds.{CanPlace, Places};
ghost use Rattle.arr_gather.specs.Steps.{scatter_loads};

use crate::feed::{Feed, feed_of};
use arr_ops::Scatter;
use arr_picks::{element_at, position_named};
use arr_store::Store;
use std::alloc::{AllocError as NoMemory, Global};

/// Writes each value to the element that its number of the index names.
fn place_all(op: &Scatter, mut index: Feed, mut values: Feed, store: &mut Store)
    requires can { CanPlace op.now store.old index values }
    ensures places { Places op.now store.old store.new index values }
{
    let gapless = op.target.is_gapless();
    let count = op.target.positions();
    for position in 0..op.index.positions() {
        let named = position_named(index.next(position, store), count);
        let value = values.next(position, store);
        store.store(
            op.target.base(),
            element_at(&op.target, gapless, named),
            value,
        );
    }
}

/// Writes by an index (docs/LANGUAGE.md, "Gather and scatter"): for each number of the index, the value at the same place goes to the
/// target's position that it names, the last one where several meet. Index and values are those from before: where one of them stands in
/// the target's base, and only there, it is copied first.
///
/// The three views are in the store with their types, and every element of theirs lies inside its base. The bytes loaded rise by at most
/// what index and values weigh, the bytes stored by what the values weigh, and no buffer is made. An Err is want of memory, and then the
/// bases are as they were.
pub fn scatter(alloc: Global, op: &Scatter, store: &mut Store) -> Result<(), NoMemory>
    requires lawful { is_scatter op.now ≡ true }
    requires fitting { scatter_fits (memory_of store.old) op.now ≡ true }
    requires room_loads { store.old.loads + scatter_loads op.now < 2 ^ 62 }
    requires room_stores { store.old.stores + weight_of op.now.to op.now.values ≤ 2 ^ 62 }
    ensures bases { OnOk result (cells store.new ≡ (scattered (memory_of store.old) op.now).bases) }
    ensures loads { OnOk result (store.new.loads ≤ store.old.loads + scatter_loads op.now) }
    ensures stores { OnOk result (store.new.stores ≡ store.old.stores + weight_of op.now.to op.now.values) }
    ensures made { store.new.made ≡ store.old.made }
    ensures refused { OnErr result (store.new.bases ≡ store.old.bases) }
{
    let index = feed_of(alloc, &op.index, op.of, op.target.base(), store)?;
    let values = feed_of(alloc, &op.values, op.to, op.target.base(), store)?;
    place_all(op, index, values, store);
    Ok(())
}
