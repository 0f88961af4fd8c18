//! Bases that a block frees.
ghost use Rattle.std.specs.Prelude.{ℕ, ◌≡◌, IsSome, None, Some, cond, false, true};
ghost use Rattle.arr_view.specs.Views.{has};
ghost use Rattle.arr_ops.specs.Ops.{freed, freed_by};
ghost use Rattle.arr_store.specs.Stored.{cells};
ghost use Rattle.arr_loop.specs.Opened.{ContractedAreAbsent, FreedAreThere};

use crate::opening::has;
use arr_contract::Prepared;
use arr_ops::Op;
use arr_store::Store;

/// Whether some operation of a block frees a base.
pub(crate) fn frees(block: &[Op], base: u32) -> bool
    ensures { result ≡ freed_by block.now base }
{
    block.iter().any(|op| op.frees == Some(base))
}

/// Drops the base that an operation frees, unless it is a contracted one.
fn drop_base(op: &Op, contracted: &[u32], store: &mut Store)
    requires there { (b : ℕ) → op.now.frees ≡ Some b → has contracted.now b ≡ false → IsSome (cells store.old b) }
    requires absent { (b : ℕ) → op.now.frees ≡ Some b → has contracted.now b ≡ true → cells store.old b ≡ None }
    ensures bases { (b : ℕ) → cells store.new b ≡ cond (has (freed op.now) b) None (cells store.old b) }
    ensures loads { store.new.loads ≡ store.old.loads }
    ensures stores { store.new.stores ≡ store.old.stores }
    ensures made { store.new.made ≡ store.old.made }
{
    let Some(base) = op.frees else {
        return;
    };
    if has(contracted, base) {
        return;
    }
    store.drop_base(base);
}

/// Drops the bases that a block frees; those that it creates too have no buffer.
pub(crate) fn drop_freed(prepared: &Prepared, store: &mut Store)
    requires there { FreedAreThere prepared.now.ops (cells store.old) }
    requires absent { ContractedAreAbsent prepared.now.ops (cells store.old) }
    ensures bases { (b : ℕ) → cells store.new b ≡ cond (freed_by prepared.now.ops b) None (cells store.old b) }
    ensures loads { store.new.loads ≡ store.old.loads }
    ensures stores { store.new.stores ≡ store.old.stores }
    ensures made { store.new.made ≡ store.old.made }
{
    let ops = prepared.ops();
    let contracted = prepared.contracted();
    for op in ops {
        drop_base(op, contracted, store);
    }
}
