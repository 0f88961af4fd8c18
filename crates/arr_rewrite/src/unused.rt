//! Bases that nothing uses.
ghost use Rattle.std.specs.Prelude.{◌≡◌, ◌||◌, IfSome, true, not};
ghost use Rattle.std.specs.Option.{option_map};
ghost use Rattle.std.specs.List.{list_all, list_any};
ghost use Rattle.arr_view.specs.Views.{has};
ghost use Rattle.arr_ops.specs.Ops.{named};
ghost use Rattle.arr_rewrite.specs.NextRewrite.{frees_base, is_unused, only_freed, unfreed, unnamed_base, without_base, without_unused};

use arr_ops::Op;

fn frees_base(op: &Op, base: u32) -> bool
    ensures { result ≡ frees_base op.now base }
{
    op.frees == Some(base)
}

fn unnamed(ops: &[Op], base: u32) -> bool
    ensures { result ≡ unnamed_base ops.now base }
{
    ops.iter().all(|op| !op.names(base))
}

/// Whether some operation frees the base.
fn is_freed(ops: &[Op], base: u32) -> bool
    ensures { result ≡ list_any (λ f. frees_base f base) ops.now }
{
    ops.iter().any(|op| frees_base(op, base))
}

fn frees_or_leaves(op: &Op, base: u32) -> bool
    ensures { result ≡ (frees_base op.now base || not (has (named op.now) base)) }
{
    frees_base(op, base) || !op.names(base)
}

/// Whether those that don't free the base don't name it.
fn else_unnamed(ops: &[Op], base: u32) -> bool
    ensures { result ≡ list_all (λ f. frees_base f base || not (has (named f) base)) ops.now }
{
    ops.iter().all(|op| frees_or_leaves(op, base))
}

/// Whether some operation frees the base, and the others don't name it.
fn only_freed(ops: &[Op], base: u32) -> bool
    ensures { result ≡ only_freed ops.now base }
{
    else_unnamed(ops, base) && is_freed(ops, base)
}

/// Whether a creator's base is named by nothing but what frees it.
pub(crate) fn is_unused(front: &[Op], op: &Op, back: &[Op], base: u32) -> bool
    ensures { result ≡ is_unused front.now op.now back.now base }
{
    op.makes && only_freed(back, base) && unnamed(front, base)
}

/// Takes out what frees the base.
pub(crate) fn remove_frees(list: &mut Vec<Op>, base: u32)
    ensures { list.new.items ≡ unfreed list.old.items base }
{
    list.retain(|op| !frees_base(op, base));
}

/// The base of a creator that nothing uses.
pub(crate) fn unused_base(front: &[Op], op: &Op, back: &[Op]) -> Option<u32>
    ensures left { without_unused front.now op.now back.now
        ≡ option_map (without_base front.now back.now) result }
    ensures unnamed { IfSome result (λ b. unnamed_base front.now b ≡ true) }
{
    match &op.out {
        Some(out) => {
            let base = out.base();
            if is_unused(front, op, back, base) {
                Some(base)
            } else {
                None
            }
        }
        None => None,
    }
}
