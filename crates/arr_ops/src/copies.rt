//! Copies of what stands in a list: its operations, and their views.
ghost use Rattle.std.specs.Prelude.{◌≡◌, ◌++◌, IfOk};
ghost use Rattle.std.specs.List.{flat_map};
ghost use Rattle.std.specs.Option.{option_map, option_to_list};
ghost use Rattle.arr_ops.specs.Ops.{views};

use crate::Op;
use arr_view::View;
use std::alloc::{AllocError as NoMemory, Global};

/// Equal operations, in the same order (docs/MAP.md, "Copies"). Want of memory is its one refusal.
pub fn copied_ops(alloc: Global, ops: &[Op]) -> Result<Vec<Op>, NoMemory>
    ensures { IfOk result (λ copy. copy.items ≡ ops.now) }
{
    let mut copy = Vec::with_capacity(alloc, ops.len())?;
    for op in ops {
        copy.push(op.copied())?;
    }
    Ok(copy)
}

fn push_view(list: &mut Vec<View>, view: Option<&View>) -> Result<(), NoMemory>
    ensures { IfOk result (λ done. list.new.items
        ≡ list.old.items ++ option_to_list (option_map (λ v. v.now) view.entry)) }
{
    if let Some(view) = view {
        list.push(view.copied())?;
    }
    Ok(())
}

fn push_views(list: &mut Vec<View>, op: &Op) -> Result<(), NoMemory>
    ensures { IfOk result (λ done. list.new.items ≡ list.old.items ++ views op.now) }
{
    push_view(list, op.out_view())?;
    push_view(list, op.first_view())?;
    push_view(list, op.second_view())
}

/// The views of the operations, one operation after another: its output, then its inputs (docs/LANGUAGE.md, "Operations"). Want of memory
/// is its one refusal.
pub fn all_views(alloc: Global, ops: &[Op]) -> Result<Vec<View>, NoMemory>
    ensures { IfOk result (λ all. all.items ≡ flat_map views ops.now) }
{
    let mut all = Vec::new(alloc);
    for op in ops {
        push_views(&mut all, op)?;
    }
    Ok(all)
}
