//! One view of each class of identical views.
ghost use Rattle.std.specs.Prelude.{◌≡◌, IfOk};
ghost use Rattle.std.specs.List.{list_any};
ghost use Rattle.arr_view.specs.Views.{identical};
ghost use Rattle.arr_ops.specs.Costs.{distinct};
ghost use Rattle.arr_overlap.specs.Classes.{with_first};

use crate::NoMemory;
use arr_overlap::identical;
use arr_view::View;
use std::alloc::Global;

fn is_among(found: &[View], view: &View) -> bool
    ensures { result ≡ list_any (identical view.now) found.now }
{
    found.iter().any(|other| identical(view, other))
}

/// Takes up a view, unless one that is identical to it is there.
fn push_new(found: &mut Vec<View>, view: &View) -> Result<(), NoMemory>
    ensures { IfOk result (λ done. found.new.items ≡ with_first found.old.items view.now) }
{
    if !is_among(found.as_slice(), view) {
        found.push(view.copied())?;
    }
    Ok(())
}

/// The views up to identity, each class by the view that comes first.
pub(crate) fn distinct(alloc: Global, views: &[View]) -> Result<Vec<View>, NoMemory>
    ensures { IfOk result (λ found. found.items ≡ distinct identical views.now) }
{
    let mut found = Vec::new(alloc);
    for view in views {
        push_new(&mut found, view)?;
    }
    Ok(found)
}
