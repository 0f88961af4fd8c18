//! The classes of the views of each operation.
ghost use Rattle.std.specs.Prelude.{◌≡◌, IfOk, map};
ghost use Rattle.std.specs.Option.{option_map};
ghost use Rattle.arr_deps.specs.Classed.{class_of, classes_of};

use crate::NoMemory;
use arr_ops::Op;
use arr_overlap::Classes;
use arr_view::View;
use std::alloc::Global;

/// The classes of an operation's output and of its two operands, as far as they are views.
#[derive(Drop)]
pub(crate) struct Classed {
    pub(crate) out: Option<u32>,
    pub(crate) first: Option<u32>,
    pub(crate) second: Option<u32>,
}

/// The class of a view, if there is one.
fn class_of(classes: &Classes, view: Option<&View>) -> Option<u32>
    ensures { result ≡ class_of classes.now (option_map (λ v. v.now) view.entry) }
{
    match view {
        Some(view) => classes.class(view),
        None => None,
    }
}

/// The classes of an operation's views.
fn classes_of(classes: &Classes, op: &Op) -> Classed
    ensures { result ≡ classes_of classes.now op.now }
{
    Classed {
        out: class_of(classes, op.out_view()),
        first: class_of(classes, op.first_view()),
        second: class_of(classes, op.second_view()),
    }
}

/// The classes of each operation.
pub(crate) fn class_table(
    alloc: Global,
    classes: &Classes,
    ops: &[Op],
) -> Result<Vec<Classed>, NoMemory>
    ensures { IfOk result (λ table. table.items ≡ map (classes_of classes.now) ops.now) }
{
    let mut table = Vec::new(alloc);
    for op in ops {
        table.push(classes_of(classes, op))?;
    }
    Ok(table)
}
