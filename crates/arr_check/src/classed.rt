//! The classes of the views of each operation.
ghost use Rattle.std.specs.Prelude.{◌≡◌, IfOk, map};
ghost use Rattle.arr_ops.specs.Ops.{array_of};
ghost use Rattle.arr_check.specs.Classed.{class_of, classes_of};

use crate::NoMemory;
use crate::classes::Classes;
use arr_ops::{Op, Operand};
use arr_view::View;
use std::alloc::Global;

/// The classes of an operation's output and of its two operands, as far as they are views.
#[derive(Drop)]
pub(crate) struct Classed {
    pub(crate) out: Option<u32>,
    pub(crate) first: Option<u32>,
    pub(crate) second: Option<u32>,
}

fn class_of(classes: &Classes, view: &Option<View>) -> Option<u32>
    ensures { result ≡ class_of classes.now view.now }
{
    match view {
        Some(view) => classes.class(view),
        None => None,
    }
}

fn operand_class(classes: &Classes, operand: &Option<Operand>) -> Option<u32>
    ensures { result ≡ class_of classes.now (array_of operand.now) }
{
    match operand {
        Some(Operand::Array(view)) => classes.class(view),
        _ => None,
    }
}

fn classes_of(classes: &Classes, op: &Op) -> Classed
    ensures { result ≡ classes_of classes.now op.now }
{
    Classed {
        out: class_of(classes, &op.out),
        first: operand_class(classes, &op.first),
        second: operand_class(classes, &op.second),
    }
}

/// The classes of each operation.
pub(crate) fn class_table(
    alloc: Global,
    classes: &Classes,
    ops: &[Op],
) -> Result<Vec<Classed>, NoMemory>
    ensures { IfOk result (λ table. table.items ≡ map (classes_of classes.now) ops.now) }
{
    let mut table = Vec::new(alloc);
    for op in ops {
        table.push(classes_of(classes, op))?;
    }
    Ok(table)
}
