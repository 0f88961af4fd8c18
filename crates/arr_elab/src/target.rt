//! What a target statement writes.

ghost use Rattle.std.specs.Prelude.{◌≡◌};
ghost use Rattle.arr_view.specs.Views.{same_lists};
ghost use Rattle.arr_elab.specs.declared.value.Prepared.TheVariants.{Ready, Open};
ghost use Rattle.arr_elab.specs.declared.value.Value.TheVariants as literal;
ghost use Rattle.arr_elab.specs.Contract.{Reads};
ghost use Rattle.arr_elab.specs.Outcome as spec;
ghost use Rattle.arr_elab.specs.Parts.{directly};

use crate::fault::ElabFault;
use crate::operation::{onto, operation, ruled, taken, written};
use crate::reader::Reader;
use crate::value::{Array, Pending, Prepared, Value};
use arr_num::Code;
use arr_ops::Operand;
use arr_overlap::repeats;
use arr_shape::spread;
use arr_tree::{Kind, Place};
use arr_view::View;
use std::alloc::Global;

/// Whether two shapes are the same.
pub(crate) fn same_lists(left: &[u32], right: &[u32]) -> bool
    ensures { result ≡ same_lists left.now right.now }
{
    left == right
}

/// The target is written from a view of its shape. `OutputRepeats` where the target has an element twice.
fn copied(
    alloc: Global,
    reader: &mut Reader,
    target: Array,
    view: View,
    source: Array,
    equals: Place,
) -> Result<(), ElabFault>
    ensures { Reads (spec.copied target view source equals reader.old) result reader.new }
{
    if repeats(alloc, &target.view)? {
        return Err(ElabFault::at(equals, Kind::OutputRepeats));
    }
    let op = operation(
        Code::Identity,
        target.elem,
        source.elem,
        taken(view),
        None,
        None,
    );
    reader.act(onto(op, target.view, false))
}

/// The target is written from an array, spread to its shape.
fn assigned(
    alloc: Global,
    reader: &mut Reader,
    target: Array,
    equals: Place,
    source: Array,
) -> Result<(), ElabFault>
    ensures { Reads (spec.assigned target equals source reader.old) result reader.new }
{
    if target.elem != source.elem {
        return Err(ElabFault::at(equals, Kind::TypeMismatch));
    }
    let view = match spread(&source.view, target.view.shape()) {
        Ok(view) => view,
        Err(fault) => return Err(ruled(equals, fault)),
    };
    copied(alloc, reader, target, view, source, equals)
}

/// The target is written from a literal.
fn stored_literal(
    alloc: Global,
    reader: &mut Reader,
    target: Array,
    equals: Place,
    at: Place,
    number: i128,
) -> Result<(), ElabFault>
    ensures { Reads (spec.stored target equals (Ready (literal.Literal at number)) reader.old) result reader.new }
{
    if !target.elem.holds(number) {
        return Err(ElabFault::at(at, Kind::LiteralRange));
    }
    if repeats(alloc, &target.view)? {
        return Err(ElabFault::at(equals, Kind::OutputRepeats));
    }
    let number = Some(Operand::Number(number));
    let op = operation(Code::Identity, target.elem, target.elem, number, None, None);
    reader.act(onto(op, target.view, false))
}

/// The target is written by the operation itself, which has its shape.
fn stored_directly(
    alloc: Global,
    reader: &mut Reader,
    target: Array,
    equals: Place,
    pending: Pending,
) -> Result<(), ElabFault>
    ensures { Reads (directly target equals pending reader.old) result reader.new }
{
    if target.elem != pending.op.to {
        return Err(ElabFault::at(equals, Kind::TypeMismatch));
    }
    if repeats(alloc, &target.view)? {
        return Err(ElabFault::at(equals, Kind::OutputRepeats));
    }
    reader.act(onto(pending.op, target.view, false))
}

/// The target is written by an operation, or from what it writes.
fn stored_operation(
    alloc: Global,
    reader: &mut Reader,
    target: Array,
    equals: Place,
    pending: Pending,
) -> Result<(), ElabFault>
    ensures { Reads (spec.stored target equals (Open pending) reader.old) result reader.new }
{
    if same_lists(pending.shape.lengths(), target.view.shape()) {
        return stored_directly(alloc, reader, target, equals, pending);
    }
    let source = written(reader, pending)?;
    assigned(alloc, reader, target, equals, source)
}

/// The target is written. The outermost operation writes it directly where its shape is the target's.
pub(crate) fn stored(
    alloc: Global,
    reader: &mut Reader,
    target: Array,
    equals: Place,
    prepared: Prepared,
) -> Result<(), ElabFault>
    ensures { Reads (spec.stored target equals prepared reader.old) result reader.new }
{
    match prepared {
        Prepared::Ready(Value::Literal { at, number }) => stored_literal(
            alloc, reader, target, equals, at, number,
        ),
        Prepared::Ready(Value::Array(source)) => assigned(alloc, reader, target, equals, source),
        Prepared::Open(pending) => stored_operation(alloc, reader, target, equals, pending),
    }
}
