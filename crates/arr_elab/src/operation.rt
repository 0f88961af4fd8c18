//! Operations, from their parts to their place among the steps.

ghost use Rattle.std.specs.Prelude.{◌≡◌, pos, Some, None, Ok};
ghost use Rattle.arr_num.specs.Numbers.{wrap};
ghost use Rattle.arr_num.specs.declared.elem.Elem.TheVariants as elem;
ghost use Rattle.arr_ops.specs.declared.op.Operand.TheVariants as operand;
ghost use Rattle.arr_elab.specs.declared.fault.ElabFault.TheVariants.{Refused};
ghost use Rattle.arr_elab.specs.declared.value.Prepared.TheVariants.{Ready, Open};
ghost use Rattle.arr_elab.specs.declared.value.Value.TheVariants as value;
ghost use Rattle.arr_elab.specs.Contract.{Reads};
ghost use Rattle.arr_elab.specs.State as state;
ghost use Rattle.arr_elab.specs.Expressions as spec;

use crate::fault::ElabFault;
use crate::reader::Reader;
use crate::shape::ArrayShape;
use crate::value::{Array, Pending, Prepared, Value};
use arr_num::{Code, Elem};
use arr_ops::{Op, Operand};
use arr_shape::ShapeFault;
use arr_tree::{Kind, Place};
use arr_view::View;

/// An operation without an output.
pub(crate) fn operation(
    code: Code,
    to: Elem,
    from: Elem,
    first: Option<Operand>,
    second: Option<Operand>,
    axis: Option<u8>,
) -> Op
    ensures { result ≡ spec.operation code to from first second axis }
{
    Op {
        code,
        to,
        from,
        out: None,
        first,
        second,
        axis,
        slot: None,
        frees: None,
        makes: false,
    }
}

/// The operation with an output.
pub(crate) fn onto(op: Op, out: View, makes: bool) -> Op
    ensures { result ≡ spec.onto op out makes }
{
    Op {
        out: Some(out),
        makes,
        ..op
    }
}

/// An operand that is a view.
pub(crate) fn taken(view: View) -> Option<Operand>
    ensures { result ≡ spec.taken view }
{
    Some(Operand::Array(view))
}

/// An exponent, which is a number of type u64.
#[tactic(auto, using(arr_num::proofs::Wrapping::wrap_same))]
pub(crate) fn exponent_of(exponent: u64) -> Option<Operand>
    ensures { result ≡ Some (operand.Number (wrap elem.U64 (pos exponent))) }
{
    Some(Operand::Number(i128::from(exponent)))
}

/// An operation that is not recorded yet.
pub(crate) fn pending(at: Place, shape: ArrayShape, op: Op) -> Prepared
    ensures { result ≡ Open (record { at = at; shape = shape; op = op }) }
{
    Prepared::Open(Pending { at, shape, op })
}

/// An array as the value of an expression.
pub(crate) fn seen(elem: Elem, view: View) -> Prepared
    ensures { result ≡ Ready (value.Array (record { view = view; elem = elem })) }
{
    Prepared::Ready(Value::Array(Array { view, elem }))
}

/// An operation writes a base of its own.
#[tactic(auto, unfolding(crate::specs::Expressions::written))]
pub(crate) fn written(reader: &mut Reader, pending: Pending) -> Result<Array, ElabFault>
    ensures { Reads (spec.written pending reader.old) result reader.new }
{
    let view = reader.fresh(pending.at, &pending.shape)?;
    let elem = pending.op.to;
    reader.act(onto(pending.op, view.copied(), true))?;
    Ok(Array { view, elem })
}

/// What an expression stands for, once its operation writes a base of its own.
pub(crate) fn settled(reader: &mut Reader, prepared: Prepared) -> Result<Value, ElabFault>
    ensures { Reads (spec.settled prepared reader.old) result reader.new }
{
    match prepared {
        Prepared::Ready(value) => Ok(value),
        Prepared::Open(pending) => Ok(Value::Array(written(reader, pending)?)),
    }
}

fn kind_of(fault: ShapeFault) -> Kind
    ensures { result ≡ state.kind_of fault }
{
    match fault {
        ShapeFault::ShapeMismatch => Kind::ShapeMismatch,
        ShapeFault::SliceRange => Kind::SliceRange,
        ShapeFault::ZeroStep => Kind::ZeroStep,
        ShapeFault::EmptyArray => Kind::EmptyArray,
        ShapeFault::AxisRange => Kind::AxisRange,
        ShapeFault::RankRange => Kind::RankRange,
        ShapeFault::NotContiguous => Kind::NotContiguous,
        ShapeFault::CountMismatch => Kind::CountMismatch,
        ShapeFault::OutsideBase => Kind::OutsideBase,
        ShapeFault::TooManyElements => Kind::TooManyElements,
    }
}

/// What a rule of shapes refuses, at a place.
pub(crate) fn ruled(at: Place, fault: ShapeFault) -> ElabFault
    ensures { result ≡ Refused (record { at = at; kind = state.kind_of fault }) }
{
    ElabFault::at(at, kind_of(fault))
}
