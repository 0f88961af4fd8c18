//! Binary operations, and arrays of one number.

ghost use Rattle.std.specs.Prelude.{◌≡◌};
ghost use Rattle.arr_elab.specs.declared.value.Prepared.TheVariants.{Open};
ghost use Rattle.arr_elab.specs.declared.value.Value.TheVariants as value;
ghost use Rattle.arr_elab.specs.Contract.{Reads};
ghost use Rattle.arr_elab.specs.State.{State};
ghost use Rattle.arr_elab.specs.Expressions as spec;

use crate::codes::result_type;
use crate::fault::ElabFault;
use crate::operation::{operation, pending, ruled};
use crate::shape::ArrayShape;
use crate::value::{Array, Prepared, Value};
use arr_num::{Code, Elem};
use arr_ops::Operand;
use arr_shape::spread;
use arr_tree::{Kind, Place};

/// An operation of two operands of one type.
fn paired(at: Place, code: Code, elem: Elem, shape: ArrayShape, x: Operand, y: Operand) -> Prepared
    ensures { result ≡ Open (record { at = at; shape = shape; op = spec.of_two code elem x y }) }
{
    let to = result_type(code, elem);
    pending(at, shape, operation(code, to, elem, Some(x), Some(y), None))
}

/// Of a literal and an array.
fn literal_first(
    at: Place,
    code: Code,
    left: Place,
    x: i128,
    b: Array,
) -> Result<Prepared, ElabFault>
    ensures { (s : State) → Reads (spec.joined at code (value.Literal left x) (value.Array b) s) result s }
{
    if !b.elem.holds(x) {
        return Err(ElabFault::at(left, Kind::LiteralRange));
    }
    let shape = ArrayShape::of(&b.view);
    Ok(paired(
        at,
        code,
        b.elem,
        shape,
        Operand::Number(x),
        Operand::Array(b.view),
    ))
}

/// Of an array and a literal.
fn literal_last(
    at: Place,
    code: Code,
    a: Array,
    right: Place,
    y: i128,
) -> Result<Prepared, ElabFault>
    ensures { (s : State) → Reads (spec.joined at code (value.Array a) (value.Literal right y) s) result s }
{
    if !a.elem.holds(y) {
        return Err(ElabFault::at(right, Kind::LiteralRange));
    }
    let shape = ArrayShape::of(&a.view);
    Ok(paired(
        at,
        code,
        a.elem,
        shape,
        Operand::Array(a.view),
        Operand::Number(y),
    ))
}

/// Of two arrays, each spread to the shape of both.
fn arrays(at: Place, code: Code, a: Array, b: Array) -> Result<Prepared, ElabFault>
    ensures { (s : State) → Reads (spec.joined at code (value.Array a) (value.Array b) s) result s }
{
    if a.elem != b.elem {
        return Err(ElabFault::at(at, Kind::TypeMismatch));
    }
    let shape = match ArrayShape::of_both(&a.view, &b.view) {
        Ok(shape) => shape,
        Err(fault) => return Err(ruled(at, fault)),
    };
    let x = match spread(&a.view, shape.lengths()) {
        Ok(x) => x,
        Err(fault) => return Err(ruled(at, fault)),
    };
    let y = match spread(&b.view, shape.lengths()) {
        Ok(y) => y,
        Err(fault) => return Err(ruled(at, fault)),
    };
    Ok(paired(
        at,
        code,
        a.elem,
        shape,
        Operand::Array(x),
        Operand::Array(y),
    ))
}

/// Of two values.
pub(crate) fn joined(at: Place, code: Code, x: Value, y: Value) -> Result<Prepared, ElabFault>
    ensures { (s : State) → Reads (spec.joined at code x y s) result s }
{
    match x {
        Value::Literal {
            at: left,
            number: x,
        } => match y {
            Value::Literal { .. } => Err(ElabFault::at(at, Kind::TypeMismatch)),
            Value::Array(b) => literal_first(at, code, left, x, b),
        },
        Value::Array(a) => match y {
            Value::Literal {
                at: right,
                number: y,
            } => literal_last(at, code, a, right, y),
            Value::Array(b) => arrays(at, code, a, b),
        },
    }
}

/// An array of one number.
pub(crate) fn filled(
    at: Place,
    shape: ArrayShape,
    elem: Elem,
    value: Value,
) -> Result<Prepared, ElabFault>
    ensures { (s : State) → Reads (spec.filled at shape elem value s) result s }
{
    match value {
        Value::Array(_) => Err(ElabFault::at(at, Kind::TypeMismatch)),
        Value::Literal {
            at: literal_at,
            number,
        } => {
            if !elem.holds(number) {
                return Err(ElabFault::at(literal_at, Kind::LiteralRange));
            }
            let number = Some(Operand::Number(number));
            Ok(pending(
                at,
                shape,
                operation(Code::Identity, elem, elem, number, None, None),
            ))
        }
    }
}
