//! What an operation becomes, and the rules that look at one operation.
ghost use Rattle.std.specs.Prelude.{◌≡◌, Some, None, true, false, pos, ◌-ℤ◌};
ghost use Rattle.arr_num.specs.declared.code.Code.TheVariants.{Subtract};
ghost use Rattle.std.specs.List.{list_any};
ghost use Rattle.arr_num.specs.Numbers.{value, wrap};
ghost use Rattle.arr_view.specs.Views.{identical};
ghost use Rattle.arr_ops.specs.Ops.{view_of};
ghost use Rattle.arr_ops.specs.declared.op.Operand.TheVariants.{Array, Number};
ghost use Rattle.arr_ops.specs.Formed.{well_formed};
ghost use Rattle.arr_rewrite.specs.Rules.{changed_op, code_op, constant_folded, constant_op, copies_itself, copy_op, fixed_known, fixed_to, is_identity, is_scalar, known_value, neutral_dropped, power_to, power_unrolled, subtraction_turned, with_first, with_second};

use crate::tables::{
    fixed_left, fixed_right, is_identity, is_scalar, neutral_left, neutral_right, same,
};
use arr_num::{Code, Elem, binary, unary};
use arr_ops::{Op, Operand, copied_operand, copied_view};
use arr_overlap::identical;
use arr_view::View;

/// The operation with another code, other operands and another type of inputs.
fn changed_op(
    op: &Op,
    code: Code,
    from: Elem,
    first: Option<Operand>,
    second: Option<Operand>,
) -> Op
    ensures { result ≡ changed_op op.now code from first second }
{
    Op {
        code,
        to: op.to,
        from,
        out: copied_view(&op.out),
        first,
        second,
        axis: op.axis,
        slot: op.slot,
        frees: op.frees,
        makes: op.makes,
    }
}

/// IDENTITY of a constant: both types are that of the output.
pub(crate) fn constant_op(op: &Op, number: i128) -> Op
    ensures { result ≡ constant_op op.now number }
{
    changed_op(
        op,
        Code::Identity,
        op.to,
        Some(Operand::Number(number)),
        None,
    )
}

/// IDENTITY of a view.
fn copy_op(op: &Op, view: &View) -> Op
    ensures { result ≡ copy_op op.now view.now }
{
    changed_op(
        op,
        Code::Identity,
        op.from,
        Some(Operand::Array(view.copied())),
        None,
    )
}

/// A binary code of a view and an operand.
pub(crate) fn code_op(op: &Op, code: Code, view: &View, second: Operand) -> Op
    ensures { result ≡ code_op op.now code view.now second }
{
    changed_op(
        op,
        code,
        op.from,
        Some(Operand::Array(view.copied())),
        Some(second),
    )
}

/// The operation with another first operand.
pub(crate) fn with_first(op: &Op, operand: Operand) -> Op
    ensures { result ≡ with_first op.now operand }
{
    changed_op(
        op,
        op.code,
        op.from,
        Some(operand),
        copied_operand(&op.second),
    )
}

/// The operation with another second operand.
pub(crate) fn with_second(op: &Op, operand: Operand) -> Op
    ensures { result ≡ with_second op.now operand }
{
    changed_op(
        op,
        op.code,
        op.from,
        copied_operand(&op.first),
        Some(operand),
    )
}

/// A binary or unary code, other than IDENTITY, of constants alone: IDENTITY of its value.
pub(crate) fn constant_folded(op: &Op) -> Option<Op>
    requires { well_formed op.now ≡ true }
    ensures { result ≡ constant_folded op.now }
{
    if !is_scalar(op.code) || is_identity(op.code) {
        return None;
    }
    known_value(op)
}

fn known_value(op: &Op) -> Option<Op>
    requires formed { well_formed op.now ≡ true }
    requires scalar { is_scalar op.now.code ≡ true }
    requires other { is_identity op.now.code ≡ false }
    ensures { result ≡ known_value op.now op.now.first op.now.second }
{
    match (&op.first, &op.second) {
        (Some(Operand::Number(left)), Some(Operand::Number(right))) => {
            Some(constant_op(op, value_of_two(op, *left, *right)))
        }
        (Some(Operand::Number(number)), None) => Some(constant_op(op, value_of_one(op, *number))),
        _ => None,
    }
}

/// The value of the code on its two constants. A comparison is made in the type of its inputs.
fn value_of_two(op: &Op, left: i128, right: i128) -> i128
    requires formed { well_formed op.now ≡ true }
    requires scalar { is_scalar op.now.code ≡ true }
    requires left { op.now.first ≡ Some (Number left) }
    requires right { op.now.second ≡ Some (Number right) }
    ensures { result ≡ value op.now.code op.now.to left right }
{
    binary(op.code, op.from, left, right)
}

/// The value of the code on its one constant.
fn value_of_one(op: &Op, number: i128) -> i128
    requires formed { well_formed op.now ≡ true }
    requires scalar { is_scalar op.now.code ≡ true }
    requires other { is_identity op.now.code ≡ false }
    requires left { op.now.first ≡ Some (Number number) }
    requires right { op.now.second ≡ None }
    ensures { result ≡ value op.now.code op.now.to number (pos 0) }
{
    unary(op.code, op.to, number)
}

/// A constant that changes nothing: IDENTITY of the view.
pub(crate) fn neutral_dropped(op: &Op) -> Option<Op>
    ensures { result ≡ neutral_dropped op.now }
{
    match (&op.first, &op.second) {
        (Some(Operand::Array(view)), Some(Operand::Number(constant))) => {
            if neutral_right(op.code, op.to, *constant) {
                Some(copy_op(op, view))
            } else {
                None
            }
        }
        (Some(Operand::Number(constant)), Some(Operand::Array(view))) => {
            if neutral_left(op.code, op.to, *constant) {
                Some(copy_op(op, view))
            } else {
                None
            }
        }
        _ => None,
    }
}

fn fixed_to(op: &Op, value: Option<i128>) -> Option<Op>
    ensures { result ≡ fixed_to op.now value }
{
    match value {
        Some(value) => Some(constant_op(op, value)),
        None => None,
    }
}

/// A constant that alone decides: IDENTITY of the value.
pub(crate) fn fixed_known(op: &Op) -> Option<Op>
    ensures { result ≡ fixed_known op.now }
{
    match (&op.first, &op.second) {
        (Some(Operand::Array(_)), Some(Operand::Number(constant))) => {
            fixed_to(op, fixed_right(op.code, op.to, *constant))
        }
        (Some(Operand::Number(constant)), Some(Operand::Array(_))) => {
            fixed_to(op, fixed_left(op.code, op.to, *constant))
        }
        _ => None,
    }
}

/// POWER by 0, by 1 and by 2: IDENTITY of 1, IDENTITY of the view, and its MULTIPLY by itself.
pub(crate) fn power_unrolled(op: &Op) -> Option<Op>
    ensures { result ≡ power_unrolled op.now }
{
    match (op.code, &op.first, &op.second) {
        (Code::Power, Some(Operand::Array(view)), Some(Operand::Number(exponent))) => {
            power_to(op, view, *exponent)
        }
        _ => None,
    }
}

fn power_to(op: &Op, view: &View, exponent: i128) -> Option<Op>
    ensures { result ≡ power_to op.now view.now exponent }
{
    if same(exponent, 0) {
        return Some(constant_op(op, 1));
    }
    if same(exponent, 1) {
        return Some(copy_op(op, view));
    }
    if same(exponent, 2) {
        return Some(code_op(op, Code::Multiply, view, Operand::Array(view.copied())));
    }
    None
}

/// SUBTRACT of a constant: ADD of its negative, wrapped.
pub(crate) fn subtraction_turned(op: &Op) -> Option<Op>
    requires { well_formed op.now ≡ true }
    ensures { result ≡ subtraction_turned op.now }
{
    match (op.code, &op.first, &op.second) {
        (Code::Subtract, Some(Operand::Array(view)), Some(Operand::Number(constant))) => {
            let negative = negated(op, *constant);
            Some(code_op(op, Code::Add, view, Operand::Number(negative)))
        }
        _ => None,
    }
}

/// The negative of the constant that is subtracted, wrapped.
fn negated(op: &Op, constant: i128) -> i128
    requires formed { well_formed op.now ≡ true }
    requires code { op.now.code ≡ Subtract }
    requires constant { op.now.second ≡ Some (Number constant) }
    ensures { result ≡ wrap op.now.to (pos 0 -ℤ constant) }
{
    op.to.wrap(-constant)
}

/// Whether it is IDENTITY of a view into that view.
pub(crate) fn copies_itself(op: &Op) -> bool
    ensures { result ≡ copies_itself op.now }
{
    match (op.code, &op.out) {
        (Code::Identity, Some(out)) => is_operand(out, &op.first) || is_operand(out, &op.second),
        _ => false,
    }
}

/// Whether the operand is that view.
fn is_operand(view: &View, operand: &Option<Operand>) -> bool
    ensures { result ≡ list_any (identical view.now) (view_of operand.now) }
{
    match operand {
        Some(Operand::Array(read)) => identical(view, read),
        _ => false,
    }
}
