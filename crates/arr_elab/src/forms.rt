//! Expressions, by their outermost form. Arguments are evaluated from left to right, then the form itself.

ghost use Rattle.std.specs.Prelude.{◌≡◌, ◌<◌, map, length, IfOk};
ghost use Rattle.arr_elab.specs.Contract.{Reads};
ghost use Rattle.arr_elab.specs.Parts.{valued};
ghost use Rattle.arr_elab.specs.State.{State};
ghost use Rattle.arr_elab.specs.Expressions as spec;
ghost use Rattle.arr_tree.specs.Trees.{signed};
ghost use Rattle.arr_elab.specs.declared.value.Prepared.TheVariants.{Ready};
ghost use Rattle.arr_elab.specs.declared.value.Value.TheVariants as literal;
ghost use Rattle.arr_elab.specs.Outcome.{prepared};

use crate::codes::{binary_code, elem_of, fold_code, literal_number, unary_code};
use crate::fault::ElabFault;
use crate::joined::{filled, joined};
use crate::operation::{exponent_of, operation, pending, ruled, seen, settled, taken};
use crate::reader::Reader;
use crate::shape::ArrayShape;
use crate::value::{Array, Prepared, Value};
use arr_num::Code;
use arr_overlap::NoMemory;
use arr_shape::{Slice, checked_axis, reshape, slice, spread, strided, transpose};
use arr_tree::{Code16, Cut, Expr, ExprForm, Kind, Lengths, Place, Steps, Type4};
use arr_view::{MOST_ELEMENTS, View};
use std::alloc::Global;

/// The array of a value where no literal may stand.
pub(crate) fn array_of(value: Value) -> Result<Array, ElabFault>
    ensures { (s : State) → Reads (spec.array_of value s) result s }
{
    match value {
        Value::Literal { at, .. } => Err(ElabFault::at(at, Kind::TypeMismatch)),
        Value::Array(array) => Ok(array),
    }
}

/// The array of an expression; `TypeMismatch` at a literal.
#[cycle(expression)]
pub(crate) fn array(alloc: Global, reader: &mut Reader, of: &Expr) -> Result<Array, ElabFault>
    ensures { Reads (spec.array (prepared of.now) reader.old) result reader.new }
{
    let prepared = prepared(alloc, reader, of)?;
    let value = settled(reader, prepared)?;
    array_of(value)
}

/// The value of an expression.
#[cycle(expression)]
pub(crate) fn value(alloc: Global, reader: &mut Reader, of: &Expr) -> Result<Value, ElabFault>
    ensures { Reads (valued (prepared of.now) reader.old) result reader.new }
{
    let prepared = prepared(alloc, reader, of)?;
    settled(reader, prepared)
}

#[cycle(expression)]
fn unary(
    alloc: Global,
    reader: &mut Reader,
    at: Place,
    sign: Code16,
    of: &Expr,
) -> Result<Prepared, ElabFault>
    ensures { Reads (spec.unary at sign (prepared of.now) reader.old) result reader.new }
{
    let x = array(alloc, reader, of)?;
    let shape = ArrayShape::of(&x.view);
    let op = operation(unary_code(sign), x.elem, x.elem, taken(x.view), None, None);
    Ok(pending(at, shape, op))
}

#[cycle(expression)]
fn cast(
    alloc: Global,
    reader: &mut Reader,
    at: Place,
    to: Type4,
    of: &Expr,
) -> Result<Prepared, ElabFault>
    ensures { Reads (spec.cast at to (prepared of.now) reader.old) result reader.new }
{
    let x = array(alloc, reader, of)?;
    let shape = ArrayShape::of(&x.view);
    let op = operation(
        Code::Identity,
        elem_of(to),
        x.elem,
        taken(x.view),
        None,
        None,
    );
    Ok(pending(at, shape, op))
}

#[cycle(expression)]
fn power(
    alloc: Global,
    reader: &mut Reader,
    at: Place,
    of: &Expr,
    exponent: u64,
) -> Result<Prepared, ElabFault>
    ensures { Reads (spec.power at (prepared of.now) exponent reader.old) result reader.new }
{
    let x = array(alloc, reader, of)?;
    let shape = ArrayShape::of(&x.view);
    let op = operation(
        Code::Power,
        x.elem,
        x.elem,
        taken(x.view),
        exponent_of(exponent),
        None,
    );
    Ok(pending(at, shape, op))
}

/// The shape of a reduction or a scan along an axis.
fn fold_shape(code: Code, view: &View, axis: u8) -> ArrayShape
    requires { axis < length view.now.lengths }
    ensures { result ≡ spec.fold_shape code view.now.lengths axis }
{
    if code.is_reduction() {
        ArrayShape::without_axis(view, axis)
    } else {
        ArrayShape::of(view)
    }
}

#[cycle(expression)]
fn fold(
    alloc: Global,
    reader: &mut Reader,
    at: Place,
    sign: Code16,
    of: &Expr,
    axis: u64,
    axis_at: Place,
) -> Result<Prepared, ElabFault>
    ensures { Reads (spec.fold at sign (prepared of.now) axis axis_at reader.old) result reader.new }
{
    let x = array(alloc, reader, of)?;
    let along = match checked_axis(x.view.shape(), axis) {
        Ok(along) => along,
        Err(fault) => return Err(ruled(axis_at, fault)),
    };
    let code = fold_code(sign);
    let shape = fold_shape(code, &x.view, along);
    let op = operation(code, x.elem, x.elem, taken(x.view), None, Some(along));
    Ok(pending(at, shape, op))
}

fn range(at: Place, count: u64, count_at: Place, to: Type4) -> Result<Prepared, ElabFault>
    ensures { (s : State) → Reads (spec.range at count count_at to s) result s }
{
    if count == 0 {
        return Err(ElabFault::at(count_at, Kind::EmptyArray));
    }
    if count > u64::from(MOST_ELEMENTS) {
        return Err(ElabFault::at(count_at, Kind::TooManyElements));
    }
    let shape = ArrayShape::line(count as u32);
    let elem = elem_of(to);
    Ok(pending(
        at,
        shape,
        operation(Code::Range, elem, elem, None, None, None),
    ))
}

#[cycle(expression)]
fn full(
    alloc: Global,
    reader: &mut Reader,
    at: Place,
    shape: &Lengths,
    number: &Expr,
    to: Type4,
) -> Result<Prepared, ElabFault>
    ensures { Reads (spec.full at shape.now (prepared number.now) to reader.old) result reader.new }
{
    let lengths = reader.shape(shape)?;
    let number = value(alloc, reader, number)?;
    filled(at, lengths, elem_of(to), number)
}

/// What a slice takes; an absent step is 1.
fn bounds(cut: &Cut) -> Slice
    ensures { result ≡ spec.bounds cut.now }
{
    Slice {
        start: cut.start,
        stop: cut.stop,
        step: cut.step.unwrap_or(1),
    }
}

fn all_bounds(alloc: Global, cuts: &[Cut]) -> Result<Vec<Slice>, NoMemory>
    ensures { IfOk result (λ slices. slices.items ≡ map spec.bounds cuts.now) }
{
    cuts.iter().map(|cut| bounds(cut)).collect(alloc)
}

#[cycle(expression)]
fn index(
    alloc: Global,
    reader: &mut Reader,
    at: Place,
    of: &Expr,
    cuts: &[Cut],
) -> Result<Prepared, ElabFault>
    ensures { Reads (spec.index at (prepared of.now) cuts.now reader.old) result reader.new }
{
    let x = array(alloc, reader, of)?;
    let slices = all_bounds(alloc, cuts)?;
    match slice(&x.view, slices.as_slice()) {
        Ok(view) => Ok(seen(x.elem, view)),
        Err(fault) => Err(ruled(at, fault)),
    }
}

#[cycle(expression)]
fn broadcasted(
    alloc: Global,
    reader: &mut Reader,
    at: Place,
    of: &Expr,
    shape: &Lengths,
) -> Result<Prepared, ElabFault>
    ensures { Reads (spec.broadcasted at (prepared of.now) shape.now reader.old) result reader.new }
{
    let x = array(alloc, reader, of)?;
    let lengths = reader.shape(shape)?;
    match spread(&x.view, lengths.lengths()) {
        Ok(view) => Ok(seen(x.elem, view)),
        Err(fault) => Err(ruled(at, fault)),
    }
}

#[cycle(expression)]
fn transposed(alloc: Global, reader: &mut Reader, of: &Expr) -> Result<Prepared, ElabFault>
    ensures { Reads (spec.transposed (prepared of.now) reader.old) result reader.new }
{
    let x = array(alloc, reader, of)?;
    Ok(seen(x.elem, transpose(&x.view)))
}

#[cycle(expression)]
fn reshaped(
    alloc: Global,
    reader: &mut Reader,
    at: Place,
    of: &Expr,
    shape: &Lengths,
) -> Result<Prepared, ElabFault>
    ensures { Reads (spec.reshaped at (prepared of.now) shape.now reader.old) result reader.new }
{
    let x = array(alloc, reader, of)?;
    let lengths = reader.shape(shape)?;
    match reshape(&x.view, lengths.lengths()) {
        Ok(view) => Ok(seen(x.elem, view)),
        Err(fault) => Err(ruled(at, fault)),
    }
}

#[cycle(expression)]
fn strided_anew(
    alloc: Global,
    reader: &mut Reader,
    at: Place,
    of: &Expr,
    start: u64,
    shape: &Lengths,
    strides: &Steps,
) -> Result<Prepared, ElabFault>
    ensures { Reads (spec.strided_anew at (prepared of.now) start shape.now strides.now reader.old) result reader.new }
{
    let x = array(alloc, reader, of)?;
    let lengths = reader.shape(shape)?;
    let lengths = lengths.lengths();
    if strides.list.len() != lengths.len() {
        return Err(ElabFault::at(strides.at, Kind::RankRange));
    }
    let base = x.view.base();
    let length = reader.length(base);
    match strided(base, length, start, lengths, strides.list.as_slice()) {
        Ok(view) => Ok(seen(x.elem, view)),
        Err(fault) => Err(ruled(at, fault)),
    }
}

fn literal(at: Place, negative: bool, size: u64) -> Prepared
    ensures { result ≡ Ready (literal.Literal at (signed negative size)) }
{
    Prepared::Ready(Value::Literal {
        at,
        number: literal_number(negative, size),
    })
}

/// An expression, before its outermost operation is recorded.
#[cycle(expression)]
pub(crate) fn prepared(alloc: Global, reader: &mut Reader, e: &Expr) -> Result<Prepared, ElabFault>
    ensures { Reads (prepared e.now reader.old) result reader.new }
{
    match &e.form {
        ExprForm::Literal { negative, size } => Ok(literal(e.at, *negative, *size)),
        ExprForm::Name(word) => {
            let array = reader.lookup(word)?;
            Ok(seen(array.elem, array.view))
        }
        ExprForm::Unary { code, of } => unary(alloc, reader, e.at, *code, of.get()),
        ExprForm::Binary { code, left, right } => {
            let x = value(alloc, reader, left.get())?;
            let y = value(alloc, reader, right.get())?;
            joined(e.at, binary_code(*code), x, y)
        }
        ExprForm::Power { of, exponent } => power(alloc, reader, e.at, of.get(), *exponent),
        ExprForm::Fold {
            code,
            of,
            axis,
            axis_at,
        } => fold(alloc, reader, e.at, *code, of.get(), *axis, *axis_at),
        ExprForm::Cast { to, of } => cast(alloc, reader, e.at, *to, of.get()),
        ExprForm::Range {
            count,
            count_at,
            to,
        } => range(e.at, *count, *count_at, *to),
        ExprForm::Full { shape, literal, to } => full(
            alloc,
            reader,
            e.at,
            shape,
            literal.get(),
            *to,
        ),
        ExprForm::Index { of, slices } => index(alloc, reader, e.at, of.get(), slices.as_slice()),
        ExprForm::Broadcast { of, shape } => broadcasted(alloc, reader, e.at, of.get(), shape),
        ExprForm::Transpose { of } => transposed(alloc, reader, of.get()),
        ExprForm::Reshape { of, shape } => reshaped(alloc, reader, e.at, of.get(), shape),
        ExprForm::Strided {
            of,
            start,
            shape,
            strides,
        } => strided_anew(alloc, reader, e.at, of.get(), *start, shape, strides),
    }
}
