//! Constants and copied views that operations read in place of the views that hold them.
ghost use Rattle.std.specs.Prelude.{◌≡◌, ◌∷◌, IfOk, Some, None, cond};
ghost use Rattle.arr_rewrite.specs.Rules.{is_identity};
ghost use Rattle.arr_rewrite.specs.NextRewrite.{constant_carried, copied_from, copied_operand, copies_into, copy_carried, first_number, first_view, known_operand, second_number, second_view, source_number, source_view};

use crate::meetings::Meetings;
use crate::rules::{constant_op, with_first, with_second};
use crate::tables::{is_identity, is_scalar};
use crate::writers::{OnlyWriter, is_output, only_writer, unspoiled};
use arr_ops::{Op, Operand};
use arr_view::View;
use std::alloc::AllocError as NoMemory;

fn source_number(operand: &Option<Operand>) -> Option<i128>
    ensures { result ≡ source_number operand.now }
{
    match operand {
        Some(Operand::Number(number)) => Some(*number),
        _ => None,
    }
}

/// The constant, where it is IDENTITY of one.
fn filling(op: &Op) -> Option<i128>
    ensures { result ≡ cond (is_identity op.now.code) (source_number op.now.first) None }
{
    if !is_identity(op.code) {
        return None;
    }
    source_number(&op.first)
}

/// The constant that fills the base which the operand reads.
fn known_operand(front: &[Op], op: &Op, back: &[Op], operand: &Option<Operand>) -> Option<i128>
    ensures { result ≡ known_operand front.now (op.now ∷ back.now) operand.now }
{
    let Some(Operand::Array(view)) = operand else {
        return None;
    };
    let Some(writer) = only_writer(front, op, back, view.base()) else {
        return None;
    };
    filling(writer.op)
}

/// The operation with the constant as its first operand; IDENTITY has it wrapped into its type.
fn first_number(op: &Op, number: Option<i128>) -> Option<Op>
    ensures { result ≡ first_number op.now number }
{
    let Some(number) = number else {
        return None;
    };
    if is_identity(op.code) {
        return Some(constant_op(op, op.to.wrap(number)));
    }
    Some(with_first(op, Operand::Number(number)))
}

fn second_number(op: &Op, number: Option<i128>) -> Option<Op>
    ensures { result ≡ second_number op.now number }
{
    let Some(number) = number else {
        return None;
    };
    Some(with_second(op, Operand::Number(number)))
}

/// A binary or unary code reads a base whose only writer stands before it and is IDENTITY of a constant: it takes the constant.
pub(crate) fn constant_carried(front: &[Op], op: &Op, back: &[Op]) -> Option<Op>
    ensures { result ≡ constant_carried front.now op.now back.now }
{
    if !is_scalar(op.code) {
        return None;
    }
    if let Some(next) = first_number(op, known_operand(front, op, back, &op.first)) {
        return Some(next);
    }
    second_number(op, known_operand(front, op, back, &op.second))
}

/// The view that is copied, where it is unwritten in between.
fn source_view(
    meetings: &mut Meetings,
    between: &[Op],
    operand: &Option<Operand>,
) -> Result<Option<View>, NoMemory>
    ensures { IfOk result (λ v. v ≡ source_view between.now operand.now) }
{
    match operand {
        Some(Operand::Array(view)) => {
            if unspoiled(meetings, between, view)? {
                return Ok(Some(view.copied()));
            }
            Ok(None)
        }
        _ => Ok(None),
    }
}

/// Whether it is IDENTITY into the view, in one type.
fn copies_into(op: &Op, view: &View) -> bool
    ensures { result ≡ copies_into op.now view.now }
{
    is_identity(op.code) && op.from == op.to && is_output(view, op)
}

/// The view that the writer copies to this one.
fn copied_from(
    meetings: &mut Meetings,
    view: &View,
    writer: &OnlyWriter,
) -> Result<Option<View>, NoMemory>
    ensures { IfOk result (λ v. v ≡ copied_from view.now (Some writer.now)) }
{
    if !copies_into(writer.op, view) {
        return Ok(None);
    }
    source_view(meetings, writer.between, &writer.op.first)
}

/// The view that was copied to the view which the operand reads.
fn copied_operand(
    meetings: &mut Meetings,
    front: &[Op],
    op: &Op,
    back: &[Op],
    operand: &Option<Operand>,
) -> Result<Option<View>, NoMemory>
    ensures { IfOk result (λ v. v ≡ copied_operand front.now (op.now ∷ back.now) operand.now) }
{
    let Some(Operand::Array(view)) = operand else {
        return Ok(None);
    };
    let Some(writer) = only_writer(front, op, back, view.base()) else {
        return Ok(None);
    };
    copied_from(meetings, view, &writer)
}

fn first_view(op: &Op, view: Option<View>) -> Option<Op>
    ensures { result ≡ first_view op.now view }
{
    match view {
        Some(view) => Some(with_first(op, Operand::Array(view))),
        None => None,
    }
}

fn second_view(op: &Op, view: Option<View>) -> Option<Op>
    ensures { result ≡ second_view op.now view }
{
    match view {
        Some(view) => Some(with_second(op, Operand::Array(view))),
        None => None,
    }
}

/// An operation reads a view that is the output of its base's only writer, which stands before it and is IDENTITY of a view of the
/// same type, unwritten in between: it reads that view.
pub(crate) fn copy_carried(
    meetings: &mut Meetings,
    front: &[Op],
    op: &Op,
    back: &[Op],
) -> Result<Option<Op>, NoMemory>
    ensures { IfOk result (λ next. next ≡ copy_carried front.now op.now back.now) }
{
    let first = copied_operand(meetings, front, op, back, &op.first)?;
    if let Some(next) = first_view(op, first) {
        return Ok(Some(next));
    }
    let second = copied_operand(meetings, front, op, back, &op.second)?;
    Ok(second_view(op, second))
}
