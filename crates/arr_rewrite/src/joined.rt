//! Constants that are joined to the ones before them.
ghost use Rattle.std.specs.Prelude.{◌≡◌, ◌∷◌, ◌++◌, IfOk, true};
ghost use Rattle.arr_num.specs.Numbers.{in_type, value};
ghost use Rattle.arr_ops.specs.Formed.{is_formed};
ghost use Rattle.arr_rewrite.specs.NextRewrite.{beside, constants_joined, regroups};

use crate::meetings::Meetings;
use crate::rules::code_op;
use crate::tables::{regroups, same_code};
use crate::writers::{is_output, only_writer, unspoiled};
use arr_num::binary;
use arr_ops::{Op, Operand};
use arr_view::View;
use std::alloc::AllocError as NoMemory;
use std::marker::Model;

/// A view and a constant, in either order.
#[derive(Drop)]
struct Mixed<'a> {
    view: &'a View,
    number: i128,
}

impl<'a> Model for Mixed<'a> {
    ghost use Rattle.arr_rewrite.specs.NextRewrite.{Beside};

    ghost Value = { Beside };

    ghost view = { λ m. record { view = m.view.now; number = m.number } };
}

fn beside<'a>(first: &'a Option<Operand>, second: &'a Option<Operand>) -> Option<Mixed<'a>>
    ensures { result ≡ beside first.now second.now }
{
    match (first, second) {
        (Some(Operand::Array(view)), Some(Operand::Number(number))) => Some(Mixed {
            view,
            number: *number,
        }),
        (Some(Operand::Number(number)), Some(Operand::Array(view))) => Some(Mixed {
            view,
            number: *number,
        }),
        _ => None,
    }
}

/// The value of the code on two constants of its type.
fn joined_number(op: &Op, left: i128, right: i128) -> i128
    requires code { regroups op.now.code ≡ true }
    requires left { in_type op.now.to left ≡ true }
    requires right { in_type op.now.to right ≡ true }
    ensures { result ≡ value op.now.code op.now.to left right }
{
    binary(op.code, op.to, left, right)
}

/// A code that regroups, of a constant c and a view that is the output of its base's only writer, which stands before it and is the
/// same code of a view w and a constant d, w unwritten in between: the code of w and of its value on d and c.
pub(crate) fn constants_joined(
    meetings: &mut Meetings,
    front: &[Op],
    op: &Op,
    back: &[Op],
) -> Result<Option<Op>, NoMemory>
    requires { is_formed (front.now ++ op.now ∷ back.now) ≡ true }
    ensures { IfOk result (λ next. next ≡ constants_joined front.now op.now back.now) }
{
    if !regroups(op.code) {
        return Ok(None);
    }
    let Some(read) = beside(&op.first, &op.second) else {
        return Ok(None);
    };
    let Some(writer) = only_writer(front, op, back, read.view.base()) else {
        return Ok(None);
    };
    if !same_code(op.code, writer.op.code) {
        return Ok(None);
    }
    if !is_output(read.view, writer.op) {
        return Ok(None);
    }
    let Some(source) = beside(&writer.op.first, &writer.op.second) else {
        return Ok(None);
    };
    if !unspoiled(meetings, writer.between, source.view)? {
        return Ok(None);
    }
    let number = joined_number(op, source.number, read.number);
    Ok(Some(code_op(op, op.code, source.view, Operand::Number(number))))
}
