//! The line of an operation.
ghost use Rattle.std.specs.Prelude.{◌≡◌, ◌<◌, cond, codes, length};
ghost use Rattle.arr_io.specs.Buffered.{Writes};
ghost use Rattle.arr_listing.specs.Calls.{PutsText};
ghost use Rattle.arr_listing.specs.Texts.{code_name, dimension_text, dimensions_text, input_text, op_text, operand_text, output_text, type_name, view_text};

use crate::numbers::{put_labelled, put_number};
use arr_io::{Sink, SinkBuffer, WriteFault};
use arr_num::{Code, Elem};
use arr_ops::{Op, Operand};
use arr_view::View;

/// A type as it is written.
pub(crate) fn type_name(elem: Elem) -> &'static str
    ensures { result.now ≡ type_name elem }
{
    match elem {
        Elem::U8 => "u8",
        Elem::I32 => "i32",
        Elem::I64 => "i64",
        Elem::U64 => "u64",
    }
}

/// An opcode as it is written.
fn code_name(code: Code) -> &'static str
    ensures { result.now ≡ code_name code }
{
    match code {
        Code::Add => "ADD",
        Code::Subtract => "SUBTRACT",
        Code::Multiply => "MULTIPLY",
        Code::Divide => "DIVIDE",
        Code::Mod => "MOD",
        Code::Power => "POWER",
        Code::Maximum => "MAXIMUM",
        Code::Minimum => "MINIMUM",
        Code::BitwiseAnd => "BITWISE_AND",
        Code::BitwiseOr => "BITWISE_OR",
        Code::BitwiseXor => "BITWISE_XOR",
        Code::LeftShift => "LEFT_SHIFT",
        Code::RightShift => "RIGHT_SHIFT",
        Code::Equal => "EQUAL",
        Code::NotEqual => "NOT_EQUAL",
        Code::Less => "LESS",
        Code::LessEqual => "LESS_EQUAL",
        Code::Greater => "GREATER",
        Code::GreaterEqual => "GREATER_EQUAL",
        Code::Absolute => "ABSOLUTE",
        Code::Invert => "INVERT",
        Code::Identity => "IDENTITY",
        Code::Range => "RANGE",
        Code::AddReduce => "ADD_REDUCE",
        Code::MultiplyReduce => "MULTIPLY_REDUCE",
        Code::MinimumReduce => "MINIMUM_REDUCE",
        Code::MaximumReduce => "MAXIMUM_REDUCE",
        Code::AddAccumulate => "ADD_ACCUMULATE",
        Code::MultiplyAccumulate => "MULTIPLY_ACCUMULATE",
        Code::Free => "FREE",
        Code::Sync => "SYNC",
    }
}

/// Puts the length and the stride of a dimension.
fn put_dimension<K: Sink>(length: u32, stride: i32, out: &mut SinkBuffer, sink: &mut K)
    ensures { PutsText K.Sink out.old sink.old out.new sink.new (dimension_text length stride) }
{
    put_number(length, out, sink);
    out.put(b":", sink);
    put_number(stride, out, sink);
}

/// Puts the dimensions of a view, a comma between two.
fn put_dimensions<K: Sink>(lengths: &[u32], strides: &[i32], out: &mut SinkBuffer, sink: &mut K)
    requires some { 0 < length lengths.now }
    requires same_rank { length strides.now ≡ length lengths.now }
    ensures { PutsText K.Sink out.old sink.old out.new sink.new (dimensions_text lengths.now strides.now) }
{
    put_dimension(lengths[0], strides[0], out, sink);
    for axis in 1..lengths.len() {
        out.put(b",", sink);
        put_dimension(lengths[axis], strides[axis], out, sink);
    }
}

/// Puts a view of a base of the type.
fn put_view<K: Sink>(elem: Elem, view: &View, out: &mut SinkBuffer, sink: &mut K)
    ensures { PutsText K.Sink out.old sink.old out.new sink.new (view_text elem view.now) }
{
    out.put(b"b", sink);
    put_number(view.base(), out, sink);
    out.put(b":", sink);
    out.put(type_name(elem).as_bytes(), sink);
    out.put(b"@", sink);
    put_number(view.start(), out, sink);
    out.put(b"[", sink);
    put_dimensions(view.shape(), view.strides(), out, sink);
    out.put(b"]", sink);
}

/// What stands in front of an output.
fn plus(makes: bool) -> &'static str
    ensures { result.now ≡ cond makes (codes " +") (codes " ") }
{
    if makes { " +" } else { " " }
}

/// Puts the output of an operation, if it has one; a creator's has a plus in front.
fn put_output<K: Sink>(
    makes: bool,
    elem: Elem,
    view: &Option<View>,
    out: &mut SinkBuffer,
    sink: &mut K,
)
    ensures { PutsText K.Sink out.old sink.old out.new sink.new (output_text makes elem view.now) }
{
    let Some(view) = view else {
        return;
    };
    out.put(plus(makes).as_bytes(), sink);
    put_view(elem, view, out, sink);
}

/// Puts a view of a base of the type, or a constant.
fn put_input<K: Sink>(elem: Elem, operand: &Operand, out: &mut SinkBuffer, sink: &mut K)
    ensures { PutsText K.Sink out.old sink.old out.new sink.new (input_text elem operand.now) }
{
    match operand {
        Operand::Array(view) => put_view(elem, view, out, sink),
        Operand::Number(number) => put_number(*number, out, sink),
    }
}

/// Puts an operand, if it is there.
fn put_operand<K: Sink>(elem: Elem, operand: &Option<Operand>, out: &mut SinkBuffer, sink: &mut K)
    ensures { PutsText K.Sink out.old sink.old out.new sink.new (operand_text elem operand.now) }
{
    let Some(operand) = operand else {
        return;
    };
    out.put(b" ", sink);
    put_input(elem, operand, out, sink);
}

/// Puts the line of an operation with its number (docs/PLANS.md, "The listing").
pub fn put_op<K: Sink>(number: u64, op: &Op, out: &mut SinkBuffer, sink: &mut K)
    ensures { PutsText K.Sink out.old sink.old out.new sink.new (op_text number op.now) }
{
    out.put(b"# op ", sink);
    put_number(number, out, sink);
    out.put(b" ", sink);
    out.put(code_name(op.code).as_bytes(), sink);
    put_output(op.makes, op.to, &op.out, out, sink);
    put_operand(op.from, &op.first, out, sink);
    put_operand(op.from, &op.second, out, sink);
    put_labelled(b" axis=", op.axis, out, sink);
    put_labelled(b" slot=", op.slot, out, sink);
    put_labelled(b" b", op.frees, out, sink);
    out.put(b"\n", sink);
}

/// Writes the line of an operation with its number, which counts from 1 in its list (docs/PLANS.md, "The listing").
///
/// `WriteFault` comes only where the sink's count of faults rose in this call; then a byte of the line is missing.
pub fn write_op<K: Sink>(number: u32, op: &Op, sink: &mut K) -> Result<(), WriteFault>
    ensures { Writes K.Sink sink.old sink.new result (op_text number op.now) }
{
    let mut out = SinkBuffer::new();
    put_op(u64::from(number), op, &mut out, sink);
    out.finish(sink)
}
