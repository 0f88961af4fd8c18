//! Which opcode a sign or word of an expression stands for.

ghost use Rattle.std.specs.Prelude.{◌≡◌};
ghost use Rattle.arr_elab.specs.Codes as spec;
ghost use Rattle.arr_tree.specs.Trees.{signed};

use arr_num::{Code, Elem};
use arr_tree::{Code16, Type4};

pub(crate) fn elem_of(to: Type4) -> Elem
    ensures { result ≡ spec.elem_of to }
{
    match to {
        Type4::U8 => Elem::U8,
        Type4::I32 => Elem::I32,
        Type4::I64 => Elem::I64,
        Type4::U64 => Elem::U64,
    }
}

/// A binary sign, or `minimum` or `maximum`.
pub(crate) fn binary_code(sign: Code16) -> Code
    ensures { result ≡ spec.binary_code sign }
{
    match sign {
        Code16::Subtract => Code::Subtract,
        Code16::Multiply => Code::Multiply,
        Code16::Divide => Code::Divide,
        Code16::Mod => Code::Mod,
        Code16::Maximum => Code::Maximum,
        Code16::Minimum => Code::Minimum,
        Code16::BitwiseAnd => Code::BitwiseAnd,
        Code16::BitwiseOr => Code::BitwiseOr,
        Code16::BitwiseXor => Code::BitwiseXor,
        Code16::LeftShift => Code::LeftShift,
        Code16::RightShift => Code::RightShift,
        Code16::Equal => Code::Equal,
        Code16::NotEqual => Code::NotEqual,
        Code16::Less => Code::Less,
        Code16::LessEqual => Code::LessEqual,
        Code16::Greater => Code::Greater,
        Code16::GreaterEqual => Code::GreaterEqual,
        _ => Code::Add,
    }
}

/// `abs` or `~`.
pub(crate) fn unary_code(sign: Code16) -> Code
    ensures { result ≡ spec.unary_code sign }
{
    match sign {
        Code16::Absolute => Code::Absolute,
        _ => Code::Invert,
    }
}

/// A reduction or a scan.
pub(crate) fn fold_code(sign: Code16) -> Code
    ensures { result ≡ spec.fold_code sign }
{
    match sign {
        Code16::MultiplyReduce => Code::MultiplyReduce,
        Code16::MinimumReduce => Code::MinimumReduce,
        Code16::MaximumReduce => Code::MaximumReduce,
        Code16::AddAccumulate => Code::AddAccumulate,
        Code16::MultiplyAccumulate => Code::MultiplyAccumulate,
        _ => Code::AddReduce,
    }
}

fn compares(code: Code) -> bool
    ensures { result ≡ spec.compares code }
{
    matches!(
        code,
        Code::Equal
            | Code::NotEqual
            | Code::Less
            | Code::LessEqual
            | Code::Greater
            | Code::GreaterEqual
    )
}

/// The type of the result: a comparison gives u8.
pub(crate) fn result_type(code: Code, elem: Elem) -> Elem
    ensures { result ≡ spec.result_type code elem }
{
    if compares(code) { Elem::U8 } else { elem }
}

/// The number that a literal spells.
pub(crate) fn literal_number(negative: bool, size: u64) -> i128
    ensures { result ≡ signed negative size }
{
    let size = i128::from(size);
    if negative { -size } else { size }
}
