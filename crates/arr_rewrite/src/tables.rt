//! What codes and constants do to one another.
ghost use Rattle.std.specs.Prelude.{◌≡◌, ◌||◌, pos, negsuc};
ghost use Rattle.std.specs.Bool.{then_some};
ghost use Rattle.arr_num.specs.Numbers.{ones, same, shift};
ghost use Rattle.arr_rewrite.specs.Rules.{fixed_left, fixed_right, is_identity, is_scalar, neutral_left, neutral_right};
ghost use Rattle.arr_rewrite.specs.NextRewrite.{regroups, same_code};

use arr_num::{Code, Elem};

pub(crate) fn is_identity(code: Code) -> bool
    ensures { result ≡ is_identity code }
{
    matches!(code, Code::Identity)
}

/// Whether it is a binary or a unary code.
pub(crate) fn is_scalar(code: Code) -> bool
    ensures { result ≡ is_scalar code }
{
    match code {
        Code::Range
        | Code::AddReduce
        | Code::MultiplyReduce
        | Code::MinimumReduce
        | Code::MaximumReduce
        | Code::AddAccumulate
        | Code::MultiplyAccumulate
        | Code::Free
        | Code::Sync => false,
        _ => true,
    }
}

/// Whether a constant may be joined to the one before it.
pub(crate) fn regroups(code: Code) -> bool
    ensures { result ≡ regroups code }
{
    matches!(
        code,
        Code::Add | Code::Multiply | Code::BitwiseAnd | Code::BitwiseOr | Code::BitwiseXor
    )
}

/// Whether both are one code that regroups.
pub(crate) fn same_code(left: Code, right: Code) -> bool
    ensures { result ≡ same_code left right }
{
    match left {
        Code::Add => matches!(right, Code::Add),
        Code::Multiply => matches!(right, Code::Multiply),
        Code::BitwiseAnd => matches!(right, Code::BitwiseAnd),
        Code::BitwiseOr => matches!(right, Code::BitwiseOr),
        Code::BitwiseXor => matches!(right, Code::BitwiseXor),
        _ => false,
    }
}

pub(crate) fn same(left: i128, right: i128) -> bool
    ensures { result ≡ same left right }
{
    left == right
}

/// The number whose digits are all ones.
fn ones(ty: Elem) -> i128
    ensures { result ≡ ones ty }
{
    match ty {
        Elem::U8 => 0xff,
        Elem::I32 | Elem::I64 => -1,
        Elem::U64 => 0xffff_ffff_ffff_ffff,
    }
}

/// Whether the constant on the right of the code changes nothing.
pub(crate) fn neutral_right(code: Code, ty: Elem, constant: i128) -> bool
    ensures { result ≡ neutral_right code ty constant }
{
    match code {
        Code::Add | Code::Subtract | Code::BitwiseOr | Code::BitwiseXor => same(constant, 0),
        Code::Multiply | Code::Divide => same(constant, 1),
        Code::BitwiseAnd => same(constant, ones(ty)),
        Code::LeftShift | Code::RightShift => ty.shift(constant) == 0,
        Code::Maximum => same(constant, ty.least()),
        Code::Minimum => same(constant, ty.greatest()),
        _ => false,
    }
}

/// Whether the constant on the left of the code changes nothing.
pub(crate) fn neutral_left(code: Code, ty: Elem, constant: i128) -> bool
    ensures { result ≡ neutral_left code ty constant }
{
    match code {
        Code::Add | Code::BitwiseOr | Code::BitwiseXor => same(constant, 0),
        Code::Multiply => same(constant, 1),
        Code::BitwiseAnd => same(constant, ones(ty)),
        Code::Maximum => same(constant, ty.least()),
        Code::Minimum => same(constant, ty.greatest()),
        _ => false,
    }
}

/// The value that every number beside the constant gives, with the constant on the right.
pub(crate) fn fixed_right(code: Code, ty: Elem, constant: i128) -> Option<i128>
    ensures { result ≡ fixed_right code ty constant }
{
    match code {
        Code::Multiply | Code::BitwiseAnd | Code::Divide => chosen(same(constant, 0), 0),
        Code::Mod => chosen(leaves_nothing(constant), 0),
        Code::BitwiseOr => chosen(same(constant, ones(ty)), constant),
        Code::Maximum => chosen(same(constant, ty.greatest()), constant),
        Code::Minimum => chosen(same(constant, ty.least()), constant),
        _ => None,
    }
}

/// The value that every number beside the constant gives, with the constant on the left.
pub(crate) fn fixed_left(code: Code, ty: Elem, constant: i128) -> Option<i128>
    ensures { result ≡ fixed_left code ty constant }
{
    match code {
        Code::Multiply
        | Code::BitwiseAnd
        | Code::Divide
        | Code::Mod
        | Code::LeftShift
        | Code::RightShift => chosen(same(constant, 0), 0),
        Code::BitwiseOr => chosen(same(constant, ones(ty)), constant),
        Code::Maximum => chosen(same(constant, ty.greatest()), constant),
        Code::Minimum => chosen(same(constant, ty.least()), constant),
        _ => None,
    }
}

/// Whether division by the constant leaves 0 of every number.
fn leaves_nothing(constant: i128) -> bool
    ensures { result ≡ (same constant (pos 0) || (same constant (pos 1) || same constant (negsuc 0))) }
{
    same(constant, 0) || same(constant, 1) || same(constant, -1)
}

fn chosen(test: bool, value: i128) -> Option<i128>
    ensures { result ≡ then_some test value }
{
    if test { Some(value) } else { None }
}
