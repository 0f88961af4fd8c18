ghost use Rattle.std.specs.Prelude.{◌≡◌, IsTrue, pos, ◌<ℤ◌};
ghost use Rattle.std.specs.Int.{int_pow};
ghost use Rattle.arr_num.specs.Kinds.{is_binary, is_fold, is_unary};
ghost use Rattle.arr_num.specs.Numbers.{fold_start, in_type, may_stand_alone, may_stand_right, quotient, remainder, value, wrap};

use crate::{Code, Elem};

/// The value of a binary code at two numbers of the type `ty` (docs/LANGUAGE.md, "Opcodes"). The right
/// number of POWER is from 0 to 18446744073709551615; a comparison gives 0 or 1.
pub fn binary(code: Code, ty: Elem, left: i128, right: i128) -> i128
    requires code { IsTrue (is_binary code) }
    requires left { IsTrue (in_type ty left) }
    requires right { IsTrue (may_stand_right code ty right) }
    ensures { result ≡ value code ty left right }
{
    match code {
        Code::Add => ty.wrap(left + right),
        Code::Subtract => ty.wrap(left - right),
        Code::Multiply => ty.product(left, right),
        Code::Divide => ty.wrap(quotient(left, right)),
        Code::Mod => ty.wrap(remainder(left, right)),
        Code::Power => power(ty, left, right as u64),
        Code::Maximum => ty.wrap(left.max(right)),
        Code::Minimum => ty.wrap(left.min(right)),
        Code::BitwiseAnd => ty.wrap((ty.digits(left) & ty.digits(right)) as i128),
        Code::BitwiseOr => ty.wrap((ty.digits(left) | ty.digits(right)) as i128),
        Code::BitwiseXor => ty.wrap((ty.digits(left) ^ ty.digits(right)) as i128),
        Code::LeftShift => ty.product(left, 1 << ty.shift(right)),
        Code::RightShift => ty.wrap(left >> ty.shift(right)),
        Code::Equal => ty.wrap((left == right) as i128),
        Code::NotEqual => ty.wrap((left != right) as i128),
        Code::Less => ty.wrap((left < right) as i128),
        Code::LessEqual => ty.wrap((left <= right) as i128),
        Code::Greater => ty.wrap((left > right) as i128),
        Code::GreaterEqual => ty.wrap((left >= right) as i128),
        _ => unreachable!(),
    }
}

/// The value of a unary code in the type `to` (docs/LANGUAGE.md, "Opcodes").
pub fn unary(code: Code, to: Elem, number: i128) -> i128
    requires code { IsTrue (is_unary code) }
    requires number { IsTrue (may_stand_alone code to number) }
    ensures { result ≡ value code to number (pos 0) }
{
    match code {
        Code::Absolute => to.wrap(number.abs()),
        Code::Invert => to.wrap(to.size() - 1 - to.digits(number) as i128),
        Code::Identity => to.wrap(number),
        _ => unreachable!(),
    }
}

/// What a reduction or a scan begins with: 0 for sums, 1 for products, the greatest number of the type
/// for minima and the least for maxima (docs/LANGUAGE.md, "Opcodes").
pub fn fold_start(code: Code, ty: Elem) -> i128
    requires { IsTrue (is_fold code) }
    ensures { result ≡ fold_start code ty }
{
    match code {
        Code::AddReduce | Code::AddAccumulate => 0,
        Code::MultiplyReduce | Code::MultiplyAccumulate => 1,
        Code::MinimumReduce => ty.greatest(),
        Code::MaximumReduce => ty.least(),
        _ => unreachable!(),
    }
}

/// `base` to the power of `exponent`, wrapped: it squares and multiplies, two products for each of the
/// exponent's binary digits, so at most 128.
fn power(ty: Elem, base: i128, exponent: u64) -> i128
    ensures { result ≡ wrap ty (int_pow base exponent) }
{
    let mut power = 1;
    let mut square = base;
    let mut rest = exponent;
    while rest > 0 {
        if rest % 2 == 1 {
            power = ty.product(power, square);
        }
        square = ty.product(square, square);
        rest /= 2;
    }
    power
}

/// The quotient truncated toward zero, or 0 where the divisor is 0.
fn quotient(left: i128, right: i128) -> i128
    requires { i128.MIN <ℤ left }
    ensures { result ≡ quotient left right }
{
    if right == 0 { 0 } else { left / right }
}

/// What truncated division leaves, or 0 where the divisor is 0.
fn remainder(left: i128, right: i128) -> i128
    requires { i128.MIN <ℤ left }
    ensures { result ≡ remainder left right }
{
    if right == 0 { 0 } else { left % right }
}
