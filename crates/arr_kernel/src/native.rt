ghost use Rattle.std.specs.Prelude.{◌≡◌, IsTrue, pos};
ghost use Rattle.arr_num.specs.Numbers.{value};
ghost use Rattle.arr_kernel.specs.Inputs.{in_table};

use arr_num::{Code, Elem};

// One line for each code, at two numbers of one native type with so many bits and this magnitude of the
// first.
macro_rules! table {
    ($code:expr, $x:expr, $y:expr, $bits:expr, $magnitude:expr) => {
        match $code {
            Code::Add => $x.wrapping_add($y) as i128,
            Code::Subtract => $x.wrapping_sub($y) as i128,
            Code::Multiply => $x.wrapping_mul($y) as i128,
            Code::Divide => if $y == 0 { 0 } else { $x.wrapping_div($y) as i128 },
            Code::Mod => if $y == 0 { 0 } else { $x.wrapping_rem($y) as i128 },
            Code::Maximum => $x.max($y) as i128,
            Code::Minimum => $x.min($y) as i128,
            Code::BitwiseAnd => ($x & $y) as i128,
            Code::BitwiseOr => ($x | $y) as i128,
            Code::BitwiseXor => ($x ^ $y) as i128,
            Code::LeftShift => ($x << $y.rem_euclid($bits) as u32) as i128,
            Code::RightShift => ($x >> $y.rem_euclid($bits) as u32) as i128,
            Code::Equal => ($x == $y) as i128,
            Code::NotEqual => ($x != $y) as i128,
            Code::Less => ($x < $y) as i128,
            Code::LessEqual => ($x <= $y) as i128,
            Code::Greater => ($x > $y) as i128,
            Code::GreaterEqual => ($x >= $y) as i128,
            Code::Absolute => $magnitude as i128,
            Code::Invert => !$x as i128,
            _ => unreachable!(),
        }
    };
}

/// The value of a code of the table at two numbers of `u8` (docs/LANGUAGE.md, "Opcodes"). A unary code takes no notice of `y`.
#[inline(always)]
pub fn value_u8(code: Code, x: u8, y: u8) -> i128
    requires { IsTrue (in_table code) }
    ensures { result ≡ value code Elem.U8 (pos x) (pos y) }
{
    table!(code, x, y, 8, x)
}

/// The value of a code of the table at two numbers of `i32` (docs/LANGUAGE.md, "Opcodes"). A unary code takes no notice of `y`.
#[inline(always)]
pub fn value_i32(code: Code, x: i32, y: i32) -> i128
    requires { IsTrue (in_table code) }
    ensures { result ≡ value code Elem.I32 x y }
{
    table!(code, x, y, 32, x.wrapping_abs())
}

/// The value of a code of the table at two numbers of `i64` (docs/LANGUAGE.md, "Opcodes"). A unary code takes no notice of `y`.
#[inline(always)]
pub fn value_i64(code: Code, x: i64, y: i64) -> i128
    requires { IsTrue (in_table code) }
    ensures { result ≡ value code Elem.I64 x y }
{
    table!(code, x, y, 64, x.wrapping_abs())
}

/// The value of a code of the table at two numbers of `u64` (docs/LANGUAGE.md, "Opcodes"). A unary code takes no notice of `y`.
#[inline(always)]
pub fn value_u64(code: Code, x: u64, y: u64) -> i128
    requires { IsTrue (in_table code) }
    ensures { result ≡ value code Elem.U64 (pos x) (pos y) }
{
    table!(code, x, y, 64, x)
}
