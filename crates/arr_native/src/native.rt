ghost use Rattle.std.specs.Prelude.{◌≡◌, IsTrue, ℤ, pos};
ghost use Rattle.arr_num.specs.Kinds.{is_fold};
ghost use Rattle.arr_num.specs.Numbers.{digits, in_type, value, wrap};
ghost use Rattle.arr_num.specs.Types.{types_match};
ghost use Rattle.arr_kernel.specs.Inputs.{in_table};
ghost use Rattle.arr_num.specs.declared.elem.Elem as declared;
ghost use Rattle.arr_num.specs.declared.elem.Elem.TheVariants.{I32, I64, U64, U8};

use arr_kernel::{
    power_i32, power_i64, power_u8, power_u64, step_i32, step_i64, step_u8, step_u64, value_i32,
    value_i64, value_u8, value_u64,
};
use arr_num::{Code, Elem};

/// A native type of numbers: `u8`, `i32`, `i64` or `u64`.
pub trait Native: Copy {
    /// The type that it stands for.
    ghost elem: { declared.Elem };

    /// The number that a value is.
    ghost number: { Self → ℤ };

    /// The value of an element-wise code at two numbers (docs/LANGUAGE.md, "Opcodes"): of any but POWER, IDENTITY and RANGE. A unary
    /// code takes no notice of `y`.
    fn compute(code: Code, x: Self, y: Self) -> Self
        requires { IsTrue (in_table code) }
        ensures { number result ≡ value code elem (number x) (number y) };

    /// The value of a comparison at two numbers (docs/LANGUAGE.md, "Opcodes"): 1 where it holds, else 0.
    fn compare(code: Code, x: Self, y: Self) -> u8
        requires table { IsTrue (in_table code) }
        requires comparison { IsTrue (types_match code Elem.U8 elem) }
        ensures { pos result ≡ value code Elem.U8 (number x) (number y) };

    /// The value of POWER (docs/LANGUAGE.md, "Opcodes").
    fn raise(x: Self, exponent: u64) -> Self
        ensures { number result ≡ value Code.Power elem (number x) (pos exponent) };

    /// One step of a reduction or a scan: what the fold holds after `x`, where it held `sum` before (docs/LANGUAGE.md, "Opcodes").
    fn combine(code: Code, sum: Self, x: Self) -> Self
        requires { IsTrue (is_fold code) }
        ensures { number result ≡ value code elem (number sum) (number x) };

    /// The number itself: it is of its type.
    fn itself(self) -> Self
        ensures same { result ≡ self }
        ensures typed { IsTrue (in_type elem (number self)) };

    /// The number's two's complement digits in 64 bits.
    fn bits(self) -> u64
        ensures { result ≡ digits Elem.U64 (number self) };

    /// The number of the type whose two's complement digits are the last ones of `bits`.
    fn from_bits(bits: u64) -> Self
        ensures { number result ≡ wrap elem (pos bits) };
}

impl Native for u8 {
    ghost elem = { U8 };

    ghost number = { pos };

    #[inline(always)]
    fn compute(code: Code, x: u8, y: u8) -> u8 {
        value_u8(code, x, y) as u8
    }

    #[inline(always)]
    fn compare(code: Code, x: u8, y: u8) -> u8 {
        value_u8(code, x, y) as u8
    }

    #[inline(always)]
    fn raise(x: u8, exponent: u64) -> u8 {
        power_u8(x, exponent)
    }

    #[inline(always)]
    fn combine(code: Code, sum: u8, x: u8) -> u8 {
        step_u8(code, sum, x) as u8
    }

    #[inline(always)]
    fn itself(self) -> u8 {
        self
    }

    #[inline(always)]
    fn bits(self) -> u64 {
        self as u64
    }

    #[inline(always)]
    fn from_bits(bits: u64) -> u8 {
        (bits % 0x100) as u8
    }
}

impl Native for i32 {
    ghost elem = { I32 };

    ghost number = { λ z. z };

    #[inline(always)]
    fn compute(code: Code, x: i32, y: i32) -> i32 {
        value_i32(code, x, y) as i32
    }

    #[inline(always)]
    fn compare(code: Code, x: i32, y: i32) -> u8 {
        value_i32(code, x, y) as u8
    }

    #[inline(always)]
    fn raise(x: i32, exponent: u64) -> i32 {
        power_i32(x, exponent)
    }

    #[inline(always)]
    fn combine(code: Code, sum: i32, x: i32) -> i32 {
        step_i32(code, sum, x) as i32
    }

    #[inline(always)]
    fn itself(self) -> i32 {
        self
    }

    #[inline(always)]
    fn bits(self) -> u64 {
        (self as i64).cast_unsigned()
    }

    #[inline(always)]
    fn from_bits(bits: u64) -> i32 {
        ((bits % 0x1_0000_0000) as u32).cast_signed()
    }
}

impl Native for i64 {
    ghost elem = { I64 };

    ghost number = { λ z. z };

    #[inline(always)]
    fn compute(code: Code, x: i64, y: i64) -> i64 {
        value_i64(code, x, y) as i64
    }

    #[inline(always)]
    fn compare(code: Code, x: i64, y: i64) -> u8 {
        value_i64(code, x, y) as u8
    }

    #[inline(always)]
    fn raise(x: i64, exponent: u64) -> i64 {
        power_i64(x, exponent)
    }

    #[inline(always)]
    fn combine(code: Code, sum: i64, x: i64) -> i64 {
        step_i64(code, sum, x) as i64
    }

    #[inline(always)]
    fn itself(self) -> i64 {
        self
    }

    #[inline(always)]
    fn bits(self) -> u64 {
        self.cast_unsigned()
    }

    #[inline(always)]
    fn from_bits(bits: u64) -> i64 {
        bits.cast_signed()
    }
}

impl Native for u64 {
    ghost elem = { U64 };

    ghost number = { pos };

    #[inline(always)]
    fn compute(code: Code, x: u64, y: u64) -> u64 {
        value_u64(code, x, y) as u64
    }

    #[inline(always)]
    fn compare(code: Code, x: u64, y: u64) -> u8 {
        value_u64(code, x, y) as u8
    }

    #[inline(always)]
    fn raise(x: u64, exponent: u64) -> u64 {
        power_u64(x, exponent)
    }

    #[inline(always)]
    fn combine(code: Code, sum: u64, x: u64) -> u64 {
        step_u64(code, sum, x) as u64
    }

    #[inline(always)]
    fn itself(self) -> u64 {
        self
    }

    #[inline(always)]
    fn bits(self) -> u64 {
        self
    }

    #[inline(always)]
    fn from_bits(bits: u64) -> u64 {
        bits
    }
}
