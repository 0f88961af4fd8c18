ghost use Rattle.std.specs.Prelude.{◌≡◌, ℕ, ◌<◌, ◌≤◌, ◌+◌, IfSome, IsTrue, length, pos};
ghost use Rattle.arr_num.specs.Numbers.{value, wrap};
ghost use Rattle.arr_native.specs.Entries.{entry};
ghost use Rattle.arr_vector.specs.Sorts.{is_arithmetic, is_comparison, plus};

use arr_native::Native;
use arr_num::{Code, Elem};

// One closure for each code, so that each code has a loop of its own.
macro_rules! table {
    ($value:path, $code:expr, $out:expr, $a:expr, $b:expr, $count:expr, $($name:ident),*) => {
        match $code {
            $(Code::$name => zip_with($code, $out, $a, $b, $count, |x, y| $value(Code::$name, x, y)),)*
            _ => unreachable!(),
        }
    };
}

// One closure for each divisor that is often written, so that the compiler divides by it with a multiplication and shifts.
macro_rules! by_divisor {
    ($code:expr, $out:expr, $a:expr, $b:expr, $count:expr) => {
        by_divisor!($code, $out, $a, $b, $count, 2, 3, 4, 5, 6, 7, 8, 10, 16, 97, 100, 1000)
    };
    ($code:expr, $out:expr, $a:expr, $b:expr, $count:expr, $($divisor:literal),*) => {
        match one_number($b, $count) {
            $(Some($divisor) => map_with(
                $code,
                $out,
                $a,
                $b,
                $count,
                $divisor,
                |x| T::compute($code, x, T::from_bits($divisor)),
            ),)*
            _ => zip_with($code, $out, $a, $b, $count, |x, y| T::compute($code, x, y)),
        }
    };
}

// The greatest of these divisors.
const GREATEST_DIVISOR: u64 = 1000;

/// The first `count` values of a code whose result has the type of its inputs, from those of `a` and `b` (docs/LANGUAGE.md,
/// "Opcodes"). A unary code takes no notice of `b`.
pub fn compute<T: Native>(code: Code, out: &mut [T], a: &[T], b: &[T], count: usize)
    requires code { IsTrue (is_arithmetic code) }
    requires out { count ≤ length out.old }
    requires a { count ≤ length a.now }
    requires b { count ≤ length b.now }
    ensures length { length out.new ≡ length out.old }
    ensures each { (i : ℕ) → i < count → entry T.number out.new i
        ≡ value code T.elem (entry T.number a.now i) (entry T.number b.now i) }
{
    match code {
        Code::Divide => divide(out, a, b, count),
        Code::Mod => remain(out, a, b, count),
        _ => table!(
            T::compute,
            code,
            out,
            a,
            b,
            count,
            Add,
            Subtract,
            Multiply,
            Maximum,
            Minimum,
            BitwiseAnd,
            BitwiseOr,
            BitwiseXor,
            LeftShift,
            RightShift,
            Absolute,
            Invert
        ),
    }
}

/// The first `count` sums of the numbers of three lists, from the left (docs/LANGUAGE.md, "Opcodes"). Both additions stand in one loop, so
/// that the first sum is never written.
pub fn add_three<T: Native>(out: &mut [T], a: &[T], b: &[T], c: &[T], count: usize)
    requires out { count ≤ length out.old }
    requires a { count ≤ length a.now }
    requires b { count ≤ length b.now }
    requires c { count ≤ length c.now }
    ensures length { length out.new ≡ length out.old }
    ensures each { (i : ℕ) → i < count → entry T.number out.new i
        ≡ plus T.elem (plus T.elem (entry T.number a.now i) (entry T.number b.now i)) (entry T.number c.now i) }
{
    for i in 0..count {
        out[i] = T::compute(Code::Add, T::compute(Code::Add, a[i], b[i]), c[i]);
    }
}

/// The first `count` sums of the numbers of five lists, from the left, as `add_three`.
pub fn add_five<T: Native>(out: &mut [T], a: &[T], b: &[T], c: &[T], d: &[T], e: &[T], count: usize)
    requires out { count ≤ length out.old }
    requires a { count ≤ length a.now }
    requires b { count ≤ length b.now }
    requires c { count ≤ length c.now }
    requires d { count ≤ length d.now }
    requires e { count ≤ length e.now }
    ensures length { length out.new ≡ length out.old }
    ensures each { (i : ℕ) → i < count → entry T.number out.new i
        ≡ plus T.elem (plus T.elem (plus T.elem (plus T.elem (entry T.number a.now i) (entry T.number b.now i))
        (entry T.number c.now i)) (entry T.number d.now i)) (entry T.number e.now i) }
{
    for i in 0..count {
        let three = T::compute(Code::Add, T::compute(Code::Add, a[i], b[i]), c[i]);
        out[i] = T::compute(Code::Add, T::compute(Code::Add, three, d[i]), e[i]);
    }
}

/// The first `count` values of DIVIDE (docs/LANGUAGE.md, "Opcodes").
fn divide<T: Native>(out: &mut [T], a: &[T], b: &[T], count: usize)
    requires out { count ≤ length out.old }
    requires a { count ≤ length a.now }
    requires b { count ≤ length b.now }
    ensures length { length out.new ≡ length out.old }
    ensures each { (i : ℕ) → i < count → entry T.number out.new i
        ≡ value Code.Divide T.elem (entry T.number a.now i) (entry T.number b.now i) }
{
    by_divisor!(Code::Divide, out, a, b, count)
}

/// The first `count` values of MOD (docs/LANGUAGE.md, "Opcodes").
fn remain<T: Native>(out: &mut [T], a: &[T], b: &[T], count: usize)
    requires out { count ≤ length out.old }
    requires a { count ≤ length a.now }
    requires b { count ≤ length b.now }
    ensures length { length out.new ≡ length out.old }
    ensures each { (i : ℕ) → i < count → entry T.number out.new i
        ≡ value Code.Mod T.elem (entry T.number a.now i) (entry T.number b.now i) }
{
    by_divisor!(Code::Mod, out, a, b, count)
}

/// The bits of the first `count` numbers of `b`, if they are one number throughout that may have a loop of its own.
fn one_number<T: Native>(b: &[T], count: usize) -> Option<u64>
    requires { count ≤ length b.now }
    ensures { IfSome result (λ bits. (i : ℕ) → i < count → entry T.number b.now i ≡ wrap T.elem (pos bits)) }
{
    if count == 0 {
        return None;
    }
    let bits = b[0].bits();
    if bits > GREATEST_DIVISOR {
        return None;
    }
    let mut same = true;
    for i in 0..count {
        same &= b[i].itself().bits() == bits;
    }
    if same { Some(bits) } else { None }
}

/// The first `count` values of a comparison, from those of `a` and `b` (docs/LANGUAGE.md, "Opcodes"): 1 where it holds, else 0.
pub fn compare<T: Native>(code: Code, out: &mut [u8], a: &[T], b: &[T], count: usize)
    requires code { IsTrue (is_comparison code) }
    requires out { count ≤ length out.old }
    requires a { count ≤ length a.now }
    requires b { count ≤ length b.now }
    ensures length { length out.new ≡ length out.old }
    ensures each { (i : ℕ) → i < count → entry pos out.new i
        ≡ value code Elem.U8 (entry T.number a.now i) (entry T.number b.now i) }
{
    table!(
        T::compare,
        code,
        out,
        a,
        b,
        count,
        Equal,
        NotEqual,
        Less,
        LessEqual,
        Greater,
        GreaterEqual
    )
}

/// The first `count` numbers of `a`, each raised to one exponent (docs/LANGUAGE.md, "Opcodes").
pub fn raise<T: Native>(out: &mut [T], a: &[T], exponent: u64, count: usize)
    requires out { count ≤ length out.old }
    requires a { count ≤ length a.now }
    ensures length { length out.new ≡ length out.old }
    ensures each { (i : ℕ) → i < count → entry T.number out.new i
        ≡ value Code.Power T.elem (entry T.number a.now i) (pos exponent) }
{
    for i in 0..count {
        out[i] = T::raise(a[i], exponent);
    }
}

/// The first `count` numbers of `a` in another type, wrapped where they don't fit (docs/LANGUAGE.md, "Opcodes").
pub fn convert<T: Native, U: Native>(out: &mut [U], a: &[T], count: usize)
    requires out { count ≤ length out.old }
    requires a { count ≤ length a.now }
    ensures length { length out.new ≡ length out.old }
    ensures each { (i : ℕ) → i < count → entry U.number out.new i
        ≡ value Code.Identity U.elem (entry T.number a.now i) (pos 0) }
{
    for i in 0..count {
        out[i] = U::from_bits(a[i].bits());
    }
}

/// The first `count` values of RANGE from a position on, counted from 0 (docs/LANGUAGE.md, "Opcodes").
pub fn count_up<T: Native>(out: &mut [T], position: u64, count: usize)
    requires out { count ≤ length out.old }
    requires few { position + count ≤ 1048576 }
    ensures length { length out.new ≡ length out.old }
    ensures each { (i : ℕ) → i < count → entry T.number out.new i
        ≡ value Code.Range T.elem (pos (position + i)) (pos 0) }
{
    for i in 0..count {
        out[i] = T::from_bits(position + i as u64);
    }
}

/// Calls `f`, which gives the values of a code, at the first `count` numbers of two lists.
#[inline(always)]
fn zip_with<T: Native, U: Native, F: Fn(T, T) -> U>(
    _code: Code,
    out: &mut [U],
    a: &[T],
    b: &[T],
    count: usize,
    f: F,
)
    requires out { count ≤ length out.old }
    requires a { count ≤ length a.now }
    requires b { count ≤ length b.now }
    requires callable { F.IsAlwaysCallable f }
    requires values { (x y : T) (z : U) → F.post f x y z → U.number z ≡ value _code U.elem (T.number x) (T.number y) }
    ensures length { length out.new ≡ length out.old }
    ensures each { (i : ℕ) → i < count → entry U.number out.new i
        ≡ value _code U.elem (entry T.number a.now i) (entry T.number b.now i) }
{
    for i in 0..count {
        out[i] = f(a[i], b[i]);
    }
}

/// Calls `f`, which gives the values of a code at a second number that does not change, at the first `count` numbers of a list. That
/// number is the one with the bits `_bits`, at each place of `_b`.
#[inline(always)]
fn map_with<T: Native, U: Native, F: Fn(T) -> U>(
    _code: Code,
    out: &mut [U],
    a: &[T],
    _b: &[T],
    count: usize,
    _bits: u64,
    f: F,
)
    requires out { count ≤ length out.old }
    requires a { count ≤ length a.now }
    requires constant { (i : ℕ) → i < count → entry T.number _b.now i ≡ wrap T.elem (pos _bits) }
    requires callable { F.IsAlwaysCallable f }
    requires values { (x : T) (z : U) → F.post f x z → U.number z
        ≡ value _code U.elem (T.number x) (wrap T.elem (pos _bits)) }
    ensures length { length out.new ≡ length out.old }
    ensures each { (i : ℕ) → i < count → entry U.number out.new i
        ≡ value _code U.elem (entry T.number a.now i) (entry T.number _b.now i) }
{
    for i in 0..count {
        out[i] = f(a[i]);
    }
}
