ghost use Rattle.std.specs.Prelude.{ℕ, ◌≡◌, ◌+◌, ◌<◌, ◌≤◌, IsTrue, get_or, length, pos, true};
ghost use Rattle.arr_num.specs.Kinds.{is_fold};
ghost use Rattle.arr_num.specs.Numbers.{in_type, value};
ghost use Rattle.arr_native.specs.Entries.{entry};
ghost use Rattle.arr_sums.specs.Kept.{AreOf, StepsEach, kept_at};
ghost use Rattle.arr_sums.specs.Along.{AreFolds, entry_from, fold_from};

use arr_lanes::Lane;
use arr_num::Code;

// One closure for each code, so that each code has a loop of its own.
macro_rules! table {
    ($call:ident, $code:expr, $($argument:expr),*) => {
        match $code {
            Code::AddReduce => $call($code, $($argument),*, |x, y| T::combine(Code::AddReduce, x, y)),
            Code::MultiplyReduce => $call($code, $($argument),*, |x, y| T::combine(Code::MultiplyReduce, x, y)),
            Code::MinimumReduce => $call($code, $($argument),*, |x, y| T::combine(Code::MinimumReduce, x, y)),
            Code::MaximumReduce => $call($code, $($argument),*, |x, y| T::combine(Code::MaximumReduce, x, y)),
            Code::AddAccumulate => $call($code, $($argument),*, |x, y| T::combine(Code::AddAccumulate, x, y)),
            Code::MultiplyAccumulate => $call($code, $($argument),*, |x, y| T::combine(Code::MultiplyAccumulate, x, y)),
            _ => unreachable!(),
        }
    };
}

/// Folds numbers that lie side by side into one accumulator.
#[inline(always)]
pub(crate) fn fold_lane<T: Lane>(
    code: Code,
    sums: &mut [i128],
    at: usize,
    source: &[T],
    from: usize,
    count: usize,
)
    requires code { IsTrue (is_fold code) }
    requires sums { at < length sums.old }
    requires typed { in_type T.elem (get_or sums.old at (pos 0)) ≡ true }
    requires source { from + count ≤ length source.now }
    ensures { StepsEach T.elem (λ sum x. fold_from T.elem T.number code sum source.now from count) sums.old
        (λ j. pos 0) at 1 sums.new }
{
    sums[at] = fold_run(code, source, from, count, T::narrow(sums[at])).widen();
}

/// Folds numbers that lie side by side.
fn fold_run<T: Lane>(code: Code, source: &[T], from: usize, count: usize, start: T) -> T
    requires code { IsTrue (is_fold code) }
    requires source { from + count ≤ length source.now }
    ensures { T.number result ≡ fold_from T.elem T.number code (T.number start) source.now from count }
{
    table!(fold_with, code, source, from, count, start)
}

/// Folds one number into each of some accumulators side by side.
pub(crate) fn fold_row<T: Lane>(
    code: Code,
    sums: &mut [i128],
    at: usize,
    source: &[T],
    from: usize,
    count: usize,
)
    requires code { IsTrue (is_fold code) }
    requires sums { at + count ≤ length sums.old }
    requires typed { AreOf T.elem sums.old at count }
    requires source { from + count ≤ length source.now }
    ensures { StepsEach T.elem (value code T.elem) sums.old (entry_from T.number source.now from) at count sums.new }
{
    table!(row_with, code, sums, at, source, from, count)
}

/// Folds numbers that lie side by side by `f`, which gives the values of a code.
#[inline(always)]
fn fold_with<T: Lane, F: Fn(T, T) -> T>(
    _code: Code,
    source: &[T],
    from: usize,
    count: usize,
    start: T,
    f: F,
) -> T
    requires source { from + count ≤ length source.now }
    requires callable { F.IsAlwaysCallable f }
    requires values { (x y z : T) → F.post f x y z → T.number z ≡ value _code T.elem (T.number x) (T.number y) }
    ensures { T.number result ≡ fold_from T.elem T.number _code (T.number start) source.now from count }
{
    let mut sum = start;
    for i in 0..count {
        sum = f(sum, source[from + i]);
    }
    sum
}

/// Folds one number into each of some accumulators by `f`, which gives the values of a code.
#[inline(always)]
fn row_with<T: Lane, F: Fn(T, T) -> T>(
    _code: Code,
    sums: &mut [i128],
    at: usize,
    source: &[T],
    from: usize,
    count: usize,
    f: F,
)
    requires sums { at + count ≤ length sums.old }
    requires typed { AreOf T.elem sums.old at count }
    requires source { from + count ≤ length source.now }
    requires callable { F.IsAlwaysCallable f }
    requires values { (x y z : T) → F.post f x y z → T.number z ≡ value _code T.elem (T.number x) (T.number y) }
    ensures { StepsEach T.elem (value _code T.elem) sums.old (entry_from T.number source.now from) at count sums.new }
{
    for i in 0..count {
        sums[at + i] = f(T::narrow(sums[at + i]), source[from + i]).widen();
    }
}

/// Folds numbers that lie side by side, and writes the fold so far at each place.
pub(crate) fn scan_run<T: Lane>(
    code: Code,
    out: &mut [T],
    source: &[T],
    from: usize,
    count: usize,
    start: T,
) -> T
    requires code { IsTrue (is_fold code) }
    requires out { from + count ≤ length out.old }
    requires source { from + count ≤ length source.now }
    ensures length { length out.new ≡ length out.old }
    ensures last { T.number result ≡ fold_from T.elem T.number code (T.number start) source.now from count }
    ensures each { AreFolds T.elem T.number code (T.number start) source.now out.new from count }
    ensures before { (l : ℕ) → l < from → entry T.number out.new l ≡ entry T.number out.old l }
{
    table!(scan_with, code, out, source, from, count, start)
}

/// Folds numbers that lie side by side by `f`, which gives the values of a code, and writes the fold so far at each place.
#[inline(always)]
fn scan_with<T: Lane, F: Fn(T, T) -> T>(
    _code: Code,
    out: &mut [T],
    source: &[T],
    from: usize,
    count: usize,
    start: T,
    f: F,
) -> T
    requires out { from + count ≤ length out.old }
    requires source { from + count ≤ length source.now }
    requires callable { F.IsAlwaysCallable f }
    requires values { (x y z : T) → F.post f x y z → T.number z ≡ value _code T.elem (T.number x) (T.number y) }
    ensures length { length out.new ≡ length out.old }
    ensures last { T.number result ≡ fold_from T.elem T.number _code (T.number start) source.now from count }
    ensures each { AreFolds T.elem T.number _code (T.number start) source.now out.new from count }
    ensures before { (l : ℕ) → l < from → entry T.number out.new l ≡ entry T.number out.old l }
{
    let mut sum = start;
    for i in 0..count {
        sum = f(sum, source[from + i]);
        out[from + i] = sum;
    }
    sum
}

/// Lets some accumulators side by side begin anew.
#[inline(always)]
pub(crate) fn refill<T: Lane>(sums: &mut [i128], at: usize, start: T, count: usize)
    requires { at + count ≤ length sums.old }
    ensures { StepsEach T.elem (λ sum x. T.number start) sums.old (λ j. pos 0) at count sums.new }
{
    for i in 0..count {
        sums[at + i] = start.widen();
    }
}

/// Copies accumulators side by side into a list of their type.
#[inline(always)]
pub(crate) fn copy<T: Lane>(out: &mut [T], at: usize, sums: &[i128], from: usize, count: usize)
    requires out { at + count ≤ length out.old }
    requires sums { from + count ≤ length sums.now }
    requires typed { AreOf T.elem sums.now from count }
    ensures length { length out.new ≡ length out.old }
    ensures each { (j : ℕ) → j < count → entry T.number out.new (at + j) ≡ kept_at sums.now from j }
    ensures before { (l : ℕ) → l < at → entry T.number out.new l ≡ entry T.number out.old l }
{
    for i in 0..count {
        out[at + i] = T::narrow(sums[from + i]);
    }
}
