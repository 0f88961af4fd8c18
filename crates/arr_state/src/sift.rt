//! Where a rule may give something: rows of bits, many operations at a time.
ghost use Rattle.std.specs.Prelude.{◌≡◌, ◌<◌, ◌≤◌, ◌+◌, ◌/◌, ◌&&◌, ℕ, true, get_or, length, MatchOption};
ghost use Rattle.arr_law.specs.ProblemOf.{problem_of};
ghost use Rattle.arr_law.specs.declared.fact.Fact.TheVariants.{Apart, Before};
ghost use Rattle.arr_state.specs.declared.jobs.Job.TheVariants.{Behind, Frees, Front};
ghost use Rattle.arr_state.specs.Jobs.{TriedAt};
ghost use Rattle.arr_state.specs.Kept.{IsKept};
ghost use Rattle.arr_state.specs.Rows.{sifted};
ghost use Rattle.arr_state.specs.Sieves.{FitsIn, IsSieve, sieve_at};
ghost use Rattle.arr_state.specs.Went.{facts_in};

use crate::jobs::Job;
use crate::known::{Known, count_of, is_known, is_operation};
use crate::rows::{APART, BEFORE, BEHIND, ENDS, SAME, row_start};
use arr_law::Fact;
use arr_ops::Op;

/// Where three rows begin: a job may give something at the operations that stand in the first two and not in the third.
#[derive(Clone, Copy)]
pub(crate) struct Sieve {
    first: usize,
    second: usize,
    third: usize,
}

/// The bits of the first two rows that the third has not, in one word of each.
pub(crate) fn sifted(ops: &[Op], known: &Known, sieve: Sieve, i: u32) -> u64
    requires kept { IsKept (problem_of ops.now) known.now }
    requires fits { FitsIn (length ops.now) sieve }
    requires room { i ≤ length ops.now / 64 }
    ensures { result ≡ sifted (get_or known.now.rows.items (sieve.first + i) 0)
        (get_or known.now.rows.items (sieve.second + i) 0) (get_or known.now.rows.items (sieve.third + i) 0) }
{
    let first = known.rows[sieve.first + i as usize];
    let second = known.rows[sieve.second + i as usize];
    let third = known.rows[sieve.third + i as usize];
    let both = first & second;
    both & (both ^ third)
}

/// The sieve of three rows.
fn begin(ops: &[Op], first: (usize, u32), second: (usize, u32), third: (usize, u32)) -> Sieve
    requires few { length ops.now ≤ 256 }
    requires kinds { first.0 < 6 × second.0 < 6 × third.0 < 6 }
    requires within { first.1 ≤ length ops.now × second.1 ≤ length ops.now × third.1 ≤ length ops.now }
    ensures is { result ≡ sieve_at (length ops.now) first.0 first.1 second.0 second.1 third.0 third.1 }
    ensures fits { FitsIn (length ops.now) result }
{
    let count = count_of(ops);
    Sieve {
        first: row_start(count, first.0, first.1),
        second: row_start(count, second.0, second.1),
        third: row_start(count, third.0, third.1),
    }
}

/// The operations behind two others that a rule may give something at.
fn behind(ops: &[Op], rule: u8, f: u32, g: u32) -> Option<Sieve>
    requires few { length ops.now ≤ 256 }
    ensures { MatchOption result (Unit {0}) (λ sieve. IsSieve (problem_of ops.now) (Behind rule f g) sieve) }
{
    if !is_operation(ops, f) || !is_operation(ops, g) {
        return None;
    }
    match rule {
        4 => Some(begin(ops, (BEFORE, g), (BEFORE, g), (BEFORE, f))),
        6 => Some(begin(ops, (APART, g), (APART, g), (APART, f))),
        7 => Some(begin(ops, (BEFORE, g), (BEFORE, g), (APART, f))),
        8 => Some(begin(ops, (BEFORE, g), (APART, g), (APART, f))),
        _ => None,
    }
}

/// The operations before two others that a rule may give something at.
fn front(ops: &[Op], rule: u8, g: u32, h: u32) -> Option<Sieve>
    requires few { length ops.now ≤ 256 }
    ensures { MatchOption result (Unit {0}) (λ sieve. IsSieve (problem_of ops.now) (Front rule g h) sieve) }
{
    if !is_operation(ops, g) || !is_operation(ops, h) {
        return None;
    }
    match rule {
        4 => Some(begin(ops, (BEHIND, g), (BEHIND, g), (BEHIND, h))),
        6 => Some(begin(ops, (SAME, g), (SAME, g), (APART, h))),
        7 => Some(begin(ops, (BEHIND, g), (APART, g), (APART, h))),
        8 => Some(begin(ops, (BEHIND, g), (BEHIND, g), (APART, h))),
        _ => None,
    }
}

/// The FREEs of bases of which both operations have a view, but those that the second is known to stand with.
fn frees(ops: &[Op], u: u32, f: u32) -> Option<Sieve>
    requires few { length ops.now ≤ 256 }
    ensures { MatchOption result (Unit {0}) (λ sieve. IsSieve (problem_of ops.now) (Frees u f) sieve) }
{
    if !is_operation(ops, u) || !is_operation(ops, f) {
        return None;
    }
    Some(begin(ops, (ENDS, u), (ENDS, f), (SAME, f)))
}

/// The sieve of a job, if it has one.
pub(crate) fn sieve_of(ops: &[Op], job: Job) -> Option<Sieve>
    requires few { length ops.now ≤ 256 }
    ensures { MatchOption result (Unit {0}) (λ sieve. IsSieve (problem_of ops.now) job sieve) }
{
    match job {
        Job::Behind(rule, f, g) => behind(ops, rule, f, g),
        Job::Front(rule, g, h) => front(ops, rule, g, h),
        Job::Frees(u, f) => frees(ops, u, f),
        Job::Two(_, _, _) => None,
    }
}

/// Whether an operation is known to stand before another, and apart from it.
fn stands_off(ops: &[Op], known: &Known, f: u32, g: u32) -> bool
    requires kept { IsKept (problem_of ops.now) known.now }
    ensures { result ≡ (facts_in ops.now known.now (Before f g) && facts_in ops.now known.now (Apart f g)) }
{
    is_known(ops, known, Fact::Before(f, g)) && is_known(ops, known, Fact::Apart(f, g))
}

/// Whether a premise of which the open place is no part is missing, so that a job gives nothing.
pub(crate) fn is_idle(ops: &[Op], known: &Known, job: Job) -> bool
    requires kept { IsKept (problem_of ops.now) known.now }
    ensures { result ≡ true → (c : ℕ) → TriedAt (problem_of ops.now) job c (facts_in ops.now known.now)
        (facts_in ops.now known.now) }
{
    match job {
        Job::Behind(rule, f, g) => rule == 7 && !stands_off(ops, known, f, g),
        Job::Front(rule, g, h) => rule == 8 && !stands_off(ops, known, g, h),
        _ => false,
    }
}
