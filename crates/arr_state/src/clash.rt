//! Pairs of which both Same and Apart are known.
ghost use Rattle.std.specs.Prelude.{◌≡◌, ◌<◌, ◌≤◌, ◌*◌, ◌+◌, ◌/◌, ◌&&◌, ℕ, nat_lt, length, MatchOption};
ghost use Rattle.arr_law.specs.ProblemOf.{problem_of};
ghost use Rattle.arr_law.specs.declared.fact.Fact.TheVariants.{Apart, Same};
ghost use Rattle.arr_state.specs.Kept.{IsKept};
ghost use Rattle.arr_state.specs.States.{IsConsistent};
ghost use Rattle.arr_state.specs.Went.{IsClash, facts_in};

use crate::known::{Known, count_of, is_known, row_word};
use crate::rows::{APART, SAME};
use arr_law::Fact;
use arr_ops::Op;

/// Whether both are known of two operations, the lesser first.
fn are_both(ops: &[Op], known: &Known, f: u32, g: u32) -> bool
    requires kept { IsKept (problem_of ops.now) known.now }
    ensures { result ≡ (nat_lt f g && (facts_in ops.now known.now (Same f g)
        && facts_in ops.now known.now (Apart f g))) }
{
    f < g && is_known(ops, known, Fact::Same(f, g)) && is_known(ops, known, Fact::Apart(f, g))
}

/// The two operations, the lesser first, where both are known of them.
fn clash(ops: &[Op], known: &Known, f: u32, g: u32) -> Option<(u32, u32)>
    requires kept { IsKept (problem_of ops.now) known.now }
    ensures { MatchOption result (IsClash (facts_in ops.now known.now) f g → ⊥)
        (λ (x, y). IsClash (facts_in ops.now known.now) x y) }
{
    if are_both(ops, known, f, g) {
        Some((f, g))
    } else if are_both(ops, known, g, f) {
        Some((g, f))
    } else {
        None
    }
}

/// The two operations of a fact, where both are known of them.
pub(crate) fn clash_at(ops: &[Op], known: &Known, fact: Fact) -> Option<(u32, u32)>
    requires kept { IsKept (problem_of ops.now) known.now }
    ensures { MatchOption result (Unit {0}) (λ (x, y). IsClash (facts_in ops.now known.now) x y) }
{
    match fact {
        Fact::Same(f, g) => clash(ops, known, f, g),
        Fact::Apart(f, g) => clash(ops, known, f, g),
        Fact::Before(_, _) => None,
    }
}

/// An operation and one of 64 others of which both are known.
fn clash_in_word(ops: &[Op], known: &Known, f: u32, i: u32) -> Option<(u32, u32)>
    requires kept { IsKept (problem_of ops.now) known.now }
    requires within { f ≤ length ops.now }
    requires room { i ≤ length ops.now / 64 }
    ensures { MatchOption result ((k : ℕ) → k < 64 → IsClash (facts_in ops.now known.now) f (64 * i + k) → ⊥)
        (λ (x, y). IsClash (facts_in ops.now known.now) x y) }
{
    if row_word(ops, known, SAME, f, i) & row_word(ops, known, APART, f, i) == 0 {
        return None;
    }
    for k in 0..64 {
        match clash(ops, known, f, 64 * i + k) {
            Some((x, y)) => return Some((x, y)),
            None => {}
        }
    }
    None
}

/// An operation and another of which both are known.
fn clash_in_row(ops: &[Op], known: &Known, f: u32) -> Option<(u32, u32)>
    requires kept { IsKept (problem_of ops.now) known.now }
    requires within { f ≤ length ops.now }
    ensures { MatchOption result ((g : ℕ) → g ≤ length ops.now → IsClash (facts_in ops.now known.now) f g → ⊥)
        (λ (x, y). IsClash (facts_in ops.now known.now) x y) }
{
    for i in 0..count_of(ops) / 64 + 1 {
        match clash_in_word(ops, known, f, i) {
            Some((x, y)) => return Some((x, y)),
            None => {}
        }
    }
    None
}

/// Two operations of which both are known, if there are any.
pub(crate) fn find_clash(ops: &[Op], known: &Known) -> Option<(u32, u32)>
    requires kept { IsKept (problem_of ops.now) known.now }
    ensures { MatchOption result (IsConsistent (facts_in ops.now known.now))
        (λ (x, y). IsClash (facts_in ops.now known.now) x y) }
{
    for f in 0..count_of(ops) + 1 {
        match clash_in_row(ops, known, f) {
            Some((x, y)) => return Some((x, y)),
            None => {}
        }
    }
    None
}
