//! What the rules give.
ghost use Rattle.std.specs.Prelude.{◌≡◌, ◌<◌, ◌≤◌, ◌*◌, ◌+◌, ◌/◌, ◌&&◌, ℕ, Some, length, not, ◌==◌};
ghost use Rattle.std.specs.Int.{bit_at};
ghost use Rattle.std.specs.List.{list_all};
ghost use Rattle.arr_law.specs.Problem.{ends_base_of, is_op};
ghost use Rattle.arr_law.specs.ProblemOf.{problem_of};
ghost use Rattle.arr_law.specs.Rules.{free_rule, rule_named};
ghost use Rattle.arr_ops.specs.Formed.{all_pairs};
ghost use Rattle.arr_law.specs.declared.fact.Fact.TheVariants.{Before, Same};
ghost use Rattle.arr_state.specs.Kept.{IsKept};
ghost use Rattle.arr_state.specs.Rows.{bit};
ghost use Rattle.arr_state.specs.Steps.{given};
ghost use Rattle.arr_state.specs.Went.{facts_in};

use crate::known::{Known, count_of, has_bit, is_known, is_operation, row_word};
use crate::rows::{BEHIND, ENDS, USERS, put_bit};
use arr_law::Fact;
use arr_ops::Op;

fn are_operations(ops: &[Op], operations: &[u32]) -> bool
    ensures { result ≡ list_all (is_op (problem_of ops.now)) operations.now }
{
    operations.iter().all(|f| is_operation(ops, *f))
}

fn is_new(first: u32, rest: &[u32]) -> bool
    ensures { result ≡ list_all (λ g. not (first == g)) rest.now }
{
    rest.iter().all(|g| !(first == *g))
}

fn are_different(operations: &[u32]) -> bool
    ensures { result ≡ all_pairs (λ f g. not (f == g)) operations.now }
{
    match operations {
        [] => true,
        [first, rest @ ..] => is_new(*first, rest) && are_different(rest),
    }
}

fn are_known(ops: &[Op], known: &Known, facts: &[Fact]) -> bool
    requires kept { IsKept (problem_of ops.now) known.now }
    ensures { result ≡ list_all (facts_in ops.now known.now) facts.now }
{
    facts.iter().all(|x| is_known(ops, known, *x))
}

/// What a rule gives, where it applies.
fn conclusion(
    ops: &[Op],
    known: &Known,
    operations: &[u32],
    premises: &[Fact],
    gives: Fact,
) -> Option<Fact>
    requires kept { IsKept (problem_of ops.now) known.now }
    ensures { result ≡ given (problem_of ops.now) (facts_in ops.now known.now)
        (Some (record { operations = operations.now; premises = premises.now; gives = gives })) }
{
    if are_operations(ops, operations)
        && are_different(operations)
        && are_known(ops, known, premises)
        && !is_known(ops, known, gives)
    {
        Some(gives)
    } else {
        None
    }
}

/// A word with the bit of an operation cleared, if it is one of its bits.
fn without(word: u64, f: u32, i: u32) -> u64
    ensures { (k : ℕ) → k < 64 → bit_at result k ≡ bit (not (64 * i + k == f)) * bit_at word k }
{
    if f / 64 == i {
        put_bit(word, f % 64, false)
    } else {
        word
    }
}

/// Of 64 operations those, other than f and g, that have a view of the base that g ends and are not known to stand before f.
fn waiting(ops: &[Op], known: &Known, f: u32, g: u32, i: u32) -> u64
    requires kept { IsKept (problem_of ops.now) known.now }
    requires first { f ≤ length ops.now }
    requires second { g ≤ length ops.now }
    requires room { i ≤ length ops.now / 64 }
    ensures { (k : ℕ) → k < 64 → bit_at result k
        ≡ bit ((ends_base_of (problem_of ops.now) (64 * i + k) g && (not (64 * i + k == f) && not (64 * i + k == g)))
        && not (facts_in ops.now known.now (Before (64 * i + k) f))) }
{
    let users = row_word(ops, known, USERS, g, i);
    let before = row_word(ops, known, BEHIND, f, i);
    without(without(users & (users ^ before), f, i), g, i)
}

/// Whether each operation that has a view of the base that g ends, but f and g, is known to stand before f.
fn are_before(ops: &[Op], known: &Known, f: u32, g: u32) -> bool
    requires kept { IsKept (problem_of ops.now) known.now }
    requires first { f ≤ length ops.now }
    requires second { g ≤ length ops.now }
    ensures { result ≡ list_all (facts_in ops.now known.now) (free_rule (problem_of ops.now) f g).premises }
{
    for i in 0..count_of(ops) / 64 + 1 {
        if waiting(ops, known, f, g, i) != 0 {
            return false;
        }
    }
    true
}

/// Whether the FREE g joins f, the user that all other users stand before.
fn may_join(ops: &[Op], known: &Known, f: u32, g: u32) -> bool
    requires kept { IsKept (problem_of ops.now) known.now }
    ensures { result ≡ (is_op (problem_of ops.now) f
        && (is_op (problem_of ops.now) g && (not (f == g)
        && (ends_base_of (problem_of ops.now) f g
        && (list_all (facts_in ops.now known.now) (free_rule (problem_of ops.now) f g).premises
        && not (facts_in ops.now known.now (Same f g))))))) }
{
    is_operation(ops, f)
        && is_operation(ops, g)
        && f != g
        && has_bit(ops, known, ENDS, f, g)
        && are_before(ops, known, f, g)
        && !is_known(ops, known, Fact::Same(f, g))
}

/// What rule 9 gives, where it applies.
fn joined(ops: &[Op], known: &Known, f: u32, g: u32) -> Option<Fact>
    requires kept { IsKept (problem_of ops.now) known.now }
    ensures { result ≡ given (problem_of ops.now) (facts_in ops.now known.now)
        (rule_named (problem_of ops.now) 2 9 f g 0) }
{
    if may_join(ops, known, f, g) {
        Some(Fact::Same(f, g))
    } else {
        None
    }
}

/// What the rule of a number gives at some operations, where it applies (docs/CERTIFICATES.md, "Rules").
pub(crate) fn step(ops: &[Op], known: &Known, rule: u8, f: u32, g: u32, h: u32) -> Option<Fact>
    requires kept { IsKept (problem_of ops.now) known.now }
    ensures { result ≡ given (problem_of ops.now) (facts_in ops.now known.now)
        (rule_named (problem_of ops.now) 2 rule f g h) }
{
    use Fact::{Apart, Before, Same};
    match rule {
        3 => conclusion(ops, known, &[f, g], &[Same(f, g)], Before(f, g)),
        4 => conclusion(
            ops,
            known,
            &[f, g, h],
            &[Before(f, g), Before(g, h)],
            Before(f, h),
        ),
        5 => conclusion(
            ops,
            known,
            &[f, g],
            &[Before(f, g), Before(g, f)],
            Same(f, g),
        ),
        6 => conclusion(
            ops,
            known,
            &[f, g, h],
            &[Same(f, g), Apart(g, h)],
            Apart(f, h),
        ),
        7 => conclusion(
            ops,
            known,
            &[f, g, h],
            &[Before(f, g), Before(g, h), Apart(f, g)],
            Apart(f, h),
        ),
        8 => conclusion(
            ops,
            known,
            &[f, g, h],
            &[Before(f, g), Before(g, h), Apart(g, h)],
            Apart(f, h),
        ),
        9 => joined(ops, known, f, g),
        _ => None,
    }
}
