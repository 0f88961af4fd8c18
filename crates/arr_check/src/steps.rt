//! Steps: what a rule gives.
ghost use Rattle.std.specs.Prelude.{◌≡◌, [], ◌==◌, ◌&&◌, ◌||◌, not, true, Some};
ghost use Rattle.std.specs.List.{list_all};
ghost use Rattle.arr_law.specs.declared.fact.Fact.TheVariants.{Before, Same};
ghost use Rattle.arr_law.specs.Problem.{is_op};
ghost use Rattle.arr_law.specs.ProblemOf.{problem_of};
ghost use Rattle.arr_law.specs.Rules.{rule_named};
ghost use Rattle.arr_ops.specs.Formed.{all_pairs};
ghost use Rattle.arr_check.specs.Known.{IsFine, known_of, knows};
ghost use Rattle.arr_check.specs.Steps.{free_rule_in, free_step, given_in, user_precedes, users_precede};

use crate::known::Known;
use crate::tables::Tables;
use arr_law::Fact;

fn are_ops(tables: &Tables, operations: &[u32]) -> bool
    ensures { result ≡ list_all (is_op (problem_of tables.now)) operations.now }
{
    operations.iter().all(|f| tables.is_op(*f))
}

fn is_new(first: u32, rest: &[u32]) -> bool
    ensures { result ≡ list_all (λ g. not (first == g)) rest.now }
{
    rest.iter().all(|g| !(first == *g))
}

fn are_different(operations: &[u32]) -> bool
    ensures { result ≡ all_pairs (λ f g. not (f == g)) operations.now }
{
    match operations {
        [] => true,
        [first, rest @ ..] => is_new(*first, rest) && are_different(rest),
    }
}

fn are_known(tables: &Tables, known: &Known, facts: &[Fact]) -> bool
    requires { IsFine (problem_of tables.now) known.now }
    ensures { result ≡ list_all (known_of (problem_of tables.now) known.now) facts.now }
{
    facts.iter().all(|x| known.has(tables, *x))
}

/// What a rule gives at some operations, where it applies.
fn conclusion(
    tables: &Tables,
    known: &Known,
    operations: &[u32],
    premises: &[Fact],
    gives: Fact,
) -> Option<Fact>
    requires { IsFine (problem_of tables.now) known.now }
    ensures { result ≡ given_in tables.now known.now
        (Some (record { operations = operations.now; premises = premises.now; gives = gives })) }
{
    if are_ops(tables, operations)
        && are_different(operations)
        && are_known(tables, known, premises)
        && !known.has(tables, gives)
    {
        Some(gives)
    } else {
        None
    }
}

/// Whether an operation that has a view of the base that `g` ends, and is neither `f` nor `g`, is known to stand before `f`.
fn is_served(tables: &Tables, known: &Known, u: u32, f: u32, g: u32) -> bool
    requires fine { IsFine (problem_of tables.now) known.now }
    requires user { is_op (problem_of tables.now) u ≡ true }
    requires free { is_op (problem_of tables.now) g ≡ true }
    ensures { result ≡ user_precedes (problem_of tables.now) (knows tables.now known.now) f g u }
{
    !(tables.ends_base_of(u, g) && u != f && u != g) || known.has(tables, Fact::Before(u, f))
}

/// Whether every other user of the base that `g` ends is known to stand before `f`.
fn are_before(tables: &Tables, known: &Known, f: u32, g: u32) -> bool
    requires fine { IsFine (problem_of tables.now) known.now }
    requires free { is_op (problem_of tables.now) g ≡ true }
    ensures { result ≡ users_precede (problem_of tables.now) (knows tables.now known.now) f g }
{
    for k in 0..tables.count() {
        if !is_served(tables, known, k + 1, f, g) {
            return false;
        }
    }
    true
}

/// Whether rule 9 applies: the FREE `g` joins `f`, the user that all others stand before.
fn may_join(tables: &Tables, known: &Known, version: u8, f: u32, g: u32) -> bool
    requires { IsFine (problem_of tables.now) known.now }
    ensures { result ≡ free_step (problem_of tables.now) version (knows tables.now known.now) f g }
{
    version == 2
        && tables.is_op(f)
        && tables.is_op(g)
        && f != g
        && tables.ends_base_of(f, g)
        && are_before(tables, known, f, g)
        && !known.has(tables, Fact::Same(f, g))
}

/// What rule 9 gives, where it applies.
fn given_by_free_rule(tables: &Tables, known: &Known, version: u8, f: u32, g: u32) -> Option<Fact>
    requires { IsFine (problem_of tables.now) known.now }
    ensures { result ≡ given_in tables.now known.now (free_rule_in (problem_of tables.now) version f g) }
{
    if may_join(tables, known, version, f, g) {
        Some(Fact::Same(f, g))
    } else {
        None
    }
}

/// What a step gives, where it is right.
pub(crate) fn step(
    tables: &Tables,
    known: &Known,
    version: u8,
    rule: u8,
    f: u32,
    g: u32,
    h: u32,
) -> Option<Fact>
    requires { IsFine (problem_of tables.now) known.now }
    ensures { result ≡ given_in tables.now known.now (rule_named (problem_of tables.now) version rule f g h) }
{
    use Fact::{Apart, Before, Same};
    match rule {
        3 => conclusion(tables, known, &[f, g], &[Same(f, g)], Before(f, g)),
        4 => conclusion(
            tables,
            known,
            &[f, g, h],
            &[Before(f, g), Before(g, h)],
            Before(f, h),
        ),
        5 => conclusion(
            tables,
            known,
            &[f, g],
            &[Before(f, g), Before(g, f)],
            Same(f, g),
        ),
        6 => conclusion(
            tables,
            known,
            &[f, g, h],
            &[Same(f, g), Apart(g, h)],
            Apart(f, h),
        ),
        7 => conclusion(
            tables,
            known,
            &[f, g, h],
            &[Before(f, g), Before(g, h), Apart(f, g)],
            Apart(f, h),
        ),
        8 => conclusion(
            tables,
            known,
            &[f, g, h],
            &[Before(f, g), Before(g, h), Apart(g, h)],
            Apart(f, h),
        ),
        9 => given_by_free_rule(tables, known, version, f, g),
        _ => None,
    }
}
