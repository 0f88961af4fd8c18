//! Leaves by worth.
ghost use Rattle.std.specs.Prelude.{◌≡◌, ◌<◌, ◌+◌, ◌-◌, ◌^◌, ◌==◌, ◌&&◌, not, true, drop, min, nat_lt};
ghost use Rattle.std.specs.List.{list_all};
ghost use Rattle.arr_law.specs.declared.fact.Fact.TheVariants.{Apart};
ghost use Rattle.arr_law.specs.Leaves.{class_of, is_apart, is_group, is_leaf, surely_charges, worth};
ghost use Rattle.arr_law.specs.Problem.{is_op};
ghost use Rattle.arr_law.specs.ProblemOf.{problem_of};
ghost use Rattle.arr_ops.specs.Formed.{all_pairs};
ghost use Rattle.arr_check.specs.Known.{IsFine, knows};
ghost use Rattle.arr_check.specs.Leaves.{classes_differ};

use crate::known::Known;
use crate::tables::Tables;
use arr_law::{Charge, Charges, Fact, OpList};

/// Whether an operation is known to stand in another block than one that may be there.
fn is_apart(tables: &Tables, known: &Known, f: u32, other: Option<u32>) -> bool
    requires { IsFine (problem_of tables.now) known.now }
    ensures { result ≡ is_apart (knows tables.now known.now) f other }
{
    match other {
        Some(g) => known.has(tables, Fact::Apart(f, g)),
        None => true,
    }
}

/// Whether the block of an operation surely pays for a class.
fn surely_charges(tables: &Tables, known: &Known, f: u32, c: u32) -> bool
    requires fine { IsFine (problem_of tables.now) known.now }
    requires op { is_op (problem_of tables.now) f ≡ true }
    requires class { c < (problem_of tables.now).classes }
    ensures { result ≡ surely_charges (problem_of tables.now) (knows tables.now known.now) f c }
{
    (tables.reads(f, c) && is_apart(tables, known, f, tables.creator(c)))
        || (tables.writes(f, c) && is_apart(tables, known, f, tables.freer(c)))
}

/// The class of the view that a group names; the number of classes where it names none.
fn class_of(tables: &Tables, charge: &Charge) -> u32
    ensures { result ≡ class_of (problem_of tables.now) charge.now }
{
    if charge.ops.len() == 0 {
        return tables.classes();
    }
    let first = *charge.ops.at(0);
    if !tables.is_op(first) {
        return tables.classes();
    }
    match tables.class(first, charge.operand) {
        Some(class) => class,
        None => tables.classes(),
    }
}

fn all_ops(tables: &Tables, ops: &OpList) -> bool
    ensures { result ≡ list_all (is_op (problem_of tables.now)) ops.now }
{
    for at in 0..ops.len() {
        if !tables.is_op(*ops.at(at)) {
            return false;
        }
    }
    true
}

/// Whether an operation has a less number than each of a list from a place on, and is known to stand in another block.
fn is_before(tables: &Tables, known: &Known, f: u32, ops: &OpList, from: usize) -> bool
    requires { IsFine (problem_of tables.now) known.now }
    ensures { result ≡ list_all (λ g. nat_lt f g && knows tables.now known.now (Apart f g)) (drop from ops.now) }
{
    for at in from..ops.len() {
        let g = *ops.at(at);
        if f >= g {
            return false;
        }
        if !known.has(tables, Fact::Apart(f, g)) {
            return false;
        }
    }
    true
}

/// Whether the operations rise and are known to stand in different blocks.
fn stand_apart(tables: &Tables, known: &Known, ops: &OpList) -> bool
    requires { IsFine (problem_of tables.now) known.now }
    ensures { result ≡ all_pairs (λ f g. nat_lt f g && knows tables.now known.now (Apart f g)) ops.now }
{
    for at in 0..ops.len() {
        if !is_before(tables, known, *ops.at(at), ops, at + 1) {
            return false;
        }
    }
    true
}

fn all_charge(tables: &Tables, known: &Known, ops: &OpList, c: u32) -> bool
    requires fine { IsFine (problem_of tables.now) known.now }
    requires ops { list_all (is_op (problem_of tables.now)) ops.now ≡ true }
    requires class { c < (problem_of tables.now).classes }
    ensures { result ≡ list_all (λ f. surely_charges (problem_of tables.now) (knows tables.now known.now) f c) ops.now }
{
    for at in 0..ops.len() {
        if !surely_charges(tables, known, *ops.at(at), c) {
            return false;
        }
    }
    true
}

/// Whether a group names a view, and ascending operations in different blocks that each surely pay for it.
fn is_group(tables: &Tables, known: &Known, charge: &Charge) -> bool
    requires { IsFine (problem_of tables.now) known.now }
    ensures { result ≡ is_group (problem_of tables.now) (knows tables.now known.now) charge.now }
{
    let class = class_of(tables, charge);
    if class >= tables.classes() {
        return false;
    }
    if !all_ops(tables, &charge.ops) {
        return false;
    }
    stand_apart(tables, known, &charge.ops) && all_charge(tables, known, &charge.ops, class)
}

fn all_groups(tables: &Tables, known: &Known, charges: &Charges) -> bool
    requires { IsFine (problem_of tables.now) known.now }
    ensures { result ≡ list_all (is_group (problem_of tables.now) (knows tables.now known.now)) charges.now }
{
    for at in 0..charges.len() {
        if !is_group(tables, known, charges.at(at)) {
            return false;
        }
    }
    true
}

/// Whether no group of a list from a place on names a view of a class.
fn is_alone(tables: &Tables, class: u32, charges: &Charges, from: usize) -> bool
    ensures { result ≡ list_all (λ b. not (class == class_of (problem_of tables.now) b)) (drop from charges.now) }
{
    for at in from..charges.len() {
        if class == class_of(tables, charges.at(at)) {
            return false;
        }
    }
    true
}

/// Whether no two groups name views of one class.
fn are_different(tables: &Tables, charges: &Charges) -> bool
    ensures { result ≡ classes_differ (problem_of tables.now) charges.now }
{
    for at in 0..charges.len() {
        if !is_alone(tables, class_of(tables, charges.at(at)), charges, at + 1) {
            return false;
        }
    }
    true
}

/// Whether the groups are a lawful leaf.
pub(crate) fn is_leaf(tables: &Tables, known: &Known, charges: &Charges) -> bool
    requires { IsFine (problem_of tables.now) known.now }
    ensures { result ≡ is_leaf (problem_of tables.now) (knows tables.now known.now) charges.now }
{
    all_groups(tables, known, charges) && are_different(tables, charges)
}

/// What a class weighs; 0 where there is no such class.
fn weight_of(tables: &Tables, class: u32) -> u64
    ensures { class < (problem_of tables.now).classes → result ≡ (problem_of tables.now).weight class }
{
    if class < tables.classes() {
        tables.weight(class)
    } else {
        0
    }
}

/// What a lawful leaf is worth, in bytes, or `u64::MAX` where that is less.
pub(crate) fn worth(tables: &Tables, known: &Known, charges: &Charges) -> u64
    requires { is_leaf (problem_of tables.now) (knows tables.now known.now) charges.now ≡ true }
    ensures { result ≡ min (worth (problem_of tables.now) charges.now) (2 ^ 64 - 1) }
{
    let mut total: u64 = 0;
    for at in 0..charges.len() {
        let charge = charges.at(at);
        let weight = weight_of(tables, class_of(tables, charge));
        total = total.saturating_add(weight.saturating_mul(charge.ops.len() as u64));
    }
    total
}
