//! The records of one list, one after another.
ghost use Rattle.std.specs.Prelude.{◌≡◌, IfOk, ℕ};
ghost use Rattle.arr_law.specs.Plans.{price};
ghost use Rattle.arr_law.specs.ProblemOf.{problem_of};
ghost use Rattle.arr_law.specs.Verdict.{end_fault, AtHead, AtPlan};
ghost use Rattle.arr_check.specs.declared.tree.Tree.{Tree};
ghost use Rattle.arr_check.specs.Stages.{TurnsAt, TurnsBound, TurnsCost, TurnsFresh, TurnsTree, TurnsWhole};
ghost use Rattle.arr_check.specs.Steps.{IsTree};

use crate::NoMemory;
use crate::plan::{plan_fault, price};
use crate::tables::Tables;
use crate::tree::Tree;
use arr_law::{Record, Reject};

/// What comes next, and what of the records before it is still needed.
#[derive(Clone, Copy)]
pub(crate) enum Stage {
    /// The head.
    Head,
    /// The plan.
    Plan { version: u8 },
    /// What the plan costs.
    Cost { version: u8, price: u128 },
    /// The bound.
    Bound { version: u8, cost: u64 },
    /// The tree, and then the end.
    Tree { version: u8, cost: u64, bound: u64 },
    /// Nothing: all was read.
    Done { cost: u64, bound: u64 },
}

fn head(tables: &Tables, number: u32, entry: &Record) -> Result<Stage, Reject>
    ensures { TurnsFresh (problem_of tables.now) number AtHead entry.now result }
{
    match entry {
        Record::Flush {
            number: found,
            count,
            version,
        } => {
            if *found == number && *count == tables.count() {
                Ok(Stage::Plan { version: *version })
            } else {
                Err(Reject::BadHead)
            }
        }
        _ => Err(Reject::Misplaced),
    }
}

fn plan(tables: &Tables, version: u8, entry: &Record) -> Result<Stage, Reject>
    ensures { (number : ℕ) → TurnsFresh (problem_of tables.now) number (AtPlan version) entry.now result }
{
    match entry {
        Record::Plan(places) => match plan_fault(tables, places) {
            None => Ok(Stage::Cost {
                version,
                price: price(tables, places),
            }),
            Some(kind) => Err(kind),
        },
        _ => Err(Reject::Misplaced),
    }
}

fn cost(version: u8, spent: u128, entry: &Record) -> Result<Stage, Reject>
    ensures { TurnsCost version spent entry.now result }
{
    match entry {
        Record::Cost(cost) => {
            if u128::from(*cost) == spent {
                Ok(Stage::Bound {
                    version,
                    cost: *cost,
                })
            } else {
                Err(Reject::WrongCost)
            }
        }
        _ => Err(Reject::Misplaced),
    }
}

fn bound(version: u8, cost: u64, entry: &Record) -> Result<Stage, Reject>
    ensures { TurnsBound version cost entry.now result }
{
    match entry {
        Record::Bound(bound) => Ok(Stage::Tree {
            version,
            cost,
            bound: *bound,
        }),
        _ => Err(Reject::Misplaced),
    }
}

/// What is wrong with a record once the tree is whole.
fn end_fault(entry: &Record) -> Option<Reject>
    ensures { result ≡ end_fault entry.now }
{
    match entry {
        Record::End => None,
        Record::Step { .. } | Record::Branch { .. } | Record::Dead { .. } | Record::Worth(_) => {
            Some(Reject::Trailing)
        }
        _ => Some(Reject::Misplaced),
    }
}

fn end(cost: u64, bound: u64, entry: &Record) -> Result<Stage, Reject>
    ensures { TurnsWhole cost bound entry.now result }
{
    match end_fault(entry) {
        None => Ok(Stage::Done { cost, bound }),
        Some(kind) => Err(kind),
    }
}

/// A record of the tree, or the end of the certificate.
fn grow(
    tables: &Tables,
    version: u8,
    cost: u64,
    bound: u64,
    tree: &mut Tree,
    entry: &Record,
) -> Result<Result<Stage, Reject>, NoMemory>
    requires { IsTree (problem_of tables.now) tree.old }
    ensures turns { IfOk result (λ next. TurnsTree
        (problem_of tables.now) version cost bound tree.old tree.new entry.now next) }
    ensures tree { IfOk result (λ next. IfOk next (λ stage. IsTree (problem_of tables.now) tree.new)) }
{
    if tree.whole {
        return Ok(end(cost, bound, entry));
    }
    match tree.read(tables, version, bound, entry)? {
        Some(kind) => Ok(Err(kind)),
        None => Ok(Ok(Stage::Tree {
            version,
            cost,
            bound,
        })),
    }
}

/// Reads a record: what comes next, or what is wrong.
pub(crate) fn read(
    tables: &Tables,
    number: u32,
    stage: Stage,
    tree: &mut Tree,
    entry: &Record,
) -> Result<Result<Stage, Reject>, NoMemory>
    requires { IsTree (problem_of tables.now) tree.old }
    ensures turns { IfOk result (λ next. TurnsAt
        (problem_of tables.now) number stage tree.old tree.new entry.now next) }
    ensures tree { IfOk result (λ next. IfOk next (λ stage. IsTree (problem_of tables.now) tree.new)) }
{
    match stage {
        Stage::Head => Ok(head(tables, number, entry)),
        Stage::Plan { version } => Ok(plan(tables, version, entry)),
        Stage::Cost { version, price } => Ok(cost(version, price, entry)),
        Stage::Bound { version, cost } => Ok(bound(version, cost, entry)),
        Stage::Tree {
            version,
            cost,
            bound,
        } => grow(tables, version, cost, bound, tree, entry),
        Stage::Done { .. } => Ok(Err(Reject::Misplaced)),
    }
}
