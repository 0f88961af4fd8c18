//! Saturation: steps until no rule gives a new fact, each fact worked off once, first come, first served.
ghost use Rattle.std.specs.Prelude.{◌≡◌, ◌<◌, ◌≤◌, ◌+◌, ◌*◌, ◌^◌, length, take, IfOk};
ghost use Rattle.arr_law.specs.Facts.{facts_of, root_facts};
ghost use Rattle.arr_law.specs.Floor.{IsClosed};
ghost use Rattle.arr_law.specs.ProblemOf.{problem_of};
ghost use Rattle.arr_state.specs.Jobs.{AllFreesBelow, AreTouched, Covered, FreesBelow, IsTouched, JobTried, JobsBelow, Tried, TriedAt, WordTried};
ghost use Rattle.arr_state.specs.Kept.{IsKept};
ghost use Rattle.arr_state.specs.Known.{HoldRoots};
ghost use Rattle.arr_state.specs.Sieves.{IsSieve};
ghost use Rattle.arr_state.specs.States.{IsEnded, Saturated, TookStep};
ghost use Rattle.arr_state.specs.Steps.{third};
ghost use Rattle.arr_state.specs.Went.{Goes, facts_in};

use crate::NoMemory;
use crate::clash::{clash_at, find_clash};
use crate::jobs::Job;
use crate::known::{Known, add, count_of};
use crate::outcome::{Going, Outcome};
use crate::rows::put_bit;
use crate::rules::step;
use crate::sift::{Sieve, is_idle, sieve_of, sifted};
use arr_law::{Fact, Record, Records};
use arr_ops::Op;

/// The third operation that a step names: rules 3, 5 and 9 take two, and name 0.
fn third_of(rule: u8, h: u32) -> u32
    ensures { result ≡ third rule h }
{
    if rule == 3 || rule == 5 || rule == 9 {
        0
    } else {
        h
    }
}

/// Tries one rule.
fn attempt(
    ops: &[Op],
    known: &mut Known,
    tree: &mut Records,
    left: u64,
    rule: u8,
    f: u32,
    g: u32,
    h: u32,
) -> Result<Going, NoMemory>
    requires kept { IsKept (problem_of ops.now) known.old }
    ensures kept { IsKept (problem_of ops.now) known.new }
    ensures went { IfOk result (Goes ops.now left known.old known.new tree.old tree.new
        (Tried (problem_of ops.now) rule f g h)) }
{
    match step(ops, known, rule, f, g, h) {
        None => Ok(Going::On(left)),
        Some(fact) => {
            if left == 0 {
                return Ok(Going::NoneLeft);
            }
            tree.push(Record::Step {
                rule,
                f,
                g,
                h: third_of(rule, h),
            })?;
            add(ops, known, fact)?;
            match clash_at(ops, known, fact) {
                Some((x, y)) => Ok(Going::Clash(x, y)),
                None => Ok(Going::On(left - 1)),
            }
        }
    }
}

/// Takes a step, if its rule applies.
pub(crate) fn take_step(
    ops: &[Op],
    known: &mut Known,
    tree: &mut Records,
    rule: u8,
    f: u32,
    g: u32,
    h: u32,
) -> Result<bool, NoMemory>
    requires kept { IsKept (problem_of ops.now) known.old }
    ensures kept { IsKept (problem_of ops.now) known.new }
    ensures does { IfOk result (λ taken. TookStep
        (problem_of ops.now) rule f g h known.old.facts.items known.new.facts.items tree.old tree.new taken) }
{
    match step(ops, known, rule, f, g, h) {
        None => Ok(false),
        Some(fact) => {
            tree.push(Record::Step {
                rule,
                f,
                g,
                h: third_of(rule, h),
            })?;
            add(ops, known, fact)?;
            Ok(true)
        }
    }
}

/// Tries a job's rule with one operation in the job's open place.
fn try_at(
    ops: &[Op],
    known: &mut Known,
    tree: &mut Records,
    left: u64,
    job: Job,
    c: u32,
) -> Result<Going, NoMemory>
    requires kept { IsKept (problem_of ops.now) known.old }
    ensures kept { IsKept (problem_of ops.now) known.new }
    ensures went { IfOk result (Goes ops.now left known.old known.new tree.old tree.new
        (TriedAt (problem_of ops.now) job c)) }
{
    match job {
        Job::Two(rule, f, g) => attempt(ops, known, tree, left, rule, f, g, 0),
        Job::Behind(rule, f, g) => attempt(ops, known, tree, left, rule, f, g, c),
        Job::Front(rule, g, h) => attempt(ops, known, tree, left, rule, c, g, h),
        Job::Frees(_, f) => attempt(ops, known, tree, left, 9, f, c, 0),
    }
}

/// Tries a job with each operation whose bit in a word is 1.
fn try_word(
    ops: &[Op],
    known: &mut Known,
    tree: &mut Records,
    mut left: u64,
    job: Job,
    base: u32,
    word: u64,
) -> Result<Going, NoMemory>
    requires kept { IsKept (problem_of ops.now) known.old }
    requires small { base < 2 ^ 17 }
    ensures kept { IsKept (problem_of ops.now) known.new }
    ensures went { IfOk result (Goes ops.now left known.old known.new tree.old tree.new
        (WordTried (problem_of ops.now) job base word)) }
{
    let mut bits = word;
    while bits != 0 {
        let k = bits.trailing_zeros();
        match try_at(ops, known, tree, left, job, base + k)? {
            Going::On(rest) => left = rest,
            Going::Clash(x, y) => return Ok(Going::Clash(x, y)),
            Going::NoneLeft => return Ok(Going::NoneLeft),
        }
        bits = put_bit(bits, k, false);
    }
    Ok(Going::On(left))
}

/// Tries a job with each operation that its sieve leaves.
fn try_rows(
    ops: &[Op],
    known: &mut Known,
    tree: &mut Records,
    mut left: u64,
    job: Job,
    sieve: Sieve,
) -> Result<Going, NoMemory>
    requires kept { IsKept (problem_of ops.now) known.old }
    requires sieve { IsSieve (problem_of ops.now) job sieve }
    ensures kept { IsKept (problem_of ops.now) known.new }
    ensures went { IfOk result (Goes ops.now left known.old known.new tree.old tree.new
        (JobTried (problem_of ops.now) job)) }
{
    for i in 0..count_of(ops) / 64 + 1 {
        let word = sifted(ops, known, sieve, i);
        match try_word(ops, known, tree, left, job, 64 * i, word)? {
            Going::On(rest) => left = rest,
            Going::Clash(x, y) => return Ok(Going::Clash(x, y)),
            Going::NoneLeft => return Ok(Going::NoneLeft),
        }
    }
    Ok(Going::On(left))
}

/// Tries a job with each operation.
fn try_each(
    ops: &[Op],
    known: &mut Known,
    tree: &mut Records,
    mut left: u64,
    job: Job,
) -> Result<Going, NoMemory>
    requires kept { IsKept (problem_of ops.now) known.old }
    ensures kept { IsKept (problem_of ops.now) known.new }
    ensures went { IfOk result (Goes ops.now left known.old known.new tree.old tree.new
        (JobTried (problem_of ops.now) job)) }
{
    for c in 0..count_of(ops) + 1 {
        match try_at(ops, known, tree, left, job, c)? {
            Going::On(rest) => left = rest,
            Going::Clash(x, y) => return Ok(Going::Clash(x, y)),
            Going::NoneLeft => return Ok(Going::NoneLeft),
        }
    }
    Ok(Going::On(left))
}

/// Does one job.
fn try_job(
    ops: &[Op],
    known: &mut Known,
    tree: &mut Records,
    left: u64,
    job: Job,
) -> Result<Going, NoMemory>
    requires kept { IsKept (problem_of ops.now) known.old }
    ensures kept { IsKept (problem_of ops.now) known.new }
    ensures went { IfOk result (Goes ops.now left known.old known.new tree.old tree.new
        (JobTried (problem_of ops.now) job)) }
{
    if let Job::Two(rule, f, g) = job {
        return attempt(ops, known, tree, left, rule, f, g, 0);
    }
    if is_idle(ops, known, job) {
        return Ok(Going::On(left));
    }
    match sieve_of(ops, job) {
        Some(sieve) => try_rows(ops, known, tree, left, job, sieve),
        None => try_each(ops, known, tree, left, job),
    }
}

/// Does jobs one after another.
fn try_jobs(
    ops: &[Op],
    known: &mut Known,
    tree: &mut Records,
    mut left: u64,
    jobs: &[Job],
) -> Result<Going, NoMemory>
    requires kept { IsKept (problem_of ops.now) known.old }
    ensures kept { IsKept (problem_of ops.now) known.new }
    ensures went { IfOk result (Goes ops.now left known.old known.new tree.old tree.new
        (JobsBelow (problem_of ops.now) (length jobs.now) jobs.now)) }
{
    for job in jobs {
        match try_job(ops, known, tree, left, *job)? {
            Going::On(rest) => left = rest,
            Going::Clash(x, y) => return Ok(Going::Clash(x, y)),
            Going::NoneLeft => return Ok(Going::NoneLeft),
        }
    }
    Ok(Going::On(left))
}

/// Tries each rule at each place at which a fact can stand as a premise.
fn touch(
    ops: &[Op],
    known: &mut Known,
    tree: &mut Records,
    left: u64,
    fact: Fact,
) -> Result<Going, NoMemory>
    requires kept { IsKept (problem_of ops.now) known.old }
    ensures kept { IsKept (problem_of ops.now) known.new }
    ensures went { IfOk result (Goes ops.now left known.old known.new tree.old tree.new
        (IsTouched (problem_of ops.now) fact)) }
{
    use Job::{Behind, Frees, Front, Two};
    match fact {
        Fact::Same(a, b) => {
            let jobs = [Two(3, a, b), Two(3, b, a), Behind(6, a, b), Behind(6, b, a)];
            try_jobs(ops, known, tree, left, &jobs)
        }
        Fact::Apart(a, b) => {
            let jobs = [
                Front(6, a, b),
                Front(6, b, a),
                Behind(7, a, b),
                Behind(7, b, a),
                Front(8, a, b),
                Front(8, b, a),
            ];
            try_jobs(ops, known, tree, left, &jobs)
        }
        Fact::Before(a, b) => {
            let jobs = [
                Two(5, a, b),
                Two(5, b, a),
                Behind(4, a, b),
                Front(4, a, b),
                Behind(7, a, b),
                Front(7, a, b),
                Behind(8, a, b),
                Front(8, a, b),
                Frees(a, b),
            ];
            try_jobs(ops, known, tree, left, &jobs)
        }
    }
}

/// Tries all that the facts that the list alone gives can be premises of.
fn touch_roots(
    ops: &[Op],
    known: &mut Known,
    tree: &mut Records,
    mut left: u64,
    roots: &[Fact],
) -> Result<Going, NoMemory>
    requires kept { IsKept (problem_of ops.now) known.old }
    ensures kept { IsKept (problem_of ops.now) known.new }
    ensures went { IfOk result (Goes ops.now left known.old known.new tree.old tree.new
        (AreTouched (problem_of ops.now) roots.now)) }
{
    for fact in roots {
        match touch(ops, known, tree, left, *fact)? {
            Going::On(rest) => left = rest,
            Going::Clash(x, y) => return Ok(Going::Clash(x, y)),
            Going::NoneLeft => return Ok(Going::NoneLeft),
        }
    }
    Ok(Going::On(left))
}

/// Tries rule 9 at one operation and each FREE.
fn try_frees(
    ops: &[Op],
    known: &mut Known,
    tree: &mut Records,
    mut left: u64,
    f: u32,
) -> Result<Going, NoMemory>
    requires kept { IsKept (problem_of ops.now) known.old }
    ensures kept { IsKept (problem_of ops.now) known.new }
    ensures went { IfOk result (Goes ops.now left known.old known.new tree.old tree.new
        (FreesBelow (problem_of ops.now) (length ops.now + 1) f)) }
{
    for g in 0..count_of(ops) + 1 {
        match attempt(ops, known, tree, left, 9, f, g, 0)? {
            Going::On(rest) => left = rest,
            Going::Clash(x, y) => return Ok(Going::Clash(x, y)),
            Going::NoneLeft => return Ok(Going::NoneLeft),
        }
    }
    Ok(Going::On(left))
}

/// Tries rule 9 everywhere, since it may have no premise.
fn try_all_frees(
    ops: &[Op],
    known: &mut Known,
    tree: &mut Records,
    mut left: u64,
) -> Result<Going, NoMemory>
    requires kept { IsKept (problem_of ops.now) known.old }
    ensures kept { IsKept (problem_of ops.now) known.new }
    ensures went { IfOk result (Goes ops.now left known.old known.new tree.old tree.new
        (AllFreesBelow (problem_of ops.now) (length ops.now + 1))) }
{
    for f in 0..count_of(ops) + 1 {
        match try_frees(ops, known, tree, left, f)? {
            Going::On(rest) => left = rest,
            Going::Clash(x, y) => return Ok(Going::Clash(x, y)),
            Going::NoneLeft => return Ok(Going::NoneLeft),
        }
    }
    Ok(Going::On(left))
}

/// Works off the facts from the one numbered `head` on, counted from 0.
fn work_off(
    ops: &[Op],
    known: &mut Known,
    tree: &mut Records,
    mut left: u64,
    mut head: usize,
) -> Result<Going, NoMemory>
    requires kept { IsKept (problem_of ops.now) known.old }
    requires within { head ≤ length known.old.facts.items }
    requires covered { Covered (problem_of ops.now) (facts_of (problem_of ops.now) (take head known.old.facts.items))
        (facts_in ops.now known.old) }
    ensures kept { IsKept (problem_of ops.now) known.new }
    ensures went { IfOk result (Goes ops.now left known.old known.new tree.old tree.new
        (λ before after. IsClosed (problem_of ops.now) after)) }
{
    while head < known.facts.len() {
        let fact = known.facts[head];
        match touch(ops, known, tree, left, fact)? {
            Going::On(rest) => left = rest,
            Going::Clash(x, y) => return Ok(Going::Clash(x, y)),
            Going::NoneLeft => return Ok(Going::NoneLeft),
        }
        head += 1;
    }
    Ok(Going::On(left))
}

/// Tries all that has its premises among the facts that the list alone gives.
fn start(
    ops: &[Op],
    known: &mut Known,
    tree: &mut Records,
    left: u64,
    roots: &[Fact],
) -> Result<Going, NoMemory>
    requires kept { IsKept (problem_of ops.now) known.old }
    requires roots { HoldRoots (problem_of ops.now) roots.now }
    ensures kept { IsKept (problem_of ops.now) known.new }
    ensures went { IfOk result (Goes ops.now left known.old known.new tree.old tree.new
        (λ before after. Covered (problem_of ops.now) (root_facts (problem_of ops.now)) after)) }
{
    match touch_roots(ops, known, tree, left, roots)? {
        Going::On(rest) => try_all_frees(ops, known, tree, rest),
        Going::Clash(x, y) => Ok(Going::Clash(x, y)),
        Going::NoneLeft => Ok(Going::NoneLeft),
    }
}

/// Appends steps until no rule gives a new fact.
fn settle(
    ops: &[Op],
    known: &mut Known,
    tree: &mut Records,
    left: u64,
    roots: &[Fact],
) -> Result<Going, NoMemory>
    requires kept { IsKept (problem_of ops.now) known.old }
    requires roots { HoldRoots (problem_of ops.now) roots.now }
    ensures kept { IsKept (problem_of ops.now) known.new }
    ensures went { IfOk result (Goes ops.now left known.old known.new tree.old tree.new
        (λ before after. IsClosed (problem_of ops.now) after)) }
{
    let count = known.closed.len();
    if count > 0 {
        let head = known.closed[count - 1];
        return work_off(ops, known, tree, left, head);
    }
    match start(ops, known, tree, left, roots)? {
        Going::On(rest) => work_off(ops, known, tree, rest, 0),
        Going::Clash(x, y) => Ok(Going::Clash(x, y)),
        Going::NoneLeft => Ok(Going::NoneLeft),
    }
}

/// An outcome, or the contradiction that is known.
fn ended(ops: &[Op], known: &Known, outcome: Outcome) -> Outcome
    requires kept { IsKept (problem_of ops.now) known.now }
    ensures { IsEnded (facts_in ops.now known.now) outcome result }
{
    match find_clash(ops, known) {
        Some((f, g)) => Outcome::Contradiction(f, g),
        None => outcome,
    }
}

/// Appends steps until no rule gives a new fact, a pair is both Same and Apart, or the budget is spent.
pub(crate) fn saturate(
    ops: &[Op],
    roots: &[Fact],
    known: &mut Known,
    tree: &mut Records,
    budget: u64,
) -> Result<Outcome, NoMemory>
    requires kept { IsKept (problem_of ops.now) known.old }
    requires roots { HoldRoots (problem_of ops.now) roots.now }
    ensures kept { IsKept (problem_of ops.now) known.new }
    ensures does { IfOk result (λ outcome. Saturated
        (problem_of ops.now) budget known.old.facts.items known.new.facts.items tree.old tree.new outcome) }
{
    match settle(ops, known, tree, budget, roots)? {
        Going::On(_) => {
            known.closed.push(known.facts.len())?;
            Ok(ended(ops, known, Outcome::Closed))
        }
        Going::Clash(f, g) => Ok(Outcome::Contradiction(f, g)),
        Going::NoneLeft => Ok(ended(ops, known, Outcome::Spent)),
    }
}
