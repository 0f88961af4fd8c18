//! The facts that are known at a place of a tree.
ghost use Rattle.std.specs.Prelude.{◌≡◌, ◌≤◌, ◌<◌, ◌++◌, ◌+◌, ◌-◌, ◌*◌, [], ◌∷◌, IfOk, true, false, length, take};
ghost use Rattle.arr_law.specs.Facts.{root_facts};
ghost use Rattle.arr_law.specs.Problem.{is_op, is_pair};
ghost use Rattle.arr_law.specs.ProblemOf.{problem_of};
ghost use Rattle.arr_check.specs.Known.{are_ops, known_of, marks_with, slot, turned, IsFine};

use crate::NoMemory;
use crate::tables::Tables;
use arr_law::Fact;
use std::alloc::Global;

/// The facts that were added to those that the list alone gives, in the order in which they came, and a mark for each fact that may be
/// among them.
#[derive(Drop)]
pub(crate) struct Known {
    pub(crate) trail: Vec<Fact>,
    pub(crate) marks: Vec<bool>,
}

fn place(tables: &Tables, f: u32, g: u32) -> usize
    requires first { is_op (problem_of tables.now) f ≡ true }
    requires second { is_op (problem_of tables.now) g ≡ true }
    ensures place { result ≡ (f - 1) * (problem_of tables.now).count + (g - 1) }
    ensures within { result < (problem_of tables.now).count * (problem_of tables.now).count }
{
    (f - 1) as usize * tables.count() as usize + (g - 1) as usize
}

/// Where the mark of a fact stands.
fn slot_of(tables: &Tables, fact: Fact) -> usize
    requires { are_ops (problem_of tables.now) fact ≡ true }
    ensures place { result ≡ slot (problem_of tables.now).count fact }
    ensures within { result < 3 * ((problem_of tables.now).count * (problem_of tables.now).count) }
{
    let all = tables.count() as usize * tables.count() as usize;
    match fact {
        Fact::Same(f, g) => place(tables, f, g),
        Fact::Apart(f, g) => all + place(tables, f, g),
        Fact::Before(f, g) => 2 * all + place(tables, f, g),
    }
}

fn are_ops(tables: &Tables, fact: Fact) -> bool
    ensures { result ≡ are_ops (problem_of tables.now) fact }
{
    match fact {
        Fact::Same(f, g) => tables.is_op(f) && tables.is_op(g),
        Fact::Apart(f, g) => tables.is_op(f) && tables.is_op(g),
        Fact::Before(f, g) => tables.is_op(f) && tables.is_op(g),
    }
}

/// Whether two numbers are those of two different operations.
pub(crate) fn is_pair(tables: &Tables, f: u32, g: u32) -> bool
    ensures { result ≡ is_pair (problem_of tables.now) f g }
{
    tables.is_op(f) && tables.is_op(g) && f != g
}

/// Whether the list alone gives a fact.
fn is_root(tables: &Tables, fact: Fact) -> bool
    ensures { result ≡ root_facts (problem_of tables.now) fact }
{
    match fact {
        Fact::Same(_, _) => false,
        Fact::Apart(f, g) => is_pair(tables, f, g) && !tables.fusible(f, g),
        Fact::Before(f, g) => is_pair(tables, f, g) && tables.dep(f, g),
    }
}

fn turn(fact: Fact) -> Fact
    ensures { result ≡ turned fact }
{
    match fact {
        Fact::Same(f, g) => Fact::Same(g, f),
        Fact::Apart(f, g) => Fact::Apart(g, f),
        Fact::Before(f, g) => Fact::Before(f, g),
    }
}

/// Sets the marks of a fact: those of both its spellings.
fn set_marks(tables: &Tables, marks: &mut Vec<bool>, fact: Fact, value: bool)
    requires long { length marks.old.items ≡ 3 * ((problem_of tables.now).count * (problem_of tables.now).count) }
    requires ops { are_ops (problem_of tables.now) fact ≡ true }
    requires turned { are_ops (problem_of tables.now) (turned fact) ≡ true }
    ensures { marks.new.items ≡ marks_with (problem_of tables.now).count fact value marks.old.items }
{
    let here = slot_of(tables, fact);
    let there = slot_of(tables, turn(fact));
    marks[here] = value;
    marks[there] = value;
}

impl Known {
    /// The facts that the list alone gives. Want of memory is its one refusal.
    pub(crate) fn new(alloc: Global, tables: &Tables) -> Result<Known, NoMemory>
        ensures none { IfOk result (λ known. known.trail.items ≡ []) }
        ensures fine { IfOk result (IsFine (problem_of tables.now)) }
    {
        let all = tables.count() as usize * tables.count() as usize;
        Ok(Known {
            trail: Vec::new(alloc),
            marks: vec![in alloc; false; 3 * all]?,
        })
    }

    /// Whether a fact is known.
    pub(crate) fn has(&self, tables: &Tables, fact: Fact) -> bool
        requires { IsFine (problem_of tables.now) self.now }
        ensures { result ≡ known_of (problem_of tables.now) self.now fact }
    {
        if !are_ops(tables, fact) {
            return false;
        }
        self.marks[slot_of(tables, fact)] || is_root(tables, fact)
    }

    /// Adds a fact that is new.
    pub(crate) fn add(&mut self, tables: &Tables, fact: Fact) -> Result<(), NoMemory>
        requires fine { IsFine (problem_of tables.now) self.old }
        requires ops { are_ops (problem_of tables.now) fact ≡ true }
        requires new { known_of (problem_of tables.now) self.old fact ≡ false }
        ensures is { IfOk result (λ done. self.new.trail.items ≡ self.old.trail.items ++ fact ∷ []) }
        ensures fine { IfOk result (λ done. IsFine (problem_of tables.now) self.new) }
    {
        self.trail.push(fact)?;
        set_marks(tables, &mut self.marks, fact, true);
        Ok(())
    }

    /// Goes back to the first facts, so many.
    pub(crate) fn undo_to(&mut self, tables: &Tables, mark: usize)
        requires fine { IsFine (problem_of tables.now) self.old }
        requires within { mark ≤ length self.old.trail.items }
        ensures kept { self.new.trail.items ≡ take mark self.old.trail.items }
        ensures fine { IsFine (problem_of tables.now) self.new }
    {
        while self.trail.len() > mark {
            match self.trail.pop() {
                Some(fact) => set_marks(tables, &mut self.marks, fact, false),
                None => return,
            }
        }
    }
}
