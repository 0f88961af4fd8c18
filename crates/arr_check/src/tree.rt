//! The tree of a certificate, record by record.
ghost use Rattle.std.specs.Prelude.{◌≡◌, IfOk, ℕ, false};
ghost use Rattle.arr_law.specs.declared.record.Record.TheVariants.{Branch, Dead, Worth};
ghost use Rattle.arr_law.specs.ProblemOf.{problem_of};
ghost use Rattle.arr_check.specs.Known.{IsFine, knows};
ghost use Rattle.arr_check.specs.Steps.{DoesMove, GoesBack, Grows, IsFresh, IsTree};

use crate::NoMemory;
use crate::known::Known;
use crate::leaf::{is_leaf, worth};
use crate::steps::step;
use crate::tables::Tables;
use arr_law::{Charges, Fact, Record, Reject};
use std::alloc::Global;

/// What comes after the first subtree of a branch: its second fact, on so many of the facts that are known.
#[derive(Clone, Copy)]
pub(crate) struct Waiting {
    pub(crate) mark: usize,
    pub(crate) second: Fact,
}

/// What a record of a tree does.
#[derive(Clone, Copy)]
enum Move {
    /// It is wrong.
    Wrong(Reject),
    /// One fact more is known.
    Add(Fact),
    /// Two subtrees follow, each with a fact of its own.
    Split(Fact, Fact),
    /// A subtree ends.
    Close,
}

/// A tree that is being read: what is known where the reading stands, the branches whose second subtree is still to come, and whether
/// all of it was read.
#[derive(Drop)]
pub(crate) struct Tree {
    pub(crate) known: Known,
    pub(crate) waits: Vec<Waiting>,
    pub(crate) whole: bool,
}

fn branch_move(tables: &Tables, known: &Known, f: u32, g: u32) -> Move
    requires { IsFine (problem_of tables.now) known.now }
    ensures { (version bound : ℕ) → DoesMove (problem_of tables.now) version bound (knows tables.now known.now)
        (Branch f g) result }
{
    if tables.is_op(f)
        && tables.is_op(g)
        && f < g
        && !known.has(tables, Fact::Same(f, g))
        && !known.has(tables, Fact::Apart(f, g))
    {
        Move::Split(Fact::Same(f, g), Fact::Apart(f, g))
    } else {
        Move::Wrong(Reject::BadBranch)
    }
}

fn dead_move(tables: &Tables, known: &Known, f: u32, g: u32) -> Move
    requires { IsFine (problem_of tables.now) known.now }
    ensures { (version bound : ℕ) → DoesMove (problem_of tables.now) version bound (knows tables.now known.now)
        (Dead f g) result }
{
    if f < g && known.has(tables, Fact::Same(f, g)) && known.has(tables, Fact::Apart(f, g)) {
        Move::Close
    } else {
        Move::Wrong(Reject::BadLeaf)
    }
}

fn worth_move(tables: &Tables, known: &Known, bound: u64, charges: &Charges) -> Move
    requires { IsFine (problem_of tables.now) known.now }
    ensures { (version : ℕ) → DoesMove (problem_of tables.now) version bound (knows tables.now known.now)
        (Worth charges.now) result }
{
    if !is_leaf(tables, known, charges) {
        return Move::Wrong(Reject::BadLeaf);
    }
    if bound <= worth(tables, known, charges) {
        Move::Close
    } else {
        Move::Wrong(Reject::WeakLeaf)
    }
}

/// What a record does under what is known.
fn move_of(tables: &Tables, known: &Known, version: u8, bound: u64, entry: &Record) -> Move
    requires { IsFine (problem_of tables.now) known.now }
    ensures { DoesMove (problem_of tables.now) version bound (knows tables.now known.now) entry.now result }
{
    match entry {
        Record::Step { rule, f, g, h } => match step(tables, known, version, *rule, *f, *g, *h) {
            Some(fact) => Move::Add(fact),
            None => Move::Wrong(Reject::BadStep),
        },
        Record::Branch { f, g } => branch_move(tables, known, *f, *g),
        Record::Dead { f, g } => dead_move(tables, known, *f, *g),
        Record::Worth(charges) => worth_move(tables, known, bound, charges),
        Record::End => Move::Wrong(Reject::Unfinished),
        _ => Move::Wrong(Reject::Misplaced),
    }
}

impl Tree {
    /// A tree of which nothing was read. Want of memory is its one refusal.
    pub(crate) fn new(alloc: Global, tables: &Tables) -> Result<Tree, NoMemory>
        ensures is { IfOk result (IsTree (problem_of tables.now)) }
        ensures root { IfOk result (λ tree. IsFresh (problem_of tables.now) tree) }
        ensures open { IfOk result (λ tree. tree.whole ≡ false) }
    {
        Ok(Tree {
            known: Known::new(alloc, tables)?,
            waits: Vec::new(alloc),
            whole: false,
        })
    }

    /// Ends a subtree: the next one that waits begins, or the tree is whole.
    fn close(&mut self, tables: &Tables) -> Result<(), NoMemory>
        requires tree { IsTree (problem_of tables.now) self.old }
        requires open { self.old.whole ≡ false }
        ensures tree { IfOk result (λ done. IsTree (problem_of tables.now) self.new) }
        ensures next { IfOk result (λ done. GoesBack (problem_of tables.now) self.old self.new) }
    {
        match self.waits.pop() {
            Some(next) => {
                self.known.undo_to(tables, next.mark);
                self.known.add(tables, next.second)?;
            }
            None => self.whole = true,
        }
        Ok(())
    }

    /// Reads a record of the tree: what is wrong with it, if anything is.
    pub(crate) fn read(
        &mut self,
        tables: &Tables,
        version: u8,
        bound: u64,
        entry: &Record,
    ) -> Result<Option<Reject>, NoMemory>
        requires tree { IsTree (problem_of tables.now) self.old }
        requires open { self.old.whole ≡ false }
        ensures { IfOk result (Grows (problem_of tables.now) version bound self.old self.new entry.now) }
    {
        match move_of(tables, &self.known, version, bound, entry) {
            Move::Wrong(fault) => return Ok(Some(fault)),
            Move::Add(fact) => self.known.add(tables, fact)?,
            Move::Split(first, second) => {
                self.waits.push(Waiting {
                    mark: self.known.trail.len(),
                    second,
                })?;
                self.known.add(tables, first)?;
            }
            Move::Close => self.close(tables)?,
        }
        Ok(None)
    }
}
