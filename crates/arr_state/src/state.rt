//! What is known of where the operations of a list stand.
ghost use Rattle.std.specs.Prelude.{◌≡◌, ◌≤◌, ◌+◌, ◌*◌, ◌/◌, ◌++◌, ◌∷◌, [], cond, false, IfOk, IsTrue, OnErr, OnOk, length, take};
ghost use Rattle.arr_law.specs.Problem.{is_pair};
ghost use Rattle.arr_law.specs.ProblemOf.{problem_of};
ghost use Rattle.arr_law.specs.declared.fact.Fact.{Fact};
ghost use Rattle.arr_law.specs.declared.fact.Fact.TheVariants.{Apart, Same};
ghost use Rattle.arr_state.specs.Known.{AreOps};
ghost use Rattle.arr_state.specs.Rows.{AreApart};
ghost use Rattle.arr_state.specs.States.{Saturated, TookStep, known};

use crate::NoMemory;
use crate::known::{Known, add, count_of, go_back, is_known};
use crate::opening::{opened, ops_of, roots_of};
use crate::outcome::Outcome;
use crate::rows::{APART, row_start};
use crate::saturation::{saturate, take_step};
use arr_deps::Graph;
use arr_law::{Fact, Records};
use arr_ops::Op;
use std::alloc::Global;
use std::marker::Model;

/// What is known of where the operations of a list stand in a plan (docs/CERTIFICATES.md, "Derivation"). A contract sees the list, and the
/// decisions and the facts of steps in the order in which they came; known are these and what the list alone gives.
#[derive(Drop)]
pub struct State {
    ops: Vec<Op>,
    roots: Vec<Fact>,
    held: Known,
}

impl Model for State {
    ghost use Rattle.std.specs.Prelude.{◌≡◌, ◌≤◌};
    ghost use Rattle.arr_law.specs.ProblemOf.{problem_of};
    ghost use Rattle.arr_state.specs.Kept.{IsKept};
    ghost use Rattle.arr_state.specs.Known.{HoldRoots};
    ghost use Rattle.arr_state.specs.States.{Standing};

    ghost Value = { Standing };

    ghost view = { λ s. record { list = s.ops.items; trail = s.held.facts.items } };

    ghost invariant = { λ s. (HoldRoots (problem_of s.ops.items) s.roots.items) × (IsKept (problem_of s.ops.items) s.held) };
}

impl State {
    /// A state of a graph's list, in which what the list alone gives is known. Want of memory is its one refusal
    /// (docs/CERTIFICATES.md, "Facts").
    pub fn new(alloc: Global, graph: &Graph) -> Result<State, NoMemory>
        ensures { IfOk result (λ state. state ≡ record { list = graph.now; trail = [] }) }
    {
        let ops = ops_of(alloc, graph)?;
        let roots = roots_of(alloc, graph)?;
        let held = opened(alloc, ops.as_slice(), roots.as_slice())?;
        Ok(State { ops, roots, held })
    }

    /// Whether a fact is known, Same and Apart in either order of the two operations (docs/CERTIFICATES.md, "Facts"). It takes no memory.
    pub fn known(&self, fact: Fact) -> bool
        ensures { result ≡ known self.now fact }
    {
        is_known(self.ops.as_slice(), &self.held, fact)
    }

    /// Which operations are known to stand apart, as rows of words one behind another: with n the length of the list, bit g % 64 of the word
    /// f * (n / 64 + 1) + g / 64 is set exactly where that is known of operations f and g (docs/CERTIFICATES.md, "Facts"). It takes no memory.
    pub fn apart_rows(&self) -> &[u64]
        ensures long { length result.now ≡ (length self.now.list + 1) * (length self.now.list / 64 + 1) }
        ensures told { AreApart (length self.now.list) (known self.now) result.now }
    {
        let size = row_start(count_of(self.ops.as_slice()), APART, 0);
        let (_, behind) = self.held.rows.as_slice().split_at(size);
        let (rows, _) = behind.split_at(size);
        rows
    }

    /// How many decisions and facts of steps there are, for `undo_to`. It takes no memory.
    pub fn mark(&self) -> u64
        ensures { result ≡ length self.now.trail }
    {
        self.held.facts.len() as u64
    }

    /// Takes back what came after a mark. It takes no memory.
    pub fn undo_to(&mut self, mark: u64)
        requires within { mark ≤ length self.old.trail }
        ensures list { self.new.list ≡ self.old.list }
        ensures trail { self.new.trail ≡ take mark self.old.trail }
    {
        go_back(self.ops.as_slice(), &mut self.held, mark as usize);
    }

    /// Adds the decision that two operations of the list stand in one block, or that they don't, of which neither is known. Where memory is
    /// wanting, an error: the state is as it was.
    pub fn decide(&mut self, f: u32, g: u32, same: bool) -> Result<(), NoMemory>
        requires pair { IsTrue (is_pair (problem_of self.old.list) f g) }
        requires together { known self.old (Same f g) ≡ false }
        requires apart { known self.old (Apart f g) ≡ false }
        ensures list { self.new.list ≡ self.old.list }
        ensures ok { OnOk result (self.new.trail ≡ self.old.trail ++ cond same (Same f g) (Apart f g) ∷ []) }
        ensures err { OnErr result (self.new.trail ≡ self.old.trail) }
    {
        let fact = if same {
            Fact::Same(f, g)
        } else {
            Fact::Apart(f, g)
        };
        add(self.ops.as_slice(), &mut self.held, fact)
    }

    /// Takes one step, if its rule applies: it is appended to the records of a tree, and what it gives becomes known. The answer is whether it was
    /// taken; where it was not, all is as it was. Where memory is wanting, an error (docs/CERTIFICATES.md, "Derivation").
    pub fn take_step(
        &mut self,
        rule: u8,
        f: u32,
        g: u32,
        h: u32,
        tree: &mut Records,
    ) -> Result<bool, NoMemory>
        ensures list { self.new.list ≡ self.old.list }
        ensures does { IfOk result (λ taken. TookStep
            (problem_of self.old.list) rule f g h self.old.trail self.new.trail tree.old tree.new taken) }
    {
        take_step(self.ops.as_slice(), &mut self.held, tree, rule, f, g, h)
    }

    /// Appends steps to the records of a tree, at most `budget`, each of which applies and gives the next new fact, until no rule gives one
    /// (`Closed`), both Same and Apart of a pair are known (`Contradiction`), or the budget is spent and a further rule applies (`Spent`).
    /// `Contradiction` is answered wherever such a pair is known at the end. All that is known then is of operations of the list. Facts are worked
    /// off first come, first served. Where memory is wanting, an error (docs/CERTIFICATES.md, "Derivation").
    pub fn saturate(&mut self, budget: u64, tree: &mut Records) -> Result<Outcome, NoMemory>
        ensures list { self.new.list ≡ self.old.list }
        ensures about { (x : Fact) → IsTrue (known self.new x) → AreOps (problem_of self.new.list) x }
        ensures does { IfOk result (λ outcome. Saturated
            (problem_of self.old.list) budget self.old.trail self.new.trail tree.old tree.new outcome) }
    {
        saturate(
            self.ops.as_slice(),
            self.roots.as_slice(),
            &mut self.held,
            tree,
            budget,
        )
    }
}
