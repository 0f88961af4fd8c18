//! What a list is to the checker.
ghost use Rattle.std.specs.Prelude.{◌≡◌, ◌≤◌, ◌<◌, IfOk, IfSome, true, length, map};
ghost use Rattle.std.specs.Option.{option_to_list};
ghost use Rattle.arr_view.specs.Views.{has};
ghost use Rattle.arr_ops.specs.Ops.{views};
ghost use Rattle.arr_check.specs.Classed.{is_class};
ghost use Rattle.arr_law.specs.Problem.{is_op, ends_base_of};
ghost use Rattle.arr_law.specs.ProblemOf.{op_at, problem_of};

use crate::NoMemory;
use crate::classed::{Classed, class_table};
use crate::classes::Classes;
use crate::pairs::{depend, may_fuse};
use crate::weights::{Entry, entries};
use arr_ops::{Op, copied_ops};
use arr_view::View;
use std::alloc::Global;
use std::marker::Model;

/// Tables of a list of operations, which are numbered from 1: their classes of views, and what is known of each class. A contract sees
/// the list.
#[derive(Drop)]
pub(crate) struct Tables {
    ops: Vec<Op>,
    classes: Classes,
    parts: Vec<Classed>,
    entries: Vec<Entry>,
}

impl Model for Tables {
    ghost use Rattle.std.specs.Prelude.{◌≡◌, ◌≤◌, List, length, map};
    ghost use Rattle.std.specs.List.{All};
    ghost use Rattle.arr_ops.specs.declared.op.Op.{Op};
    ghost use Rattle.arr_law.specs.ProblemOf.{views_of};
    ghost use Rattle.arr_check.specs.Classed.{classes_of};
    ghost use Rattle.arr_check.specs.Tables.{entry_of};

    ghost Value = { List Op };

    ghost view = { λ t. t.ops.items };

    ghost invariant = { λ t. (length t.ops.items ≤ 256) × (t.classes ≡ views_of t.ops.items) × (length (views_of t.ops.items) ≤ 768) × (t.parts.items ≡ map (classes_of (views_of t.ops.items)) t.ops.items) × (t.entries.items ≡ map (entry_of t.ops.items) (views_of t.ops.items)) × (All (λ entry. entry.weight ≤ 8388608) t.entries.items) };
}

fn is_of(view: Option<&View>, base: u32) -> bool
    ensures { result ≡ has (map (λ v. v.now.base) (option_to_list view.entry)) base }
{
    match view {
        Some(view) => base == view.base(),
        None => false,
    }
}

/// Whether an operation has a view of a base.
fn has_view_of(op: &Op, base: u32) -> bool
    ensures { result ≡ has (map (λ v. v.base) (views op.now)) base }
{
    is_of(op.out_view(), base) || is_of(op.first_view(), base) || is_of(op.second_view(), base)
}

fn is_class(part: Option<u32>, c: u32) -> bool
    ensures { result ≡ is_class part c }
{
    match part {
        Some(class) => class == c,
        None => false,
    }
}

impl Tables {
    /// The tables of a list of at most 256 operations. Want of memory is its one refusal.
    pub(crate) fn of(alloc: Global, ops: &[Op]) -> Result<Tables, NoMemory>
        requires { length ops.now ≤ 256 }
        ensures { IfOk result (λ tables. tables ≡ ops.now) }
    {
        let classes = Classes::of(alloc, ops)?;
        Ok(Tables {
            ops: copied_ops(alloc, ops)?,
            parts: class_table(alloc, &classes, ops)?,
            entries: entries(alloc, ops, classes.views())?,
            classes,
        })
    }

    /// How many operations the list has.
    pub(crate) fn count(&self) -> u32
        ensures value { result ≡ (problem_of self.now).count }
        ensures few { result ≤ 256 }
    {
        self.ops.len() as u32
    }

    /// Whether an operation of the list has this number.
    pub(crate) fn is_op(&self, f: u32) -> bool
        ensures { result ≡ is_op (problem_of self.now) f }
    {
        1 <= f && f <= self.count()
    }

    /// Whether two operations may share a block.
    pub(crate) fn fusible(&self, f: u32, g: u32) -> bool
        requires first { is_op (problem_of self.now) f ≡ true }
        requires second { is_op (problem_of self.now) g ≡ true }
        ensures { result ≡ (problem_of self.now).fusible f g }
    {
        let (a, b) = (f as usize - 1, g as usize - 1);
        may_fuse(
            &self.classes,
            &self.ops[a],
            &self.ops[b],
            &self.parts[a],
            &self.parts[b],
        )
    }

    /// Whether one operation stands before another, and the two depend.
    pub(crate) fn dep(&self, f: u32, g: u32) -> bool
        requires first { is_op (problem_of self.now) f ≡ true }
        requires second { is_op (problem_of self.now) g ≡ true }
        ensures { result ≡ (problem_of self.now).dep f g }
    {
        let (a, b) = (f as usize - 1, g as usize - 1);
        f < g
            && depend(
                &self.classes,
                &self.ops[a],
                &self.ops[b],
                &self.parts[a],
                &self.parts[b],
            )
    }

    /// Whether g ends a base of which f has a view.
    pub(crate) fn ends_base_of(&self, f: u32, g: u32) -> bool
        requires first { is_op (problem_of self.now) f ≡ true }
        requires second { is_op (problem_of self.now) g ≡ true }
        ensures { result ≡ ends_base_of (problem_of self.now) f g }
    {
        match self.ops[g as usize - 1].frees {
            Some(base) => has_view_of(&self.ops[f as usize - 1], base),
            None => false,
        }
    }

    /// How many classes of views there are.
    pub(crate) fn classes(&self) -> u32
        ensures value { result ≡ (problem_of self.now).classes }
        ensures few { result ≤ 768 }
    {
        self.entries.len() as u32
    }

    /// Whether an operation reads a view of a class.
    pub(crate) fn reads(&self, f: u32, c: u32) -> bool
        requires op { is_op (problem_of self.now) f ≡ true }
        requires class { c < (problem_of self.now).classes }
        ensures { result ≡ (problem_of self.now).reads f c }
    {
        let parts = &self.parts[f as usize - 1];
        is_class(parts.first, c) || is_class(parts.second, c)
    }

    /// Whether an operation writes a view of a class.
    pub(crate) fn writes(&self, f: u32, c: u32) -> bool
        requires op { is_op (problem_of self.now) f ≡ true }
        requires class { c < (problem_of self.now).classes }
        ensures { result ≡ (problem_of self.now).writes f c }
    {
        is_class(self.parts[f as usize - 1].out, c)
    }

    /// What a view of a class takes, in bytes.
    pub(crate) fn weight(&self, c: u32) -> u64
        requires { c < (problem_of self.now).classes }
        ensures value { result ≡ (problem_of self.now).weight c }
        ensures small { result ≤ 8388608 }
    {
        self.entries[c as usize].weight
    }

    /// The operation that creates the base of a class.
    pub(crate) fn creator(&self, c: u32) -> Option<u32>
        requires { c < (problem_of self.now).classes }
        ensures { result ≡ (problem_of self.now).creator ((problem_of self.now).base c) }
    {
        self.entries[c as usize].creator
    }

    /// The operation that ends the base of a class.
    pub(crate) fn freer(&self, c: u32) -> Option<u32>
        requires { c < (problem_of self.now).classes }
        ensures { result ≡ (problem_of self.now).freer ((problem_of self.now).base c) }
    {
        self.entries[c as usize].freer
    }

    /// The class of a view of an operation: 0 is the output, 1 and 2 are the operands.
    pub(crate) fn class(&self, f: u32, operand: u8) -> Option<u32>
        requires { is_op (problem_of self.now) f ≡ true }
        ensures { result ≡ (problem_of self.now).view f operand }
    {
        let parts = &self.parts[f as usize - 1];
        match operand {
            0 => parts.out,
            1 => parts.first,
            2 => parts.second,
            _ => None,
        }
    }
}
