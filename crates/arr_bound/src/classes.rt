//! What each class of identical views is to a leaf.
ghost use Rattle.std.specs.Prelude.{◌≡◌, ◌≤◌, ◌<◌, ◌+◌, IfOk, cond, length};
ghost use Rattle.std.specs.List.{list_any};
ghost use Rattle.arr_view.specs.Views.{has, identical};
ghost use Rattle.arr_ops.specs.Ops.{freed, inputs, makes_base, outputs, view_of};
ghost use Rattle.arr_law.specs.ProblemOf.{first_where, views_of};
ghost use Rattle.arr_bound.specs.Classes.{AreClasses, IsClass, IsRow, touches_at};

use crate::NoMemory;
use crate::sets::put_if;
use arr_cost::{block_views, view_weight};
use arr_ops::{Op, Operand};
use arr_overlap::identical;
use arr_sets::MOST;
use arr_view::View;
use std::alloc::Global;
use std::marker::Model;

/// A class of identical views: one of them, what it weighs in bytes, which operations make and end its base, and as rows of words which ones
/// read it and which ones write it: bit f % 64 of word f / 64 stands for the operation f, counted from 1.
#[derive(Drop)]
pub struct Class {
    pub view: View,
    pub weight: u64,
    pub creator: Option<u32>,
    pub freer: Option<u32>,
    pub readers: Vec<u64>,
    pub writers: Vec<u64>,
}

/// What the classes of the views of a list are to a leaf (docs/CERTIFICATES.md, "Leaves"). A contract sees the list.
#[derive(Drop)]
pub struct Views {
    pub(crate) ops: Vec<Op>,
    pub(crate) classes: Vec<Class>,
}

impl Model for Views {
    ghost use Rattle.std.specs.Prelude.{List};
    ghost use Rattle.arr_ops.specs.declared.op.Op.{Op};
    ghost use Rattle.arr_bound.specs.Classes.{AreAllClasses};

    ghost Value = { List Op };

    ghost view = { λ v. v.ops.items };

    ghost invariant = { λ v. AreAllClasses v.ops.items v.classes.items };
}

fn copied(alloc: Global, ops: &[Op]) -> Result<Vec<Op>, NoMemory>
    ensures { IfOk result (λ copy. copy.items ≡ ops.now) }
{
    let mut copy = Vec::new(alloc);
    for op in ops {
        copy.push(op.copied())?;
    }
    Ok(copy)
}

fn makes_base(op: &Op, base: u32) -> bool
    ensures { result ≡ makes_base op.now base }
{
    op.makes
        && match &op.out {
            Some(view) => view.base() == base,
            None => false,
        }
}

fn frees_base(op: &Op, base: u32) -> bool
    ensures { result ≡ has (freed op.now) base }
{
    op.frees == Some(base)
}

/// The number of the operation that makes a base.
fn creator_of(ops: &[Op], base: u32) -> Option<u32>
    requires { length ops.now ≤ MOST }
    ensures { result ≡ first_where (λ op. makes_base op base) ops.now }
{
    for place in 0..ops.len() {
        if makes_base(&ops[place], base) {
            return Some(place as u32 + 1);
        }
    }
    None
}

/// The number of the operation that ends a base.
fn freer_of(ops: &[Op], base: u32) -> Option<u32>
    requires { length ops.now ≤ MOST }
    ensures { result ≡ first_where (λ op. has (freed op) base) ops.now }
{
    for place in 0..ops.len() {
        if frees_base(&ops[place], base) {
            return Some(place as u32 + 1);
        }
    }
    None
}

/// Whether an operand is a view identical to this one.
pub(crate) fn is_operand(operand: &Option<Operand>, view: &View) -> bool
    ensures { result ≡ list_any (identical view.now) (view_of operand.now) }
{
    match operand {
        Some(Operand::Array(other)) => identical(view, other),
        _ => false,
    }
}

/// Whether an operation reads a view identical to this one.
fn reads(op: &Op, view: &View) -> bool
    ensures { result ≡ list_any (identical view.now) (inputs op.now) }
{
    is_operand(&op.first, view) || is_operand(&op.second, view)
}

/// Whether an operation writes a view identical to this one.
pub(crate) fn writes(op: &Op, view: &View) -> bool
    ensures { result ≡ list_any (identical view.now) (outputs op.now) }
{
    match &op.out {
        Some(other) => identical(view, other),
        None => false,
    }
}

/// Whether an operation writes a view identical to this one, or reads one.
fn touches(op: &Op, view: &View, written: bool) -> bool
    ensures { result ≡ cond written (list_any (identical view.now) (outputs op.now))
        (list_any (identical view.now) (inputs op.now)) }
{
    if written {
        writes(op, view)
    } else {
        reads(op, view)
    }
}

/// The operations that write a view identical to this one, or read one.
fn row_of(alloc: Global, ops: &[Op], view: &View, written: bool) -> Result<Vec<u64>, NoMemory>
    requires { length ops.now ≤ MOST }
    ensures { IfOk result (λ row. IsRow ops.now (touches_at ops.now view.now written) row.items) }
{
    let mut row = vec![in alloc; 0; ops.len() / 64 + 1]?;
    for place in 0..ops.len() {
        put_if(
            &mut row,
            place as u32 + 1,
            touches(&ops[place], view, written),
        );
    }
    Ok(row)
}

/// What a class is, told one view of each.
fn class_at(alloc: Global, ops: &[Op], views: &[View], at: usize) -> Result<Class, NoMemory>
    requires few { length ops.now ≤ MOST }
    requires views { views.now ≡ views_of ops.now }
    requires within { at < length views.now }
    ensures { IfOk result (λ class. IsClass ops.now at class) }
{
    let view = &views[at];
    Ok(Class {
        view: view.copied(),
        weight: view_weight(ops, view),
        creator: creator_of(ops, view.base()),
        freer: freer_of(ops, view.base()),
        readers: row_of(alloc, ops, view, false)?,
        writers: row_of(alloc, ops, view, true)?,
    })
}

fn all_classes(alloc: Global, ops: &[Op]) -> Result<Vec<Class>, NoMemory>
    requires { length ops.now ≤ MOST }
    ensures { IfOk result (λ classes. AreClasses ops.now (length (views_of ops.now)) classes.items) }
{
    let views = block_views(alloc, ops)?;
    let mut classes = Vec::new(alloc);
    for at in 0..views.len() {
        classes.push(class_at(alloc, ops, views.as_slice(), at)?)?;
    }
    Ok(classes)
}

impl Views {
    /// What the views of a list of at most `MOST` operations are to a leaf, with a copy of the list (docs/CERTIFICATES.md, "Leaves"). Want of
    /// memory is its one refusal.
    pub fn of(alloc: Global, ops: &[Op]) -> Result<Views, NoMemory>
        requires { length ops.now ≤ MOST }
        ensures { IfOk result (λ views. views ≡ ops.now) }
    {
        Ok(Views {
            ops: copied(alloc, ops)?,
            classes: all_classes(alloc, ops)?,
        })
    }

    /// The classes of the views of the list, in the order of first sight (docs/CERTIFICATES.md, "Leaves"). It takes no memory.
    pub fn classes(&self) -> &[Class]
        ensures { AreClasses self.now (length (views_of self.now)) result.now }
    {
        self.classes.as_slice()
    }
}
