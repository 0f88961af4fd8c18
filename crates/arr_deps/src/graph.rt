//! The graph of a list.
ghost use Rattle.std.specs.Prelude.{◌≡◌, ◌≤◌, ◌<◌, IfOk, IsTrue, length};
ghost use Rattle.arr_ops.specs.Formed.{is_formed};
ghost use Rattle.arr_ops.specs.Ops.{fusible, serial};
ghost use Rattle.arr_deps.specs.Graph.{leads_to, op_at};

use crate::NoMemory;
use crate::classed::class_table;
use crate::tables::{dep_rows, fuse_rows, serial_row};
use arr_ops::{Op, all_views, copied_ops};
use arr_overlap::Classes;
use arr_sets::{Bits, MOST};
use std::alloc::Global;
use std::marker::Model;

/// The dependence graph of a list of operations, which are numbered from 1 (docs/PLANS.md, "Dependence"). A contract sees the list.
#[derive(Drop)]
pub struct Graph {
    ops: Vec<Op>,
    serials: Bits,
    deps: Vec<Bits>,
    fuses: Vec<Bits>,
}

impl Model for Graph {
    ghost use Rattle.std.specs.Prelude.{◌≡◌, ◌≤◌, List, IsTrue, length, map};
    ghost use Rattle.arr_ops.specs.declared.op.Op.{Op};
    ghost use Rattle.arr_ops.specs.Formed.{is_formed};
    ghost use Rattle.arr_ops.specs.Ops.{dep, fusible, serial};
    ghost use Rattle.arr_deps.specs.Graph.{rows_by};

    ghost Value = { List Op };

    ghost view = { λ g. g.ops.items };

    ghost invariant = { λ g. (length g.ops.items ≤ 256) × (IsTrue (is_formed g.ops.items)) × (g.serials ≡ map serial g.ops.items) × (g.deps.items ≡ rows_by dep g.ops.items) × (g.fuses.items ≡ rows_by fusible g.ops.items) };
}

impl Graph {
    /// The graph of a formed list of at most `MOST` operations, with a copy of the list. Want of memory is its one refusal
    /// (docs/PLANS.md, "Dependence").
    pub fn of(alloc: Global, ops: &[Op]) -> Result<Graph, NoMemory>
        requires formed { IsTrue (is_formed ops.now) }
        requires few { length ops.now ≤ MOST }
        ensures { IfOk result (λ graph. graph ≡ ops.now) }
    {
        let views = all_views(alloc, ops)?;
        let classes = Classes::of(alloc, views.as_slice())?;
        let table = class_table(alloc, &classes, ops)?;
        let serials = serial_row(alloc, &classes, ops, table.as_slice())?;
        let deps = dep_rows(alloc, &classes, ops, table.as_slice())?;
        let fuses = fuse_rows(alloc, &classes, ops, table.as_slice(), &serials)?;
        Ok(Graph {
            ops: copied_ops(alloc, ops)?,
            serials,
            deps,
            fuses,
        })
    }

    /// How many operations the list has, at most `MOST`. It takes no memory.
    pub fn len(&self) -> u32
        ensures value { result ≡ length self.now }
        ensures few { result ≤ MOST }
        ensures formed { IsTrue (is_formed self.now) }
    {
        self.ops.len() as u32
    }

    /// The operation with the number `f`, from 1 to `len`. It takes no memory.
    pub fn op(&self, f: u32) -> &Op
        requires least { 0 < f }
        requires most { f ≤ length self.now }
        ensures { result.now ≡ op_at self.now f }
    {
        &self.ops[f as usize - 1]
    }

    /// Whether `f` stands before `g` in the list and the two depend, each a number from 1 to `len` (docs/PLANS.md, "Dependence"). It takes no
    /// memory.
    pub fn dep(&self, f: u32, g: u32) -> bool
        requires f_least { 0 < f }
        requires f_most { f ≤ length self.now }
        requires g_least { 0 < g }
        requires g_most { g ≤ length self.now }
        ensures { result ≡ leads_to self.now f g }
    {
        f < g && self.deps[f as usize - 1].has(g - 1)
    }

    /// Whether `f` and `g` may share a block, each a number from 1 to `len` (docs/PLANS.md, "Serial operations and fusibility"). It takes no
    /// memory.
    pub fn fusible(&self, f: u32, g: u32) -> bool
        requires f_least { 0 < f }
        requires f_most { f ≤ length self.now }
        requires g_least { 0 < g }
        requires g_most { g ≤ length self.now }
        ensures { result ≡ fusible (op_at self.now f) (op_at self.now g) }
    {
        self.fuses[f as usize - 1].has(g - 1)
    }

    /// Whether `f`, a number from 1 to `len`, is serial (docs/PLANS.md, "Serial operations and fusibility"). It takes no memory.
    pub fn serial(&self, f: u32) -> bool
        requires least { 0 < f }
        requires most { f ≤ length self.now }
        ensures { result ≡ serial (op_at self.now f) }
    {
        self.serials.has(f - 1)
    }
}
