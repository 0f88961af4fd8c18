//! Sets of the operations of a list, which are numbered from 1, and of pairs of them.
ghost use Rattle.std.specs.Prelude.{◌≡◌, ◌≤◌, ◌<◌, ◌-◌, ◌*◌, ◌==◌, ◌&&◌, ◌||◌, ℕ, IfOk, false, true, length, replicate, set};
ghost use Rattle.arr_sets.specs.Bits.{meets};
ghost use Rattle.arr_sets.specs.Numbers.{has_number, has_pair};

use crate::Bits;
use std::alloc::{AllocError, Global};
use std::marker::Model;

/// The most operations of a list (docs/PLANS.md, "Flushes").
pub const MOST: u32 = 256;

/// A set of numbers from 1 to a bound, a bit for each. A contract sees a flag for each number, that of 1 first.
#[derive(Debug, Drop)]
pub struct OpSet {
    bits: Bits,
}

impl Model for OpSet {
    ghost use Rattle.std.specs.Prelude.{List, Bool};

    ghost Value = { List Bool };

    ghost view = { λ s. s.bits };
}

impl OpSet {
    /// The empty set of numbers from 1 to `n`, at most `MOST`. Want of memory is its one refusal.
    pub fn new(alloc: Global, n: u32) -> Result<OpSet, AllocError>
        requires { n ≤ MOST }
        ensures { IfOk result (λ s. s ≡ replicate n false) }
    {
        Ok(OpSet {
            bits: Bits::new(alloc, n)?,
        })
    }

    /// Whether the set has the number `op`, from 1 to its bound. It takes no memory.
    pub fn has(&self, op: u32) -> bool
        requires least { 0 < op }
        requires bound { op ≤ length self.now }
        ensures { result ≡ has_number self.now op }
    {
        self.bits.has(op - 1)
    }

    /// Puts the number `op`, from 1 to the bound, into the set. It takes no memory.
    pub fn insert(&mut self, op: u32)
        requires least { 0 < op }
        requires bound { op ≤ length self.old }
        ensures { self.new ≡ set self.old (op - 1) true }
    {
        self.bits.insert(op - 1);
    }

    /// Takes the number `op`, from 1 to the bound, out of the set, if it is there. It takes no memory.
    pub fn remove(&mut self, op: u32)
        requires least { 0 < op }
        requires bound { op ≤ length self.old }
        ensures { self.new ≡ set self.old (op - 1) false }
    {
        self.bits.remove(op - 1);
    }

    /// Whether the two sets, of one bound, have a number in common. It takes no memory.
    pub fn meets(&self, other: &OpSet) -> bool
        requires { length self.now ≡ length other.now }
        ensures { result ≡ meets self.now other.now }
    {
        self.bits.meets(&other.bits)
    }
}

/// A set of pairs of numbers from 1 to a bound, a row of bits for each first number.
#[derive(Debug, Drop)]
pub struct Rows {
    count: u32,
    bits: Bits,
}

impl Model for Rows {
    ghost use Rattle.std.specs.Prelude.{◌≡◌, ◌≤◌, ◌*◌, length};
    ghost use Rattle.arr_sets.specs.Numbers.{Pairs};

    ghost Value = { Pairs };

    ghost view = { λ r. record { count = r.count; flags = r.bits } };

    ghost invariant = { λ r. (length r.bits ≡ r.count * r.count) × (r.count ≤ 256) };
}

impl Rows {
    /// The empty set of pairs of numbers from 1 to `n`, at most `MOST`. Want of memory is its one refusal.
    pub fn new(alloc: Global, n: u32) -> Result<Rows, AllocError>
        requires { n ≤ MOST }
        ensures { IfOk result (λ r. r ≡ record { count = n; flags = replicate (n * n) false }) }
    {
        Ok(Rows {
            count: n,
            bits: Bits::new(alloc, n * n)?,
        })
    }

    /// Puts the pair of `f` and `g`, each from 1 to the bound, into the set. It takes no memory.
    pub fn set(&mut self, f: u32, g: u32)
        requires first_least { 0 < f }
        requires first_bound { f ≤ self.old.count }
        requires second_least { 0 < g }
        requires second_bound { g ≤ self.old.count }
        ensures count { self.new.count ≡ self.old.count }
        ensures pairs { (x y : ℕ) → 0 < x → x ≤ self.old.count → 0 < y → y ≤ self.old.count → has_pair self.new x y
            ≡ (has_pair self.old x y || (x == f && y == g)) }
    {
        self.bits.insert((f - 1) * self.count + (g - 1));
    }

    /// Whether the set has the pair of `f` and `g`, each from 1 to the bound. It takes no memory.
    pub fn has(&self, f: u32, g: u32) -> bool
        requires first_least { 0 < f }
        requires first_bound { f ≤ self.now.count }
        requires second_least { 0 < g }
        requires second_bound { g ≤ self.now.count }
        ensures { result ≡ has_pair self.now f g }
    {
        self.bits.has((f - 1) * self.count + (g - 1))
    }
}
