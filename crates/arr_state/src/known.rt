//! Facts that are known, in the order in which they came.
ghost use Rattle.std.specs.Prelude.{◌≡◌, ◌<◌, ◌≤◌, ◌-◌, ◌/◌, ◌++◌, ◌∷◌, [], false, ◌&&◌, IfOk, OnErr, length, slice_index, take};
ghost use Rattle.arr_law.specs.Problem.{ends_base_of, is_op};
ghost use Rattle.arr_law.specs.ProblemOf.{problem_of};
ghost use Rattle.arr_state.specs.Kept.{IsKept};
ghost use Rattle.arr_state.specs.Known.{AreOps};
ghost use Rattle.arr_state.specs.Rows.{said, word_at};
ghost use Rattle.arr_state.specs.Went.{facts_in};

use crate::NoMemory;
use crate::rows::{APART, BEFORE, SAME, row_start, set_rows};
use arr_law::Fact;
use arr_ops::Op;

/// Facts in the order in which they came, a bit for each, and the lengths at which they were closed.
#[derive(Drop)]
pub(crate) struct Known {
    pub(crate) facts: Vec<Fact>,
    pub(crate) rows: Vec<u64>,
    pub(crate) closed: Vec<usize>,
}

/// How many operations a list has.
pub(crate) fn count_of(ops: &[Op]) -> u32
    requires few { length ops.now ≤ 256 }
    ensures { result ≡ length ops.now }
{
    ops.len() as u32
}

/// Whether a number is that of an operation of the list.
pub(crate) fn is_operation(ops: &[Op], f: u32) -> bool
    ensures { result ≡ is_op (problem_of ops.now) f }
{
    1 <= f && f as usize <= ops.len()
}

/// A word of the row of an operation.
pub(crate) fn row_word(ops: &[Op], known: &Known, kind: usize, f: u32, i: u32) -> u64
    requires kept { IsKept (problem_of ops.now) known.now }
    requires kind { kind < 6 }
    requires within { f ≤ length ops.now }
    requires room { i ≤ length ops.now / 64 }
    ensures { result ≡ word_at (length ops.now) known.now.rows.items kind f i }
{
    known.rows[row_start(count_of(ops), kind, f) + i as usize]
}

/// Whether a bit of the rows is set.
pub(crate) fn has_bit(ops: &[Op], known: &Known, kind: usize, f: u32, g: u32) -> bool
    requires kept { IsKept (problem_of ops.now) known.now }
    requires kind { kind < 6 }
    requires first { f ≤ length ops.now }
    requires second { g ≤ length ops.now }
    ensures { result ≡ said (ends_base_of (problem_of ops.now)) (facts_in ops.now known.now) kind f g }
{
    row_word(ops, known, kind, f, g / 64) >> (g % 64) & 1 == 1
}

/// Whether both operations are of the list and the bit is set.
fn has_both(ops: &[Op], known: &Known, kind: usize, f: u32, g: u32) -> bool
    requires kept { IsKept (problem_of ops.now) known.now }
    requires kind { kind < 6 }
    ensures { result ≡ (is_op (problem_of ops.now) f
        && (is_op (problem_of ops.now) g && said (ends_base_of (problem_of ops.now))
        (facts_in ops.now known.now) kind f g)) }
{
    is_operation(ops, f) && is_operation(ops, g) && has_bit(ops, known, kind, f, g)
}

/// Whether a fact is known.
pub(crate) fn is_known(ops: &[Op], known: &Known, fact: Fact) -> bool
    requires kept { IsKept (problem_of ops.now) known.now }
    ensures { result ≡ facts_in ops.now known.now fact }
{
    match fact {
        Fact::Same(f, g) => has_both(ops, known, SAME, f, g),
        Fact::Apart(f, g) => has_both(ops, known, APART, f, g),
        Fact::Before(f, g) => has_both(ops, known, BEFORE, f, g),
    }
}

/// Adds a fact that is new. Where memory is wanting, all is as it was.
pub(crate) fn add(ops: &[Op], known: &mut Known, fact: Fact) -> Result<(), NoMemory>
    requires kept { IsKept (problem_of ops.now) known.old }
    requires about { AreOps (problem_of ops.now) fact }
    requires new { facts_in ops.now known.old fact ≡ false }
    ensures is { IfOk result (λ done. known.new.facts.items ≡ known.old.facts.items ++ fact ∷ []) }
    ensures kept { IsKept (problem_of ops.now) known.new }
    ensures err { OnErr result (known.new.facts.items ≡ known.old.facts.items) }
{
    known.facts.push(fact)?;
    set_rows(&mut known.rows, count_of(ops), fact, true);
    Ok(())
}

/// Drops the lengths that are greater.
fn drop_closed(closed: &mut Vec<usize>, mark: usize)
    ensures kept { closed.new.items ≡ take (length closed.new.items) closed.old.items }
    ensures within { length closed.new.items ≤ length closed.old.items }
    ensures last { 0 < length closed.new.items → slice_index closed.new.items (length closed.new.items - 1) ≤ mark }
{
    while closed.len() > 0 && closed[closed.len() - 1] > mark {
        let _last = closed.pop();
    }
}

/// Goes back to the first facts, so many.
pub(crate) fn go_back(ops: &[Op], known: &mut Known, mark: usize)
    requires kept { IsKept (problem_of ops.now) known.old }
    requires within { mark ≤ length known.old.facts.items }
    ensures facts { known.new.facts.items ≡ take mark known.old.facts.items }
    ensures kept { IsKept (problem_of ops.now) known.new }
{
    drop_closed(&mut known.closed, mark);
    while known.facts.len() > mark {
        match known.facts.pop() {
            Some(fact) => set_rows(&mut known.rows, count_of(ops), fact, false),
            None => return,
        }
    }
}
