//! The sum over what a block touches, each class once.
ghost use Rattle.std.specs.Prelude.{◌≡◌, ◌≤◌, ◌<◌, ◌+◌, ◌*◌, false, ℕ, List, IfOk, IsTrue, get_or, length};
ghost use Rattle.std.specs.List.{All, flat_map, list_any};
ghost use Rattle.arr_ops.specs.Costs.{block_cost};
ghost use Rattle.arr_ops.specs.declared.op.Op.{Op};
ghost use Rattle.arr_cost.specs.declared.touches.Touch.{Touch};
ghost use Rattle.arr_cost.specs.Touches.{CountsMore, MarksMore, frees_number, is_below, kept, makes_number, marks, outside, table_of, touch_below, touched_by, untouched, weight_once};

use crate::NoMemory;
use crate::touches::{Touch, Touches};
use std::alloc::Global;

/// What the operation with a number touches: nothing, where the list has none.
pub(crate) fn touches_at(table: &[Touches], number: u32, bound: usize) -> &Touches
    requires some { 0 < length table.now }
    requires none { get_or table.now 0 untouched ≡ untouched }
    requires below { All (λ t. IsTrue (is_below bound t)) table.now }
    ensures value { result.now ≡ get_or table.now number untouched }
    ensures below { IsTrue (is_below bound result.now) }
{
    let place = number as usize;
    if place < table.len() {
        &table[place]
    } else {
        &table[0]
    }
}

/// Marks the base that an operation makes.
fn mark_made(marked: &mut [bool], touches: &Touches)
    requires below { IsTrue (is_below (length marked.old) touches.now) }
    ensures long { length marked.new ≡ length marked.old }
    ensures each { MarksMore marked.old marked.new (λ b. makes_number b touches.now) }
{
    if touches.makes {
        if let Some(out) = &touches.out {
            marked[out.base] = true;
        }
    }
}

/// Marks the base that an operation frees.
fn mark_freed(marked: &mut [bool], touches: &Touches)
    requires below { IsTrue (is_below (length marked.old) touches.now) }
    ensures long { length marked.new ≡ length marked.old }
    ensures each { MarksMore marked.old marked.new (λ b. frees_number b touches.now) }
{
    if let Some(base) = touches.frees {
        marked[base] = true;
    }
}

/// Marks the bases that the operations of a block make.
fn mark_all_made(marked: &mut [bool], table: &[Touches], block: &[u32])
    requires some { 0 < length table.now }
    requires none { get_or table.now 0 untouched ≡ untouched }
    requires below { All (λ t. IsTrue (is_below (length marked.old) t)) table.now }
    ensures long { length marked.new ≡ length marked.old }
    ensures each { MarksMore marked.old marked.new (λ b. list_any (makes_number b) (touched_by table.now block.now)) }
{
    for place in 0..block.len() {
        let touches = touches_at(table, block[place], marked.len());
        mark_made(marked, touches);
    }
}

/// Marks the bases that the operations of a block free.
fn mark_all_freed(marked: &mut [bool], table: &[Touches], block: &[u32])
    requires some { 0 < length table.now }
    requires none { get_or table.now 0 untouched ≡ untouched }
    requires below { All (λ t. IsTrue (is_below (length marked.old) t)) table.now }
    ensures long { length marked.new ≡ length marked.old }
    ensures each { MarksMore marked.old marked.new (λ b. list_any (frees_number b) (touched_by table.now block.now)) }
{
    for place in 0..block.len() {
        let touches = touches_at(table, block[place], marked.len());
        mark_freed(marked, touches);
    }
}

/// The sum with a view, unless its base is marked or its class is seen.
fn count(seen: &mut [bool], marked: &[bool], touch: &Option<Touch>, sum: u64) -> u64
    requires below { IsTrue (touch_below (length seen.old) touch.now) }
    requires wide { length marked.now ≡ length seen.old }
    requires few { length seen.old ≤ 771 }
    requires small { sum ≤ marks seen.old * 8388608 }
    ensures long { length seen.new ≡ length seen.old }
    ensures small { result ≤ marks seen.new * 8388608 }
    ensures counted { CountsMore seen.old sum seen.new result (outside marked.now touch.now) }
{
    match touch {
        Some(touch) => {
            if marked[touch.base] {
                return sum;
            }
            if seen[touch.class] {
                return sum;
            }
            seen[touch.class] = true;
            sum + touch.weight
        }
        None => sum,
    }
}

/// The sum with what an operation touches outside its block.
fn count_all(seen: &mut [bool], made: &[bool], freed: &[bool], touches: &Touches, sum: u64) -> u64
    requires below { IsTrue (is_below (length seen.old) touches.now) }
    requires made_wide { length made.now ≡ length seen.old }
    requires freed_wide { length freed.now ≡ length seen.old }
    requires few { length seen.old ≤ 771 }
    requires small { sum ≤ marks seen.old * 8388608 }
    ensures long { length seen.new ≡ length seen.old }
    ensures small { result ≤ marks seen.new * 8388608 }
    ensures counted { CountsMore seen.old sum seen.new result (kept made.now freed.now touches.now) }
{
    let first = count(seen, made, &touches.first, sum);
    let second = count(seen, made, &touches.second, first);
    count(seen, freed, &touches.out, second)
}

/// The sum over what the operations of a block touch outside it, where no class is seen yet.
fn count_block(
    seen: &mut [bool],
    made: &[bool],
    freed: &[bool],
    table: &[Touches],
    block: &[u32],
) -> u64
    requires some { 0 < length table.now }
    requires none { get_or table.now 0 untouched ≡ untouched }
    requires below { All (λ t. IsTrue (is_below (length seen.old) t)) table.now }
    requires made_wide { length made.now ≡ length seen.old }
    requires freed_wide { length freed.now ≡ length seen.old }
    requires few { length seen.old ≤ 771 }
    requires clear { (c : ℕ) → get_or seen.old c false ≡ false }
    ensures value { result ≡ weight_once (flat_map (kept made.now freed.now) (touched_by table.now block.now)) }
    ensures small { result ≤ 771 * 8388608 }
{
    let mut sum = 0;
    for place in 0..block.len() {
        let touches = touches_at(table, block[place], seen.len());
        sum = count_all(seen, made, freed, touches, sum);
    }
    sum
}

/// What a block costs whose list has the table, in bytes.
pub(crate) fn touched_weight(
    alloc: Global,
    table: &[Touches],
    block: &[u32],
) -> Result<u64, NoMemory>
    requires some { 0 < length table.now }
    requires few { length table.now ≤ 257 }
    requires none { get_or table.now 0 untouched ≡ untouched }
    requires below { All (λ t. IsTrue (is_below (3 * length table.now) t)) table.now }
    ensures value { IfOk result (λ sum. (list : List Op) → table.now ≡ table_of list → sum
        ≡ block_cost list block.now) }
    ensures small { IfOk result (λ sum. sum ≤ 771 * 8388608) }
{
    let bound = 3 * table.len();
    let mut made = vec![in alloc; false; bound]?;
    mark_all_made(made.as_mut_slice(), table, block);
    let mut freed = vec![in alloc; false; bound]?;
    mark_all_freed(freed.as_mut_slice(), table, block);
    let mut seen = vec![in alloc; false; bound]?;
    Ok(count_block(
        seen.as_mut_slice(),
        made.as_slice(),
        freed.as_slice(),
        table,
        block,
    ))
}
