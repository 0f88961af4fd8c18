//! The lines of a flush: the rewritten list, its plan, and the bound.
ghost use Rattle.std.specs.Prelude.{◌≡◌, ◌<◌, ◌^◌, ◌==◌, cond, codes, length, map, sum};
ghost use Rattle.arr_io.specs.Buffered.{Writes};
ghost use Rattle.arr_listing.specs.Calls.{PutsText};
ghost use Rattle.arr_listing.specs.Plans.{block_text, blocks_text, bound_text, head_text, ops_text, plan_text};

use crate::numbers::{put_number, put_numbers};
use crate::operations::put_op;
use arr_io::{Sink, SinkBuffer, WriteFault};
use arr_ops::{Op, Plan};

/// Puts the first line of a flush.
fn put_head<K: Sink>(
    recorded: u32,
    number: u32,
    left: usize,
    blocks: usize,
    cost: u64,
    out: &mut SinkBuffer,
    sink: &mut K,
)
    ensures { PutsText K.Sink out.old sink.old out.new sink.new (head_text recorded number left blocks cost) }
{
    out.put(b"# flush ", sink);
    put_number(number, out, sink);
    out.put(b" recorded ", sink);
    put_number(recorded, out, sink);
    out.put(b" rewritten ", sink);
    put_number(left, out, sink);
    out.put(b" blocks ", sink);
    put_number(blocks, out, sink);
    out.put(b" cost ", sink);
    put_number(cost, out, sink);
    out.put(b"\n", sink);
}

/// Puts a line for each operation of a list.
fn put_ops<K: Sink>(ops: &[Op], out: &mut SinkBuffer, sink: &mut K)
    ensures { PutsText K.Sink out.old sink.old out.new sink.new (ops_text 1 ops.now) }
{
    for (index, op) in ops.iter().enumerate() {
        put_op(index as u64 + 1, op, out, sink);
    }
}

/// Puts the line of a block.
fn put_block<K: Sink>(number: u64, cost: u64, block: &[u32], out: &mut SinkBuffer, sink: &mut K)
    ensures { PutsText K.Sink out.old sink.old out.new sink.new (block_text number cost block.now) }
{
    out.put(b"# block ", sink);
    put_number(number, out, sink);
    out.put(b" cost ", sink);
    put_number(cost, out, sink);
    out.put(b" ops", sink);
    put_numbers(block, out, sink);
    out.put(b"\n", sink);
}

/// Puts a line for each block, with its cost.
fn put_blocks<K: Sink>(blocks: &[Vec<u32>], costs: &[u64], out: &mut SinkBuffer, sink: &mut K)
    requires { length costs.now ≡ length blocks.now }
    ensures { PutsText K.Sink out.old sink.old out.new sink.new
        (blocks_text 1 (map (λ b. b.items) blocks.now) costs.now) }
{
    for (index, block) in blocks.iter().enumerate() {
        put_block(index as u64 + 1, costs[index], block, out, sink);
    }
}

/// The blocks of a plan.
fn blocks_of(plan: &Plan) -> &[Vec<u32>]
    ensures value { map (λ b. b.items) result.now ≡ plan.now }
    ensures count { length result.now ≡ length plan.now }
{
    &plan.blocks
}

/// The sum of costs.
fn total(costs: &[u64]) -> u64
    requires { sum costs.now < 2 ^ 40 }
    ensures { result ≡ sum costs.now }
{
    costs.iter().sum()
}

/// Puts the lines of a flush: a line of numbers, a line for each operation of the rewritten list, and a line for each block of its plan
/// (docs/PLANS.md, "The listing"). Costs are in bytes.
pub fn put_plan<K: Sink>(
    recorded: u32,
    number: u32,
    ops: &[Op],
    plan: &Plan,
    costs: &[u64],
    out: &mut SinkBuffer,
    sink: &mut K,
)
    requires same_count { length costs.now ≡ length plan.now }
    requires small { sum costs.now < 2 ^ 40 }
    ensures { PutsText K.Sink out.old sink.old out.new sink.new
        (plan_text recorded number ops.now plan.now costs.now) }
{
    let blocks = blocks_of(plan);
    put_head(
        recorded,
        number,
        ops.len(),
        blocks.len(),
        total(costs),
        out,
        sink,
    );
    put_ops(ops, out, sink);
    put_blocks(blocks, costs, out, sink);
}

/// Writes the lines of a flush with its number, from 1: how many operations were recorded, the rewritten list, and its plan with the cost of
/// each block in bytes (docs/PLANS.md, "The listing").
///
/// `WriteFault` comes only where the sink's count of faults rose in this call; then a byte of the lines is missing.
pub fn write_plan<K: Sink>(
    recorded: u32,
    number: u32,
    ops: &[Op],
    plan: &Plan,
    costs: &[u64],
    sink: &mut K,
) -> Result<(), WriteFault>
    requires same_count { length costs.now ≡ length plan.now }
    requires small { sum costs.now < 2 ^ 40 }
    ensures { Writes K.Sink sink.old sink.new result (plan_text recorded number ops.now plan.now costs.now) }
{
    let mut out = SinkBuffer::new();
    put_plan(recorded, number, ops, plan, costs, &mut out, sink);
    out.finish(sink)
}

/// How a bound line ends.
fn mark(cost: u64, bound: u64) -> &'static str
    ensures { result.now ≡ cond (bound == cost) (codes " optimal\n") (codes " budget\n") }
{
    if bound == cost {
        " optimal\n"
    } else {
        " budget\n"
    }
}

/// Puts the bound line of a flush (docs/PLANS.md, "The listing"). Cost and bound are in bytes.
pub fn put_bound<K: Sink>(cost: u64, bound: u64, units: u64, out: &mut SinkBuffer, sink: &mut K)
    ensures { PutsText K.Sink out.old sink.old out.new sink.new (bound_text cost bound units) }
{
    out.put(b"# bound ", sink);
    put_number(bound, out, sink);
    out.put(b" units ", sink);
    put_number(units, out, sink);
    out.put(mark(cost, bound).as_bytes(), sink);
}

/// Writes the bound line of a flush: the bound in bytes, the units that were spent, and `optimal` where the plan costs the bound, else
/// `budget` (docs/PLANS.md, "The listing").
///
/// `WriteFault` comes only where the sink's count of faults rose in this call; then a byte of the line is missing.
pub fn write_bound<K: Sink>(
    cost: u64,
    bound: u64,
    units: u64,
    sink: &mut K,
) -> Result<(), WriteFault>
    ensures { Writes K.Sink sink.old sink.new result (bound_text cost bound units) }
{
    let mut out = SinkBuffer::new();
    put_bound(cost, bound, units, &mut out, sink);
    out.finish(sink)
}
