//! A descent by random moves: plans that cost less than the one that a search begins with. Nothing is promised of what it finds.

use crate::partition::{Move, Partition};
use crate::rows::Row;
use crate::ties::Ties;
use rand_core::Rng;
use rand_pcg::Pcg32;

/// How many moves a descent tries for each operation.
const MOVES_EACH: u32 = 40;

/// A random place below this, which is 0 only where nothing is.
fn below(random: &mut Pcg32, count: usize) -> usize {
    if count == 0 {
        return 0;
    }
    random.next_u32() as usize % count
}

/// Two random operations that share a view, or of which one makes the base of a view of the other.
fn pair_of(random: &mut Pcg32, ties: &Ties) -> Option<(u8, u8)> {
    let class = ties.classes.get(below(random, ties.classes.len()))?;
    let f = class.users.get(below(random, class.users.len()))?;
    let g = class.users.get(below(random, class.users.len()))?;
    Some((*f, *g))
}

/// A random move: an operation to a new block, one time in eight or where the two stand together already; else to the block of another that
/// shares a view with it, every other time with its whole block.
fn step_of(random: &mut Pcg32, ties: &Ties, partition: &Partition) -> Option<Move> {
    let (f, g) = pair_of(random, ties)?;
    let from = partition.label(f);
    let way = below(random, 8);
    if way == 0 || partition.label(g) == from {
        let to = partition.fresh(ties)?;
        return Some(Move {
            moved: Row::of(f),
            from,
            to,
        });
    }
    let moved = if way < 4 {
        partition.block(from)
    } else {
        Row::of(f)
    };
    Some(Move {
        moved,
        from,
        to: partition.label(g),
    })
}

/// Lets random moves lead a partition down, until it costs no more than the target, in bytes, or `MOVES_EACH` were tried for
/// each operation.
pub(crate) fn descend(ties: &Ties, partition: &mut Partition, target: u64, random: &mut Pcg32) {
    let mut cost = partition.price(ties).unwrap_or(u64::MAX);
    for _ in 0..ties.all.len().saturating_mul(MOVES_EACH) {
        if cost <= target {
            return;
        }
        if let Some(step) = step_of(random, ties, partition)
            && let Some(less) = partition.take(ties, &step, cost)
        {
            cost = less;
        }
    }
}
