//! The places of a plan.
ghost use Rattle.std.specs.Prelude.{◌≡◌, ◌≤◌, suc, length, map, IfOk};
ghost use Rattle.std.specs.List.{range_with_len};
ghost use Rattle.arr_ops.specs.Plans.{place};
ghost use Rattle.arr_view.specs.Views.{has};

use crate::NoMemory;
use arr_law::Places;
use arr_ops::Plan;
use std::alloc::Global;

fn has(block: &[u32], f: u32) -> bool
    ensures { result ≡ has block.now f }
{
    block.iter().any(|other| f == *other)
}

/// The place of the block of an operation, counted from 0.
fn place_of(plan: &Plan, f: u32) -> usize
    ensures value { result ≡ place plan.now f }
    ensures most { result ≤ length plan.now }
{
    for place in 0..plan.blocks.len() {
        if has(plan.blocks[place].as_slice(), f) {
            return place;
        }
    }
    plan.blocks.len()
}

/// The place of the block of each of the first operations, so many, counted from 1.
pub(crate) fn places_of(alloc: Global, plan: &Plan, count: u32) -> Result<Places, NoMemory>
    requires { length plan.now ≤ 256 }
    ensures { IfOk result (λ places. places ≡ map (λ f. suc (place plan.now f)) (range_with_len 1 count)) }
{
    let mut places = Places::new(alloc);
    for f in 0..count {
        places.push(place_of(plan, f + 1) as u32 + 1)?;
    }
    Ok(places)
}
