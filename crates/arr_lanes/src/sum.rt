ghost use Rattle.std.specs.Prelude.{ℕ, ◌≡◌, ◌<◌, ◌≤◌, length, slice_get};
ghost use Rattle.arr_native.specs.Entries.{entry};
ghost use Rattle.arr_store.specs.Stored.{cells};
ghost use Rattle.arr_lanes.specs.Lanes.{PlacesFit, held};
ghost use Rattle.arr_lanes.specs.Spares.{HasRoom};
ghost use Rattle.arr_lanes.specs.Sums.{SumFits, SumRan, sum_value};

use crate::fill::numbers_of;
use crate::lane::Lane;
use crate::line::put;
use crate::spares::Spares;
use crate::strip::{Place, Strip};
use arr_num::Elem;
use arr_store::{Buffer, Store};
use arr_vector::{add_five, add_three};

/// Lanes of one type whose numbers are added from the left, three or five of them, and the lane that the sums are for.
#[derive(Debug, Clone, Copy)]
pub struct Sum {
    pub first: u32,
    pub second: u32,
    pub third: u32,
    pub more: Option<(u32, u32)>,
    pub to: Elem,
    pub dest: u32,
}

/// Adds lanes at all positions of a strip, in one loop (docs/LANGUAGE.md, "Opcodes"). It takes no memory.
pub fn run_sum(
    sum: Sum,
    lanes: &mut [Buffer],
    places: &[Option<Place>],
    store: &Store,
    spares: &mut Spares,
    strip: Strip,
)
    requires fits { SumFits strip.room lanes.old sum }
    requires spares { HasRoom strip.room spares.old }
    requires within { strip.count ≤ strip.width }
    requires wide { strip.width ≤ strip.room }
    requires places { PlacesFit strip.width lanes.old places.now (cells store.now) }
    ensures lanes { SumRan strip sum (held lanes.old places.now (cells store.now)) lanes.old lanes.new }
    ensures spares { HasRoom strip.room spares.new }
{
    match sum.to {
        Elem::U8 => sum_typed(sum, lanes, places, store, &mut spares.bytes, strip),
        Elem::I32 => sum_typed(sum, lanes, places, store, &mut spares.words, strip),
        Elem::I64 => sum_typed(sum, lanes, places, store, &mut spares.longs, strip),
        Elem::U64 => sum_typed(sum, lanes, places, store, &mut spares.naturals, strip),
    }
}

/// Adds lanes of the type `T`.
fn sum_typed<T: Lane>(
    sum: Sum,
    lanes: &mut [Buffer],
    places: &[Option<Place>],
    store: &Store,
    spare: &mut Vec<T>,
    strip: Strip,
)
    requires fits { SumFits strip.room lanes.old sum }
    requires to { sum.to ≡ T.elem }
    requires spare { strip.room ≤ length spare.old.items }
    requires within { strip.count ≤ strip.width }
    requires wide { strip.width ≤ strip.room }
    requires places { PlacesFit strip.width lanes.old places.now (cells store.now) }
    ensures lanes { SumRan strip sum (held lanes.old places.now (cells store.now)) lanes.old lanes.new }
    ensures spare { strip.room ≤ length spare.new.items }
{
    fill_sum(spare, lanes, places, store, sum, strip);
    put(lanes, sum.dest, spare, strip);
}

/// The first `count` sums of lanes.
fn fill_sum<T: Lane>(
    out: &mut Vec<T>,
    lanes: &[Buffer],
    places: &[Option<Place>],
    store: &Store,
    sum: Sum,
    strip: Strip,
)
    requires fits { SumFits strip.room lanes.now sum }
    requires to { sum.to ≡ T.elem }
    requires out { strip.room ≤ length out.old.items }
    requires within { strip.count ≤ strip.width }
    requires wide { strip.width ≤ strip.room }
    requires places { PlacesFit strip.width lanes.now places.now (cells store.now) }
    ensures length { length out.new.items ≡ length out.old.items }
    ensures each { (i : ℕ) → i < strip.count → entry T.number out.new.items i ≡ sum_value (held lanes.now places.now (cells store.now)) sum i }
{
    let a = numbers_of(lanes, places, store, sum.first, strip);
    let b = numbers_of(lanes, places, store, sum.second, strip);
    let c = numbers_of(lanes, places, store, sum.third, strip);
    match sum.more {
        Some((fourth, fifth)) => {
            let d = numbers_of(lanes, places, store, fourth, strip);
            let e = numbers_of(lanes, places, store, fifth, strip);
            add_five(out.as_mut_slice(), a, b, c, d, e, strip.width);
        }
        None => add_three(out.as_mut_slice(), a, b, c, strip.width),
    }
}
