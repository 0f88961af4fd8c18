//! What a line computes, into a list of its type.
ghost use Rattle.std.specs.Prelude.{ℕ, ◌≡◌, ◌<◌, ◌≤◌, ◌+◌, IsTrue, length, pos, slice_get};
ghost use Rattle.arr_num.specs.Numbers.{value};
ghost use Rattle.arr_native.specs.Entries.{entry};
ghost use Rattle.arr_vector.specs.Sorts.{is_arithmetic, is_comparison};
ghost use Rattle.arr_store.specs.Stored.{cells};
ghost use Rattle.arr_lanes.specs.Lanes.{IsLane, PlacesFit, held};

use crate::lane::Lane;
use crate::strip::{Place, Strip};
use arr_num::{Code, Elem};
use arr_store::{Buffer, Store};
use arr_vector::{compare, compute, convert, count_up, raise};

/// The numbers of a lane at a strip, in the lane or where they stand in a base.
#[inline(always)]
pub fn numbers_of<'a, T: Lane>(
    lanes: &'a [Buffer],
    places: &[Option<Place>],
    store: &'a Store,
    lane: u32,
    _strip: Strip,
) -> &'a [T]
    requires lane { IsLane T.elem _strip.room (slice_get lanes.now lane) }
    requires places { PlacesFit _strip.width lanes.now places.now (cells store.now) }
    requires wide { _strip.width ≤ _strip.room }
    ensures long { _strip.width ≤ length result.now }
    ensures each { (i : ℕ) → entry T.number result.now i ≡ held lanes.now places.now (cells store.now) lane i }
{
    match places[lane as usize] {
        None => T::numbers(&lanes[lane as usize]),
        Some(place) => &T::numbers(store.buffer(place.base))[place.start as usize..],
    }
}

/// The first `count` values of an arithmetic code, from two lanes.
pub(crate) fn fill_arithmetic<T: Lane>(
    out: &mut Vec<T>,
    lanes: &[Buffer],
    places: &[Option<Place>],
    store: &Store,
    code: Code,
    first: u32,
    second: u32,
    strip: Strip,
)
    requires out { strip.width ≤ length out.old.items }
    requires within { strip.count ≤ strip.width }
    requires wide { strip.width ≤ strip.room }
    requires places { PlacesFit strip.width lanes.now places.now (cells store.now) }
    requires code { IsTrue (is_arithmetic code) }
    requires first { IsLane T.elem strip.room (slice_get lanes.now first) }
    requires second { IsLane T.elem strip.room (slice_get lanes.now second) }
    ensures length { length out.new.items ≡ length out.old.items }
    ensures each { (i : ℕ) → i < strip.count → entry T.number out.new.items i
        ≡ value code T.elem (held lanes.now places.now (cells store.now) first i) (held lanes.now places.now (cells store.now) second i) }
{
    let a = numbers_of(lanes, places, store, first, strip);
    let b = numbers_of(lanes, places, store, second, strip);
    compute(code, out.as_mut_slice(), a, b, strip.width);
}

/// The first `count` values of a comparison, from two lanes of one type.
pub(crate) fn fill_comparison<T: Lane>(
    out: &mut Vec<u8>,
    lanes: &[Buffer],
    places: &[Option<Place>],
    store: &Store,
    code: Code,
    first: u32,
    second: u32,
    strip: Strip,
)
    requires out { strip.width ≤ length out.old.items }
    requires within { strip.count ≤ strip.width }
    requires wide { strip.width ≤ strip.room }
    requires places { PlacesFit strip.width lanes.now places.now (cells store.now) }
    requires code { IsTrue (is_comparison code) }
    requires first { IsLane T.elem strip.room (slice_get lanes.now first) }
    requires second { IsLane T.elem strip.room (slice_get lanes.now second) }
    ensures length { length out.new.items ≡ length out.old.items }
    ensures each { (i : ℕ) → i < strip.count → entry pos out.new.items i
        ≡ value code Elem.U8 (held lanes.now places.now (cells store.now) first i) (held lanes.now places.now (cells store.now) second i) }
{
    let a: &[T] = numbers_of(lanes, places, store, first, strip);
    let b: &[T] = numbers_of(lanes, places, store, second, strip);
    compare(code, out.as_mut_slice(), a, b, strip.width);
}

/// The first `count` numbers of a lane, each raised to one exponent.
pub(crate) fn fill_power<T: Lane>(
    out: &mut Vec<T>,
    lanes: &[Buffer],
    places: &[Option<Place>],
    store: &Store,
    first: u32,
    exponent: u64,
    strip: Strip,
)
    requires out { strip.width ≤ length out.old.items }
    requires within { strip.count ≤ strip.width }
    requires wide { strip.width ≤ strip.room }
    requires places { PlacesFit strip.width lanes.now places.now (cells store.now) }
    requires first { IsLane T.elem strip.room (slice_get lanes.now first) }
    ensures length { length out.new.items ≡ length out.old.items }
    ensures each { (i : ℕ) → i < strip.count → entry T.number out.new.items i
        ≡ value Code.Power T.elem (held lanes.now places.now (cells store.now) first i) (pos exponent) }
{
    raise(
        out.as_mut_slice(),
        numbers_of(lanes, places, store, first, strip),
        exponent,
        strip.width,
    );
}

/// The first `count` numbers of a lane of the type `T`, in the type `U`.
pub(crate) fn fill_conversion<T: Lane, U: Lane>(
    out: &mut Vec<U>,
    lanes: &[Buffer],
    places: &[Option<Place>],
    store: &Store,
    first: u32,
    strip: Strip,
)
    requires out { strip.width ≤ length out.old.items }
    requires within { strip.count ≤ strip.width }
    requires wide { strip.width ≤ strip.room }
    requires places { PlacesFit strip.width lanes.now places.now (cells store.now) }
    requires first { IsLane T.elem strip.room (slice_get lanes.now first) }
    ensures length { length out.new.items ≡ length out.old.items }
    ensures each { (i : ℕ) → i < strip.count → entry U.number out.new.items i
        ≡ value Code.Identity U.elem (held lanes.now places.now (cells store.now) first i) (pos 0) }
{
    let a: &[T] = numbers_of(lanes, places, store, first, strip);
    convert(out.as_mut_slice(), a, strip.width);
}

/// The first `count` positions from one on.
pub(crate) fn fill_positions<T: Lane>(out: &mut Vec<T>, strip: Strip)
    requires out { strip.count ≤ length out.old.items }
    requires few { strip.position + strip.count ≤ 1048576 }
    ensures length { length out.new.items ≡ length out.old.items }
    ensures each { (i : ℕ) → i < strip.count → entry T.number out.new.items i
        ≡ value Code.Range T.elem (pos (strip.position + i)) (pos 0) }
{
    count_up(out.as_mut_slice(), strip.position, strip.count);
}
