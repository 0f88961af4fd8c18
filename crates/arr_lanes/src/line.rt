ghost use Rattle.std.specs.Prelude.{ℕ, ◌≡◌, ◌<◌, ◌≤◌, ◌+◌, IsTrue, length, map, not, pos, slice_get};
ghost use Rattle.arr_num.specs.Numbers.{value};
ghost use Rattle.arr_native.specs.Entries.{entry};
ghost use Rattle.arr_vector.specs.Sorts.{is_comparison};
ghost use Rattle.arr_strips.specs.Registers.{line_value};
ghost use Rattle.arr_store.specs.Stored.{cells};
ghost use Rattle.arr_lanes.specs.Lanes.{Becomes, IsLane, LineFits, LineRan, PlacesFit, WorkFits, compares, held, registers, shown_work};
ghost use Rattle.arr_lanes.specs.Spares.{HasRoom};

use crate::fill::{fill_arithmetic, fill_comparison, fill_conversion, fill_positions, fill_power};
use crate::lane::Lane;
use crate::spares::Spares;
use crate::strip::{Place, Strip};
use arr_num::{Code, Elem};
use arr_store::{Buffer, Store};

/// What a line computes at each position (docs/LANGUAGE.md, "Opcodes"), from lanes by their numbers.
#[derive(Debug, Clone, Copy)]
pub enum Work {
    /// A code whose result has the type of its inputs, from two lanes. A unary code takes no notice of the second.
    Arithmetic(Code, u32, u32),
    /// A comparison of two lanes of a type.
    Comparison(Code, Elem, u32, u32),
    /// POWER, of a lane to an exponent.
    Power(u32, u64),
    /// IDENTITY, of a lane of a type.
    Conversion(Elem, u32),
    /// RANGE.
    Positions,
}

/// An operation over lanes: what it computes, the type of the result, and the lane that the result is for.
#[derive(Debug, Clone, Copy)]
pub struct Line {
    pub work: Work,
    pub to: Elem,
    pub dest: u32,
}

/// Runs a line at all positions of a strip.
pub fn run_line(
    line: Line,
    lanes: &mut [Buffer],
    places: &[Option<Place>],
    store: &Store,
    spares: &mut Spares,
    strip: Strip,
)
    requires fits { LineFits strip.room lanes.old line }
    requires spares { HasRoom strip.room spares.old }
    requires within { strip.count ≤ strip.width }
    requires wide { strip.width ≤ strip.room }
    requires places { PlacesFit strip.width lanes.old places.now (cells store.now) }
    requires few { strip.position + strip.count ≤ 1048576 }
    ensures lanes { LineRan strip line (held lanes.old places.now (cells store.now)) lanes.old lanes.new }
    ensures spares { HasRoom strip.room spares.new }
{
    match line.to {
        Elem::U8 => run_bytes(line, lanes, places, store, &mut spares.bytes, strip),
        Elem::I32 => run_typed(line, lanes, places, store, &mut spares.words, strip),
        Elem::I64 => run_typed(line, lanes, places, store, &mut spares.longs, strip),
        Elem::U64 => run_typed(line, lanes, places, store, &mut spares.naturals, strip),
    }
}

/// Runs a line whose result is of the type u8, which a comparison may be.
fn run_bytes(
    line: Line,
    lanes: &mut [Buffer],
    places: &[Option<Place>],
    store: &Store,
    spare: &mut Vec<u8>,
    strip: Strip,
)
    requires fits { LineFits strip.room lanes.old line }
    requires to { line.to ≡ Elem.U8 }
    requires spare { strip.room ≤ length spare.old.items }
    requires within { strip.count ≤ strip.width }
    requires wide { strip.width ≤ strip.room }
    requires places { PlacesFit strip.width lanes.old places.now (cells store.now) }
    requires few { strip.position + strip.count ≤ 1048576 }
    ensures lanes { LineRan strip line (held lanes.old places.now (cells store.now)) lanes.old lanes.new }
    ensures spare { strip.room ≤ length spare.new.items }
{
    match line.work {
        Work::Comparison(code, from, first, second) => {
            compare_lanes(
                spare, lanes, places, store, code, from, first, second, strip,
            );
            put(lanes, line.dest, spare, strip);
        }
        _ => run_typed(line, lanes, places, store, spare, strip),
    }
}

/// Runs a line that is no comparison.
fn run_typed<T: Lane>(
    line: Line,
    lanes: &mut [Buffer],
    places: &[Option<Place>],
    store: &Store,
    spare: &mut Vec<T>,
    strip: Strip,
)
    requires fits { LineFits strip.room lanes.old line }
    requires to { line.to ≡ T.elem }
    requires work { IsTrue (not (compares line.work)) }
    requires spare { strip.room ≤ length spare.old.items }
    requires within { strip.count ≤ strip.width }
    requires wide { strip.width ≤ strip.room }
    requires places { PlacesFit strip.width lanes.old places.now (cells store.now) }
    requires few { strip.position + strip.count ≤ 1048576 }
    ensures lanes { LineRan strip line (held lanes.old places.now (cells store.now)) lanes.old lanes.new }
    ensures spare { strip.room ≤ length spare.new.items }
{
    fill(spare, lanes, places, store, line.work, strip);
    put(lanes, line.dest, spare, strip);
}

/// What a line that is no comparison computes.
fn fill<T: Lane>(
    out: &mut Vec<T>,
    lanes: &[Buffer],
    places: &[Option<Place>],
    store: &Store,
    work: Work,
    strip: Strip,
)
    requires fits { WorkFits strip.room lanes.now work T.elem }
    requires work { IsTrue (not (compares work)) }
    requires out { strip.room ≤ length out.old.items }
    requires within { strip.count ≤ strip.width }
    requires wide { strip.width ≤ strip.room }
    requires places { PlacesFit strip.width lanes.now places.now (cells store.now) }
    requires few { strip.position + strip.count ≤ 1048576 }
    ensures length { length out.new.items ≡ length out.old.items }
    ensures each { (i : ℕ) → i < strip.count → entry T.number out.new.items i
        ≡ line_value (strip.position + i) (registers (held lanes.now places.now (cells store.now)) i) (shown_work work T.elem 0) }
{
    match work {
        Work::Arithmetic(code, first, second) => {
            fill_arithmetic(out, lanes, places, store, code, first, second, strip)
        }
        Work::Comparison(..) => unreachable!(),
        Work::Power(first, exponent) => fill_power(
            out, lanes, places, store, first, exponent, strip,
        ),
        Work::Conversion(from, first) => convert_lane(
            out, lanes, places, store, from, first, strip,
        ),
        Work::Positions => fill_positions(out, strip),
    }
}

/// The numbers of a lane of any type, in the type `T`.
fn convert_lane<T: Lane>(
    out: &mut Vec<T>,
    lanes: &[Buffer],
    places: &[Option<Place>],
    store: &Store,
    from: Elem,
    first: u32,
    strip: Strip,
)
    requires out { strip.room ≤ length out.old.items }
    requires first { IsLane from strip.room (slice_get lanes.now first) }
    requires within { strip.count ≤ strip.width }
    requires wide { strip.width ≤ strip.room }
    requires places { PlacesFit strip.width lanes.now places.now (cells store.now) }
    ensures length { length out.new.items ≡ length out.old.items }
    ensures each { (i : ℕ) → i < strip.count → entry T.number out.new.items i
        ≡ value Code.Identity T.elem (held lanes.now places.now (cells store.now) first i) (pos 0) }
{
    match from {
        Elem::U8 => fill_conversion::<u8, T>(out, lanes, places, store, first, strip),
        Elem::I32 => fill_conversion::<i32, T>(out, lanes, places, store, first, strip),
        Elem::I64 => fill_conversion::<i64, T>(out, lanes, places, store, first, strip),
        Elem::U64 => fill_conversion::<u64, T>(out, lanes, places, store, first, strip),
    }
}

/// The values of a comparison of two lanes of any one type.
fn compare_lanes(
    out: &mut Vec<u8>,
    lanes: &[Buffer],
    places: &[Option<Place>],
    store: &Store,
    code: Code,
    from: Elem,
    first: u32,
    second: u32,
    strip: Strip,
)
    requires out { strip.room ≤ length out.old.items }
    requires code { IsTrue (is_comparison code) }
    requires first { IsLane from strip.room (slice_get lanes.now first) }
    requires second { IsLane from strip.room (slice_get lanes.now second) }
    requires within { strip.count ≤ strip.width }
    requires wide { strip.width ≤ strip.room }
    requires places { PlacesFit strip.width lanes.now places.now (cells store.now) }
    ensures length { length out.new.items ≡ length out.old.items }
    ensures each { (i : ℕ) → i < strip.count → entry pos out.new.items i
        ≡ value code Elem.U8 (held lanes.now places.now (cells store.now) first i) (held lanes.now places.now (cells store.now) second i) }
{
    match from {
        Elem::U8 => fill_comparison::<u8>(out, lanes, places, store, code, first, second, strip),
        Elem::I32 => fill_comparison::<i32>(out, lanes, places, store, code, first, second, strip),
        Elem::I64 => fill_comparison::<i64>(out, lanes, places, store, code, first, second, strip),
        Elem::U64 => fill_comparison::<u64>(out, lanes, places, store, code, first, second, strip),
    }
}

/// Lets a list and the numbers of a lane change places; both have room for so many numbers.
#[inline(always)]
pub fn put<T: Lane>(lanes: &mut [Buffer], dest: u32, list: &mut Vec<T>, strip: Strip)
    requires dest { IsLane T.elem strip.room (slice_get lanes.old dest) }
    requires list { strip.room ≤ length list.old.items }
    ensures lanes { Becomes T.elem strip.room strip.count dest (entry T.number list.old.items) lanes.old lanes.new }
    ensures list { strip.room ≤ length list.new.items }
{
    T::exchange(&mut lanes[dest as usize], list);
}
