//! Views that a strip loads or stores, and their lanes.
ghost use Rattle.std.specs.Prelude.{ℕ, ◌≡◌, ◌+◌, ◌*◌, ◌<◌, ◌≤◌, ◌^◌, IfSome, None, get_or, length, true};
ghost use Rattle.std.specs.List.{AllByRecursion};
ghost use Rattle.arr_ops.specs.Costs.{reads};
ghost use Rattle.arr_store.specs.Cells.{width_at};
ghost use Rattle.arr_store.specs.Stored.{cells};
ghost use Rattle.arr_view.specs.Views.{positions};
ghost use Rattle.arr_strips.specs.Blocks.{block_positions, stores};
ghost use Rattle.arr_strips.specs.Strips.{stored};
ghost use Rattle.arr_lanes.specs.Lanes.{PlacesFit, held, number};
ghost use Rattle.arr_machine.specs.Lent.{AreOwn, is_lent};
ghost use Rattle.arr_machine.specs.Ports.{AreLoaded, ArePorts, Brings, IsPort, IsThere, StandsAt, lane_columns, widths};
ghost use Rattle.arr_machine.specs.Standing.{IsStripOf};
ghost use Rattle.arr_machine.specs.Tasks.{Steady, TypedLanes};

use arr_lanes::{Place, Strip};
use arr_ops::Op;
use arr_rows::Rows;
use arr_store::{Buffer, Store};

/// A view that each strip loads or stores, and the lane that is its register. What is lent may be read where it stands.
#[derive(Debug, Drop)]
pub struct Port {
    pub rows: Rows,
    pub lane: u32,
    pub is_lent: bool,
}

/// Lets no lane be read elsewhere.
fn forget_places(places: &mut [Option<Place>])
    ensures long { length places.new ≡ length places.old }
    ensures none { (r : ℕ) → get_or places.new r None ≡ None }
{
    for index in 0..places.len() {
        places[index] = None;
    }
}

/// Where the numbers of a view stand at a strip, if it may be read there: side by side, with as many numbers behind the first as loops
/// go over.
fn place_of(_ops: &[Op], port: &Port, store: &Store, strip: Strip) -> Option<Place>
    requires strip { IsStripOf _ops.now strip.position strip.count strip.room }
    requires long { positions port.now.rows.lengths ≡ block_positions _ops.now }
    requires there { IsThere _ops.now (cells store.now) port.now.rows }
    requires lent { port.now.is_lent ≡ is_lent _ops.now port.now.rows }
    ensures { IfSome result (StandsAt _ops.now strip (cells store.now) port.now.rows) }
{
    if !port.is_lent {
        return None;
    }
    let base = port.rows.base();
    let start = port.rows.place(strip.position as u32, strip.count)?;
    let behind = store.buffer(base).len() - start as usize;
    if behind < strip.width {
        return None;
    }
    Some(Place { base, start })
}

/// Brings the numbers of a view at a strip to its lane: loads them, or says where they stand.
fn load_port(
    _ops: &[Op],
    port: &Port,
    lanes: &mut [Buffer],
    places: &mut [Option<Place>],
    store: &mut Store,
    strip: Strip,
)
    requires strip { IsStripOf _ops.now strip.position strip.count strip.room }
    requires port { IsPort _ops.now port.now.rows port.now }
    requires there { IsThere _ops.now (cells store.old) port.now.rows }
    requires typed { TypedLanes _ops.now strip.room lanes.old }
    requires places { PlacesFit strip.width lanes.old places.old (cells store.old) }
    requires own { AreOwn _ops.now places.old }
    requires room { store.old.loads < 2 ^ 62 }
    ensures loaded { Brings _ops.now strip port.now.rows (cells store.old)
        (held lanes.old places.old (cells store.old)) (held lanes.new places.new (cells store.old)) }
    ensures places { PlacesFit strip.width lanes.new places.new (cells store.old) }
    ensures own { AreOwn _ops.now places.new }
    ensures steady { Steady _ops.now strip.room lanes.old lanes.new }
    ensures bases { store.new.bases ≡ store.old.bases }
    ensures loads { store.new.loads ≡ store.old.loads + strip.count * width_at (cells store.old port.now.rows.base) }
    ensures stores { store.new.stores ≡ store.old.stores }
    ensures made { store.new.made ≡ store.old.made }
{
    let place = place_of(_ops, port, store, strip);
    places[port.lane as usize] = place;
    match place {
        Some(place) => store.count_loads(place.base, strip.count),
        None => port.rows.load(
            store,
            strip.position as u32,
            strip.count,
            &mut lanes[port.lane as usize],
        ),
    }
}

/// Brings the numbers of the views that a block reads, at the positions of a strip, to their lanes.
pub(crate) fn load_ports(
    _ops: &[Op],
    ports: &[Port],
    lanes: &mut [Buffer],
    places: &mut [Option<Place>],
    store: &mut Store,
    strip: Strip,
)
    requires strip { IsStripOf _ops.now strip.position strip.count strip.room }
    requires ports { ArePorts _ops.now (reads _ops.now) ports.now }
    requires few { length (reads _ops.now) ≤ 768 }
    requires there { AllByRecursion (IsThere _ops.now (cells store.old)) (reads _ops.now) }
    requires typed { TypedLanes _ops.now strip.room lanes.old }
    requires places { length places.old ≡ length lanes.old }
    requires room { store.old.loads < 2 ^ 61 + 2 ^ 40 }
    ensures loaded { AreLoaded _ops.now strip (cells store.old) (held lanes.new places.new (cells store.old)) }
    ensures places { PlacesFit strip.width lanes.new places.new (cells store.old) }
    ensures own { AreOwn _ops.now places.new }
    ensures steady { Steady _ops.now strip.room lanes.old lanes.new }
    ensures bases { store.new.bases ≡ store.old.bases }
    ensures loads { store.new.loads
        ≡ store.old.loads + strip.count * widths (cells store.old) (reads _ops.now) }
    ensures stores { store.new.stores ≡ store.old.stores }
    ensures made { store.new.made ≡ store.old.made }
{
    forget_places(places);
    for port in ports {
        load_port(_ops, port, lanes, places, store, strip);
    }
}

/// Stores the lanes of the views that a walk writes, at the positions of a strip, view after view.
pub(crate) fn store_ports(
    _ops: &[Op],
    ports: &[Port],
    lanes: &[Buffer],
    store: &mut Store,
    strip: Strip,
)
    requires strip { IsStripOf _ops.now strip.position strip.count strip.room }
    requires ports { ArePorts _ops.now (stores _ops.now) ports.now }
    requires few { length (stores _ops.now) ≤ 768 }
    requires there { AllByRecursion (IsThere _ops.now (cells store.old)) (stores _ops.now) }
    requires typed { TypedLanes _ops.now strip.room lanes.now }
    requires room { store.old.stores < 2 ^ 61 + 2 ^ 40 }
    ensures bases { cells store.new
        ≡ stored strip.position strip.count (lane_columns _ops.now (number lanes.now) strip.position) (stores _ops.now)
        (cells store.old) }
    ensures stores { store.new.stores
        ≡ store.old.stores + strip.count * widths (cells store.old) (stores _ops.now) }
    ensures loads { store.new.loads ≡ store.old.loads }
    ensures made { store.new.made ≡ store.old.made }
{
    for port in ports {
        port.rows.store(
            store,
            strip.position as u32,
            strip.count,
            &lanes[port.lane as usize],
        );
    }
}
