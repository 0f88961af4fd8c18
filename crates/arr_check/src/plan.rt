//! Plans, as a place for each operation, counted from 1.
ghost use Rattle.std.specs.Prelude.{◌≡◌, ◌≤◌, ◌<◌, ◌+◌, ◌-◌, ◌==◌, ◌||◌, ◌&&◌, max, nat_le, true};
ghost use Rattle.std.specs.List.{list_all, list_any};
ghost use Rattle.arr_law.specs.Plans.{are_places, charged_at, greatest, is_forward, is_together, outside_at, place_in, price};
ghost use Rattle.arr_law.specs.Problem.{is_op, is_pair, operations};
ghost use Rattle.arr_law.specs.ProblemOf.{problem_of};
ghost use Rattle.arr_law.specs.Verdict.{plan_fault};
ghost use Rattle.arr_check.specs.Places.{block_price, block_reads, block_writes, class_cost, may_precede, may_stand_with, spot};

use crate::known::is_pair;
use crate::tables::Tables;
use arr_law::{Places, Reject};

fn comes_before(q: u32, place: u32) -> bool
    ensures { result ≡ (q + 1 == place) }
{
    u64::from(q) + 1 == u64::from(place)
}

/// Whether the place before one is used.
fn is_followed(places: &Places, place: u32) -> bool
    ensures { result ≡ list_any (λ q. q + 1 == place) places.now }
{
    for at in 0..places.len() {
        if comes_before(*places.at(at), place) {
            return true;
        }
    }
    false
}

/// Whether a place is the first, or the one before it is used.
fn is_placed(places: &Places, place: u32) -> bool
    ensures { result ≡ (nat_le 1 place && ((place == 1) || list_any (λ q. q + 1 == place) places.now)) }
{
    1 <= place && (place == 1 || is_followed(places, place))
}

/// Whether there is a place for each operation, the places are 1 to some number, and each is used.
fn are_places(tables: &Tables, places: &Places) -> bool
    ensures { result ≡ are_places (problem_of tables.now) places.now }
{
    if places.len() != tables.count() as usize {
        return false;
    }
    for at in 0..places.len() {
        if !is_placed(places, *places.at(at)) {
            return false;
        }
    }
    true
}

/// The place of an operation; 0 where there is none.
fn place_in(places: &Places, f: u32) -> u32
    ensures { result ≡ place_in places.now f }
{
    let at = f.saturating_sub(1) as usize;
    if at < places.len() { *places.at(at) } else { 0 }
}

/// Whether two operations of one block are fusible.
fn may_share(tables: &Tables, places: &Places, f: u32, g: u32) -> bool
    ensures { result ≡ may_stand_with (problem_of tables.now) places.now f g }
{
    if !is_pair(tables, f, g) {
        return true;
    }
    place_in(places, f) != place_in(places, g) || tables.fusible(f, g)
}

fn shares_rightly(tables: &Tables, places: &Places, f: u32) -> bool
    ensures { result ≡ list_all (may_stand_with (problem_of tables.now) places.now f)
        (operations (problem_of tables.now)) }
{
    for k in 0..tables.count() {
        if !may_share(tables, places, f, k + 1) {
            return false;
        }
    }
    true
}

/// Whether each two operations of one block are fusible.
fn is_together(tables: &Tables, places: &Places) -> bool
    ensures { result ≡ is_together (problem_of tables.now) places.now }
{
    for k in 0..tables.count() {
        if !shares_rightly(tables, places, k + 1) {
            return false;
        }
    }
    true
}

/// Whether an operation does not stand after one that depends on it.
fn may_stand(tables: &Tables, places: &Places, f: u32, g: u32) -> bool
    ensures { result ≡ may_precede (problem_of tables.now) places.now f g }
{
    if !is_pair(tables, f, g) {
        return true;
    }
    !tables.dep(f, g) || place_in(places, f) <= place_in(places, g)
}

fn stands_rightly(tables: &Tables, places: &Places, f: u32) -> bool
    ensures { result ≡ list_all (may_precede (problem_of tables.now) places.now f)
        (operations (problem_of tables.now)) }
{
    for k in 0..tables.count() {
        if !may_stand(tables, places, f, k + 1) {
            return false;
        }
    }
    true
}

/// Whether no operation stands after one that depends on it.
fn is_forward(tables: &Tables, places: &Places) -> bool
    ensures { result ≡ is_forward (problem_of tables.now) places.now }
{
    for k in 0..tables.count() {
        if !stands_rightly(tables, places, k + 1) {
            return false;
        }
    }
    true
}

/// What is wrong with a plan, if anything is.
pub(crate) fn plan_fault(tables: &Tables, places: &Places) -> Option<Reject>
    ensures { result ≡ plan_fault (problem_of tables.now) places.now }
{
    if !are_places(tables, places) {
        return Some(Reject::BadPlan);
    }
    if !is_together(tables, places) {
        return Some(Reject::NotFusible);
    }
    if !is_forward(tables, places) {
        return Some(Reject::Backward);
    }
    None
}

/// The number of the block of an operation, counted from 0.
fn spot(places: &Places, f: u32) -> u32
    ensures { result ≡ spot places.now f }
{
    place_in(places, f).saturating_sub(1)
}

/// Whether an operation stands in a block and reads a view of a class.
fn reads_at(tables: &Tables, places: &Places, block: u32, c: u32, f: u32) -> bool
    requires op { is_op (problem_of tables.now) f ≡ true }
    requires class { c < (problem_of tables.now).classes }
    ensures { result ≡ ((spot places.now f == block) && (problem_of tables.now).reads f c) }
{
    spot(places, f) == block && tables.reads(f, c)
}

/// Whether an operation stands in a block and writes a view of a class.
fn writes_at(tables: &Tables, places: &Places, block: u32, c: u32, f: u32) -> bool
    requires op { is_op (problem_of tables.now) f ≡ true }
    requires class { c < (problem_of tables.now).classes }
    ensures { result ≡ ((spot places.now f == block) && (problem_of tables.now).writes f c) }
{
    spot(places, f) == block && tables.writes(f, c)
}

/// Whether an operation of a block reads a view of a class.
fn reads_there(tables: &Tables, places: &Places, block: u32, c: u32) -> bool
    requires { c < (problem_of tables.now).classes }
    ensures { result ≡ block_reads (problem_of tables.now) places.now block c }
{
    for k in 0..tables.count() {
        if reads_at(tables, places, block, c, k + 1) {
            return true;
        }
    }
    false
}

/// Whether an operation of a block writes a view of a class.
fn writes_there(tables: &Tables, places: &Places, block: u32, c: u32) -> bool
    requires { c < (problem_of tables.now).classes }
    ensures { result ≡ block_writes (problem_of tables.now) places.now block c }
{
    for k in 0..tables.count() {
        if writes_at(tables, places, block, c, k + 1) {
            return true;
        }
    }
    false
}

/// Whether an operation that may be there does not stand in a block.
fn is_outside(places: &Places, block: u32, op: Option<u32>) -> bool
    ensures { result ≡ outside_at (spot places.now) block op }
{
    match op {
        Some(f) => spot(places, f) != block,
        None => true,
    }
}

/// Whether a block pays for a class: it reads a view of it from outside, or leaves one behind.
fn is_charged(tables: &Tables, places: &Places, block: u32, c: u32) -> bool
    requires { c < (problem_of tables.now).classes }
    ensures { result ≡ charged_at (problem_of tables.now) (spot places.now) block c }
{
    (is_outside(places, block, tables.creator(c)) && reads_there(tables, places, block, c))
        || (is_outside(places, block, tables.freer(c)) && writes_there(tables, places, block, c))
}

/// What a block pays for a class, in bytes.
fn class_cost(tables: &Tables, places: &Places, block: u32, c: u32) -> u64
    requires { c < (problem_of tables.now).classes }
    ensures value { result ≡ class_cost (problem_of tables.now) places.now block c }
    ensures small { result ≤ 8388608 }
{
    if is_charged(tables, places, block, c) {
        tables.weight(c)
    } else {
        0
    }
}

/// What a block costs, in bytes.
fn block_cost(tables: &Tables, places: &Places, block: u32) -> u64
    ensures value { result ≡ block_price (problem_of tables.now) places.now block }
    ensures small { result ≤ 6442450944 }
{
    let mut total: u64 = 0;
    for c in 0..tables.classes() {
        total += class_cost(tables, places, block, c);
    }
    total
}

fn greater(a: u32, b: u32) -> u32
    ensures { result ≡ max a b }
{
    if a < b { b } else { a }
}

/// The greatest place.
fn greatest(places: &Places) -> u32
    ensures { result ≡ greatest places.now }
{
    let mut most = 0;
    for at in 0..places.len() {
        most = greater(most, *places.at(at));
    }
    most
}

/// What a plan by places costs, in bytes.
pub(crate) fn price(tables: &Tables, places: &Places) -> u128
    ensures { result ≡ price (problem_of tables.now) places.now }
{
    let mut total: u128 = 0;
    for block in 0..greatest(places) {
        total += u128::from(block_cost(tables, places, block));
    }
    total
}
