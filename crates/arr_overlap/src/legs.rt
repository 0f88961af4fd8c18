//! Where steps of given sizes lead.
ghost use Rattle.std.specs.Prelude.{ℕ, ◌≡◌, ◌≤◌, ◌<◌, ◌+◌, ◌-◌, ◌*◌, ◌/◌, [], ◌∷◌, Some, true, false, length};
ghost use Rattle.arr_overlap.specs.Legs.{reach, AreLegs, LeadTo};

use crate::turns::{Turns, first_count, turns_of};
use arrayvec::ArrayVec;

/// Steps of one size, up from 0.
#[derive(Clone, Copy, Default)]
pub(crate) struct Leg {
    /// How many places they lead to, 0 among them.
    pub(crate) places: u64,
    /// The size of a step, in elements.
    pub(crate) step: u64,
}

/// How far all legs lead, in elements.
pub(crate) fn reach(legs: &[Leg]) -> u64
    requires { AreLegs 8 legs.now }
    ensures value { result ≡ reach legs.now }
    ensures size { result ≤ 288230376151711744 }
{
    let mut reach = 0;
    for leg in legs {
        reach += (leg.places - 1) * leg.step;
    }
    reach
}

/// What tells how many steps of the last leg but one leave a multiple of the last one's step.
fn last_turns(legs: &[Leg]) -> Turns
    requires { AreLegs 8 legs.now }
{
    let count = legs.len();
    if count < 2 {
        return Turns::default();
    }
    turns_of(legs[count - 2].step, legs[count - 1].step)
}

/// Whether some steps along one leg, so many at least and at most, and some along one other lead from 0 to a target; `None` where there
/// is not one other.
fn lead_by_two(
    leg: Leg,
    others: &[Leg],
    turns: Turns,
    target: u64,
    least: u64,
    most: u64,
) -> Option<bool>
    requires legs { AreLegs 8 (leg ∷ others.now) }
    requires most { (most < leg.places) × (most ≤ target / leg.step) }
    ensures reached { result ≡ Some true → LeadTo (leg ∷ others.now) target }
    ensures missed { result ≡ Some false → (k : ℕ) → least ≤ k → k ≤ most → LeadTo others.now (target - k * leg.step)
        → ⊥ }
{
    if others.len() != 1 {
        return None;
    }
    let other = others[0];
    let Some(count) = first_count(turns, leg.step, other.step, target, least) else {
        return Some(false);
    };
    if count > most {
        return Some(false);
    }
    let left = target - count * leg.step;
    if left % other.step == 0 && left / other.step < other.places {
        Some(true)
    } else {
        None
    }
}

/// Whether steps along the legs lead from 0 to a target; `None` where it may take more tries than are allowed. Only as many steps of a
/// leg are tried as leave what the others reach: few, where long steps come first.
fn lead_on(legs: &[Leg], turns: Turns, target: u64, tries: u64) -> Option<bool>
    requires { AreLegs 8 legs.now }
    ensures reached { result ≡ Some true → LeadTo legs.now target }
    ensures missed { result ≡ Some false → LeadTo legs.now target → ⊥ }
{
    let Some((leg, others)) = legs.split_first() else {
        return Some(target == 0);
    };
    let least = target.saturating_sub(reach(others)).div_ceil(leg.step);
    let most = (target / leg.step).min(leg.places - 1);
    let counts = (most + 1).saturating_sub(least);
    if counts > tries {
        return lead_by_two(*leg, others, turns, target, least, most);
    }
    let left = tries / counts.max(1);
    for count in least..most + 1 {
        if lead_on(others, turns, target - count * leg.step, left)? {
            return Some(true);
        }
    }
    Some(false)
}

/// Whether steps along the legs lead from 0 to a target; `None` where so many tries may not tell. The last two legs need none.
pub(crate) fn lead_to(legs: &[Leg], target: u64, tries: u64) -> Option<bool>
    requires { AreLegs 8 legs.now }
    ensures reached { result ≡ Some true → LeadTo legs.now target }
    ensures missed { result ≡ Some false → LeadTo legs.now target → ⊥ }
{
    lead_on(legs, last_turns(legs), target, tries)
}

/// Whether so many tries tell that no steps along the legs lead from 0 to a target.
pub(crate) fn miss(legs: &[Leg], target: u64, tries: u64) -> bool
    requires { AreLegs 8 legs.now }
    ensures { result ≡ true → LeadTo legs.now target → ⊥ }
{
    matches!(lead_to(legs, target, tries), Some(false))
}

/// The index of the first leg whose steps are no longer than a size, or how many legs there are.
fn place_for(legs: &[Leg], step: u64) -> usize
    ensures { result ≤ length legs.now }
{
    for (place, leg) in legs.iter().enumerate() {
        if leg.step <= step {
            return place;
        }
    }
    legs.len()
}

/// Adds a leg, long steps first; a leg of the same step is made longer.
pub(crate) fn add(legs: &mut ArrayVec<Leg, 8>, leg: Leg)
    requires legs { AreLegs 7 legs.old.items }
    requires leg { AreLegs 1 (leg ∷ []) }
    ensures legs { (k : ℕ) → AreLegs k legs.old.items → AreLegs (k + 1) legs.new.items }
    ensures reach { reach legs.new.items ≡ reach (leg ∷ legs.old.items) }
    ensures reached { (target : ℕ) → LeadTo legs.new.items target → LeadTo (leg ∷ legs.old.items) target }
    ensures missed { (target : ℕ) → LeadTo (leg ∷ legs.old.items) target → LeadTo legs.new.items target }
{
    let place = place_for(legs.as_slice(), leg.step);
    if place < legs.len() && legs[place].step == leg.step {
        legs[place].places += leg.places - 1;
    } else {
        legs.insert(place, leg);
    }
}
