//! What the strides of a view tell of its repetitions, without a walk.
ghost use Rattle.std.specs.Prelude.{ℕ, ◌≡◌, ◌≤◌, ◌+◌, ◌∷◌, IfSome, IsTrue, true, false};
ghost use Rattle.arr_view.specs.Views.{is_view, repeats};
ghost use Rattle.arr_overlap.specs.Legs.{both_ways_of, reach, AreLegs, IsOpen, LeadTo};

use crate::legs::{Leg, add, miss, reach};
use arr_view::{MOST_ELEMENTS, View};
use arrayvec::ArrayVec;

/// As many as a walk over the largest view takes steps.
const MOST_TRIES: u64 = MOST_ELEMENTS as u64;

/// Whether a dimension longer than 1 stays at one element.
fn stands_still(view: &View) -> bool
    ensures { result ≡ true → repeats view.now ≡ true }
{
    let strides = view.strides();
    for (axis, length) in view.shape().iter().enumerate() {
        if *length > 1 && strides[axis] == 0 {
            return true;
        }
    }
    false
}

/// Whether some steps of a size, at least one and fewer than a length, lead back to the middle of the legs; where they don't, the legs
/// are longer then by these steps, up and down.
fn leads_back(legs: &mut ArrayVec<Leg, 8>, length: u64, step: u64) -> bool
    requires legs { AreLegs 6 legs.old.items }
    requires length { (2 ≤ length) × (length ≤ MOST_ELEMENTS) }
    requires step { step ≤ 2147483648 }
    ensures free { result ≡ false → IsOpen length step legs.old.items }
    ensures legs { result ≡ false → (k : ℕ) → AreLegs k legs.old.items → AreLegs (k + 2) legs.new.items }
    ensures reach { result ≡ false → reach legs.new.items ≡ reach (both_ways_of length step ∷ legs.old.items) }
    ensures missed { result ≡ false → (t : ℕ) → LeadTo (both_ways_of length step ∷ legs.old.items) t
        → LeadTo legs.new.items t }
{
    if step == 0 {
        return true;
    }
    let middle = reach(legs.as_slice()) / 2;
    let places = length - 1;
    add(legs, Leg { places, step });
    if step <= middle && !miss(legs.as_slice(), middle - step, MOST_TRIES) {
        return true;
    }
    let places = length + 1;
    add(legs, Leg { places, step });
    false
}

/// Whether the strides leave open that two positions have one element: some steps along the dimensions lead back.
fn may_repeat(view: &View) -> bool
    ensures { result ≡ false → repeats view.now ≡ false }
{
    let strides = view.strides();
    let shape = view.shape();
    let mut legs = ArrayVec::new();
    for axis in (0..shape.len()).rev() {
        let length = u64::from(shape[axis]);
        let step = u64::from(strides[axis].unsigned_abs());
        if length > 1 && leads_back(&mut legs, length, step) {
            return true;
        }
    }
    false
}

/// Whether two positions of the view have one element, where its strides tell without a walk: they do where a dimension stays at one
/// element, and don't where no steps along the dimensions lead back.
pub(crate) fn told_by_strides(view: &View) -> Option<bool>
    ensures value { IfSome result (λ r. r ≡ repeats view.now) }
    ensures lawful { IsTrue (is_view view.now) }
{
    let _base = view.base();
    if stands_still(view) {
        return Some(true);
    }
    if may_repeat(view) { None } else { Some(false) }
}
