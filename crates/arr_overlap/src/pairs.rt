//! What the strides of two views tell of a common element.
ghost use Rattle.std.specs.Prelude.{ℕ, ◌≡◌, ◌≤◌, ◌+◌, IfSome, IsTrue};
ghost use Rattle.arr_view.specs.Views.{elements, is_view, share};
ghost use Rattle.arr_overlap.specs.Legs.{with_dimensions, AreLegs, LeadTo};

use crate::legs::{Leg, add, lead_to};
use arr_view::View;
use arrayvec::ArrayVec;

/// So many take less than half the time of comparing the marks of two views.
const MOST_TRIES: u64 = 256;

/// Adds a leg for each dimension that moves.
fn add_dimensions(legs: &mut ArrayVec<Leg, 8>, view: &View)
    requires { AreLegs 4 legs.old.items }
    ensures legs { (k : ℕ) → k ≤ 4 → AreLegs k legs.old.items → AreLegs (k + 4) legs.new.items }
    ensures reached { (t : ℕ) → LeadTo legs.new.items t
        → LeadTo (with_dimensions view.now.lengths view.now.strides legs.old.items) t }
    ensures missed { (t : ℕ) → LeadTo (with_dimensions view.now.lengths view.now.strides legs.old.items) t
        → LeadTo legs.new.items t }
    ensures lawful { IsTrue (is_view view.now) }
{
    let strides = view.strides();
    for (axis, length) in view.shape().iter().enumerate() {
        let places = u64::from(*length);
        let step = u64::from(strides[axis].unsigned_abs());
        if step > 0 {
            add(legs, Leg { places, step });
        }
    }
}

/// Whether some element of one view is one of the other's, where the strides tell: then steps lead from the least of the one to the
/// greatest of the other.
pub(crate) fn told_by_steps(a: &View, b: &View) -> Option<bool>
    ensures { IfSome result (λ r. r ≡ share (elements a.now) (elements b.now)) }
{
    let (least, _top) = a.ends();
    let (_bottom, greatest) = b.ends();
    if greatest < least {
        return Some(false);
    }
    let mut legs = ArrayVec::new();
    add_dimensions(&mut legs, a);
    add_dimensions(&mut legs, b);
    lead_to(legs.as_slice(), u64::from(greatest - least), MOST_TRIES)
}
