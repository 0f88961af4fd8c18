ghost use Rattle.std.specs.Prelude.{◌≡◌};
ghost use Rattle.arr_overlap.specs.Alike.{same_parts};
ghost use Rattle.arr_view.specs.Views.{identical};

use arr_view::View;

/// Whether the views are identical: the same base, the same shape, and the same element at each position. It takes no memory.
///
/// Two views are identical exactly where their bases, starts and shapes agree and their strides agree in each dimension longer
/// than 1; the other strides are kept as 0, so the parts are compared as they are (docs/PLANS.md, "Views").
pub fn identical(a: &View, b: &View) -> bool
    ensures value { result ≡ identical a.now b.now }
    ensures parts { result ≡ same_parts a.now b.now }
{
    if a.base() != b.base() {
        return false;
    }
    a == b
}
