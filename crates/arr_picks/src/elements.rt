//! The element at a position, by counting where a view has no gap.
ghost use Rattle.std.specs.Prelude.{◌≡◌, ◌<◌, IsTrue, get_or};
ghost use Rattle.arr_view.specs.Views.{elements, is_consecutive, is_view, positions};

use arr_view::View;

/// The element at a position of a view, counted from 0, of which it is told whether it has no gap (docs/LANGUAGE.md, "Views").
#[inline(always)]
pub fn element_at(view: &View, gapless: bool, position: u32) -> u32
    requires told { gapless ≡ is_consecutive view.now }
    requires below { position < positions view.now.lengths }
    ensures value { result ≡ get_or (elements view.now) position 0 }
    ensures lawful { IsTrue (is_view view.now) }
{
    if gapless {
        return view.start() + position;
    }
    view.element(position)
}
