//! Numbers of a list written to a whole view.
ghost use Rattle.std.specs.Prelude.{◌≡◌, ◌+◌, ◌*◌, ◌<◌, ◌≤◌, ◌^◌, drop, length, take, true};
ghost use Rattle.std.specs.List.{list_all};
ghost use Rattle.arr_view.specs.Views.{elements, positions};
ghost use Rattle.arr_picks.specs.Picks.{AllBelow};
ghost use Rattle.arr_store.specs.Cells.{size_at, takes, width_at};
ghost use Rattle.arr_store.specs.Stored.{cells};
ghost use Rattle.arr_strips.specs.Strips.{put_at};

use crate::rows::Rows;
use arr_store::Store;
use arr_view::View;

/// Puts numbers of the type of a view's base to the elements of the view, in row-major order and one after another: as many as it has
/// positions, those of a list from its number `from` on, counted from 0; the bytes stored rise by the width of that type for each
/// (docs/PLANS.md, "Strips by rows").
pub fn write_numbers(out: &View, store: &mut Store, numbers: &[i128], from: usize)
    requires inside { AllBelow (size_at (cells store.old out.now.base)) (elements out.now) }
    requires numbers { from + positions out.now.lengths ≤ length numbers.now }
    requires typed { list_all (takes (cells store.old out.now.base))
        (take (positions out.now.lengths) (drop from numbers.now)) ≡ true }
    requires room { store.old.stores < 2 ^ 62 }
    ensures bases { cells store.new ≡ put_at out.now.base (elements out.now)
        (take (positions out.now.lengths) (drop from numbers.now)) (cells store.old) }
    ensures loads { store.new.loads ≡ store.old.loads }
    ensures stores { store.new.stores
        ≡ store.old.stores + positions out.now.lengths * width_at (cells store.old out.now.base) }
    ensures made { store.new.made ≡ store.old.made }
{
    let count = out.positions() as usize;
    let mut course = Rows::of(out).course(0);
    let mut done = 0;
    while done < count {
        let run = course.next_run(out, count - done);
        store.store_numbers(out.base(), run, numbers, from + done);
        done += run.count;
    }
}
