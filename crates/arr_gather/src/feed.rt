//! The numbers of a view, one after another.
ghost use Rattle.std.specs.Prelude.{◌≡◌, ◌+◌, ◌<◌, ◌≤◌, ◌^◌, ◌∷◌, ℕ, true, IfOk, length};
ghost use Rattle.arr_num.specs.Numbers.{in_type};
ghost use Rattle.arr_view.specs.Views.{elements, positions};
ghost use Rattle.arr_ops.specs.Costs.{weight_of};
ghost use Rattle.arr_store.specs.Stored.{cells};
ghost use Rattle.arr_gather.specs.Feeds.{Feeds, Inside, IsApart, owed, to_come};
ghost use Rattle.arr_gather.specs.Steps.{Holds, numbers_at};

use crate::places::Places;
use arr_num::Elem;
use arr_store::Store;
use arr_view::View;
use std::alloc::{AllocError as NoMemory, Global};

/// The numbers of a view that are still to come, in order: those that a base of the store has at these places, or copies.
#[derive(Debug, Drop)]
pub(crate) enum Feed {
    Kept(u32, Places),
    Copied(Vec<i128>),
}

impl Feed {
    ghost use Rattle.arr_gather.specs.Feeds.{Inside, IsApart, owed, to_come};

    /// The number at a position, which is the next one.
    #[inline]
    pub(crate) fn next(&mut self, position: u32, store: &mut Store) -> i128
        requires some { 1 ≤ length (to_come (cells store.old) position self.old) }
        requires inside { Inside (cells store.old) self.old }
        requires loads { store.old.loads < 2 ^ 62 }
        ensures number { to_come (cells store.old) position self.old
            ≡ result ∷ to_come (cells store.old) (position + 1) self.new }
        ensures inside { Inside (cells store.old) self.new }
        ensures apart { (b : ℕ) → IsApart b self.old → IsApart b self.new }
        ensures loads { store.new.loads + owed (cells store.old) self.new
            ≡ store.old.loads + owed (cells store.old) self.old }
        ensures bases { store.new.bases ≡ store.old.bases }
        ensures stores { store.new.stores ≡ store.old.stores }
        ensures made { store.new.made ≡ store.old.made }
    {
        match self {
            Feed::Kept(base, places) => match places.next() {
                Some(place) => store.load(*base, place),
                None => unreachable!(),
            },
            Feed::Copied(numbers) => numbers[position as usize],
        }
    }
}

/// The numbers of a view, copied.
fn copied(alloc: Global, view: &View, store: &mut Store) -> Result<Vec<i128>, NoMemory>
    requires inside { Inside (cells store.old) (Feed.Kept view.now.base (elements view.now)) }
    requires loads { store.old.loads + owed (cells store.old) (Feed.Kept view.now.base (elements view.now)) ≤ 2 ^ 62 }
    ensures numbers { IfOk result (λ v. v.items ≡ numbers_at (cells store.old) view.now) }
    ensures loads { IfOk result (λ v. store.new.loads
        ≡ store.old.loads + owed (cells store.old) (Feed.Kept view.now.base (elements view.now))) }
    ensures bases { store.new.bases ≡ store.old.bases }
    ensures stores { store.new.stores ≡ store.old.stores }
    ensures made { store.new.made ≡ store.old.made }
{
    let mut numbers = Vec::new(alloc);
    for place in Places::new(view) {
        let number = store.load(view.base(), place);
        numbers.push(number)?;
    }
    Ok(numbers)
}

/// The numbers of a view: copied where they stand in the base that is to be written, else read as they come.
pub(crate) fn feed_of(
    alloc: Global,
    view: &View,
    ty: Elem,
    written: u32,
    store: &mut Store,
) -> Result<Feed, NoMemory>
    requires holds { Holds (cells store.old) ty view.now }
    requires loads { store.old.loads + weight_of ty view.now ≤ 2 ^ 62 }
    ensures numbers { IfOk result (λ feed. to_come (cells store.old) 0 feed ≡ numbers_at (cells store.old) view.now) }
    ensures feeds { IfOk result (λ feed. Feeds (cells store.old) written (positions view.now.lengths) 0 feed) }
    ensures loads { IfOk result (λ feed. store.new.loads + owed (cells store.old) feed
        ≡ store.old.loads + weight_of ty view.now) }
    ensures bases { store.new.bases ≡ store.old.bases }
    ensures stores { store.new.stores ≡ store.old.stores }
    ensures made { store.new.made ≡ store.old.made }
{
    if view.base() != written {
        return Ok(Feed::Kept(view.base(), Places::new(view)));
    }
    let numbers = copied(alloc, view, store)?;
    Ok(Feed::Copied(numbers))
}
