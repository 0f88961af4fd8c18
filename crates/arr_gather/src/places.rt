//! The elements of a view, by counting where it has no gap.
ghost use Rattle.std.specs.Prelude.{◌≡◌};
ghost use Rattle.std.specs.Iterator.{YieldsFirst, item_count};
ghost use Rattle.arr_view.specs.Views.{elements};

use arr_view::{View, Walk};
use std::marker::Model;

/// Where the elements that are still to come stand: from one place up to another, or where a walk finds them.
#[derive(Debug, Drop)]
pub(crate) enum Rest {
    Row(u32, u32),
    Strided(Walk),
}

/// The elements of a view that are still to come, in row-major order.
#[derive(Debug, Drop)]
pub(crate) struct Places {
    rest: Rest,
}

impl Model for Places {
    ghost use Rattle.std.specs.Prelude.{ℕ, List};
    ghost use Rattle.arr_gather.specs.Places.{to_visit};

    ghost Value = { List ℕ };

    ghost view = { λ p. to_visit p.rest };
}

impl Places {
    /// All elements of a view.
    pub(crate) fn new(view: &View) -> Places
        ensures { result ≡ elements view.now }
    {
        if view.is_gapless() {
            let start = view.start();
            return Places {
                rest: Rest::Row(start, start + view.positions()),
            };
        }
        Places {
            rest: Rest::Strided(Walk::new(view)),
        }
    }
}

impl Iterator for Places {
    type Item = u32;

    ghost next_gives = { YieldsFirst (λ p. p) };

    ghost remaining = { item_count (λ p. p) };

    #[inline]
    fn next(&mut self) -> Option<u32> {
        match &mut self.rest {
            Rest::Row(next, end) => {
                let place = *next;
                if place >= *end {
                    return None;
                }
                *next = place + 1;
                return Some(place);
            }
            Rest::Strided(walk) => return walk.next(),
        }
    }
}
