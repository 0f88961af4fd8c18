//! Walks over the elements of a view.
ghost use Rattle.std.specs.Prelude.{◌≡◌, ◌+◌, ◌-◌, ◌<◌, ◌≤◌, ◌++◌, ◌==◌, nat_le, true, length, take, drop, map, replicate, get_or, MatchOption};
ghost use Rattle.std.specs.List.{list_all};
ghost use Rattle.std.specs.Iterator.{YieldsFirst, item_count};
ghost use Rattle.arr_view.specs.Views.{elements};

use crate::View;
use std::marker::Model;

/// The elements of a view that are still to come, in row-major order (docs/LANGUAGE.md, "Views").
///
/// The walk counts down the steps that are left in each of four dimensions, and keeps for each the place where its current step
/// begins, so that it advances by additions alone. Dimensions that the view lacks have length 1.
#[derive(Debug, Drop)]
pub struct Walk {
    lengths: [u32; 4],
    strides: [i32; 4],
    left: [u32; 4],
    places: [i64; 4],
    place: i64,
    done: bool,
}

impl Model for Walk {
    ghost use Rattle.std.specs.Prelude.{ℕ, List};
    ghost use Rattle.arr_view.specs.Walks.{after, still_left, Walking};

    ghost Value = { List ℕ };

    ghost view = { λ w. still_left w.done w.place (after w.lengths w.strides w.left w.places) };

    ghost invariant = { λ w. Walking w.lengths w.strides w.left w.places w.place };
}

/// The last dimension that has steps left.
fn last_open(left: &[u32]) -> Option<usize>
    ensures { MatchOption result (list_all (λ r. r == 0) left.now ≡ true)
        (λ k. (k < length left.now) × (0 < get_or left.now k 0)
        × (list_all (λ r. r == 0) (drop (k + 1) left.now) ≡ true)) }
{
    let mut level = left.len();
    while level > 0 {
        level -= 1;
        if left[level] > 0 {
            return Some(level);
        }
    }
    None
}

/// Puts the dimensions from `level` on at their first index, at a place.
fn restart(lengths: &[u32], left: &mut [u32], places: &mut [i64], level: usize, place: i64)
    requires lengths { list_all (nat_le 1) lengths.now ≡ true }
    requires same_left { length left.old ≡ length lengths.now }
    requires same_places { length places.old ≡ length lengths.now }
    requires level { level ≤ length lengths.now }
    ensures left { left.new ≡ take level left.old ++ map (λ n. n - 1) (drop level lengths.now) }
    ensures places { places.new ≡ take level places.old ++ replicate (length lengths.now - level) place }
{
    for dimension in level..lengths.len() {
        left[dimension] = lengths[dimension] - 1;
        places[dimension] = place;
    }
}

impl Walk {
    /// A walk over the elements of a view (docs/LANGUAGE.md, "Views").
    pub fn new(view: &View) -> Walk
        ensures { result ≡ elements view.now }
    {
        let mut lengths = [1; 4];
        let mut strides = [0; 4];
        for (dimension, length) in view.shape().iter().enumerate() {
            lengths[dimension] = *length;
            strides[dimension] = view.strides()[dimension];
        }
        let place = i64::from(view.start());
        let mut left = [0; 4];
        let mut places = [0; 4];
        restart(&lengths, &mut left, &mut places, 0, place);
        Walk {
            lengths,
            strides,
            left,
            places,
            place,
            done: false,
        }
    }
}

impl Iterator for Walk {
    type Item = u32;

    ghost next_gives = { YieldsFirst (λ w. w) };

    ghost remaining = { item_count (λ w. w) };

    fn next(&mut self) -> Option<u32> {
        if self.done {
            return None;
        }
        let element = self.place as u32;
        match last_open(&self.left) {
            Some(level) => {
                self.place = self.places[level] + i64::from(self.strides[level]);
                self.places[level] = self.place;
                self.left[level] -= 1;
                restart(
                    &self.lengths,
                    &mut self.left,
                    &mut self.places,
                    level + 1,
                    self.place,
                );
            }
            None => self.done = true,
        }
        Some(element)
    }
}
