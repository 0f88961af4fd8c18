//! What a leaf would be worth, found without making it: a measure of the policies, of which nothing is promised.

use arr_bound::{Class, Views};
use arr_state::State;

/// A set of operations: bit f % 64 of word f / 64 stands for the operation f, counted from 1.
#[derive(Clone, Copy)]
pub(crate) struct Members {
    words: [u64; 5],
}

impl Members {
    /// The words of a row that begins at a place, if it is there.
    fn of(words: &[u64], place: usize, width: usize) -> Members {
        let mut found = Members { words: [0; 5] };
        if width <= 5 && place <= words.len() && width <= words.len() - place {
            for k in 0..width {
                found.words[k] = words[place + k];
            }
        }
        found
    }

    fn both(&self, other: &Members) -> Members {
        let mut words = self.words;
        for k in 0..5 {
            words[k] &= other.words[k];
        }
        Members { words }
    }

    fn either(&self, other: &Members) -> Members {
        let mut words = self.words;
        for k in 0..5 {
            words[k] |= other.words[k];
        }
        Members { words }
    }

    fn is_empty(&self) -> bool {
        let [a, b, c, d, e] = self.words;
        a | b | c | d | e == 0
    }

    /// How many there are.
    pub(crate) fn len(&self) -> u32 {
        let [a, b, c, d, e] = self.words;
        a.count_ones() + b.count_ones() + c.count_ones() + d.count_ones() + e.count_ones()
    }

    fn insert(&mut self, f: u32) {
        let word = f as usize / 64;
        if word < 5 {
            self.words[word] |= 1 << (f % 64);
        }
    }

    /// Takes out the least, and answers it.
    pub(crate) fn pop(&mut self) -> Option<u32> {
        for k in 0..5 {
            let word = self.words[k];
            if word != 0 {
                self.words[k] = word & (word - 1);
                return Some(64 * k as u32 + word.trailing_zeros());
            }
        }
        None
    }
}

/// Those of a row of words that stand apart from an operation, if there is one; else all.
fn apart_from(row: &[u64], state: &State, width: usize, other: Option<u32>) -> Members {
    let some = Members::of(row, 0, width);
    match other {
        Some(f) => some.both(&row_of(state, width, f)),
        None => some,
    }
}

/// The operations that a state knows to stand apart from one. A row has so many words.
fn row_of(state: &State, width: usize, f: u32) -> Members {
    Members::of(
        state.apart_rows(),
        (f as usize).saturating_mul(width),
        width,
    )
}

/// Those that are apart from the first member that is apart from another, with that member, or with the first where none is.
fn lead_of(set: &Members, state: &State, width: usize) -> Option<(u32, Members)> {
    let mut rest = *set;
    let first = rest.pop()?;
    let mut next = first;
    for _ in 0..320 {
        let beside = set.both(&row_of(state, width, next));
        if !beside.is_empty() {
            return Some((next, beside));
        }
        let Some(f) = rest.pop() else {
            return Some((first, rest));
        };
        next = f;
    }
    None
}

/// The operations that pay for a class in a leaf under what a state of so many operations knows: as `charges` picks them.
pub(crate) fn picks_of(class: &Class, state: &State, count: u32) -> Members {
    let width = count as usize / 64 + 1;
    let readers = apart_from(class.readers.as_slice(), state, width, class.creator);
    let writers = apart_from(class.writers.as_slice(), state, width, class.freer);
    let mut picks = Members { words: [0; 5] };
    let Some((lead, mut rest)) = lead_of(&readers.either(&writers), state, width) else {
        return picks;
    };
    picks.insert(lead);
    for _ in 0..320 {
        let Some(f) = rest.pop() else {
            return picks;
        };
        picks.insert(f);
        rest = rest.both(&row_of(state, width, f));
    }
    picks
}

/// What some picks of a class are worth, in bytes.
pub(crate) fn worth_of(class: &Class, picks: &Members) -> u64 {
    class.weight.saturating_mul(picks.len() as u64)
}

/// What a leaf would be worth under what a state of so many operations knows, in bytes.
pub(crate) fn estimate(views: &Views, state: &State, count: u32) -> u64 {
    let mut sum: u64 = 0;
    for class in views.classes() {
        sum = sum.saturating_add(worth_of(class, &picks_of(class, state, count)));
    }
    sum
}
