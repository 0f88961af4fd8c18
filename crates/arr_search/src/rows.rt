//! Sets of operations, or of labels, as rows of bits.

/// A set of numbers from 0 to 255.
#[derive(Clone, Copy)]
pub(crate) struct Row {
    words: [u64; 4],
}

impl Row {
    /// The empty set.
    pub(crate) const EMPTY: Row = Row { words: [0; 4] };

    pub(crate) fn has(&self, f: u8) -> bool {
        self.words[f as usize / 64] >> (f % 64) & 1 == 1
    }

    pub(crate) fn insert(&mut self, f: u8) {
        self.words[f as usize / 64] |= 1 << (f % 64);
    }

    pub(crate) fn remove(&mut self, f: u8) {
        self.words[f as usize / 64] &= !(1 << (f % 64));
    }

    /// The set of one number.
    pub(crate) fn of(f: u8) -> Row {
        let mut row = Row::EMPTY;
        row.insert(f);
        row
    }

    /// What stands in one of the two sets.
    pub(crate) fn with(&self, other: &Row) -> Row {
        let mut words = self.words;
        for k in 0..4 {
            words[k] |= other.words[k];
        }
        Row { words }
    }

    /// What stands in this set, but not in the other.
    pub(crate) fn without(&self, other: &Row) -> Row {
        let mut words = self.words;
        for k in 0..4 {
            words[k] &= !other.words[k];
        }
        Row { words }
    }

    /// Whether all of this set stands in the other.
    pub(crate) fn is_within(&self, other: &Row) -> bool {
        for k in 0..4 {
            if self.words[k] & !other.words[k] != 0 {
                return false;
            }
        }
        true
    }

    pub(crate) fn is_empty(&self) -> bool {
        self.is_within(&Row::EMPTY)
    }

    /// How many numbers the set has.
    pub(crate) fn len(&self) -> u32 {
        let [a, b, c, d] = self.words;
        a.count_ones() + b.count_ones() + c.count_ones() + d.count_ones()
    }

    /// The least number of the set.
    pub(crate) fn first(&self) -> Option<u8> {
        for k in 0..4 {
            let word = self.words[k];
            if word != 0 {
                return Some(64 * k as u8 + word.trailing_zeros() as u8);
            }
        }
        None
    }
}
