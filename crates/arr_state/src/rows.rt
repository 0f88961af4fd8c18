//! Facts as rows of words: for each kind of row and each operation a bit for each other operation.
ghost use Rattle.std.specs.Prelude.{◌≡◌, ◌<◌, ◌≤◌, ◌+◌, ◌/◌, length};
ghost use Rattle.arr_state.specs.Known.{first, second};
ghost use Rattle.arr_state.specs.Rows.{all_words, put, put_in, row_of, rows_with};

use arr_law::Fact;

/// The kinds of rows: the operations g with Same(f, g).
pub(crate) const SAME: usize = 0;
/// Those with Apart(f, g).
pub(crate) const APART: usize = 1;
/// Those with Before(f, g).
pub(crate) const BEFORE: usize = 2;
/// Those with Before(g, f).
pub(crate) const BEHIND: usize = 3;
/// The FREEs of bases of which f has a view.
pub(crate) const ENDS: usize = 4;
/// The operations that have a view of the base that f ends.
pub(crate) const USERS: usize = 5;

/// Where the row of an operation begins.
pub(crate) fn row_start(count: u32, kind: usize, f: u32) -> usize
    requires few { count ≤ 256 }
    requires kind { kind < 6 }
    requires within { f ≤ count }
    ensures value { result ≡ row_of count kind f }
    ensures room { result + count / 64 < all_words count }
{
    (kind * (count as usize + 1) + f as usize) * (count as usize / 64 + 1)
}

/// A word with one bit set or cleared.
pub(crate) fn put_bit(word: u64, k: u32, value: bool) -> u64
    requires { k < 64 }
    ensures { result ≡ put_in word k value }
{
    if value {
        word | (1 << k)
    } else {
        word & !(1 << k)
    }
}

/// Sets or clears one bit of the rows.
pub(crate) fn set_bit(rows: &mut Vec<u64>, count: u32, kind: usize, f: u32, g: u32, value: bool)
    requires few { count ≤ 256 }
    requires long { length rows.old.items ≡ all_words count }
    requires kind { kind < 6 }
    requires first { f ≤ count }
    requires second { g ≤ count }
    ensures { rows.new.items ≡ put count kind f g value rows.old.items }
{
    let word = row_start(count, kind, f) + g as usize / 64;
    let old = rows[word];
    rows[word] = put_bit(old, g % 64, value);
}

/// Sets or clears the bits of a fact.
pub(crate) fn set_rows(rows: &mut Vec<u64>, count: u32, fact: Fact, value: bool)
    requires few { count ≤ 256 }
    requires long { length rows.old.items ≡ all_words count }
    requires first { first fact ≤ count }
    requires second { second fact ≤ count }
    ensures { rows.new.items ≡ rows_with count fact value rows.old.items }
{
    match fact {
        Fact::Same(f, g) => {
            set_bit(rows, count, SAME, f, g, value);
            set_bit(rows, count, SAME, g, f, value);
        }
        Fact::Apart(f, g) => {
            set_bit(rows, count, APART, f, g, value);
            set_bit(rows, count, APART, g, f, value);
        }
        Fact::Before(f, g) => {
            set_bit(rows, count, BEFORE, f, g, value);
            set_bit(rows, count, BEHIND, g, f, value);
        }
    }
}
