//! Sets of operations as rows of words, 64 operations a word, and the rows of a relation one behind another.
ghost use Rattle.std.specs.Prelude.{◌≡◌, ◌≤◌, ◌<◌, ◌+◌, ◌*◌, ◌==◌, ◌&&◌, ◌||◌, ℕ, true, false, not, length, MatchOption};
ghost use Rattle.arr_sets.specs.Bits.{is_set};
ghost use Rattle.arr_bound.specs.Sets.{in_row, IsFirst, NoneFrom};

/// The least member of a set that stands in the word `from` or later.
pub(crate) fn first_in(set: &[u64], from: usize) -> Option<u32>
    requires { length set.now ≤ 5 }
    ensures { MatchOption result (NoneFrom set.now from) (λ f. IsFirst set.now from f) }
{
    for index in from..set.len() {
        let word = set[index];
        if word != 0 {
            return Some(64 * index as u32 + word.trailing_zeros());
        }
    }
    None
}

/// Puts a number into a set, if it is to stand there.
pub(crate) fn put_if(set: &mut Vec<u64>, f: u32, stands: bool)
    requires { f < 64 * length set.old.items }
    ensures long { length set.new.items ≡ length set.old.items }
    ensures members { (g : ℕ) → is_set set.new.items g ≡ (is_set set.old.items g || (stands && (f == g))) }
{
    if stands {
        set[f as usize / 64] |= 1 << (f % 64);
    }
}

/// Takes a number out of a set.
pub(crate) fn take_out(set: &mut Vec<u64>, f: u32)
    requires { f < 64 * length set.old.items }
    ensures long { length set.new.items ≡ length set.old.items }
    ensures members { (g : ℕ) → is_set set.new.items g ≡ (is_set set.old.items g && not (f == g)) }
{
    set[f as usize / 64] &= !(1 << (f % 64));
}

/// Keeps the members that stand in the row of one.
pub(crate) fn keep_row(set: &mut Vec<u64>, rows: &[u64], f: u32)
    requires few { length set.old.items ≤ 5 }
    requires small { f ≤ 320 }
    requires within { f * length set.old.items + length set.old.items ≤ length rows.now }
    ensures long { length set.new.items ≡ length set.old.items }
    ensures members { (g : ℕ) → is_set set.new.items g
        ≡ (is_set set.old.items g && in_row (length set.old.items) rows.now f g) }
{
    let start = f as usize * set.len();
    for index in 0..set.len() {
        set[index] &= rows[start + index];
    }
}

/// Whether some member stands in the row of one.
pub(crate) fn meets_row(set: &[u64], rows: &[u64], f: u32) -> bool
    requires few { length set.now ≤ 5 }
    requires small { f ≤ 320 }
    requires within { f * length set.now + length set.now ≤ length rows.now }
    ensures some { result ≡ true → (p : ℕ) × (is_set set.now p ≡ true) × (in_row (length set.now) rows.now f p ≡ true) }
    ensures none { result ≡ false → (p : ℕ) → is_set set.now p ≡ true → in_row (length set.now) rows.now f p ≡ false }
{
    let start = f as usize * set.len();
    for index in 0..set.len() {
        if set[index] & rows[start + index] != 0 {
            return true;
        }
    }
    false
}
