ghost use Rattle.std.specs.Prelude.{◌≡◌, ◌≤◌, ◌<◌, ◌+◌, ◌-◌, ◌*◌, ◌^◌, ◌||◌, ℕ, false, true, length, replicate, get_or, set, IfOk};
ghost use Rattle.arr_sets.specs.Bits.{in_run, is_set, meets, with_run};

use std::alloc::{AllocError, Global};
use std::marker::Model;

/// A set of numbers below a bound, a bit for each.
#[derive(Debug, Drop)]
pub struct Bits {
    bound: u32,
    words: Vec<u64>,
}

impl Model for Bits {
    ghost use Rattle.std.specs.Prelude.{◌≡◌, ◌≤◌, ◌*◌, ◌/◌, ◌+◌, List, Bool, false, ℕ, vec_len};
    ghost use Rattle.arr_sets.specs.Bits.{is_set, members};

    ghost Value = { List Bool };

    ghost view = { λ b. members b.words.items b.bound };

    ghost invariant = { λ b. (vec_len b.words ≡ (b.bound + 63) / 64) × ((i : ℕ) → b.bound ≤ i → is_set b.words.items i ≡ false) };
}

/// A word with the digits from `low` on, counted from 0, up to `high`, which is not among them.
fn run_of_ones(low: usize, high: usize) -> u64
    requires some { low < high }
    requires within { high ≤ 64 }
    ensures { result ≡ 2 ^ high - 2 ^ low }
{
    u64::MAX >> (64 - (high - low)) << low
}

/// Sets the digits from `from` on, counted from 0, up to `end`, which is not among them.
fn set_run(words: &mut [u64], from: usize, end: usize)
    requires some { from < end }
    requires within { end ≤ 64 * length words.old }
    requires few { end < 2 ^ 33 }
    ensures { (i : ℕ) → is_set words.new i ≡ (in_run from end i || is_set words.old i) }
{
    for index in from / 64..(end + 63) / 64 {
        let first = 64 * index;
        let low = from.max(first) - first;
        let high = (end - first).min(64);
        words[index] |= run_of_ones(low, high);
    }
}

impl Bits {
    /// The empty set of numbers below a bound; want of memory where its words can't be had.
    pub fn new(alloc: Global, n: u32) -> Result<Bits, AllocError>
        ensures { IfOk result (λ b. b ≡ replicate n false) }
    {
        let count = (n as usize + 63) / 64;
        Ok(Bits {
            bound: n,
            words: vec![in alloc; 0; count]?,
        })
    }

    /// Whether the set has the number `at`, which is below the bound.
    pub fn has(&self, at: u32) -> bool
        requires { at < length self.now }
        ensures { result ≡ get_or self.now at false }
    {
        let word = self.words[at as usize / 64];
        word >> (at % 64) & 1 == 1
    }

    /// Puts the number `at`, which is below the bound, into the set.
    pub fn insert(&mut self, at: u32)
        requires { at < length self.old }
        ensures { self.new ≡ set self.old at true }
    {
        let index = at as usize / 64;
        self.words[index] |= 1 << (at % 64);
    }

    /// Takes the number `at`, which is below the bound, out of the set, if it is there.
    pub fn remove(&mut self, at: u32)
        requires { at < length self.old }
        ensures { self.new ≡ set self.old at false }
    {
        let index = at as usize / 64;
        self.words[index] &= !(1 << (at % 64));
    }

    /// Puts `count` numbers, `from` and those after it, all below the bound, into the set, a word of 64 at a time.
    pub fn insert_run(&mut self, from: u32, count: u32)
        requires { from + count ≤ length self.old }
        ensures { self.new ≡ with_run self.old from count }
    {
        if count == 0 {
            return;
        }
        let end = from as usize + count as usize;
        set_run(self.words.as_mut_slice(), from as usize, end);
    }

    /// Whether the two sets, of one bound, have a number in common. It takes no memory.
    pub fn meets(&self, other: &Bits) -> bool
        requires { length self.now ≡ length other.now }
        ensures { result ≡ meets self.now other.now }
    {
        let other = other.words.as_slice();
        for (index, word) in self.words.iter().enumerate() {
            if *word & other[index] != 0 {
                return true;
            }
        }
        false
    }
}
