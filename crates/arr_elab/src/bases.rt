//! The bases of a script so far, with how many names stand for each, and the live elements.

ghost use Rattle.std.specs.Prelude.{◌≡◌, ◌<◌, ◌≤◌, ◌+◌, ◌-◌, [], OnErr, OnOk, get_or, length, not, nat_lt, slice_set, IsTrue};
ghost use Rattle.arr_elab.specs.State.{most_live};
ghost use Rattle.arr_elab.specs.Totals.{hold, hold_if, lengths, live_by, may_hold, may_hold_if, may_release, may_release_if, release, release_if, weight, with_base, with_more};

use arr_overlap::NoMemory;
use std::alloc::Global;
use std::marker::Model;

/// A base: how many elements it has, and how many names stand for it.
#[derive(Clone, Copy, Debug)]
pub(crate) struct Base {
    length: u32,
    names: u32,
}

/// All bases so far, and the first of the statement that is read. The live elements are counted as they change.
#[derive(Drop)]
pub(crate) struct Bases {
    list: Vec<Base>,
    first: usize,
    live: u64,
}

impl Model for Bases {
    ghost use Rattle.std.specs.Prelude.{◌≡◌, ◌≤◌, length};
    ghost use Rattle.arr_elab.specs.Totals.{Held, live_by};

    ghost Value = { Held };

    ghost view = { λ b. record { list = b.list.items; first = b.first } };

    ghost invariant = { λ b. (b.first ≤ length b.list.items) × (b.live ≡ live_by b.first 0 b.list.items) };
}

/// The live elements are at most so many.
const MOST_LIVE: u64 = 16_777_216;

/// The elements of a base that count: all, where the statement made it or a name stands for it.
fn weight(first: usize, at: usize, base: Base) -> u32
    ensures { result ≡ weight first at base }
{
    if at >= first || base.names > 0 {
        base.length
    } else {
        0
    }
}

impl Bases {
    pub(crate) fn new(alloc: Global) -> Bases
        ensures { result ≡ record { list = []; first = 0 } }
    {
        Bases {
            list: Vec::new(alloc),
            first: 0,
            live: 0,
        }
    }

    /// How many bases there are.
    pub(crate) fn count(&self) -> usize
        ensures { result ≡ length self.now.list }
    {
        self.list.len()
    }

    /// How many elements a base has; 0 where there is no such base.
    pub(crate) fn length(&self, base: u32) -> u32
        ensures { result ≡ get_or (lengths self.now.list) base 0 }
    {
        match self.list.get(base as usize) {
            Some(base) => base.length,
            None => 0,
        }
    }

    /// Whether so many elements may be made.
    pub(crate) fn has_room(&self, count: u32) -> bool
        ensures { result ≡ not (nat_lt most_live (live_by self.now.first 0 self.now.list + count)) }
    {
        self.live <= MOST_LIVE && self.live + u64::from(count) <= MOST_LIVE
    }

    /// Makes a base of so many elements, for which no name stands.
    pub(crate) fn make(&mut self, count: u32) -> Result<(), NoMemory>
        requires { live_by self.old.first 0 self.old.list + count ≤ most_live }
        ensures made { OnOk result (self.new ≡ with_more self.old count) }
        ensures unchanged { OnErr result (self.new ≡ self.old) }
    {
        let _live = self.live;
        self.list.push(Base {
            length: count,
            names: 0,
        })?;
        self.live += u64::from(count);
        Ok(())
    }

    /// Puts another base in the place of one.
    fn replace(&mut self, at: usize, base: Base)
        requires at { at < length self.old.list }
        requires room { live_by self.old.first 0 (slice_set self.old.list at base) < 18446744073709551616 }
        ensures { self.new ≡ with_base self.old at base }
    {
        let rest = self.live - u64::from(weight(self.first, at, self.list[at]));
        self.live = rest + u64::from(weight(self.first, at, base));
        self.list[at] = base;
    }

    /// One more name stands for a base.
    fn hold_one(&mut self, base: u32)
        requires { IsTrue (may_hold self.old base) }
        ensures { self.new ≡ hold self.old base }
    {
        let Base { length, names } = self.list[base as usize];
        self.replace(
            base as usize,
            Base {
                length,
                names: names + 1,
            },
        );
    }

    /// One name less stands for a base.
    fn release_one(&mut self, base: u32)
        requires { IsTrue (may_release self.old base) }
        ensures { self.new ≡ release self.old base }
    {
        let Base { length, names } = self.list[base as usize];
        self.replace(
            base as usize,
            Base {
                length,
                names: names - 1,
            },
        );
    }

    /// One more name stands for a base, if one is given.
    pub(crate) fn hold(&mut self, base: Option<u32>)
        requires { IsTrue (may_hold_if self.old base) }
        ensures { self.new ≡ hold_if self.old base }
    {
        if let Some(base) = base {
            self.hold_one(base);
        }
    }

    /// One name less stands for a base, if one is given.
    pub(crate) fn release(&mut self, base: Option<u32>)
        requires { IsTrue (may_release_if self.old base) }
        ensures { self.new ≡ release_if self.old base }
    {
        if let Some(base) = base {
            self.release_one(base);
        }
    }

    /// The first base of the statement is of an earlier one from here on.
    fn age(&mut self)
        requires { self.old.first < length self.old.list }
        ensures { self.new ≡ record { list = self.old.list; first = self.old.first + 1 } }
    {
        let base = self.list[self.first];
        let kept = weight(self.first + 1, self.first, base);
        let lost = base.length - kept;
        self.live -= u64::from(lost);
        self.first += 1;
    }

    /// A statement begins: all bases so far are of earlier ones.
    pub(crate) fn begin(&mut self)
        ensures { self.new ≡ record { list = self.old.list; first = length self.old.list } }
    {
        let count = self.list.len();
        while self.first < count {
            self.age();
        }
    }
}
