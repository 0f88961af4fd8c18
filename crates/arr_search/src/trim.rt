//! Which steps of a draft a leaf rests on.

use crate::NoMemory;
use crate::draft::{Draft, PLACES, Reason, place_of};
use crate::estimate::{Members, picks_of, worth_of};
use crate::ties::Release;
use arr_bound::{Class, Views};
use arr_law::Fact;
use arr_state::State;
use std::alloc::Global;

/// Facts that are wanted: a bit at the place of each that ever was, and those of which the reason is still to be looked for.
#[derive(Drop)]
struct Wanted {
    all: Vec<u64>,
    open: Vec<Fact>,
}

impl Wanted {
    /// Wants a fact, unless the state knows it.
    fn want(&mut self, state: &State, fact: Fact) -> Result<(), NoMemory> {
        let place = place_of(fact);
        let word = place / 64;
        if word >= self.all.len() {
            return Ok(());
        }
        if self.all[word] >> (place % 64) & 1 == 1 {
            return Ok(());
        }
        if state.known(fact) {
            return Ok(());
        }
        self.all[word] |= 1 << (place % 64);
        self.open.push(fact)?;
        Ok(())
    }

    /// Wants that all users of a FREE's base stand before one of them.
    fn want_before(
        &mut self,
        state: &State,
        releases: &[Release],
        f: u32,
        g: u32,
    ) -> Result<(), NoMemory> {
        for release in releases {
            if release.op as u32 + 1 == g {
                for user in &release.users {
                    if *user as u32 + 1 != f {
                        self.want(state, Fact::Before(*user as u32 + 1, f))?;
                    }
                }
            }
        }
        Ok(())
    }

    /// Wants the premises of a step.
    fn want_premises(
        &mut self,
        state: &State,
        releases: &[Release],
        reason: &Reason,
    ) -> Result<(), NoMemory> {
        let Reason { rule, f, g, h } = *reason;
        match rule {
            3 | 6 => self.want(state, Fact::Same(f, g))?,
            9 => self.want_before(state, releases, f, g)?,
            _ => self.want(state, Fact::Before(f, g))?,
        }
        match rule {
            4 | 7 | 8 => self.want(state, Fact::Before(g, h))?,
            5 => self.want(state, Fact::Before(g, f))?,
            _ => {}
        }
        match rule {
            6 | 8 => self.want(state, Fact::Apart(g, h)),
            7 => self.want(state, Fact::Apart(f, g)),
            _ => Ok(()),
        }
    }

    /// Wants that an operation is apart from another, if there is one.
    fn want_apart(&mut self, state: &State, f: u32, other: Option<u32>) -> Result<(), NoMemory> {
        match other {
            Some(g) => self.want(state, Fact::Apart(f, g)),
            None => Ok(()),
        }
    }

    /// Wants what a group rests on: that its operations are pairwise apart, and that each pays for the class.
    fn want_group(
        &mut self,
        state: &State,
        draft: &State,
        class: &Class,
        picks: &Members,
    ) -> Result<(), NoMemory> {
        let mut rest = *picks;
        for _ in 0..320 {
            let Some(f) = rest.pop() else {
                return Ok(());
            };
            if has(class.readers.as_slice(), f) && is_apart(draft, f, class.creator) {
                self.want_apart(state, f, class.creator)?;
            } else {
                self.want_apart(state, f, class.freer)?;
            }
            let mut others = rest;
            for _ in 0..320 {
                let Some(g) = others.pop() else {
                    break;
                };
                self.want(state, Fact::Apart(f, g))?;
            }
        }
        Ok(())
    }
}

/// Whether a row of words has an operation.
fn has(words: &[u64], f: u32) -> bool {
    let word = f as usize / 64;
    word < words.len() && words[word] >> (f % 64) & 1 == 1
}

/// Whether a state knows that there is no such operation in the block of another.
fn is_apart(state: &State, f: u32, other: Option<u32>) -> bool {
    match other {
        Some(g) => state.known(Fact::Apart(f, g)),
        None => true,
    }
}

/// What the groups of a leaf of the draft rest on, but for some groups that together are worth no more than is to spare, in bytes.
fn wanted_by(
    alloc: Global,
    views: &Views,
    state: &State,
    draft: &State,
    count: u32,
    mut spare: u64,
) -> Result<Wanted, NoMemory> {
    let mut wanted = Wanted {
        all: vec![in alloc; 0; PLACES / 64]?,
        open: Vec::new(alloc),
    };
    for class in views.classes() {
        let picks = picks_of(class, draft, count);
        let worth = worth_of(class, &picks);
        if worth <= spare {
            spare -= worth;
        } else {
            wanted.want_group(state, draft, class, &picks)?;
        }
    }
    Ok(wanted)
}

/// The steps of a draft that a leaf there rests on and that a state doesn't know, in order. The leaf may be worth less than that of the draft
/// by what is to spare, in bytes.
pub(crate) fn trimmed(
    alloc: Global,
    views: &Views,
    state: &State,
    draft: &Draft,
    count: u32,
    spare: u64,
) -> Result<Vec<Reason>, NoMemory> {
    let mut wanted = wanted_by(alloc, views, state, &draft.state, count, spare)?;
    let mut found: Vec<u32> = Vec::new(alloc);
    for _ in 0..PLACES {
        let Some(fact) = wanted.open.pop() else {
            break;
        };
        if let Some((index, reason)) = draft.reasons.of(fact) {
            found.push(index)?;
            wanted.want_premises(state, draft.releases.as_slice(), &reason)?;
        }
    }
    found.sort()?;
    draft.reasons.at(alloc, found.as_slice())
}
