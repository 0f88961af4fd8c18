//! The draft of a search: a state in which all is known that follows at the node where the search stands, with how each fact came. Of its steps
//! the search records only those that a leaf rests on. Nothing is promised of them: each is tested before it is recorded.
ghost use Rattle.std.specs.Prelude.{◌≡◌, ◌<◌, IfOk};

use crate::NoMemory;
use crate::choice::may_branch;
use crate::ties::{Release, from_zero, releases_of};
use arr_deps::Graph;
use arr_law::{Fact, Record, Records};
use arr_state::{Outcome, State};
use std::alloc::Global;

/// How many steps a draft may take at a node.
const DRAFT_STEPS: u64 = 1_000_000;

/// At how many nodes a draft is made.
const DRAFTS: u32 = 4_200;

/// How a fact came: by a rule at some operations, as in `Record::Step`. A decision has the rule 0.
#[derive(Clone, Copy)]
pub(crate) struct Reason {
    pub(crate) rule: u8,
    pub(crate) f: u32,
    pub(crate) g: u32,
    pub(crate) h: u32,
}

impl Reason {
    fn of(record: &Record) -> Reason {
        match record {
            Record::Step { rule, f, g, h } => Reason {
                rule: *rule,
                f: *f,
                g: *g,
                h: *h,
            },
            _ => Reason {
                rule: 0,
                f: 0,
                g: 0,
                h: 0,
            },
        }
    }

    /// What the rule gives.
    pub(crate) fn gives(&self) -> Option<Fact> {
        match self.rule {
            3 => Some(Fact::Before(self.f, self.g)),
            4 => Some(Fact::Before(self.f, self.h)),
            5 | 9 => Some(Fact::Same(self.f, self.g)),
            6 | 7 | 8 => Some(Fact::Apart(self.f, self.h)),
            _ => None,
        }
    }
}

/// How many places there are for facts.
pub(crate) const PLACES: usize = 3 * 65_536;

/// The number from 0 of an operation.
fn number(f: u32) -> u8 {
    match from_zero(Some(f)) {
        Some(place) => place,
        None => 0,
    }
}

/// The place of two operations.
fn pair_place(f: u32, g: u32) -> usize
    ensures { result < 65536 }
{
    256 * number(f) as usize + number(g) as usize
}

/// The place of a fact: by its kind and its two operations, which go both ways for Same and Apart.
pub(crate) fn place_of(fact: Fact) -> usize {
    match fact {
        Fact::Same(f, g) => pair_place(f.min(g), f.max(g)),
        Fact::Apart(f, g) => 65_536 + pair_place(f.min(g), f.max(g)),
        Fact::Before(f, g) => 2 * 65_536 + pair_place(f, g),
    }
}

/// Reasons in the order in which their facts came, and at the place of each fact where its reason stands.
#[derive(Drop)]
pub(crate) struct Reasons {
    list: Vec<Reason>,
    indices: Vec<u32>,
}

impl Reasons {
    fn new(alloc: Global) -> Result<Reasons, NoMemory> {
        Ok(Reasons {
            list: Vec::new(alloc),
            indices: vec![in alloc; 0; PLACES]?,
        })
    }

    /// Joins a reason.
    fn note(&mut self, reason: Reason) -> Result<(), NoMemory> {
        if let Some(fact) = reason.gives() {
            let place = place_of(fact);
            if place < self.indices.len() && self.list.len() < u32::MAX as usize {
                self.indices[place] = self.list.len() as u32;
            }
        }
        self.list.push(reason)?;
        Ok(())
    }

    /// Joins the reasons of steps.
    fn note_all(&mut self, steps: &Records) -> Result<(), NoMemory> {
        for k in 0..steps.len() {
            self.note(Reason::of(steps.at(k)))?;
        }
        Ok(())
    }

    /// The reason of a fact, if a step gave it, with its index.
    pub(crate) fn of(&self, fact: Fact) -> Option<(u32, Reason)> {
        let place = place_of(fact);
        if place >= self.indices.len() {
            return None;
        }
        let index = self.indices[place];
        if index as usize >= self.list.len() {
            return None;
        }
        let reason = self.list[index as usize];
        match reason.gives() {
            Some(given) if place_of(given) == place => Some((index, reason)),
            _ => None,
        }
    }

    /// The reasons at some indices.
    pub(crate) fn at(&self, alloc: Global, indices: &[u32]) -> Result<Vec<Reason>, NoMemory> {
        let mut found = Vec::new(alloc);
        for index in indices {
            if (*index as usize) < self.list.len() {
                found.push(self.list[*index as usize])?;
            }
        }
        Ok(found)
    }
}

/// A state with the reasons of its facts, the FREEs of the list with the users of their bases, the lengths at which the nodes that wait begin, and at
/// how many nodes more it is made.
#[derive(Drop)]
pub(crate) struct Draft {
    pub(crate) state: State,
    pub(crate) reasons: Reasons,
    pub(crate) releases: Vec<Release>,
    marks: Vec<u64>,
    left: u32,
}

impl Draft {
    /// A draft in which nothing is known but what the list alone gives.
    pub(crate) fn new(alloc: Global, graph: &Graph) -> Result<Draft, NoMemory>
        ensures { IfOk result (λ draft. draft.state.list ≡ graph.now) }
    {
        Ok(Draft {
            state: State::new(alloc, graph)?,
            reasons: Reasons::new(alloc)?,
            releases: releases_of(alloc, graph)?,
            marks: Vec::new(alloc),
            left: DRAFTS,
        })
    }

    /// Takes all steps that follow. The answer is whether they were taken and a plan may still meet what is known; no more than so many times they are.
    pub(crate) fn close(&mut self, alloc: Global) -> Result<bool, NoMemory>
        ensures list { self.new.state.list ≡ self.old.state.list }
    {
        if self.left == 0 {
            return Ok(false);
        }
        self.left -= 1;
        let mut steps = Records::new(alloc);
        let outcome = self.state.saturate(DRAFT_STEPS, &mut steps)?;
        self.reasons.note_all(&steps)?;
        Ok(outcome == Outcome::Closed)
    }

    /// Adds a decision, if the pair is open.
    fn decide(&mut self, graph: &Graph, f: u32, g: u32, same: bool) -> Result<(), NoMemory>
        requires list { self.old.state.list ≡ graph.now }
        ensures list { self.new.state.list ≡ self.old.state.list }
    {
        if may_branch(graph, &self.state, f, g) {
            self.state.decide(f, g, same)?;
            self.reasons.note(Reason {
                rule: 0,
                f,
                g,
                h: 0,
            })?;
        }
        Ok(())
    }

    /// Goes on to the first side of a pair; the second waits.
    pub(crate) fn split(&mut self, graph: &Graph, f: u32, g: u32) -> Result<(), NoMemory>
        requires list { self.old.state.list ≡ graph.now }
        ensures list { self.new.state.list ≡ self.old.state.list }
    {
        self.marks.push(self.state.mark())?;
        self.decide(graph, f, g, true)
    }

    /// Goes back, and on to the newest side that waits.
    pub(crate) fn turn(&mut self, graph: &Graph, f: u32, g: u32) -> Result<(), NoMemory>
        requires list { self.old.state.list ≡ graph.now }
        ensures list { self.new.state.list ≡ self.old.state.list }
    {
        let Some(mark) = self.marks.pop() else {
            return Ok(());
        };
        if mark > self.state.mark() {
            return Ok(());
        }
        self.state.undo_to(mark);
        self.reasons.list.truncate(mark as usize);
        self.decide(graph, f, g, false)
    }
}
