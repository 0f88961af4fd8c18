//! What the moves of a descent ask of a list. Here its operations are numbered from 0, by 8 bits.
ghost use Rattle.std.specs.Prelude.{◌≡◌, ◌≤◌, ◌<◌, length};

use crate::NoMemory;
use crate::rows::Row;
use arr_bound::{Class, Views};
use arr_deps::Graph;
use std::alloc::Global;

/// A class of identical views: what it weighs, in bytes, which operations make and end its base, and which read and write it; and of all
/// these the ones that are no FREE.
#[derive(Drop)]
pub(crate) struct Touched {
    pub(crate) weight: u64,
    pub(crate) creator: Option<u8>,
    pub(crate) freer: Option<u8>,
    pub(crate) readers: Vec<u8>,
    pub(crate) writers: Vec<u8>,
    pub(crate) users: Vec<u8>,
}

/// A FREE, and the other operations that name its base.
#[derive(Drop)]
pub(crate) struct Release {
    pub(crate) op: u8,
    pub(crate) users: Vec<u8>,
}

/// How the operations of a list hang together: for each those that it may share a block with and those that it has to stand behind; all
/// operations, the FREEs, and the classes of views.
#[derive(Drop)]
pub(crate) struct Ties {
    pub(crate) fuses: [Row; 256],
    pub(crate) needs: [Row; 256],
    pub(crate) all: Row,
    pub(crate) frees: Row,
    pub(crate) releases: Vec<Release>,
    pub(crate) classes: Vec<Touched>,
}

/// The operations that an operation may share a block with.
fn fuses_of(graph: &Graph, f: u32) -> Row
    requires least { 0 < f }
    requires most { f ≤ length graph.now }
{
    let mut row = Row::EMPTY;
    for g in 0..graph.len() {
        if graph.fusible(f, g + 1) {
            row.insert(g as u8);
        }
    }
    row
}

/// The operations that an operation has to stand behind.
fn needs_of(graph: &Graph, f: u32) -> Row
    requires least { 0 < f }
    requires most { f ≤ length graph.now }
{
    let mut row = Row::EMPTY;
    for g in 0..graph.len() {
        if graph.dep(g + 1, f) {
            row.insert(g as u8);
        }
    }
    row
}

/// The operations of a set, in order.
fn members(alloc: Global, row: &Row) -> Result<Vec<u8>, NoMemory> {
    let mut found = Vec::new(alloc);
    for f in 0..256_usize {
        if row.has(f as u8) {
            found.push(f as u8)?;
        }
    }
    Ok(found)
}

/// The operations that name a base, but no FREE.
fn users_of(graph: &Graph, base: u32) -> Row {
    let mut row = Row::EMPTY;
    for f in 0..graph.len() {
        let op = graph.op(f + 1);
        if op.names(base) && op.frees.is_none() {
            row.insert(f as u8);
        }
    }
    row
}

/// The number from 0 of an operation that is numbered from 1.
pub(crate) fn from_zero(f: Option<u32>) -> Option<u8> {
    match f {
        Some(number) if number > 0 && number <= 256 => Some((number - 1) as u8),
        _ => None,
    }
}

/// The operations of a row of words, in which they are numbered from 1.
fn row_of(words: &[u64]) -> Row {
    let mut row = Row::EMPTY;
    for f in 0..256_usize {
        let number = f + 1;
        if number / 64 < words.len() && words[number / 64] >> (number % 64) & 1 == 1 {
            row.insert(f as u8);
        }
    }
    row
}

fn touched_by(alloc: Global, class: &Class) -> Result<Touched, NoMemory> {
    let readers = row_of(class.readers.as_slice());
    let writers = row_of(class.writers.as_slice());
    let mut users = readers.with(&writers);
    let creator = from_zero(class.creator);
    if let Some(f) = creator {
        users.insert(f);
    }
    Ok(Touched {
        weight: class.weight,
        creator,
        freer: from_zero(class.freer),
        readers: members(alloc, &readers)?,
        writers: members(alloc, &writers)?,
        users: members(alloc, &users)?,
    })
}

/// The FREEs of a list.
pub(crate) fn releases_of(alloc: Global, graph: &Graph) -> Result<Vec<Release>, NoMemory> {
    let mut releases = Vec::new(alloc);
    for f in 0..graph.len() {
        if let Some(base) = graph.op(f + 1).frees {
            let users = members(alloc, &users_of(graph, base))?;
            releases.push(Release { op: f as u8, users })?;
        }
    }
    Ok(releases)
}

impl Ties {
    /// Of a list with its classes of views.
    pub(crate) fn of(alloc: Global, graph: &Graph, views: &Views) -> Result<Ties, NoMemory> {
        let mut ties = Ties {
            fuses: [Row::EMPTY; 256],
            needs: [Row::EMPTY; 256],
            all: Row::EMPTY,
            frees: Row::EMPTY,
            releases: releases_of(alloc, graph)?,
            classes: Vec::new(alloc),
        };
        for f in 0..graph.len() {
            ties.all.insert(f as u8);
            ties.fuses[f as usize] = fuses_of(graph, f + 1);
            ties.needs[f as usize] = needs_of(graph, f + 1);
            if graph.op(f + 1).frees.is_some() {
                ties.frees.insert(f as u8);
            }
        }
        for class in views.classes() {
            ties.classes.push(touched_by(alloc, class)?)?;
        }
        Ok(ties)
    }
}
