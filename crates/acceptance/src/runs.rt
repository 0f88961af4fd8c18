//! The program, run on bytes, for the tests.

ghost use Rattle.std.specs.Prelude.{◌<◌};

use arr_io::{MemorySink, MemorySource, NoMemory};
use arr_run::serve;
use arr_store::Store;
use std::alloc::Global;

/// What a run answers and what it wrote.
#[derive(Drop)]
pub(crate) struct Ran {
    pub(crate) status: u8,
    pub(crate) written: Vec<u8>,
}

/// Which call of a source or sink fails, counted from 1; none where it is 0.
#[derive(Copy, Clone)]
pub(crate) struct Faults {
    pub(crate) script: u64,
    pub(crate) proof: u64,
    pub(crate) sink: u64,
}

/// A source of these bytes, which come `piece` at a time; the call with the number `fails` fails, none where it is 0.
pub(crate) fn source(
    alloc: Global,
    bytes: &[u8],
    piece: usize,
    fails: u64,
) -> Result<MemorySource, NoMemory>
    requires { 0 < piece }
{
    Ok(MemorySource {
        bytes: bytes.to_vec(alloc)?,
        at: 0,
        piece,
        calls: 0,
        fails: vec![in alloc; fails]?,
        failed: 0,
    })
}

/// Words as the program takes them.
fn texts(alloc: Global, words: &[&str]) -> Result<Vec<String>, NoMemory> {
    let mut texts = Vec::new(alloc);
    for word in words {
        texts.push(String::from_str(alloc, word)?)?;
    }
    Ok(texts)
}

/// Runs the program on a script and a proof, with sources that give and a sink that takes `piece` bytes at a time and fail at these calls.
pub(crate) fn run(
    alloc: Global,
    words: &[&str],
    script: &[u8],
    proof: &[u8],
    piece: usize,
    faults: Faults,
) -> Result<Ran, NoMemory>
    requires { 0 < piece }
{
    let words = texts(alloc, words)?;
    let mut script = source(alloc, script, piece, faults.script)?;
    let mut proof = source(alloc, proof, piece, faults.proof)?;
    let mut store = Store::new(alloc)?;
    let mut sink = MemorySink::new(alloc, 1_000_000, piece, vec![in alloc; faults.sink]?)?;
    let status = serve(
        alloc,
        &words,
        &mut store,
        &mut script,
        &mut proof,
        &mut sink,
    );
    let MemorySink { bytes, .. } = sink;
    Ok(Ran {
        status,
        written: bytes,
    })
}
