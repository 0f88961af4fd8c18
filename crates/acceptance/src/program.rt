//! The program from words and bytes to bytes, with sources and sinks that give, take and fail as the test says. What it prints where nothing fails is
//! tried on the built program, by tools/cases.py.

ghost use Rattle.std.specs.Prelude.{◌<◌};

use crate::runs::{Faults, run, source};
use arr_io::{MemorySink, NoMemory, StdSink, StdSource, read_all, read_up_to, write_all};
use std::alloc::Global;
use std::process::Abort;
use std::test::Fail;

const USAGE: &str =
    "usage: bohrium run [--plan|--cert] [--fuse=linear|greedy|best] [--budget=N] | bohrium check FILE | bohrium demo N\n";

const MOVED: &str =
    "a = range(4)\nb = gather(a, a - 1)\nscatter(a, a, b * 2)\nprint a\nflush\nprint a + 1\n";

const MOVED_PRINTED: &str = "i64 4\n6 0 2 4\ni64 4\n7 1 3 5\n";

const ONE: &str = "print range(1)\n";

const ONE_CERTIFIED: &str =
    "# flush 1 recorded 3 rewritten 3 blocks 1 cost 0\n# op 1 RANGE +b0:i64@0[1:0]\n# op 2 SYNC b0:i64@0[1:0] slot=1\n# op 3 FREE b0\n# block 1 cost 0 ops 1 2 3\n# bound 0 units 0 optimal\n!flush 1 3 2\n!plan 1 1 1\n!cost 0\n!bound 0\n!worth\n!end\ni64 1\n0\n";

const NONE: Faults = Faults {
    script: 0,
    proof: 0,
    sink: 0,
};

/// Looks that a run with these words ends with this status and text, where a byte goes at each call and these calls fail.
fn ends_with(
    rt: &impl Abort,
    alloc: Global,
    words: &[&str],
    script: &[u8],
    faults: Faults,
    status: u8,
    text: &[u8],
) -> Result<(), NoMemory> {
    let ran = run(alloc, words, script, &[], 1, faults)?;
    assert_eq!(rt; ran.status, status);
    assert_eq!(rt; ran.written.as_slice(), text);
    Ok(())
}

/// Looks that a run ends with this status and text, and with status 4 and the bytes before it where a writing call fails: for each byte.
fn is_cut_anywhere(
    rt: &impl Abort,
    alloc: Global,
    words: &[&str],
    script: &str,
    status: u8,
    text: &str,
) -> Result<(), NoMemory> {
    let (script, text) = (script.as_bytes(), text.as_bytes());
    ends_with(rt, alloc, words, script, NONE, status, text)?;
    for before in 0..text.len() {
        let sink = before as u64 + 1;
        let faults = Faults { sink, ..NONE };
        ends_with(rt, alloc, words, script, faults, 4, &text[..before])?;
    }
    Ok(())
}

#[test]
fn each_writing_fault_ends_the_run(rt: HostRuntime) -> Result<(), Fail> {
    let alloc = rt.alloc();
    is_cut_anywhere(&rt, alloc, &["run"], MOVED, 0, MOVED_PRINTED)?;
    is_cut_anywhere(&rt, alloc, &["run"], "?", 1, "refused 1:1 BadByte\n")?;
    is_cut_anywhere(&rt, alloc, &["run", "run"], MOVED, 2, USAGE)?;
    is_cut_anywhere(&rt, alloc, &["run", "--cert"], ONE, 0, ONE_CERTIFIED)?;
    Ok(())
}

/// Looks that a run whose source gives a byte at each call ends with status 3, and writes nothing, where a call fails: for each byte, and for the end.
fn is_unread_anywhere(rt: &impl Abort, alloc: Global, script: &str) -> Result<(), NoMemory> {
    let bytes = script.as_bytes();
    for before in 0..=bytes.len() {
        let script = before as u64 + 1;
        let faults = Faults { script, ..NONE };
        ends_with(rt, alloc, &["run"], bytes, faults, 3, &[])?;
    }
    Ok(())
}

#[test]
fn each_reading_fault_ends_the_run(rt: HostRuntime) -> Result<(), Fail> {
    is_unread_anywhere(&rt, rt.alloc(), MOVED)?;
    Ok(())
}

const SUMMED: &str = "a = full([1], 7, i64)\nb = sum(a, 0)\nc = b + 1\nprint c\n";

const PROVED: &str =
    "!flush 1 7\n!plan 1 1 2 2 1 2 2\n!cost 16\n!bound 16\n!step 7 2 3 6\n!worth 2.0,3\n!end\n";

const ACCEPTED: &str = "flush 1 cost 16 bound 16 optimal\naccepted 1\n";

const UNFINISHED: &str = "rejected flush 1 line 1 Unfinished\n";

const TRAILING: &str = "rejected flush 1 line 1 Trailing\n";

/// Looks that the check of a proof that comes in such pieces ends with this status and text, where this read of it fails, none where it is 0.
fn check_ends_with(
    rt: &impl Abort,
    alloc: Global,
    script: &str,
    proof: &[u8],
    piece: usize,
    fails: u64,
    status: u8,
    text: &str,
) -> Result<(), NoMemory>
    requires { 0 < piece }
{
    let faults = Faults {
        proof: fails,
        ..NONE
    };
    let ran = run(
        alloc,
        &["check", "FILE"],
        script.as_bytes(),
        proof,
        piece,
        faults,
    )?;
    assert_eq!(rt; ran.status, status);
    assert_eq!(rt; ran.written.as_slice(), text.as_bytes());
    Ok(())
}

/// Looks that the check of a proof ends so, whether it comes byte by byte or in one piece.
fn is_judged(
    rt: &impl Abort,
    alloc: Global,
    script: &str,
    proof: &str,
    status: u8,
    text: &str,
) -> Result<(), NoMemory> {
    check_ends_with(rt, alloc, script, proof.as_bytes(), 1, 0, status, text)?;
    check_ends_with(rt, alloc, script, proof.as_bytes(), 4096, 0, status, text)
}

#[test]
fn proofs_are_judged(rt: HostRuntime) -> Result<(), Fail> {
    let alloc = rt.alloc();
    is_judged(&rt, alloc, SUMMED, PROVED, 0, ACCEPTED)?;
    is_judged(&rt, alloc, SUMMED, "", 6, UNFINISHED)?;
    is_judged(&rt, alloc, "", "!end\n", 6, TRAILING)?;
    is_judged(&rt, alloc, "a = $\n", PROVED, 1, "refused 1:5 BadByte\n")?;
    Ok(())
}

/// The proof with 200,000 bytes behind it that are no record.
fn long_proof(alloc: Global) -> Result<Vec<u8>, NoMemory> {
    let mut proof = Vec::from_slice(alloc, PROVED.as_bytes())?;
    for _ in 0..2000 {
        proof.extend_from_slice(&[b'x'; 100])?;
    }
    Ok(proof)
}

#[test]
fn reading_faults_of_a_proof_end_its_check(rt: HostRuntime) -> Result<(), Fail> {
    let alloc = rt.alloc();
    let proof = long_proof(alloc)?;
    let text = "flush 1 cost 16 bound 16 optimal\n";
    check_ends_with(&rt, alloc, SUMMED, &proof, 4096, 1, 3, "")?;
    check_ends_with(&rt, alloc, SUMMED, &proof, 4096, 40, 3, text)?;
    Ok(())
}

/// Ten bytes.
const TEN: &[u8] = b"0123456789";

#[test]
fn sources_are_read_to_their_end_or_limit(rt: HostRuntime) -> Result<(), Fail> {
    let alloc = rt.alloc();
    assert!(rt; read_all(alloc, &mut source(alloc, TEN, 3, 0)?, 10)?.as_slice() == TEN);
    assert!(rt; read_up_to(alloc, &mut StdSource::new(TEN), 6)?.as_slice() == &TEN[..6]);
    Ok(())
}

#[test]
fn a_sink_takes_a_front(rt: HostRuntime) -> Result<(), Fail> {
    let mut small = MemorySink::new(rt.alloc(), 4, 3, Vec::new(rt.alloc()))?;
    assert!(rt; write_all(&mut small, TEN).is_err());
    assert!(rt; small.bytes.as_slice() == &TEN[..4]);
    Ok(())
}

#[test]
fn a_writer_of_std_takes_all(rt: HostRuntime) -> Result<(), Fail> {
    assert!(rt; write_all(&mut StdSink::new(Vec::new(rt.alloc())), TEN).is_ok());
    Ok(())
}
