//! What the program does.
ghost use Rattle.std.specs.Prelude.{◌≡◌, ◌≤◌, ◌<◌, ◌^◌, List, ℕ, Option, length, true, None, Some, IsSome};
ghost use Rattle.std.specs.List.{list_all};
ghost use Rattle.arr_io.specs.Causes.{Rose};
ghost use Rattle.arr_record.specs.Runs.{after_parts, each_fits, is_part};
ghost use Rattle.std.specs.Io.KnownBytes.{IsAtEnd};
ghost use Rattle.arr_store.specs.Stored.{Stored, cells, memory_of};
ghost use Rattle.arr_run.specs.Answers.{Blames, Completes, Finishes, IsRunStatus, NoReadFault, NoWriteFault, OnDemo, ReadsOut, Serves, is_final};
ghost use Rattle.arr_run.specs.Checking.{Judges};
ghost use Rattle.arr_run.specs.Parts.{BreaksParts, CountsBelow, Ended, EndsWith, StopsParts, WritesParts};
ghost use Rattle.arr_run.specs.Summing.{BreaksDemo, CutsDemo, WritesDemo};
ghost use Rattle.arr_run.specs.Texts.{refusal_text};
ghost use Rattle.arr_run.specs.Words.{command_in};

use crate::checking::{Stop, check_parts};
use crate::choice::Choice;
use crate::demo::run_demo;
use crate::flush::RunFault;
use crate::parts::run_parts;
use crate::script::{MOST_BYTES, ScriptFault, parts_of_text};
use crate::texts::{USAGE, accepted_line, refusal_text, rejected_line};
use crate::words::{Command, named_command};
use arr_demo::demo_script;
use arr_io::{NoMemory, ReadFailure, Sink, Source, WriteFault, read_up_to, write_all};
use arr_record::Part;
use arr_store::Store;
use arr_tree::Refusal;
use std::alloc::Global;

/// The statuses of the program.
const DONE: u8 = 0;

const REFUSED: u8 = 1;

const WRONG_WORDS: u8 = 2;

const READ_FAULT: u8 = 3;

const WRITE_FAULT: u8 = 4;

const OUT_OF_MEMORY: u8 = 5;

const REJECTED: u8 = 6;

/// Does what the words ask for, and answers the status (docs/LANGUAGE.md, "The program").
///
/// The words are those of the command line without the program's name. `run` runs the script that `script` gives, on `store`, with the planner
/// and the listing that the words behind it choose; the proof isn't read. `check FILE` checks the certificates that `proof` gives against the
/// flushes of the script; the store isn't used. `demo N` runs the script that the number stands for on `store`, and writes what its plans cost
/// and what its arrays sum to; neither source is read (docs/DEMO.md). The store has no base at first. The statuses are:
///
/// - 0: all was done, and the script, where it is read, was read to its end; plans and certificates, where they are listed, and the arrays printed were written,
///   and the store has no base.
/// - 1: the script is refused; the line of the refusal was written, and the store is as it was.
/// - 2: the words name no command; the usage line was written, and the store is as it was.
/// - 3: a read of the script or of the proof failed; nothing was written, or with `check` the lines of some first flushes; the store is as it
///   was.
/// - 4: a write failed; a front of the text was written. With an accepted script the store is what its parts leave up to the list in whose
///   arrays the first missing byte stands, or up to the one before the list in whose plan or certificate it stands; else it is as it was. Of
///   the store of a demo nothing is said.
/// - 5: no memory is left; a front of the text was written. With words that name no command it never comes.
/// - 6: the proof is rejected; the lines of the flushes before and the line of the rejection were written, and the store is as it was.
pub fn serve<S: Source, C: Source, K: Sink>(
    alloc: Global,
    words: &[String],
    store: &mut Store,
    script: &mut S,
    proof: &mut C,
    sink: &mut K,
) -> u8
    requires empty { (b : ℕ) → cells store.old b ≡ None }
    requires loads { store.old.loads < 2 ^ 59 }
    requires stores { store.old.stores < 2 ^ 59 }
    requires made { store.old.made < 2 ^ 59 }
    // What was written, and what the store is then.
    ensures served { Serves (command_in words.now) (S.left script.old) (C.left proof.old) result
        (K.written sink.old) (K.written sink.new) store.old store.new }
    ensures emptied { result ≡ 0 → (b : ℕ) → cells store.new b ≡ None }
    // Every fault has its cause.
    ensures blames { Blames result (S.faults script.old) (S.faults script.new) (C.faults proof.old) (C.faults proof.new)
        (K.faults sink.old) (K.faults sink.new) }
    // An accepted script is run or checked, unless a fault or want of memory came.
    ensures complete { IsSome (command_in words.now) → NoReadFault C.Source proof.old proof.new
        → Completes S.Source K.Sink script.old script.new sink.old sink.new (command_in words.now) result }
    // A demo is run, unless a fault or want of memory came.
    ensures demo { OnDemo (command_in words.now) (IsRunStatus result) }
    // What was read.
    ensures read_out { OnDemo (command_in words.now) ⊥ → ReadsOut S.Source script.old script.new result }
    ensures proof_out { result ≡ 0 → command_in words.now ≡ Some Command.Check → IsAtEnd (C.left proof.new) }
    ensures script { command_in words.now ≡ None → script.new ≡ script.old }
    ensures unread { OnDemo (command_in words.now) (script.new ≡ script.old) }
    ensures proof { (command_in words.now ≡ Some Command.Check → ⊥) → proof.new ≡ proof.old }
{
    match named_command(words) {
        Some(Command::Run(choice)) => run(alloc, choice, store, script, sink),
        Some(Command::Check) => check_script(alloc, script, proof, sink),
        Some(Command::Demo(number)) => demo(alloc, number, store, sink),
        None => match write_all(sink, USAGE.as_bytes()) {
            Ok(()) => WRONG_WORDS,
            Err(WriteFault) => WRITE_FAULT,
        },
    }
}

/// Runs the script: `serve` with the words of `run`.
fn run<S: Source, K: Sink>(
    alloc: Global,
    choice: Choice,
    store: &mut Store,
    script: &mut S,
    sink: &mut K,
) -> u8
    requires empty { (b : ℕ) → cells store.old b ≡ None }
    requires loads { store.old.loads < 2 ^ 59 }
    requires stores { store.old.stores < 2 ^ 59 }
    requires made { store.old.made < 2 ^ 59 }
    ensures served { Serves (Some (Command.Run choice)) (S.left script.old) None
        result (K.written sink.old) (K.written sink.new) store.old store.new }
    ensures emptied { result ≡ 0 → (b : ℕ) → cells store.new b ≡ None }
    ensures blames { (proofs : ℕ) → Blames result (S.faults script.old) (S.faults script.new) proofs proofs
        (K.faults sink.old) (K.faults sink.new) }
    ensures complete { Completes S.Source K.Sink script.old script.new sink.old sink.new
        (Some (Command.Run choice)) result }
    ensures read_out { ReadsOut S.Source script.old script.new result }
{
    let bytes = match read_up_to(alloc, script, MOST_BYTES as u64 + 1) {
        Ok(bytes) => bytes,
        Err(ReadFailure::NoMemory) => return OUT_OF_MEMORY,
        Err(ReadFailure::ReadFault) => return READ_FAULT,
        Err(ReadFailure::TooLong) => unreachable!(),
    };
    match parts_of_text(alloc, &bytes) {
        Ok(parts) => run_all(alloc, choice, &parts, store, sink),
        Err(ScriptFault::Refused(refusal)) => refuse(alloc, refusal, sink),
        Err(ScriptFault::NoMemory) => OUT_OF_MEMORY,
    }
}

/// Runs the parts of an accepted script.
fn run_all<K: Sink>(
    alloc: Global,
    choice: Choice,
    parts: &[Part],
    store: &mut Store,
    sink: &mut K,
) -> u8
    requires each { list_all is_part parts.now ≡ true }
    requires fitting { each_fits (memory_of store.old) parts.now ≡ true }
    requires few { length parts.now ≤ 4_194_304 }
    requires counts { CountsBelow (2 ^ 59) store.old }
    ensures known { IsRunStatus result }
    ensures wrote { result ≡ 0 → WritesParts K.Sink choice parts.now sink.old sink.new store.old store.new }
    ensures later { K.faults sink.old ≤ K.faults sink.new }
    ensures cause { result ≡ 4 → Rose (K.faults sink.old) (K.faults sink.new) }
    ensures memory { result ≡ 0 → memory_of store.new ≡ after_parts (memory_of store.old) parts.now }
    ensures stopped { result ≡ 4 → StopsParts K.Sink choice parts.now sink.old sink.new store.old store.new }
    ensures broke { result ≡ 5 → BreaksParts K.Sink choice parts.now sink.old sink.new store.old }
{
    match run_parts(alloc, choice, parts, store, sink) {
        Ok(()) => DONE,
        Err(RunFault::WriteFault) => WRITE_FAULT,
        Err(RunFault::NoMemory) => OUT_OF_MEMORY,
    }
}

/// Runs the script of the number as a demo: `serve` with the words of `demo`.
fn demo<K: Sink>(alloc: Global, number: u64, store: &mut Store, sink: &mut K) -> u8
    requires empty { (b : ℕ) → cells store.old b ≡ None }
    requires loads { store.old.loads < 2 ^ 59 }
    requires stores { store.old.stores < 2 ^ 59 }
    requires made { store.old.made < 2 ^ 59 }
    ensures served { (script proof : Option (List ℕ)) → Serves (Some (Command.Demo number)) script proof
        result (K.written sink.old) (K.written sink.new) store.old store.new }
    ensures known { IsRunStatus result }
    ensures emptied { result ≡ 0 → (b : ℕ) → cells store.new b ≡ None }
    ensures blames { (reads proofs : ℕ)
        → Blames result reads reads proofs proofs (K.faults sink.old) (K.faults sink.new) }
    ensures complete { NoWriteFault K.Sink sink.old sink.new → Finishes (Some (Command.Demo number)) result }
{
    let Ok(script) = demo_script(alloc, number) else {
        return OUT_OF_MEMORY;
    };
    let text = script.as_bytes();
    match parts_of_text(alloc, text) {
        Ok(parts) => sum_all(alloc, text, &parts, store, sink),
        Err(ScriptFault::Refused(_)) => unreachable!(),
        Err(ScriptFault::NoMemory) => OUT_OF_MEMORY,
    }
}

/// Runs the parts of a demo's script.
fn sum_all<K: Sink>(
    alloc: Global,
    script: &[u8],
    parts: &[Part],
    store: &mut Store,
    sink: &mut K,
) -> u8
    requires each { list_all is_part parts.now ≡ true }
    requires fitting { each_fits (memory_of store.old) parts.now ≡ true }
    requires few { length parts.now ≤ 4_194_304 }
    requires counts { CountsBelow (2 ^ 59) store.old }
    ensures known { IsRunStatus result }
    ensures wrote { result ≡ 0 → WritesDemo K.Sink script.now parts.now sink.old sink.new store.old store.new }
    ensures later { K.faults sink.old ≤ K.faults sink.new }
    ensures cause { result ≡ 4 → Rose (K.faults sink.old) (K.faults sink.new) }
    ensures memory { result ≡ 0 → memory_of store.new ≡ after_parts (memory_of store.old) parts.now }
    ensures cut { result ≡ 4 → CutsDemo K.Sink script.now parts.now sink.old sink.new store.old }
    ensures broke { result ≡ 5 → BreaksDemo K.Sink script.now parts.now sink.old sink.new store.old }
{
    match run_demo(alloc, script, parts, store, sink) {
        Ok(()) => DONE,
        Err(RunFault::WriteFault) => WRITE_FAULT,
        Err(RunFault::NoMemory) => OUT_OF_MEMORY,
    }
}

/// Checks the proof against the script: `serve` with the words of `check`.
fn check_script<S: Source, C: Source, K: Sink>(
    alloc: Global,
    script: &mut S,
    proof: &mut C,
    sink: &mut K,
) -> u8
    ensures served { (store : Stored) → Serves (Some Command.Check) (S.left script.old) (C.left proof.old)
        result (K.written sink.old) (K.written sink.new) store store }
    ensures blames { Blames result (S.faults script.old) (S.faults script.new) (C.faults proof.old) (C.faults proof.new)
        (K.faults sink.old) (K.faults sink.new) }
    ensures complete { NoReadFault C.Source proof.old proof.new
        → Completes S.Source K.Sink script.old script.new sink.old sink.new (Some Command.Check) result }
    ensures read_out { ReadsOut S.Source script.old script.new result }
    ensures proof_out { result ≡ 0 → IsAtEnd (C.left proof.new) }
{
    let bytes = match read_up_to(alloc, script, MOST_BYTES as u64 + 1) {
        Ok(bytes) => bytes,
        Err(ReadFailure::NoMemory) => return OUT_OF_MEMORY,
        Err(ReadFailure::ReadFault) => return READ_FAULT,
        Err(ReadFailure::TooLong) => unreachable!(),
    };
    match parts_of_text(alloc, &bytes) {
        Ok(parts) => judge(alloc, &parts, proof, sink),
        Err(ScriptFault::Refused(refusal)) => refuse(alloc, refusal, sink),
        Err(ScriptFault::NoMemory) => OUT_OF_MEMORY,
    }
}

/// Checks the proof against the parts of an accepted script.
fn judge<C: Source, K: Sink>(alloc: Global, parts: &[Part], proof: &mut C, sink: &mut K) -> u8
    requires each { list_all is_part parts.now ≡ true }
    requires few { length parts.now ≤ 4_194_304 }
    ensures judges { Judges parts.now (C.left proof.old) result (K.written sink.old) (K.written sink.new) }
    ensures ended { result ≡ 0 → IsAtEnd (C.left proof.new) }
    ensures blames { (reads : ℕ) → Blames result reads reads (C.faults proof.old) (C.faults proof.new)
        (K.faults sink.old) (K.faults sink.new) }
{
    match check_parts(alloc, parts, proof, sink) {
        Ok(count) => end_with(accepted_line(alloc, count), DONE, sink),
        Err(Stop::Rejected { flush, line, kind }) => {
            end_with(rejected_line(alloc, flush, line, kind), REJECTED, sink)
        }
        Err(Stop::ReadFault) => READ_FAULT,
        Err(Stop::WriteFault) => WRITE_FAULT,
        Err(Stop::NoMemory) => OUT_OF_MEMORY,
    }
}

/// Writes the line of a refusal.
fn refuse<K: Sink>(alloc: Global, refusal: Refusal, sink: &mut K) -> u8
    ensures ended { Ended 1 result (K.written sink.old) (K.written sink.new) (refusal_text refusal) }
    ensures later { K.faults sink.old ≤ K.faults sink.new }
    ensures cause { result ≡ 4 → Rose (K.faults sink.old) (K.faults sink.new) }
{
    end_with(refusal_text(alloc, refusal), REFUSED, sink)
}

/// Writes the last line, and answers the status that stands for it.
fn end_with<K: Sink>(line: Result<Vec<u8>, NoMemory>, status: u8, sink: &mut K) -> u8
    requires whole { is_final status ≡ true }
    ensures ended { EndsWith K.Sink status result sink.old sink.new line }
    ensures later { K.faults sink.old ≤ K.faults sink.new }
    ensures cause { result ≡ 4 → Rose (K.faults sink.old) (K.faults sink.new) }
{
    let Ok(text) = line else {
        return OUT_OF_MEMORY;
    };
    match write_all(sink, &text) {
        Ok(()) => status,
        Err(WriteFault) => WRITE_FAULT,
    }
}
