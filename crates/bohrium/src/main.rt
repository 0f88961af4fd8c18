//! The program `bohrium`: it hands the words of the command line, a new store, standard input, the proof and standard output to `serve`,
//! and ends with the status that this answers. The proof is the file that stands behind `check`, and else empty; a file that can't be
//! opened is a source whose first read fails.
#![tactic(auto)]

use arr_io::{MemorySource, NoMemory, Source, StdSink, StdSource, SureSource};
use arr_run::serve;
use arr_store::Store;
use std::fs::File;
use std::process::ExitCode;
use std::{env, io};

/// The status where no memory is found for the words or the store.
const OUT_OF_MEMORY: u8 = 5;

fn main(rt: HostRuntime) -> ExitCode {
    let Ok(words) = words(&rt) else {
        return ExitCode::from(OUT_OF_MEMORY);
    };
    match words.as_slice() {
        [word, file] if word.as_str() == "check" => match File::open(&rt, file.as_str()) {
            Ok(file) => run(&rt, &words, &mut StdSource::new(file)),
            Err(_) => match unopened(&rt) {
                Ok(mut proof) => run(&rt, &words, &mut proof),
                Err(NoMemory) => ExitCode::from(OUT_OF_MEMORY),
            },
        },
        _ => run(&rt, &words, &mut SureSource { bytes: &[] }),
    }
}

/// Runs the words with this proof.
fn run<C: Source>(rt: &HostRuntime, words: &[String], proof: &mut C) -> ExitCode {
    let Ok(mut store) = Store::new(rt.alloc()) else {
        return ExitCode::from(OUT_OF_MEMORY);
    };
    let mut script = StdSource::new(rt.stdin());
    let mut sink = StdSink::new(io::writer(rt));
    let status = serve(rt.alloc(), words, &mut store, &mut script, proof, &mut sink);
    ExitCode::from(status)
}

/// A source whose first read fails.
fn unopened(rt: &HostRuntime) -> Result<MemorySource, NoMemory> {
    let mut fails = Vec::new(rt.alloc());
    fails.push(1)?;
    Ok(MemorySource {
        bytes: Vec::new(rt.alloc()),
        at: 0,
        piece: 1,
        calls: 0,
        fails,
        failed: 0,
    })
}

/// The words behind the program's name. Where one of them isn't UTF-8 there are none, and so no command.
fn words(rt: &HostRuntime) -> Result<Vec<String>, NoMemory> {
    match env::args(rt) {
        Ok(args) => args.skip(1).collect(rt.alloc()),
        Err(error) if error.kind() == io::ErrorKind::OutOfMemory => Err(NoMemory),
        Err(_) => Ok(Vec::new(rt.alloc())),
    }
}
