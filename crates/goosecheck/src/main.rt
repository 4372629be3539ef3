//! Checks that a Go package refines an atomic specification: see the README.
#![tactic(auto)]

use gv_base::{DiskFiles, Sink, StdSink};
use std::process::ExitCode;
use std::rt::Env;
use std::{env, io};

fn main(rt: HostRuntime) -> ExitCode {
    let alloc = rt.alloc();
    let mut out = StdSink::new(rt.stdout());
    let words = match words_of(&rt) {
        Ok(words) => words,
        Err(error) if error.kind() == io::ErrorKind::OutOfMemory => return no_memory(&mut out),
        Err(_) => Vec::new(alloc),
    };
    let mut files = DiskFiles::new(&rt);
    ExitCode::from(gv_top::run(alloc, &words, &mut files, &mut out))
}

// The status where memory was refused for the words.
fn no_memory<K: Sink>(out: &mut K) -> ExitCode {
    match out.put(b"out of memory\n") {
        Ok(()) => ExitCode::from(5),
        Err(_) => ExitCode::from(6),
    }
}

// The words after the program's name. Fails where memory is refused, and where one isn't UTF-8.
fn words_of<R: Env + AllocGlobal>(rt: &R) -> io::Result<Vec<String>> {
    let mut words: Vec<String> = Vec::new(rt.alloc());
    for (at, word) in env::args(rt)?.enumerate() {
        if at > 0 {
            words.push(word)?;
        }
    }
    Ok(words)
}
