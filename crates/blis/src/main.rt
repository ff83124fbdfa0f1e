//! Program: reads a problem on standard input, searches its tree by workers in threads, and
//! writes its answer to standard output.
#![tactic(auto)]

use bl_io::{StdSink, StdSource};
use bl_run::{OpenGate, end_without_words, given_words, run};
use std::io;
use std::process::ExitCode;

fn main(rt: HostRuntime) -> ExitCode {
    let mut source = StdSource::new(rt.reader());
    let mut sink = StdSink::new(io::writer(&rt));
    let ended = match given_words(&rt) {
        Ok(words) => run(&rt, rt.alloc(), &words, &mut source, &mut sink, &OpenGate),
        Err(fault) => end_without_words(&mut sink, fault),
    };
    ExitCode::from(ended.status)
}
