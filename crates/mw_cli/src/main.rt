//! The program: it makes the real source and sink, and ends with the status.
#![tactic(auto)]

use mw_gate::NoGate;
use mw_outside::{StdSink, StdSource};
use mw_top::top;
use std::alloc::Global;
use std::env::Env;
use std::process::ExitCode;
use std::{env, io};

fn words(rt: &(impl Env + Alloc<A = Global>)) -> io::Result<Vec<String>> {
    Ok(env::args(rt)?.collect(rt.alloc())?)
}

fn main(rt: HostRuntime) -> ExitCode {
    let alloc = rt.alloc();
    // Words that are no text are words that aren't in the command set.
    let words = match words(&rt) {
        Ok(words) => words,
        Err(_) => Vec::new(alloc),
    };
    let mut source = StdSource::new(rt.reader());
    let mut sink = StdSink::new(io::writer(&rt));
    let status = top(
        &rt,
        alloc,
        words.as_slice(),
        &mut source,
        &mut sink,
        &NoGate,
    );
    ExitCode::from(status)
}
