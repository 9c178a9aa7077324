//! Prints the flattened modules of a source: the records of docs/FORMATS.md, "Flattened modules", of each module that
//! is accepted and is none of the prelude, in order.
//!
//! It reads the source from the standard input, with the modules of the prelude that it needs in front, as the program
//! `mw` does. Commands, proofs and what is refused are passed over without a word. What it prints is for
//! tools/second_check.py, and no part of `mw` rests on it: nothing is promised of it but that it is safe and ends.
#![tactic(auto)]

mod flat;
mod loading;
mod records;

use loading::flattened;
use std::io;
use std::io::{Read, Write};

fn main(rt: HostRuntime) -> io::Result<()> {
    let alloc = rt.alloc();
    let mut source = Vec::new(alloc);
    rt.reader().read_to_end(&mut source)?;
    let text = flattened(alloc, source.as_slice())?;
    io::writer(&rt).write_all(text.as_slice())
}
