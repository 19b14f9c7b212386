//! The program `peano`: the real files, the standard output, and the words of the command line.
#![tactic(auto)]

mod job;

use job::status_of;
use pe_io::{FileShelf, StdSink};
use std::process::ExitCode;
use std::{env, io};

fn main(rt: HostRuntime) -> ExitCode {
    let mut shelf = FileShelf::new(rt.alloc(), &rt);
    let mut sink = StdSink::new(io::writer(&rt));
    let status = status_of(rt.alloc(), env::args(&rt), &mut shelf, &mut sink);
    ExitCode::from(status)
}
