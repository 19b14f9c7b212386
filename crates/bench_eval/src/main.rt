//! Evaluates the bodies of a mill's events, and runs the same events as functions.
//!
//! Without words it does so three times, and prints what came of it: first by function, then by body. With the
//! word `time` it does so ten million times, and prints how long one evaluation took, and how many times as long
//! as the function.
#![tactic(auto)]

mod bodies;
mod functions;
mod site;
mod times;

use bodies::read_bodies;
use pe_base::Dim;
use pe_io::{StdSink, SureSink};
use site::Site;
use std::io::{ErrorKind, Print};
use std::{env, io};
use times::{measure, measure_often};

/// How often an event is run between two looks at the clock, and how many times that.
const ROUNDS: u32 = 1_000_000;

const TIMES: u32 = 10;

/// How often it is run where nothing is measured.
const FEW: u32 = 3;

fn print(rt: &impl Print, site: &Site) -> io::Result<()> {
    println!(rt;
        "vertex {} {:?}",
        site.vertex.payload().get(0),
        site.vertex.state()
    )?;
    println!(rt;
        "cell {} of {}",
        site.cell.payload().get(0),
        site.globals.get(0)
    )
}

fn main(rt: HostRuntime) -> io::Result<()> {
    let Some(dim) = Dim::new(2) else {
        return Err(io::Error::from(ErrorKind::InvalidData));
    };
    let bodies = read_bodies(rt.alloc(), dim)?;
    let mut places = (Site::new(), Site::new());
    if env::args(&rt)?.any(|word| word.as_str() == "time") {
        let mut sink = SureSink::new();
        return measure_often(&rt, &bodies, dim, &mut places, &mut sink, TIMES, ROUNDS)?.print(
            &rt,
            TIMES * ROUNDS,
        );
    }
    let mut sink = StdSink::new(io::writer(&rt));
    measure(&rt, &bodies, dim, &mut places, &mut sink, FEW)?;
    let (one, other) = places;
    print(&rt, &one)?;
    print(&rt, &other)
}
