//! Walks grids by native mappings, with eight numbers for each vertex and each cell.
//!
//!     bench_walk regular D L T
//!     bench_walk ring D L T
//!     bench_walk mill N
//!
//! `regular` walks a whole grid of level L in D dimensions T times, and counts at each corner of each cell. `ring` refines the
//! vertices near a circle or a sphere that moves, down to level L, and erases all others. `mill` refines and erases by sums of
//! positions, and prints how many cells it entered. Each traversal prints its tally. With the word `time` at the end, the
//! nanoseconds for a walked cell go to standard error: of all traversals, and of the later ones, in which the grid has its size.
#![tactic(auto)]

mod corners;
mod job;
mod mill;
mod regular;
mod ring;
mod running;
mod sphere;
mod times;

use job::{Job, before_time, job_of};
use mill::{Mill, Wheel};
use pe_io::StdSink;
use regular::Regular;
use ring::Ring;
use running::walk_often;
use std::io::ErrorKind;
use std::{env, io};
use times::Times;

fn walk(rt: &HostRuntime, job: Job) -> io::Result<Times> {
    let alloc = rt.alloc();
    match job {
        Job::Regular(setup, repeats) => {
            let mut mapping = Regular::new(setup.dim, setup.max_level);
            walk_often(rt, alloc, &setup, repeats, &mut mapping)
        }
        Job::Ring(setup, repeats) => match Ring::new(setup.dim, setup.max_level) {
            Some(ring) => {
                let mut mapping = ring;
                walk_often(rt, alloc, &setup, repeats, &mut mapping)
            }
            None => Err(io::Error::from(ErrorKind::InvalidInput)),
        },
        Job::Mill(setup, repeats, number) => {
            let wheel = Wheel {
                dim: setup.dim,
                greatest: setup.max_level,
                number,
            };
            let mut sink = StdSink::new(io::writer(rt));
            let mut mapping = Mill::new(wheel, &mut sink);
            walk_often(rt, alloc, &setup, repeats, &mut mapping)
        }
    }
}

fn main(rt: HostRuntime) -> io::Result<()> {
    let words: Vec<String> = env::args(&rt)?.skip(1).collect(rt.alloc())?;
    let (named, timed) = before_time(&words);
    let Some(job) = job_of(named) else {
        return Err(io::Error::from(ErrorKind::InvalidInput));
    };
    let times = walk(&rt, job)?;
    println!(rt; "done")?;
    if timed {
        times.print(&rt)?;
    }
    Ok(())
}
