//! Moves records between the stacks of a depot, and copies the same records without a depot.
//!
//! Without words it does so with a few records, and prints what came of it. With the word `time` it moves ten
//! million records, and prints how long each call took beside the copy.
#![tactic(auto)]

mod moves;
mod times;

use pe_stacks::{Depot, VecDepot};
use std::{env, io};
use times::{measure, measure_rounds};

fn main(rt: HostRuntime) -> io::Result<()> {
    let alloc = rt.alloc();
    let mut depot = VecDepot::new(alloc, 2)?;
    if env::args(&rt)?.any(|word| word.as_str() == "time") {
        let records = vec![in alloc; [7; 10]; 1000000]?;
        let mut target = vec![in alloc; [0; 10]; 1000000]?;
        return measure_rounds(&rt, &mut depot, &records, &mut target, 10)?.print(&rt);
    }
    let records = [[1; 10], [2; 10], [4; 10]];
    let mut target = [[0; 10]; 3];
    let times = measure(&rt, &mut depot, &records, &mut target)?;
    println!(rt; "sum {}", times.sum)?;
    println!(rt;
        "fresh {} spent {} out {} most {}",
        depot.fresh(),
        depot.spent(),
        depot.out(),
        depot.most()
    )?;
    println!(rt;
        "stack 0: {} pushes {} pops",
        depot.pushes(0),
        depot.pops(0)
    )?;
    println!(rt;
        "stack 1: {} pushes {} pops",
        depot.pushes(1),
        depot.pops(1)
    )
}
