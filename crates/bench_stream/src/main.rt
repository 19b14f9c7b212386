//! Reads a stream and writes it again, and copies as many bytes.
//!
//! Without words it does so with a small stream, and prints what came of it. With the word `time` it does so ten
//! times with a stream of 51 million bytes, and prints how long each took beside the copy.
#![tactic(auto)]

mod streams;
mod times;

use std::{env, io};
use streams::stream;
use times::{measure, measure_rounds};

fn main(rt: HostRuntime) -> io::Result<()> {
    let alloc = rt.alloc();
    if env::args(&rt)?.any(|word| word.as_str() == "time") {
        let bytes = stream(alloc, 400_000)?;
        let mut target = vec![in alloc; 0; bytes.len()]?;
        return measure_rounds(&rt, alloc, &bytes, &mut target, 10)?.print(&rt);
    }
    let bytes = stream(alloc, 3)?;
    let mut target = vec![in alloc; 0; bytes.len()]?;
    let times = measure(&rt, alloc, &bytes, &mut target)?;
    println!(rt; "bytes {}", bytes.len())?;
    println!(rt; "vertices {} cells {}", times.vertices, times.cells)?;
    println!(rt; "written as it was read: {}", times.alike)
}
