ghost use Rattle.std.specs.Prelude.{◌≡◌, ◌*◌, ◌^◌, ◌≤◌, OnOk, length};
ghost use Rattle.pe_stacks.specs.Holdings.{stack_count, CountsWithin, RaisesCounts};

use crate::moves::{Words, load, transfer, unload};
use pe_stacks::Depot;
use std::io;
use std::io::Print;
use std::time::{Clock, Instant};

/// How many seconds the parts took: a copy of the records, their pushes, pops and pushes from one stack to
/// the other, and their pops.
#[derive(Clone, Copy)]
pub struct Times {
    copied: f64,
    pushed: f64,
    moved: f64,
    popped: f64,
    /// A word made of all records.
    pub sum: u64,
}

impl Times {
    fn none() -> Times {
        Times {
            copied: 0.0,
            pushed: 0.0,
            moved: 0.0,
            popped: 0.0,
            sum: 0,
        }
    }

    fn add(&mut self, other: &Times) {
        self.copied += other.copied;
        self.pushed += other.pushed;
        self.moved += other.moved;
        self.popped += other.popped;
        self.sum ^= other.sum;
    }

    /// Prints the time of each part as a ratio to the copy.
    pub fn print(&self, rt: &impl Print) -> io::Result<()> {
        println!(rt; "copy          {:.3} s", self.copied)?;
        println!(rt; "push          {:.2} copies", self.pushed / self.copied)?;
        println!(rt; "pop and push  {:.2} copies", self.moved / self.copied)?;
        println!(rt; "pop           {:.2} copies", self.popped / self.copied)
    }
}

/// Copies the records, and has a depot of two stacks take them, move them from one stack to the other and
/// give them up.
pub fn measure<D: Depot<Words>>(
    rt: &impl Clock,
    depot: &mut D,
    records: &[Words],
    target: &mut [Words],
) -> io::Result<Times>
    requires stacks { stack_count (D.holds depot.old) ≡ 2 }
    requires counts { CountsWithin (D.holds depot.old) (2 ^ 61) }
    requires few { length records.now ≤ 1000000 }
    requires same { length target.old ≡ length records.now }
    ensures stacks { OnOk result (stack_count (D.holds depot.new) ≡ 2) }
    ensures counts { OnOk result (RaisesCounts (D.holds depot.old) (D.holds depot.new) 6000000) }
{
    let count = records.len() as u64;
    let start = Instant::now(rt)?;
    target.copy_from_slice(records);
    let copied = start.elapsed(rt)?.as_secs_f64();
    let start = Instant::now(rt)?;
    load(depot, 0, records)?;
    let pushed = start.elapsed(rt)?.as_secs_f64();
    let start = Instant::now(rt)?;
    transfer(depot, 0, 1, count)?;
    let moved = start.elapsed(rt)?.as_secs_f64();
    let start = Instant::now(rt)?;
    let sum = unload(depot, 1, count);
    let popped = start.elapsed(rt)?.as_secs_f64();
    Ok(Times {
        copied,
        pushed,
        moved,
        popped,
        sum,
    })
}

/// Measures so many times, after once that does not count.
pub fn measure_rounds<D: Depot<Words>>(
    rt: &impl Clock,
    depot: &mut D,
    records: &[Words],
    target: &mut [Words],
    rounds: u8,
) -> io::Result<Times>
    requires stacks { stack_count (D.holds depot.old) ≡ 2 }
    requires counts { CountsWithin (D.holds depot.old) (2 ^ 60) }
    requires few { length records.now ≤ 1000000 }
    requires same { length target.old ≡ length records.now }
{
    measure(rt, depot, records, target)?;
    let mut all = Times::none();
    for _round in 0..rounds {
        let times = measure(rt, depot, records, target)?;
        all.add(&times);
    }
    Ok(all)
}
