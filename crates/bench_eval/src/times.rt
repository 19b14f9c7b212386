//! How long the events take, by function and by body.
ghost use Rattle.std.specs.Prelude.{◌≡◌};

use crate::bodies::Bodies;
use crate::site::Site;
use pe_base::{Dim, Stop};
use pe_io::Sink;
use std::io;
use std::io::{ErrorKind, Print};
use std::time::{Clock, Instant};

/// How many seconds an event took, by function and by body.
#[derive(Clone, Copy)]
struct Pair {
    function: f64,
    body: f64,
}

/// How long each of three events took.
#[derive(Clone, Copy)]
pub struct Times {
    touch: Pair,
    enter: Pair,
    end: Pair,
}

impl Pair {
    const NONE: Pair = Pair {
        function: 0.0,
        body: 0.0,
    };

    fn and(self, other: Pair) -> Pair {
        Pair {
            function: self.function + other.function,
            body: self.body + other.body,
        }
    }

    /// Prints how long one evaluation took, and how many times as long as the function.
    fn print(self, rt: &impl Print, name: &str, rounds: u32) -> io::Result<()> {
        let each = 1e9 / f64::from(rounds);
        println!(rt;
            "{name}  {:.1} ns by function, {:.1} ns by body: {:.1} times",
            self.function * each,
            self.body * each,
            self.body / self.function
        )
    }
}

impl Times {
    fn none() -> Times {
        Times {
            touch: Pair::NONE,
            enter: Pair::NONE,
            end: Pair::NONE,
        }
    }

    fn and(self, other: Times) -> Times {
        Times {
            touch: self.touch.and(other.touch),
            enter: self.enter.and(other.enter),
            end: self.end.and(other.end),
        }
    }

    /// Prints the times of each event, and of all.
    pub fn print(self, rt: &impl Print, rounds: u32) -> io::Result<()> {
        self.touch.print(rt, "touch", rounds)?;
        self.enter.print(rt, "enter", rounds)?;
        self.end.print(rt, "end  ", rounds)?;
        self.touch
            .and(self.enter)
            .and(self.end)
            .print(rt, "all  ", rounds)
    }
}

/// The seconds since a start, where nothing stopped the event.
fn since(rt: &impl Clock, start: &Instant, answer: Result<(), Stop>) -> io::Result<f64> {
    match answer {
        Ok(()) => Ok(start.elapsed(rt)?.as_secs_f64()),
        Err(_) => Err(io::Error::from(ErrorKind::InvalidData)),
    }
}

/// Runs each event so many times, by function at one place and by body at the other.
pub fn measure<K: Sink>(
    rt: &impl Clock,
    bodies: &Bodies,
    dim: Dim,
    places: &mut (Site, Site),
    sink: &mut K,
    rounds: u32,
) -> io::Result<Times>
    requires { dim ≡ 2 }
{
    let (one, other) = places;
    let start = Instant::now(rt)?;
    let function = since(rt, &start, one.touch(rounds))?;
    let start = Instant::now(rt)?;
    let body = since(rt, &start, other.touch_by(&bodies.touch, dim, rounds))?;
    let touch = Pair { function, body };
    let start = Instant::now(rt)?;
    let function = since(rt, &start, one.enter(rounds))?;
    let start = Instant::now(rt)?;
    let body = since(rt, &start, other.enter_by(&bodies.enter, dim, rounds))?;
    let enter = Pair { function, body };
    let start = Instant::now(rt)?;
    let function = since(rt, &start, one.end(sink, rounds))?;
    let start = Instant::now(rt)?;
    let body = since(rt, &start, other.end_by(&bodies.end, sink, rounds))?;
    let end = Pair { function, body };
    Ok(Times { touch, enter, end })
}

/// Measures so often, after once that does not count.
pub fn measure_often<K: Sink>(
    rt: &impl Clock,
    bodies: &Bodies,
    dim: Dim,
    places: &mut (Site, Site),
    sink: &mut K,
    often: u32,
    rounds: u32,
) -> io::Result<Times>
    requires { dim ≡ 2 }
{
    measure(rt, bodies, dim, places, sink, rounds)?;
    let mut all = Times::none();
    for _time in 0..often {
        let times = measure(rt, bodies, dim, places, sink, rounds)?;
        all = all.and(times);
    }
    Ok(all)
}
