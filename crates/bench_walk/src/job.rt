//! What the words ask for.
ghost use Rattle.std.specs.Prelude.{◌≡◌, IfSome};

use crate::running::Repeats;
use pe_base::limits::{MOST_CELLS, MOST_LEVELS};
use pe_base::{Dim, Setup};

/// Which mapping walks which grid, and how often.
#[derive(Clone, Copy)]
pub enum Job {
    /// A whole grid.
    Regular(Setup, Repeats),
    /// A sphere that moves.
    Ring(Setup, Repeats),
    /// A mill with a number.
    Mill(Setup, Repeats, u16),
}

fn setup_of(axes: u8, max_level: u8, start_level: u8) -> Option<Setup> {
    let dim = Dim::new(axes)?;
    if start_level < 1 || max_level < start_level || MOST_LEVELS < max_level {
        return None;
    }
    Some(Setup {
        dim,
        max_level,
        start_level,
        max_cells: MOST_CELLS,
    })
}

fn number(word: &String) -> Option<u64> {
    word.as_str().parse::<u64>().ok()
}

fn small(word: &String) -> Option<u8> {
    word.as_str().parse::<u8>().ok()
}

fn mill(number: u64) -> Option<Job> {
    let (axes, levels) = match number % 3 {
        0 => (2, 6),
        1 => (3, 4),
        _ => (4, 3),
    };
    let setup = setup_of(axes, levels, 1)?;
    let repeats = Repeats {
        all: 4 + number % 5,
        first: 1,
    };
    Some(Job::Mill(setup, repeats, (number % 1000) as u16))
}

fn regular(axes: u8, level: u8, traversals: u64) -> Option<Job> {
    let repeats = Repeats {
        all: traversals,
        first: 1,
    };
    Some(Job::Regular(setup_of(axes, level, level)?, repeats))
}

fn ring(axes: u8, level: u8, traversals: u64) -> Option<Job> {
    let repeats = Repeats {
        all: traversals,
        first: u64::from(level),
    };
    Some(Job::Ring(setup_of(axes, level, 1)?, repeats))
}

/// The job that the words behind the program's name ask for.
pub fn job_of(words: &[String]) -> Option<Job> {
    match words {
        [name, n] if name.as_str() == "mill" => mill(number(n)?),
        [name, d, l, t] if name.as_str() == "regular" => regular(small(d)?, small(l)?, number(t)?),
        [name, d, l, t] if name.as_str() == "ring" => ring(small(d)?, small(l)?, number(t)?),
        _ => None,
    }
}

/// The words without `time` at their end, and whether it was there.
pub fn before_time(words: &[String]) -> (&[String], bool) {
    match words {
        [before @ .., last] if last.as_str() == "time" => (before, true),
        _ => (words, false),
    }
}
