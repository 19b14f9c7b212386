//! How long walks took.
use pe_base::Tally;
use std::io;
use std::io::Eprint;
use std::num::nearest_u64_to_f64;

/// How many cells were walked in how many seconds: in all traversals, and in the later ones.
#[derive(Clone, Copy)]
pub struct Times {
    cells: u64,
    seconds: f64,
    later_cells: u64,
    later_seconds: f64,
}

fn each(seconds: f64, cells: u64) -> f64 {
    seconds * 1e9 / nearest_u64_to_f64(cells.max(1))
}

impl Times {
    /// Nothing was walked.
    pub fn none() -> Times {
        Times {
            cells: 0,
            seconds: 0.0,
            later_cells: 0,
            later_seconds: 0.0,
        }
    }

    /// Adds a traversal; one behind the first ones is later.
    pub fn add(&mut self, tally: &Tally, seconds: f64, is_later: bool) {
        self.cells = self.cells.saturating_add(tally.cells);
        self.seconds += seconds;
        if is_later {
            self.later_cells = self.later_cells.saturating_add(tally.cells);
            self.later_seconds += seconds;
        }
    }

    /// Prints the nanoseconds for a cell.
    pub fn print(self, rt: &impl Eprint) -> io::Result<()> {
        eprintln!(rt;
            "ns/cell {:.2} later {:.2}",
            each(self.seconds, self.cells),
            each(self.later_seconds, self.later_cells)
        )
    }
}
