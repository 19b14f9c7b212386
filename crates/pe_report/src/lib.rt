//! The lines that a run writes of what it did.
#![tactic(auto)]

mod tally;
#[cfg(test)]
mod tests;

pub use tally::tally_line;
