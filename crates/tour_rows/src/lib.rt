//! Worked rows of the walk over cells: a tour that counts, in two, three and four axes, there and back.
#![tactic(auto)]

mod counting;
pub mod laws;
#[cfg(test)]
mod rows;

pub use counting::{Counting, Never, passed};
