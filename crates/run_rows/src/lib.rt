//! Worked rows of whole runs: words, scenarios, what is written, the status and the traffic. Of jobs as data there is a toy.
#![tactic(auto)]

mod files;
#[cfg(test)]
mod grid_rows;
#[cfg(test)]
mod job_rows;
#[cfg(test)]
mod rows;

pub use files::{Unread, two_files};
