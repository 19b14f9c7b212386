//! The words of the command line: which job they name.
#![tactic(auto)]

mod job;
mod laws;
mod name;
mod read;
mod run;
#[cfg(test)]
mod tests;

pub use job::{Job, WordsFault};
pub use laws::named_jobs;
pub use read::read_words;
