//! The top call of `peano run`: from the words of the command line to the text and the exit status.
#![tactic(auto)]

mod finish;
mod get;
mod lines;
mod program;
mod refusal;
mod run;
mod status;
mod traversals;

pub use program::peano;
