//! The mapping of a scenario: at each event it writes the trace line, and then runs the body.
#![tactic(auto)]

mod acting;
mod interp;
mod lines;

pub use interp::Interp;
