//! Scenarios: what they say, and how one is read from the bytes of a TOML document.
#![tactic(auto)]

mod bodies;
mod body;
mod fault;
mod fields;
mod number;
mod read;
mod scenario;
mod section;
mod settings;
mod table;
mod texts;
mod trace;

pub use bodies::Bodies;
pub use fault::{BodyCause, SceneFault};
pub use read::read_scenario;
pub use scenario::Scenario;
pub use trace::Trace;
