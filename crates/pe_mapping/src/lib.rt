//! The events of a grid, as the walk calls them: a mapping makes payloads, and is told each event with all that
//! the event sees.
#![tactic(auto)]

mod mapping;

pub use mapping::Mapping;
