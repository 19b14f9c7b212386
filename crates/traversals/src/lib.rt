//! Traversals by mappings that are no scenarios, and over depots that lack room.
#![tactic(auto)]

#[cfg(test)]
mod nine_cells;
mod planned;
#[cfg(test)]
mod rows;
#[cfg(test)]
mod running;
mod scarce;

pub use planned::{Plan, Planned};
pub use scarce::Scarce;
