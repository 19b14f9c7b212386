//! The recursion over the cells of a grid, once for every walk.
//!
//! A walk is a [`Tour`]: it says what is done where a cell is counted, a corner loaded or stored, a cell entered and left.
//! [`walk_cell`] and [`walk_children`] do the rest, for every number of axes: which cells there are, in which order their
//! corners come, and what is known of a child by the cell above it. Nothing here takes memory.
#![tactic(auto)]

mod axes;
mod cell;
mod child;
mod corners;
mod recursion;
mod settings;
mod tour;

pub use axes::{walk_cell, walk_children};
pub use cell::CellAt;
pub use settings::TourSettings;
pub use tour::Tour;
