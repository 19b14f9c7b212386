//! What a vertex is to a traversal: its kind by the ages of its carriers, and its state by the table.
//!
//! The carriers of a cell's corners are corners of the cell's parent, so that a walk that has the parent's records in hand
//! knows the kind of each corner of the child. [`Ages`] has the ages of all corners of a cell at once, and turns those of the
//! parent into those of a child. Nothing here takes memory.
#![tactic(auto)]

mod ages;
mod carriers;
mod laws;
mod sides;
mod table;

pub use ages::Ages;
pub use carriers::{carrier, level_one};
pub use laws::{carriers_are_corners, full_ages_stay};
pub use table::{first_touch, kind_of, last_touch, start_state};
