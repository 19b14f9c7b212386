//! Hanging vertices: made anew for each cell that touches them, and given up with it.
#![tactic(auto)]

mod hanging;

pub use hanging::{end_hanging, make_hanging};
