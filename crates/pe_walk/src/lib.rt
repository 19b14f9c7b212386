//! The walk of the cells of a grid.
#![tactic(auto)]

mod axes;
mod cell;
mod child;
mod corners;
mod count;
mod face;
mod hand;
pub mod laws;
mod quad;
mod root;
mod traversal;
mod visit;
mod whole;

pub use pe_adapt::WalkStop;
pub use traversal::traverse;
