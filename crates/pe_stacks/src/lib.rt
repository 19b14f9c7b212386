//! The storage of a grid: records of vertices and cells, the corners of a cell, the handle of a grid,
//! and depots, which keep records on numbered stacks.
#![tactic(auto)]

mod corners;
mod depot;
mod grid;
mod quad;
mod record;
mod slots;
mod vec_depot;
mod vec_stack;

pub use corners::Corners;
pub use depot::{Depot, Shown};
pub use grid::Grid;
pub use quad::{Quad, close_slot, fill_slot, filled, filled_mut};
pub use record::{CellRec, Vertex};
pub use vec_depot::VecDepot;
