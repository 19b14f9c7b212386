//! Where a vertex comes from and where it goes: the stacks by which the cells around it hand it on.
//!
//! [`CellState`] stands for a cell without its position, and tells the [`Route`] of each corner. Nothing here takes memory.
#![tactic(auto)]

mod laws;
mod numbers;
mod route;
mod row;
mod state;

pub use laws::{order_around, rows_of_children};
pub use numbers::Numbers;
pub use route::Route;
pub use row::Row;
pub use state::CellState;
