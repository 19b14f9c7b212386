//! The order of a cell's children along the Peano curve, in both ways of a traversal.
//!
//! [`child`] gives one child's place, [`Cursor`] the digits of all children in turn, of which [`child_at`] makes places, and
//! [`Step`] goes from one child to the next, and knows how each axis is walked there.
//! None takes memory.
#![tactic(auto)]

mod children;
mod cursor;
mod digits;
mod step;

pub use children::{child, child_at};
pub use cursor::Cursor;
pub use step::Step;
