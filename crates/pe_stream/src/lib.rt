//! Saved grids as bytes: what a stream holds, how it is spelled, and the first fault of bytes that spell
//! none.
#![tactic(auto)]

mod expect;
mod fault;
mod fields;
mod header;
mod laws;
mod opening;
mod parts;
mod range;
mod reading;
mod saved;
mod writing;

pub use expect::Expect;
pub use fault::{HeaderField, StreamFault};
pub use laws::one_spelling;
pub use reading::read_stream;
pub use saved::{Saved, SavedVertex};
pub use writing::write_stream;
