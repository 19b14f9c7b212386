//! A body of the event language whose names are resolved, and how it is made of a body that was read.
#![tactic(auto)]

mod bodies;
mod cause;
mod checked;
mod head;
mod laws;
mod resolve;

pub use bodies::check;
pub use cause::CheckFault;
pub use checked::{Checked, Expr, Name, Slot, Stmt, Values, VertexName};
pub use laws::fits_widen;
