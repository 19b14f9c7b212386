//! What a body of the event language does at an event: its meaning, and the call that carries it out.
#![tactic(auto)]

mod arithmetic;
mod fault;
mod laws;
mod names;
mod print;
mod run;
mod value;
mod view;
mod writes;

pub use laws::{bodies_are_lawful, bodies_print_lines};
pub use run::eval;
pub use view::View;
