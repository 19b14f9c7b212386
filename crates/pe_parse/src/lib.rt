//! The tree of a body of the event language, and how it is read from the tokens of a text.
#![tactic(auto)]

mod expr;
mod fault;
mod laws;
mod rank;
mod read;
mod reader;
mod stmt;
mod tree;
mod words;

pub use fault::ParseFault;
pub use laws::{fault_free_is_spelled, one_tree, printed_is_read};
pub use rank::Rank;
pub use read::parse;
pub use tree::{Body, Choice, Expr, Name, Prefix, Sign, Stmt, Trigger, Values, Word};
