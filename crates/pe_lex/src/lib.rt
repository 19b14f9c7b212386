//! The tokens of a body of the event language: what kinds there are, and where each stands in a text.
#![tactic(auto)]

mod forms;
mod scan;
mod token;

pub use scan::lex;
pub use token::{LexFault, Token, TokenKind};
