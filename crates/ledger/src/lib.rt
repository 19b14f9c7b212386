//! A mapping for the tests of the crates above: its payloads are boxes, which can be neither cloned nor copied, and its
//! list changes with each vertex that it makes.
#![tactic(auto)]

#[cfg(test)]
mod corners;
mod mapping;
#[cfg(test)]
mod rows;

pub use mapping::{Ledger, Number};
