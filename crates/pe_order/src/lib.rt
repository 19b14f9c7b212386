//! The laws of the order in which the cells of a grid are walked, and of the places that wait on stacks meanwhile.
#![tactic(auto)]

pub mod laws;
