//! Worked rows of the edges: shelves, sinks and lines, calls that stop half-way, and the bytes of saved grids.
#![tactic(auto)]

#[cfg(test)]
mod edges;
#[cfg(test)]
mod streams;
