//! Worked rows of what a walk is made of: words and printed lines, the curve, routes, ages, and records on stacks.
#![tactic(auto)]

#[cfg(test)]
mod curve;
#[cfg(test)]
mod records;
#[cfg(test)]
mod routes;
#[cfg(test)]
mod states;
#[cfg(test)]
mod words;
