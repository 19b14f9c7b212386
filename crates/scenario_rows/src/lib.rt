//! Worked rows of scenarios: what is read, what is refused for which cause, and what events do.
#![tactic(auto)]

#[cfg(test)]
mod events;
#[cfg(test)]
mod rows;
