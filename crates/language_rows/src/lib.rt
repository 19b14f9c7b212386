//! Worked rows of the language of events: what is read, how names are resolved, and what a body means.
#![tactic(auto)]

#[cfg(test)]
mod bodies;
#[cfg(test)]
mod meaning;
#[cfg(test)]
mod names;
