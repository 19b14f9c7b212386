use crate::Way;

/// What one traversal has counted.
#[derive(Clone, Copy, Debug, PartialEq, Eq)]
pub struct Tally {
    /// The traversal's number, from 1.
    pub traversal: u64,
    /// Its way.
    pub way: Way,
    /// The walked cells of level 1 and more.
    pub cells: u64,
    /// The vertices that were read from the input.
    pub read: u64,
    /// The vertices that were written to the output.
    pub written: u64,
    /// The vertices that were born.
    pub created: u64,
    /// The vertices that died.
    pub destroyed: u64,
    /// The loads of hanging vertices on level 1 and deeper.
    pub hanging: u64,
    /// The greatest level that was walked.
    pub deepest: u8,
}
