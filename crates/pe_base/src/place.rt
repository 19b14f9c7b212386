/// The place of a cell or of a vertex: its level, and its position on each axis.
///
/// The root is on level 0, and no level is above 20. On level l a cell's positions are below `3^l`,
/// and a vertex's are at most `3^l`. Axes that the dimension does not have hold 0.
/// Places are ordered by level, and then by position with axis 0 leading.
#[derive(Clone, Copy, Debug, PartialEq, Eq, PartialOrd, Ord)]
pub struct Place {
    /// The level, 0 to 20.
    pub level: u8,
    /// The position on axes 0 to 3, counted from 0.
    pub pos: [u64; 4],
}

/// Where a child lies in its parent: a digit for each axis, each 0, 1 or 2.
///
/// Axes that the dimension does not have hold 0.
#[derive(Clone, Copy, Debug, PartialEq, Eq)]
pub struct Digits {
    /// The digits on axes 0 to 3.
    pub k: [u8; 4],
}
