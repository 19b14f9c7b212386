use pe_base::{Dim, Fields, List, State};

/// A vertex as it is saved.
#[derive(Clone, Copy, Debug, PartialEq, Eq)]
pub struct SavedVertex {
    /// Its state, which is neither refining nor erasing.
    pub state: State,
    /// Its numbers. Those behind the first `vertex_fields` are 0.
    pub fields: Fields,
}

/// A grid as it is saved, between two traversals.
///
/// Vertices stand in the order of their first touch in the next traversal, and cells in the order in which
/// that traversal enters them. Numbers behind the counts of the fields are 0.
#[derive(Debug, Drop)]
pub struct Saved {
    /// The number of axes.
    pub dim: Dim,
    /// The greatest level that a cell may have: 1 to `limits::MOST_LEVELS`.
    pub max_level: u8,
    /// How many numbers a vertex has: 0 to `limits::MOST_FIELDS`.
    pub vertex_fields: u8,
    /// How many numbers a cell has: 0 to `limits::MOST_FIELDS`.
    pub cell_fields: u8,
    /// How many numbers the whole grid has: 0 to `limits::MOST_FIELDS`.
    pub global_fields: u8,
    /// How many traversals are finished: 1 to `limits::MOST_TRAVERSALS`.
    pub finished: u64,
    /// The numbers of the whole grid.
    pub globals: Fields,
    /// The numbers of the root.
    pub root: Fields,
    /// The vertices.
    pub vertices: List<SavedVertex>,
    /// How many cells there are.
    pub cell_count: u64,
    /// The numbers of each cell. The list is empty where `cell_fields` is 0.
    pub cells: List<Fields>,
}
