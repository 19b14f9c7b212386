//! The limits that grids, scenarios and streams are held to, each of them said once.

/// The greatest level that a cell may have.
pub const MOST_LEVELS: u8 = 20;

/// The fewest cells that a limit of cells may allow: as many as a grid of four dimensions has on level 1.
pub const LEAST_CELLS: u64 = 81;

/// The most cells that a limit of cells may allow.
pub const MOST_CELLS: u64 = 4_194_304;

/// The most traversals that a grid may take.
pub const MOST_TRAVERSALS: u64 = 1_000_000_000;

/// The most traversals that one scenario may ask for.
pub const SCENARIO_TRAVERSALS: u64 = 1000;

/// The greatest length of a scenario, in bytes.
pub const SCENARIO_BYTES: u64 = 1_048_576;

/// The most numbers that a vertex, a cell or the whole grid may have.
pub const MOST_FIELDS: usize = 8;

/// The greatest length of a number's name, in bytes.
pub const NAME_BYTES: usize = 16;
