ghost use Rattle.std.specs.Prelude.{◌≤◌, length};
ghost use Rattle.pe_base.specs.Acts.Settings.{AreLevels, IsCellLimit};
ghost use Rattle.pe_base.specs.Limits.{most_fields};

use crate::{Dim, List, Text};

/// The settings of a grid and of its walk.
#[derive(Clone, Copy, Debug, PartialEq, Eq)]
pub struct Setup {
    /// The number of axes.
    pub dim: Dim,
    /// The greatest level that a cell may have: 1 to `limits::MOST_LEVELS`.
    pub max_level: u8,
    /// The level down to which the first traversal refines the whole grid: 1 to `max_level`.
    pub start_level: u8,
    /// How many cells a traversal may walk: `limits::LEAST_CELLS` to `limits::MOST_CELLS`.
    pub max_cells: u64,
    ghost levels: { AreLevels max_level start_level },
    ghost limit: { IsCellLimit max_cells },
}

/// The names of the fields of a scenario, at most `limits::MOST_FIELDS` of each kind.
#[derive(Debug, Drop)]
pub struct Names {
    /// The numbers of a vertex.
    pub vertex: List<Text>,
    /// The numbers of a cell.
    pub cell: List<Text>,
    /// The numbers of the whole grid.
    pub global: List<Text>,
    ghost few_of_vertices: { length vertex ≤ most_fields },
    ghost few_of_cells: { length cell ≤ most_fields },
    ghost few_of_all: { length global ≤ most_fields },
}
