ghost use Rattle.std.specs.Prelude.{◌≤◌};
ghost use Rattle.pe_base.specs.Limits.{most_fields};
ghost use Rattle.pe_stream.specs.Limits.{IsMaxLevel, IsTraversalCount};

use pe_base::Dim;

/// What a stream's header must say, so that a scenario can go on with its grid.
#[derive(Clone, Copy, Debug, PartialEq, Eq)]
pub struct Expect {
    /// The number of axes.
    pub dim: Dim,
    /// The greatest level that a cell may have: 1 to `limits::MOST_LEVELS`.
    pub max_level: u8,
    /// How many numbers a vertex has: 0 to `limits::MOST_FIELDS`.
    pub vertex_fields: u8,
    /// How many numbers a cell has: 0 to `limits::MOST_FIELDS`.
    pub cell_fields: u8,
    /// How many numbers the whole grid has: 0 to `limits::MOST_FIELDS`.
    pub global_fields: u8,
    /// How many traversals are to come: 1 to `limits::SCENARIO_TRAVERSALS`.
    pub traversals: u64,
    ghost levels: { IsMaxLevel max_level },
    ghost few_of_vertices: { vertex_fields ≤ most_fields },
    ghost few_of_cells: { cell_fields ≤ most_fields },
    ghost few_of_all: { global_fields ≤ most_fields },
    ghost to_come: { IsTraversalCount traversals },
}
