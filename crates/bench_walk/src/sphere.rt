ghost use Rattle.std.specs.Prelude.{◌≤◌};

use pe_base::Dim;

/// The greatest level of a grid with a sphere.
pub const MOST_LEVELS: u8 = 18;

/// What a sphere is for: the dimension, and the greatest level.
#[derive(Clone, Copy)]
pub struct Sphere {
    /// The dimension.
    pub dim: Dim,
    /// The greatest level.
    pub greatest: u8,
    ghost few: { greatest ≤ 18 },
}
