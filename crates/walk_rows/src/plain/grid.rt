//! Which vertices count, on the grids of the tests.
ghost use Rattle.std.specs.Prelude.{◌≡◌};
ghost use Rattle.walk_rows.specs.Grids.{is_between, in_square, regular, refined_once, everywhere};

use pe_base::Place;

/// A choice of the vertices that count.
pub(super) trait Grid {
    ghost use Rattle.std.specs.Prelude.{Bool};
    ghost use Rattle.pe_base.specs.declared.place.Place.{Place as APlace};

    ghost counts: { APlace → Bool };

    /// Whether a vertex counts.
    fn counts(&self, vertex: &Place) -> bool
        ensures { result ≡ counts vertex.now };
}

/// The regular grid of two levels in the plane.
pub(super) struct Regular;

/// The grid in the plane that is refined at one vertex of level 1.
pub(super) struct RefinedOnce;

/// The regular grid of two levels in space.
pub(super) struct Everywhere;

impl Grid for Regular {
    ghost counts = { regular };

    fn counts(&self, vertex: &Place) -> bool {
        if vertex.level == 1 {
            in_square(1, 2, vertex)
        } else {
            in_square(1, 8, vertex)
        }
    }
}

impl Grid for RefinedOnce {
    ghost counts = { refined_once };

    fn counts(&self, vertex: &Place) -> bool {
        if vertex.level == 1 {
            in_square(1, 2, vertex)
        } else {
            in_square(1, 5, vertex)
        }
    }
}

impl Grid for Everywhere {
    ghost counts = { everywhere };

    fn counts(&self, vertex: &Place) -> bool {
        let high = if vertex.level == 1 { 2 } else { 8 };
        is_between(1, high, vertex.pos[0])
            && is_between(1, high, vertex.pos[1])
            && is_between(1, high, vertex.pos[2])
    }
}

fn is_between(low: u64, high: u64, x: u64) -> bool
    ensures { result ≡ is_between low high x }
{
    low <= x && x <= high
}

fn in_square(low: u64, high: u64, vertex: &Place) -> bool
    ensures { result ≡ in_square low high vertex.now }
{
    is_between(low, high, vertex.pos[0]) && is_between(low, high, vertex.pos[1])
}
