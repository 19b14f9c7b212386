//! The rows: how many cells there are below the root, and in which order they come.
ghost use Rattle.std.specs.Prelude.{◌+◌, ◌<◌, ◌≤◌};
ghost use Rattle.pe_base.specs.Tree.Places.{IsCellPlace};

use crate::{Counting, Never, passed};
use pe_base::{Dim, Place, Way};
use pe_curve::child;
use pe_tour::{CellAt, TourSettings, walk_children};

// The axes, the levels below the root, the cells there, and their corners. The cells of a level are 3 ^ axes times those of
// the level above.
const ROWS: [(u8, u8, u64, u64); 7] = [
    (2, 1, 9, 36),
    (2, 2, 90, 360),
    (2, 3, 819, 3276),
    (3, 1, 27, 216),
    (3, 2, 756, 6048),
    (4, 1, 81, 1296),
    (4, 2, 6642, 106_272),
];

// Walks all cells below the root, of so many levels.
fn walk_below(tour: &mut Counting, levels: u8) -> Result<(), Never>
    requires some { 0 < levels }
    requires levels { levels ≤ 20 }
{
    let root = CellAt::root(tour.settings.dim, tour.settings.way);
    let mut below = levels;
    walk_children(tour, &root, root.ages, levels, &mut (), &mut below)
}

// What a tour of all cells below the root has counted.
fn toured(dim: Dim, way: Way, levels: u8) -> Counting
    requires some { 0 < levels }
    requires levels { levels ≤ 20 }
{
    let mut tour = Counting {
        settings: TourSettings {
            dim,
            way,
            traversal: 1,
        },
        cells: 0,
        loads: 0,
        stores: 0,
        trail: 0,
    };
    match walk_below(&mut tour, levels) {
        Ok(()) => tour,
        Err(never) => match never {},
    }
}

// The trail of the cells below one, of so many levels, each child by its number along the curve.
fn trail_below(dim: Dim, way: Way, over: &Place, levels: u8, trail: u64) -> u64
    requires place { IsCellPlace dim over.now }
    requires levels { over.now.level + levels ≤ 20 }
{
    if levels == 0 {
        return trail;
    }
    let mut now = trail;
    for n in 0..dim.parts() {
        let cell = child(dim, over, way, n);
        now = trail_below(dim, way, &cell, levels - 1, passed(now, &cell));
    }
    now
}

#[test]
fn a_tour_counts_all_cells_and_their_corners(rt: HostRuntime) {
    for (axes, levels, cells, corners) in ROWS {
        let dim = Dim::new(axes).expect(&rt, "a dimension");
        for way in [Way::Forward, Way::Inverted] {
            let tour = toured(dim, way, levels);
            let root = CellAt::root(dim, way);
            let trail = trail_below(dim, way, &root.place, levels, 0);
            let told = (tour.cells, tour.loads, tour.stores, tour.trail);
            assert!(rt;
                told == (cells, corners, corners, trail),
                "{axes} {levels} {way:?}"
            );
        }
    }
}
