ghost use Rattle.std.specs.Prelude.{◌≡◌, ℕ};
ghost use Rattle.pe_base.specs.Tree.Places.{root};
ghost use Rattle.pe_tour.specs.Cells.{IsOver};

use pe_access::{CellState, Row};
use pe_base::{Dim, Kind, Place, Way};
use pe_curve::Step;
use pe_states::Ages;

/// What a walk knows of a cell, beside its records.
#[derive(Clone, Copy, Debug, PartialEq, Eq)]
pub struct CellAt {
    /// Its place.
    pub place: Place,
    /// Where it lies in the cell above it, and how each axis is walked there.
    pub step: Step,
    /// Its state, which tells the routes of its corners.
    pub state: CellState,
    /// The numbers of its corners' routes, of which those of its row are a part.
    pub row: Row,
    /// The ages that give the kinds of its corners.
    pub ages: Ages,
    /// Its kind, by the corners of the cell above it.
    pub kind: Kind,
}

impl CellAt {
    /// The root, whose children a traversal walks. Of it only the place and the state are asked for.
    pub fn root(dim: Dim, way: Way) -> CellAt
        ensures over { (traversal : ℕ) → IsOver (record { dim = dim; way = way; traversal = traversal }) result }
        ensures place { result.place ≡ root }
    {
        CellAt {
            place: Place {
                level: 0,
                pos: [0; 4],
            },
            step: Step::first(dim, way, 0),
            state: CellState::root(dim, way),
            row: Row::empty(),
            ages: Ages::new(0, 0),
            kind: Kind::Kept,
        }
    }
}
