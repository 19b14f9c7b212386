ghost use Rattle.std.specs.Prelude.{◌≡◌, ℕ, ◌≤◌, ◌<◌, ◌^◌, slice_index};
ghost use Rattle.pe_base.specs.Tree.Dim.{IsDim};
ghost use Rattle.pe_base.specs.Tree.Places.{IsCellPlace, corner};
ghost use Rattle.pe_base.specs.Acts.Moments.{IsBelowRoot};

use pe_base::{Digits, Place};

/// A corner of a cell in a traversal.
#[derive(Clone, Copy, Debug, PartialEq, Eq)]
pub struct Spot {
    /// The traversal's number, from 1.
    pub traversal: u64,
    /// The stack that is the input stream: 8 or 9.
    pub input: u8,
    /// The stack that is the output stream: the other of the two.
    pub output: u8,
    /// The cell's digits in its parent.
    pub digits: Digits,
    /// The cell's place.
    pub cell: Place,
    /// The corner's number.
    pub corner: u8,
}

/// The place of a corner of a cell below the root.
pub fn corner_place(cell: &Place, k: u8) -> Place
    requires deep { 1 ≤ cell.now.level }
    requires level { cell.now.level ≤ 20 }
    requires pos { (axis : ℕ) → slice_index cell.now.pos axis < 3 ^ 20 }
    ensures place { (axes : ℕ) → IsDim axes → IsCellPlace axes cell.now → k < 2 ^ axes → result ≡ corner axes cell.now k }
    ensures below { (axes : ℕ) → IsCellPlace axes cell.now → IsBelowRoot result }
{
    let [x, y, z, w] = cell.pos;
    Place {
        level: cell.level,
        pos: [
            x + (k % 2) as u64,
            y + (k / 2 % 2) as u64,
            z + (k / 4 % 2) as u64,
            w + (k / 8 % 2) as u64,
        ],
    }
}
