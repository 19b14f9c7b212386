ghost use Rattle.std.specs.Prelude.{◌≡◌, ℕ, ◌+◌, ◌<◌, ◌≤◌, ◌^◌, ◌%◌, slice_get, slice_index, Some};
ghost use Rattle.pe_base.specs.Limits.{most_levels};
ghost use Rattle.pe_base.specs.Tree.Places.{IsCellPlace, bits, child_at};
ghost use Rattle.pe_base.specs.Tree.Curve.{children, flips};

use crate::digits::digits_at;
use pe_base::{Digits, Dim, Place, Way};

/// The n-th child of a cell in the order of a way along the curve.
///
/// `n` counts from 0 to `3^d - 1`, and the cell's level is below `limits::MOST_LEVELS`, so that its children have a level.
/// The two ways give the same children in reversed orders.
pub fn child(dim: Dim, parent: &Place, way: Way, n: u8) -> Place
    requires place { IsCellPlace dim parent.now }
    requires level { parent.now.level < most_levels }
    requires number { n < 3 ^ dim }
    ensures child { slice_get (children dim way parent.now) n ≡ Some result }
    ensures place { IsCellPlace dim result }
{
    child_at(parent, digits_at(dim, way, flips_at(parent), n))
}

/// The child of a cell that lies at these digits.
///
/// The cell's level is below `limits::MOST_LEVELS`, and each number of its position below `3^MOST_LEVELS`.
pub fn child_at(parent: &Place, digits: Digits) -> Place
    requires level { parent.now.level < most_levels }
    requires pos { (axis : ℕ) → slice_index parent.now.pos axis < 3 ^ most_levels }
    requires digits { (axis : ℕ) → slice_index digits.k axis < 3 }
    ensures { result ≡ child_at parent.now digits }
{
    let [x, y, z, w] = parent.pos;
    let [i, j, k, l] = digits.k;
    Place {
        level: parent.level + 1,
        pos: [
            3 * x + i as u64,
            3 * y + j as u64,
            3 * z + k as u64,
            3 * w + l as u64,
        ],
    }
}

// The flips of a cell: bit i is the parity of the sum of its position over the axes other than i.
fn flips_at(cell: &Place) -> u8
    ensures { (axes : ℕ) → axes ≤ 4 → bits axes result ≡ flips axes cell.now.pos }
{
    let [x, y, z, w] = cell.pos;
    parity(y, z, w) + 2 * parity(x, z, w) + 4 * parity(x, y, w) + 8 * parity(x, y, z)
}

// The parity of the sum of three numbers.
fn parity(a: u64, b: u64, c: u64) -> u8
    ensures { result ≡ (a + b + c) % 2 }
{
    ((a % 2 + b % 2 + c % 2) % 2) as u8
}
