ghost use Rattle.std.specs.Prelude.{◌≡◌, ◌^◌, All, length};
ghost use Rattle.std.specs.Iterator.{YieldsFirst, item_count};
ghost use Rattle.pe_base.specs.Tree.Dim.{IsDim};
ghost use Rattle.pe_base.specs.Tree.Places.{IsDigits, bits};
ghost use Rattle.pe_base.specs.Tree.Curve.{child_digits};

use crate::digits::{along_row, digits_at};
use pe_base::{Digits, Dim, Way};
use std::marker::Model;

/// The digits of the children of a cell, one after another, in the order of a way along the curve.
///
/// It gives `3^d` digits, and `None` from then on. It knows the cell's flips and not its position.
/// Contracts see it as the list of the digits that are still to come.
#[derive(Drop)]
pub struct Cursor {
    dim: Dim,
    way: Way,
    flips: u8,
    left: u8,
    first: Digits,
}

impl Model for Cursor {
    ghost use Rattle.std.specs.Prelude.{◌≡◌, List, drop, ◌<◌, ◌≤◌, ◌^◌, ◌+◌, ◌-◌, ◌*◌, ◌/◌, ◌%◌, slice_get, Some};
    ghost use Rattle.pe_base.specs.declared.place.Digits.{Digits};
    ghost use Rattle.pe_base.specs.Tree.Places.{IsDigits, bits};
    ghost use Rattle.pe_base.specs.Tree.Curve.{child_digits};

    ghost Value = { List Digits };

    ghost view = { λ c. drop (3 ^ c.dim - c.left) (child_digits c.dim c.way (bits c.dim c.flips)) };

    // Within a row, the digits of its first child are at hand.
    ghost invariant = { λ c. (c.left ≤ 3 ^ c.dim) × IsDigits c.dim c.first
        × (0 < c.left % 3 → slice_get (child_digits c.dim c.way (bits c.dim c.flips)) (3 ^ c.dim - 3 * (c.left / 3 + 1)) ≡ Some c.first) };
}

impl Cursor {
    /// All children of a cell in the order of a way.
    ///
    /// Bit i of `flips` is the flip of axis i: the parity of the sum of the cell's position over the
    /// other axes. Bits from the dimension on are not read.
    pub fn new(dim: Dim, way: Way, flips: u8) -> Cursor
        ensures digits { result ≡ child_digits dim way (bits dim flips) }
        ensures count { length result ≡ 3 ^ dim }
        ensures range { IsDim dim }
        ensures places { All (IsDigits dim) result }
    {
        Cursor {
            dim,
            way,
            flips,
            left: dim.parts(),
            first: Digits { k: [0; 4] },
        }
    }
}

impl Iterator for Cursor {
    type Item = Digits;

    ghost next_gives = { YieldsFirst (λ cursor. cursor) };

    ghost remaining = { item_count (λ cursor. cursor) };

    /// The digits of the next child, or `None` where all have come.
    fn next(&mut self) -> Option<Digits> {
        if self.left == 0 {
            return None;
        }
        let n = self.dim.parts() - self.left;
        self.left -= 1;
        let behind = self.left % 3;
        self.first = if behind == 2 {
            digits_at(self.dim, self.way, self.flips, n)
        } else {
            self.first
        };
        Some(along_row(self.dim, self.first, 2 - behind))
    }
}
