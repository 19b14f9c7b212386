ghost use Rattle.std.specs.Prelude.{◌≡◌, ◌^◌, IsSome, IfSome, ◌↔◌};
ghost use Rattle.pe_base.specs.Tree.Dim.{IsDim};

use std::marker::Model;

/// The number of axes of a grid: 2, 3 or 4.
///
/// Contracts see it as that number.
#[derive(Clone, Copy, Debug, PartialEq, Eq)]
pub struct Dim {
    axes: u8,
}

impl Model for Dim {
    ghost use Rattle.std.specs.Prelude.{ℕ};
    ghost use Rattle.pe_base.specs.Tree.Dim.{IsDim};

    ghost Value = { ℕ };

    ghost view = { λ dim. dim.axes };

    ghost invariant = { λ dim. IsDim dim.axes };

    ghost inverse = { λ n. record { axes = n } };
}

impl Dim {
    /// The dimension with `n` axes, or `None` where `n` is outside 2 to 4.
    pub fn new(n: u8) -> Option<Dim>
        ensures exists { IsSome result ↔ IsDim n }
        ensures value { IfSome result (λ dim. dim ≡ n) }
    {
        if 2 <= n && n <= 4 {
            Some(Dim { axes: n })
        } else {
            None
        }
    }

    /// The number of axes, d: 2 to 4.
    pub fn axes(self) -> u8
        ensures value { result ≡ self }
        ensures range { IsDim result }
    {
        self.axes
    }

    /// The number of corners of a cell, and of cells around a vertex: `2^d`, at most 16.
    pub fn corners(self) -> u8
        ensures value { result ≡ 2 ^ self }
        ensures range { IsDim self }
    {
        match self.axes {
            2 => 4,
            3 => 8,
            _ => 16,
        }
    }

    /// The number of children of a refined cell: `3^d`, at most 81.
    pub fn parts(self) -> u8
        ensures value { result ≡ 3 ^ self }
        ensures range { IsDim self }
    {
        match self.axes {
            2 => 9,
            3 => 27,
            _ => 81,
        }
    }
}
