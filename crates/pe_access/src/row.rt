ghost use Rattle.std.specs.Prelude.{◌≡◌, All};

use crate::numbers::Numbers;

/// The numbers of a cell's corners, in two parts: along all axes but the last, and along the last one.
///
/// The first part is that of the whole row of three children that the cell is in, since they differ on the last axis alone.
#[derive(Clone, Copy, Debug, PartialEq, Eq)]
pub struct Row {
    /// At each corner, without the bit of the fourth axis, the greatest number by which a vertex comes, along all axes but the last.
    pub coming: [u32; 8],
    /// At each corner, without the bit of the fourth axis, the greatest number by which a vertex goes, along all axes but the last.
    pub going: [u32; 8],
    /// The face along the last axis, for each two corners that differ along axis 0.
    pub ends: [Numbers; 8],
}

impl Row {
    /// Numbers of no cell.
    pub fn empty() -> Row
        ensures coming { All (λ number. number ≡ 0) result.coming }
        ensures going { All (λ number. number ≡ 0) result.going }
        ensures ends { All (λ face. face ≡ (record { coming = 0; going = 0 })) result.ends }
    {
        let none = Numbers {
            coming: 0,
            going: 0,
        };
        Row {
            coming: [0; 8],
            going: [0; 8],
            ends: [none; 8],
        }
    }
}
