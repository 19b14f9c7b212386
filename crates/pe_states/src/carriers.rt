ghost use Rattle.std.specs.Prelude.{◌≡◌, ◌<◌, ◌^◌};
ghost use Rattle.pe_base.specs.Tree.Places.{IsDigits};
ghost use Rattle.pe_states.specs.Ages.{has_bit, some_carrier, is_first_old, is_first_new};

use crate::Ages;
use pe_base::{Digits, Dim};

/// Whether some carrier of a corner is old, and whether some is new.
///
/// The corner is that of the child at these digits. Bit k of `olds` says that the parent's corner k is old, bit k of `news`
/// that it is new.
pub fn carrier(dim: Dim, digits: Digits, corner: u8, olds: u16, news: u16) -> (bool, bool)
    requires corner { corner < 2 ^ dim }
    requires digits { IsDigits dim digits }
    ensures { result ≡ (some_carrier dim digits corner (has_bit olds), some_carrier dim digits corner (has_bit news)) }
{
    // From the call it is known that a cell has no more than 16 corners.
    let _axes = dim.axes();
    Ages::new(olds, news).carried(dim, digits).at(corner)
}

/// Whether a corner of the cell of level 1 at these digits is stored before this traversal, and whether it is stored after.
pub fn level_one(dim: Dim, digits: Digits, corner: u8, traversal: u64) -> (bool, bool)
    requires corner { corner < 2 ^ dim }
    requires digits { IsDigits dim digits }
    ensures { result ≡ (is_first_old dim digits traversal corner, is_first_new dim digits corner) }
{
    // From the call it is known that a cell has no more than 16 corners.
    let _axes = dim.axes();
    Ages::level_one(dim, digits, traversal).at(corner)
}
