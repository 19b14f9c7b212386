//! Ages of all corners, along one axis at a time.
//!
//! Along an axis the corners stand in runs of a width, near side and far side in turn: a run of 1 along axis 0, of 2 along
//! axis 1, of 4 and of 8. The bits of `near` are those of the near side.
ghost use Rattle.std.specs.Prelude.{◌<◌, IsTrue};
ghost use Rattle.pe_states.specs.Sides.{IsSpread, IsTrimmed, are_near};

/// Ages at the two sides of a child along one axis: at the parent's near or far side those of that side, else those of
/// both together.
pub(crate) fn spread(ages: u32, width: u8, near: u32, digit: u8) -> u32
    requires sides { IsTrue (are_near width near) }
    requires digit { digit < 3 }
    ensures { IsSpread width digit ages result }
{
    let near_ages = ages & near;
    let far_ages = ages >> width & near;
    let both = near_ages | far_ages;
    let low = if digit == 0 { near_ages } else { both };
    let high = if digit == 2 { far_ages } else { both };
    low | high << width
}

/// Ages without those on the root's boundary along one axis: the near side of the first cells, the far side of the last.
pub(crate) fn trim(ages: u32, width: u8, near: u32, digit: u8) -> u32
    requires sides { IsTrue (are_near width near) }
    requires digit { digit < 3 }
    ensures { IsTrimmed width digit ages result }
{
    if digit == 0 {
        ages & !near
    } else if digit == 2 {
        ages & near
    } else {
        ages
    }
}
