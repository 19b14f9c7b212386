ghost use Rattle.std.specs.Prelude.{◌≡◌, ℕ, ◌%◌, ◌<◌, ◌≤◌, ◌==◌, if◌then◌else◌};
ghost use Rattle.pe_base.specs.Limits.{most_levels};
ghost use Rattle.pe_access.specs.Extents.{Extent, bit_of, child_extent};
ghost use Rattle.pe_access.specs.Numbers.{axis_of, root_axis};

/// A face of a cell, in two numbers.
///
/// Each is `8 * level + stack`, for the level on which the face first appears and the stack of the vertices that cross
/// it, or 0 where the neighbour across the face is not of that side of the walk.
#[derive(Clone, Copy, Debug, PartialEq, Eq)]
pub struct Numbers {
    /// Where the neighbour comes before the cell: by this face vertices come.
    pub coming: u32,
    /// Where the neighbour comes after the cell: by this face vertices go.
    pub going: u32,
}

/// What a cell is along one axis: the parity of its position, and its two faces normal to the axis.
#[derive(Clone, Copy, Debug, PartialEq, Eq)]
pub struct Axis {
    /// Whether the position is odd.
    pub odd: bool,
    /// The face at the near end, where the coordinate is the position.
    pub near: Numbers,
    /// The face at the far end, one further.
    pub far: Numbers,
}

impl Axis {
    /// The root along any axis.
    pub(crate) fn root() -> Axis
        ensures { result ≡ root_axis }
    {
        let outside = Numbers {
            coming: 0,
            going: 0,
        };
        Axis {
            odd: false,
            near: outside,
            far: outside,
        }
    }

    /// The child with digit `k` on this axis. An odd number of turns walks the axis backwards.
    #[inline(always)]
    pub(crate) fn child(self, axis: u8, level: u8, turns: u8, k: u8) -> Axis
        requires axis { axis < 4 }
        requires level { 0 < level }
        requires few { level ≤ most_levels }
        requires digit { k < 3 }
        ensures { (extent : Extent) → self ≡ axis_of axis extent → result ≡ axis_of axis (child_extent level turns k extent) }
    {
        self.walked(axis, level, turns % 2 == 0, k)
    }

    /// The child with digit `k` on this axis, which is walked upwards or downwards there.
    #[inline(always)]
    pub(crate) fn walked(self, axis: u8, level: u8, up: bool, k: u8) -> Axis
        requires axis { axis < 4 }
        requires level { 0 < level }
        requires few { level ≤ most_levels }
        requires digit { k < 3 }
        ensures { (extent : Extent) (turns : ℕ) → self ≡ axis_of axis extent → up ≡ (turns % 2 == 0) → result ≡ axis_of axis (child_extent level turns k extent) }
    {
        let odd = (bit(self.odd) + k) % 2 == 1;
        let plane = 8 * u32::from(level) + 2 * u32::from(axis);
        Axis {
            odd,
            near: inner_or(k == 0, self.near, plane + u32::from(bit(odd)), up),
            far: inner_or(k == 2, self.far, plane + u32::from(bit(!odd)), !up),
        }
    }

    /// The face at a side.
    pub(crate) fn at(&self, side: u8) -> Numbers
        ensures { result ≡ (if side == 0 then self.now.near else self.now.far) }
    {
        if side == 0 { self.near } else { self.far }
    }
}

// The parent's face, or a new face of this number towards an earlier or a later cell.
#[inline(always)]
fn inner_or(outer: bool, parent: Numbers, number: u32, earlier: bool) -> Numbers
    ensures { result ≡ (if outer then parent else (if earlier
        then (record { coming = number; going = 0 }) else (record { coming = 0; going = number }))) }
{
    if outer {
        parent
    } else if earlier {
        Numbers {
            coming: number,
            going: 0,
        }
    } else {
        Numbers {
            coming: 0,
            going: number,
        }
    }
}

/// The parity as a number.
pub(crate) fn bit(odd: bool) -> u8
    ensures value { result ≡ bit_of odd }
    ensures small { result < 2 }
{
    if odd { 1 } else { 0 }
}
