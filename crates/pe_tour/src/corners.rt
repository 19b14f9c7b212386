// The corners of a cell, four by four: loaded in descending number, and stored in ascending number. Each call names its
// corners by a number that is known when the walk is compiled.
ghost use Rattle.std.specs.Prelude.{◌≡◌, ◌≤◌, ◌^◌, OnOk};
ghost use Rattle.pe_tour.specs.Sights.{loading, storing, amid_of};
ghost use Rattle.pe_tour.specs.Moves.{settings_of, MayTouch, Touches, TouchesOn, four_on, loads_of, stores_of, stores_from};

use crate::{CellAt, Tour};

// Loads four corners: of those that are left, the last ones.
#[inline(always)]
fn load_last_four<T: Tour>(
    tour: &mut T,
    at: &CellAt,
    k: u8,
    own: &mut T::Hand,
    above: &mut T::Hand,
    parent: &mut T::Record,
) -> Result<(), T::Stop>
    requires may { MayTouch T.walk at.now (loading (four_on k)) (loads_of T.walk at.now.place (four_on k)) (amid_of tour.old own.old above.old parent.old) }
    requires corners { four_on k ≤ 2 ^ (settings_of T.walk tour.old).dim }
    ensures goes { TouchesOn T.walk (loads_of T.walk at.now.place (four_on k)) (loads_of T.walk at.now.place k) (loading (four_on k)) (loading k) result
        (amid_of tour.old own.old above.old parent.old) (amid_of tour.new own.new above.new parent.new) }
    ensures may { OnOk result (MayTouch T.walk at.now (loading k) (loads_of T.walk at.now.place k) (amid_of tour.new own.new above.new parent.new)) }
    ensures corners { OnOk result (k ≤ 2 ^ (settings_of T.walk tour.new).dim) }
{
    tour.load_four(at, k, own, above, parent)
}

// Loads the first eight corners.
#[inline(always)]
fn load_eight<T: Tour>(
    tour: &mut T,
    at: &CellAt,
    own: &mut T::Hand,
    above: &mut T::Hand,
    parent: &mut T::Record,
) -> Result<(), T::Stop>
    requires may { MayTouch T.walk at.now (loading 8) (loads_of T.walk at.now.place 8) (amid_of tour.old own.old above.old parent.old) }
    requires corners { 8 ≤ 2 ^ (settings_of T.walk tour.old).dim }
    ensures goes { TouchesOn T.walk (loads_of T.walk at.now.place 8) (loads_of T.walk at.now.place 0) (loading 8) (loading 0) result
        (amid_of tour.old own.old above.old parent.old) (amid_of tour.new own.new above.new parent.new) }
{
    load_last_four(tour, at, 4, own, above, parent)?;
    load_last_four(tour, at, 0, own, above, parent)
}

// Loads the last eight of sixteen corners, as a call of its own: all sixteen in one place are too much code.
#[inline(never)]
fn load_last_eight<T: Tour>(
    tour: &mut T,
    at: &CellAt,
    own: &mut T::Hand,
    above: &mut T::Hand,
    parent: &mut T::Record,
) -> Result<(), T::Stop>
    requires may { MayTouch T.walk at.now (loading 16) (loads_of T.walk at.now.place 16) (amid_of tour.old own.old above.old parent.old) }
    requires corners { 16 ≤ 2 ^ (settings_of T.walk tour.old).dim }
    ensures goes { TouchesOn T.walk (loads_of T.walk at.now.place 16) (loads_of T.walk at.now.place 8) (loading 16) (loading 8) result
        (amid_of tour.old own.old above.old parent.old) (amid_of tour.new own.new above.new parent.new) }
    ensures may { OnOk result (MayTouch T.walk at.now (loading 8) (loads_of T.walk at.now.place 8) (amid_of tour.new own.new above.new parent.new)) }
    ensures corners { OnOk result (8 ≤ 2 ^ (settings_of T.walk tour.new).dim) }
{
    load_last_four(tour, at, 12, own, above, parent)?;
    load_last_four(tour, at, 8, own, above, parent)
}

// Loads sixteen corners.
#[inline(always)]
fn load_sixteen<T: Tour>(
    tour: &mut T,
    at: &CellAt,
    own: &mut T::Hand,
    above: &mut T::Hand,
    parent: &mut T::Record,
) -> Result<(), T::Stop>
    requires may { MayTouch T.walk at.now (loading 16) (loads_of T.walk at.now.place 16) (amid_of tour.old own.old above.old parent.old) }
    requires corners { 16 ≤ 2 ^ (settings_of T.walk tour.old).dim }
    ensures goes { TouchesOn T.walk (loads_of T.walk at.now.place 16) (loads_of T.walk at.now.place 0) (loading 16) (loading 0) result
        (amid_of tour.old own.old above.old parent.old) (amid_of tour.new own.new above.new parent.new) }
{
    load_last_eight(tour, at, own, above, parent)?;
    load_eight(tour, at, own, above, parent)
}

/// Loads all corners of a cell. On an error those that were loaded are still in hand.
#[inline(always)]
pub(crate) fn load_corners<const AXES: u8, T: Tour>(
    tour: &mut T,
    at: &CellAt,
    own: &mut T::Hand,
    above: &mut T::Hand,
    parent: &mut T::Record,
) -> Result<(), T::Stop>
    requires axes { (settings_of T.walk tour.old).dim ≡ AXES }
    requires may { MayTouch T.walk at.now (loading (2 ^ (settings_of T.walk tour.old).dim)) (loads_of T.walk at.now.place (2 ^ (settings_of T.walk tour.old).dim)) (amid_of tour.old own.old above.old parent.old) }
    ensures { Touches T.walk (loads_of T.walk at.now.place (2 ^ (settings_of T.walk tour.old).dim)) (loading (2 ^ (settings_of T.walk tour.old).dim)) (loading 0) result
        (amid_of tour.old own.old above.old parent.old) (amid_of tour.new own.new above.new parent.new) }
{
    match AXES {
        2 => load_last_four(tour, at, 0, own, above, parent),
        3 => load_eight(tour, at, own, above, parent),
        _ => load_sixteen(tour, at, own, above, parent),
    }
}

// Stores four corners: of those that are left, the first ones.
#[inline(always)]
fn store_first_four<T: Tour>(
    tour: &mut T,
    at: &CellAt,
    k: u8,
    own: &mut T::Hand,
    above: &mut T::Hand,
    parent: &mut T::Record,
) -> Result<(), T::Stop>
    requires may { MayTouch T.walk at.now (storing k) (stores_from T.walk at.now.place k tour.old) (amid_of tour.old own.old above.old parent.old) }
    requires corners { four_on k ≤ 2 ^ (settings_of T.walk tour.old).dim }
    ensures goes { TouchesOn T.walk (stores_from T.walk at.now.place k tour.old) (stores_from T.walk at.now.place (four_on k) tour.new) (storing k) (storing (four_on k)) result
        (amid_of tour.old own.old above.old parent.old) (amid_of tour.new own.new above.new parent.new) }
    ensures may { OnOk result (MayTouch T.walk at.now (storing (four_on k)) (stores_from T.walk at.now.place (four_on k) tour.new) (amid_of tour.new own.new above.new parent.new)) }
    ensures same { OnOk result ((settings_of T.walk tour.new).dim ≡ (settings_of T.walk tour.old).dim) }
{
    tour.store_four(at, k, own, above, parent)
}

// Stores the first eight corners.
#[inline(always)]
fn store_eight<T: Tour>(
    tour: &mut T,
    at: &CellAt,
    own: &mut T::Hand,
    above: &mut T::Hand,
    parent: &mut T::Record,
) -> Result<(), T::Stop>
    requires may { MayTouch T.walk at.now (storing 0) (stores_from T.walk at.now.place 0 tour.old) (amid_of tour.old own.old above.old parent.old) }
    requires corners { 8 ≤ 2 ^ (settings_of T.walk tour.old).dim }
    ensures goes { TouchesOn T.walk (stores_from T.walk at.now.place 0 tour.old) (stores_from T.walk at.now.place 8 tour.new) (storing 0) (storing 8) result
        (amid_of tour.old own.old above.old parent.old) (amid_of tour.new own.new above.new parent.new) }
    ensures may { OnOk result (MayTouch T.walk at.now (storing 8) (stores_from T.walk at.now.place 8 tour.new) (amid_of tour.new own.new above.new parent.new)) }
    ensures same { OnOk result ((settings_of T.walk tour.new).dim ≡ (settings_of T.walk tour.old).dim) }
{
    store_first_four(tour, at, 0, own, above, parent)?;
    store_first_four(tour, at, 4, own, above, parent)
}

// Stores sixteen corners.
#[inline(always)]
fn store_sixteen<T: Tour>(
    tour: &mut T,
    at: &CellAt,
    own: &mut T::Hand,
    above: &mut T::Hand,
    parent: &mut T::Record,
) -> Result<(), T::Stop>
    requires may { MayTouch T.walk at.now (storing 0) (stores_from T.walk at.now.place 0 tour.old) (amid_of tour.old own.old above.old parent.old) }
    requires corners { 16 ≤ 2 ^ (settings_of T.walk tour.old).dim }
    ensures goes { TouchesOn T.walk (stores_from T.walk at.now.place 0 tour.old) (stores_from T.walk at.now.place 16 tour.new) (storing 0) (storing 16) result
        (amid_of tour.old own.old above.old parent.old) (amid_of tour.new own.new above.new parent.new) }
{
    store_eight(tour, at, own, above, parent)?;
    store_first_four(tour, at, 8, own, above, parent)?;
    store_first_four(tour, at, 12, own, above, parent)
}

/// Stores all corners of a cell. On an error those that were not stored are still in hand.
#[inline]
pub(crate) fn store_corners<const AXES: u8, T: Tour>(
    tour: &mut T,
    at: &CellAt,
    own: &mut T::Hand,
    above: &mut T::Hand,
    parent: &mut T::Record,
) -> Result<(), T::Stop>
    requires axes { (settings_of T.walk tour.old).dim ≡ AXES }
    requires may { MayTouch T.walk at.now (storing 0) (stores_of T.walk at.now.place 0 (2 ^ (settings_of T.walk tour.old).dim)) (amid_of tour.old own.old above.old parent.old) }
    ensures { Touches T.walk (stores_of T.walk at.now.place 0 (2 ^ (settings_of T.walk tour.old).dim)) (storing 0) (storing (2 ^ (settings_of T.walk tour.old).dim)) result
        (amid_of tour.old own.old above.old parent.old) (amid_of tour.new own.new above.new parent.new) }
{
    match AXES {
        2 => store_first_four(tour, at, 0, own, above, parent),
        3 => store_eight(tour, at, own, above, parent),
        _ => store_sixteen(tour, at, own, above, parent),
    }
}
