// The walk of a cell with all below it.
ghost use Rattle.std.specs.Prelude.{◌≡◌, ℕ, suc, ◌+◌, ◌<◌, ◌≤◌, ◌^◌, false};
ghost use Rattle.pe_base.specs.Walk.Steps.{walk, visits, visits_open, walks_below, walks_children};
ghost use Rattle.pe_tour.specs.Cells.{IsOver};
ghost use Rattle.pe_tour.specs.Sights.{Between, loading, storing, between_of, amid_of, open_of};
ghost use Rattle.pe_tour.specs.Moves.{plan_of, settings_of, MayWalk, MayTouch, MayMove, Walks, Touches, Moves};

use crate::child::{advance, first_child};
use crate::corners::{load_corners, store_corners};
use crate::settings::parts_in;
use crate::{CellAt, Tour};
use pe_base::Kind;
use pe_states::Ages;

/// Walks a cell with all below it, of so many levels: it is counted, its corners are loaded, it is visited, and its corners
/// are stored. Whatever the answer, nothing is in hand afterwards.
#[cycle(cells)]
pub(crate) fn walk_cell<const AXES: u8, T: Tour>(
    tour: &mut T,
    at: &CellAt,
    levels: u8,
    own: &mut T::Hand,
    above: &mut T::Hand,
    parent: &mut T::Record,
) -> Result<(), T::Stop>
    requires axes { (settings_of T.walk tour.old).dim ≡ AXES }
    requires levels { at.now.place.level + levels ≤ 20 }
    requires empty { T.walk.IsEmpty (plan_of T.walk tour.old) own.old }
    requires may { MayWalk T.walk at.now (λ plan. walk (T.walk.steps plan) (suc levels) at.now.place) (between_of tour.old above.old parent.old) }
    ensures walks { Walks T.walk (λ plan. walk (T.walk.steps plan) (suc levels) at.now.place) result
        (between_of tour.old above.old parent.old) (between_of tour.new above.new parent.new) }
    ensures empty { T.walk.IsEmpty (plan_of T.walk tour.new) own.new }
{
    tour.count(at, own, above, parent)?;
    match visit::<AXES, T>(tour, at, levels, own, above, parent) {
        Ok(()) => Ok(()),
        Err(stop) => {
            tour.give_up(own);
            Err(stop)
        }
    }
}

// Visits a cell that is counted. On an error corners of it may be in hand.
#[cycle(cells)]
fn visit<const AXES: u8, T: Tour>(
    tour: &mut T,
    at: &CellAt,
    levels: u8,
    own: &mut T::Hand,
    above: &mut T::Hand,
    parent: &mut T::Record,
) -> Result<(), T::Stop>
    requires axes { (settings_of T.walk tour.old).dim ≡ AXES }
    requires levels { at.now.place.level + levels ≤ 20 }
    requires may { MayTouch T.walk at.now (loading (2 ^ (settings_of T.walk tour.old).dim)) (λ plan. visits (T.walk.steps plan) (walk (T.walk.steps plan) levels) at.now.place) (amid_of tour.old own.old above.old parent.old) }
    ensures { Touches T.walk (λ plan. visits (T.walk.steps plan) (walk (T.walk.steps plan) levels) at.now.place)
        (loading (2 ^ (settings_of T.walk tour.old).dim)) (storing (2 ^ (settings_of T.walk tour.old).dim)) result
        (amid_of tour.old own.old above.old parent.old) (amid_of tour.new own.new above.new parent.new) }
{
    load_corners::<AXES, T>(tour, at, own, above, parent)?;
    let mut its = match at.kind {
        Kind::Born => tour.make(at, own, above, parent)?,
        _ => tour.fetch(at, own, above, parent),
    };
    match visit_open::<AXES, T>(tour, at, levels, own, &mut its, above, parent) {
        Ok(()) => {}
        Err(stop) => {
            tour.forget(its);
            return Err(stop);
        }
    }
    tour.put(at, its, own, above, parent)?;
    store_corners::<AXES, T>(tour, at, own, above, parent)
}

// Visits a cell whose record is in hand: it is entered, its children are walked, and it is left.
#[cycle(cells)]
fn visit_open<const AXES: u8, T: Tour>(
    tour: &mut T,
    at: &CellAt,
    levels: u8,
    own: &mut T::Hand,
    its: &mut T::Record,
    above: &mut T::Hand,
    parent: &mut T::Record,
) -> Result<(), T::Stop>
    requires axes { (settings_of T.walk tour.old).dim ≡ AXES }
    requires levels { at.now.place.level + levels ≤ 20 }
    requires may { MayMove T.walk at.now (λ plan. visits_open (T.walk.steps plan) (walk (T.walk.steps plan) levels) at.now.place) (open_of tour.old own.old its.old above.old parent.old) }
    ensures { Moves T.walk (λ plan. visits_open (T.walk.steps plan) (walk (T.walk.steps plan) levels) at.now.place) result
        (open_of tour.old own.old its.old above.old parent.old) (open_of tour.new own.new its.new above.new parent.new) }
{
    tour.enter(at, own, its, above, parent)?;
    walk_below::<AXES, T>(tour, at, levels, own, its, above, parent)?;
    tour.leave(at, own, its, above, parent)
}

// Walks the children of a cell that is entered, if there are any.
#[cycle(cells)]
fn walk_below<const AXES: u8, T: Tour>(
    tour: &mut T,
    at: &CellAt,
    levels: u8,
    own: &mut T::Hand,
    its: &mut T::Record,
    above: &T::Hand,
    parent: &T::Record,
) -> Result<(), T::Stop>
    requires axes { (settings_of T.walk tour.old).dim ≡ AXES }
    requires levels { at.now.place.level + levels ≤ 20 }
    requires may { MayMove T.walk at.now (λ plan. walks_below (T.walk.steps plan) (walk (T.walk.steps plan) levels) at.now.place) (open_of tour.old own.old its.old above.now parent.now) }
    ensures { Moves T.walk (λ plan. walks_below (T.walk.steps plan) (walk (T.walk.steps plan) levels) at.now.place) result
        (open_of tour.old own.old its.old above.now parent.now) (open_of tour.new own.new its.new above.now parent.now) }
{
    match tour.below(own, its) {
        Some(ages) => walk_children::<AXES, T>(tour, at, ages, levels, own, its),
        None => Ok(()),
    }
}

/// Walks the children of a cell, each with all below it. Their corners are loaded into a hand of their own.
#[cycle(cells)]
pub(crate) fn walk_children<const AXES: u8, T: Tour>(
    tour: &mut T,
    over: &CellAt,
    ages: Ages,
    levels: u8,
    above: &mut T::Hand,
    parent: &mut T::Record,
) -> Result<(), T::Stop>
    requires axes { (settings_of T.walk tour.old).dim ≡ AXES }
    requires levels { over.now.place.level + levels ≤ 20 }
    requires some { 0 < levels }
    requires over { IsOver (settings_of T.walk tour.old) over.now }
    requires aged { T.walk.AreAges (between_of tour.old above.old parent.old) ages }
    requires ready { T.walk.Ready false (between_of tour.old above.old parent.old) (between_of tour.old above.old parent.old) }
    requires fits { T.walk.courses.Fits (walks_children (T.walk.steps (plan_of T.walk tour.old)) (walk (T.walk.steps (plan_of T.walk tour.old)) levels) over.now.place (T.walk.rested (between_of tour.old above.old parent.old))) }
    ensures { Walks T.walk (λ plan. walks_children (T.walk.steps plan) (walk (T.walk.steps plan) levels) over.now.place) result
        (between_of tour.old above.old parent.old) (between_of tour.new above.new parent.new) }
{
    let settings = tour.settings();
    let mut own = tour.empty();
    let mut child = first_child::<AXES>(&settings, over, ages);
    let parts = parts_in::<AXES>(&settings);
    for n in 0..parts {
        match walk_cell::<AXES, T>(tour, &child.cell, levels - 1, &mut own, above, parent) {
            Ok(()) => {}
            Err(stop) => {
                tour.close(own);
                return Err(stop);
            }
        }
        if n + 1 < parts {
            advance::<AXES>(&settings, over, ages, &mut child);
        }
    }
    tour.close(own);
    Ok(())
}
