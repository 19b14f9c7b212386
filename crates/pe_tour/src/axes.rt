// The walk of a cell and of its children: there is one for each number of axes, which knows it when it is compiled.
ghost use Rattle.std.specs.Prelude.{◌≡◌, suc, ◌+◌, ◌<◌, ◌≤◌, false};
ghost use Rattle.pe_base.specs.Walk.Steps.{walk, walks_children};
ghost use Rattle.pe_tour.specs.Cells.{IsOver};
ghost use Rattle.pe_tour.specs.Sights.{between_of};
ghost use Rattle.pe_tour.specs.Moves.{plan_of, settings_of, MayWalk, Walks};

use crate::{CellAt, Tour, recursion};
use pe_states::Ages;

/// Walks a cell with all below it, of so many levels: it is counted, its corners are loaded, it is visited, and its corners
/// are stored. Whatever the answer, nothing is in hand afterwards.
pub fn walk_cell<T: Tour>(
    tour: &mut T,
    at: &CellAt,
    levels: u8,
    own: &mut T::Hand,
    above: &mut T::Hand,
    parent: &mut T::Record,
) -> Result<(), T::Stop>
    requires levels { at.now.place.level + levels ≤ 20 }
    requires empty { T.walk.IsEmpty (plan_of T.walk tour.old) own.old }
    requires may { MayWalk T.walk at.now (λ plan. walk (T.walk.steps plan) (suc levels) at.now.place) (between_of tour.old above.old parent.old) }
    ensures walks { Walks T.walk (λ plan. walk (T.walk.steps plan) (suc levels) at.now.place) result
        (between_of tour.old above.old parent.old) (between_of tour.new above.new parent.new) }
    ensures empty { T.walk.IsEmpty (plan_of T.walk tour.new) own.new }
{
    match tour.settings().dim.axes() {
        2 => recursion::walk_cell::<2, T>(tour, at, levels, own, above, parent),
        3 => recursion::walk_cell::<3, T>(tour, at, levels, own, above, parent),
        _ => recursion::walk_cell::<4, T>(tour, at, levels, own, above, parent),
    }
}

/// Walks the children of a cell whose corners have these ages, each with all below it. Their corners are loaded into a hand
/// of their own, of which nothing is left.
pub fn walk_children<T: Tour>(
    tour: &mut T,
    over: &CellAt,
    ages: Ages,
    levels: u8,
    above: &mut T::Hand,
    parent: &mut T::Record,
) -> Result<(), T::Stop>
    requires levels { over.now.place.level + levels ≤ 20 }
    requires some { 0 < levels }
    requires over { IsOver (settings_of T.walk tour.old) over.now }
    requires aged { T.walk.AreAges (between_of tour.old above.old parent.old) ages }
    requires ready { T.walk.Ready false (between_of tour.old above.old parent.old) (between_of tour.old above.old parent.old) }
    requires fits { T.walk.courses.Fits (walks_children (T.walk.steps (plan_of T.walk tour.old)) (walk (T.walk.steps (plan_of T.walk tour.old)) levels) over.now.place (T.walk.rested (between_of tour.old above.old parent.old))) }
    ensures { Walks T.walk (λ plan. walks_children (T.walk.steps plan) (walk (T.walk.steps plan) levels) over.now.place) result
        (between_of tour.old above.old parent.old) (between_of tour.new above.new parent.new) }
{
    match tour.settings().dim.axes() {
        2 => recursion::walk_children::<2, T>(tour, over, ages, levels, above, parent),
        3 => recursion::walk_children::<3, T>(tour, over, ages, levels, above, parent),
        _ => recursion::walk_children::<4, T>(tour, over, ages, levels, above, parent),
    }
}
