//! Laws of the definitions. The functions do nothing.
ghost use Rattle.std.specs.Prelude.{◌≡◌, ℕ, ◌-◌, ◌<◌, ◌≤◌, slice_index};
ghost use Rattle.pe_base.specs.Limits.{most_levels};
ghost use Rattle.pe_base.specs.declared.place.Place.{Place as APlace};
ghost use Rattle.pe_base.specs.declared.place.Digits.{Digits as SomeDigits};
ghost use Rattle.pe_base.specs.declared.way.Way.{Way as AWay};
ghost use Rattle.pe_base.specs.Tree.Places.{IsCellPlace, IsDigits, IsInside, child_at};
ghost use Rattle.pe_access.specs.declared.state.CellState.{CellState as State};
ghost use Rattle.pe_access.specs.Rows.{front_of};
ghost use Rattle.pe_access.specs.States.{StandsFor};
ghost use Rattle.pe_base.specs.Steps.Routes.{CrossesEachAxis, HasCells, StepsAcrossFaces};

/// On a grid of up to four axes, the cells around an inside vertex are as many as the corners of a cell, each shares
/// a face with the next, and an axis is crossed twice as often for each axis that is slower.
pub fn order_around()
    ensures count { (axes : ℕ) (way : AWay) (vertex : APlace) → axes ≤ 4 → IsInside axes vertex → HasCells axes way vertex }
    ensures faces { (axes : ℕ) (way : AWay) (vertex : APlace) → axes ≤ 4 → IsInside axes vertex → StepsAcrossFaces axes way vertex }
    ensures crossings { (axes : ℕ) (way : AWay) (vertex : APlace) → axes ≤ 4 → IsInside axes vertex → CrossesEachAxis axes way vertex }
{}

/// The three children of a row, whose digits differ on the last axis alone, have one row of numbers.
pub fn rows_of_children()
    ensures { (axes : ℕ) (way : AWay) (cell : APlace) (digits digits' : SomeDigits) (state state' : State) → IsCellPlace axes cell → cell.level < most_levels
        → IsDigits axes digits → IsDigits axes digits' → ((i : ℕ) → i < axes - 1 → slice_index digits.k i ≡ slice_index digits'.k i)
        → StandsFor axes way (child_at cell digits) state → StandsFor axes way (child_at cell digits') state' → front_of state ≡ front_of state' }
{}
