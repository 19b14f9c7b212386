// The kinds of a cell's corners, by the corners of its parent in hand.
ghost use Rattle.std.specs.Prelude.{◌≡◌, ℕ, ℤ, ◌≤◌, List};
ghost use Rattle.pe_base.specs.declared.place.Place.{Place as APlace};
ghost use Rattle.pe_base.specs.Tree.Places.{IsCellPlace, IsDigits, child_at, parent_of};
ghost use Rattle.pe_base.specs.Acts.Effects.{VertexRecord};
ghost use Rattle.pe_stacks.specs.Corners.{IsFull};
ghost use Rattle.pe_stacks.specs.Sights.{corner_records};
ghost use Rattle.pe_adapt.specs.Ages.{AreAgesOf, GiveKinds};

use pe_base::{Digits, Dim};
use pe_stacks::Corners;
use pe_states::Ages;

/// The ages of a cell's corners.
pub fn ages_of<V>(dim: Dim, corners: &Corners<V>) -> Ages
    requires { IsFull dim corners.now }
    ensures { (numbers : V → List ℤ) → AreAgesOf dim (corner_records numbers corners.now) result }
{
    let mut ages = Ages::new(0, 0);
    for k in 0..dim.corners() {
        let vertex = corners.at(k);
        ages = ages.with(k, vertex.is_old(), vertex.is_new());
    }
    ages
}

/// The ages that give the kinds of the corners of the cell of a level at these digits, by the ages of its parent's corners.
pub fn corner_ages(dim: Dim, level: u8, digits: Digits, traversal: u64, parents: Ages) -> Ages
    requires digits { IsDigits dim digits }
    requires level { 1 ≤ level }
    ensures { (cell : APlace) (its : List VertexRecord) → IsCellPlace dim cell → cell.level ≡ level → cell ≡ child_at (parent_of cell) digits
        → AreAgesOf dim its parents → GiveKinds dim traversal cell its result }
{
    // From the call it is known that the dimension is 2 to 4.
    let _corners = dim.corners();
    if level == 1 {
        Ages::level_one(dim, digits, traversal)
    } else {
        parents.carried(dim, digits)
    }
}
