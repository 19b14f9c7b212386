//! The law of the order of places. The function has it for its contract, and no body.
ghost use Rattle.std.specs.Prelude.{◌≡◌};
ghost use Rattle.pe_base.specs.declared.place.Place.{Place as APlace};
ghost use Rattle.pe_base.specs.Tree.Order.{place_cmp};

use crate::place::Place;

/// Places are ordered by level, and then by position with axis 0 leading.
pub fn order_of_places()
    ensures { (a b : APlace) → ⟦<Place as Ord>⟧.cmp a b ≡ place_cmp a b }
{}
