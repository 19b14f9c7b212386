//! Worked rows of ages. A function without a body computes the definitions that its contract names.
ghost use Rattle.std.specs.Prelude.{◌≡◌, [], ◌∷◌, map, true, false};
ghost use Rattle.pe_base.specs.Tree.Places.{at, child_at, corner};
ghost use Rattle.pe_base.specs.Tree.Curve.{digits_of};
ghost use Rattle.pe_base.specs.Life.Carriers.{carriers};
ghost use Rattle.pe_states.specs.Carriers.{carrier_numbers};
ghost use Rattle.pe_states.specs.Ages.{is_first_old, is_first_new};

use pe_base::{Digits, Dim, Kind, State};
use pe_states::{Ages, carrier, first_touch, kind_of, last_touch, level_one, start_state};

// The corners of the child at the middle left of a cell of the plane, and of the child in the middle.
fn carriers_in_the_plane()
    ensures at_the_side { map (carrier_numbers 2 (digits_of (0 ∷ 1 ∷ []))) (0 ∷ 1 ∷ 2 ∷ 3 ∷ []) ≡ (0 ∷ 2 ∷ []) ∷ (0 ∷ 2 ∷ 1 ∷ 3 ∷ []) ∷ (0 ∷ 2 ∷ []) ∷ (0 ∷ 2 ∷ 1 ∷ 3 ∷ []) ∷ [] }
    ensures inside { carrier_numbers 2 (digits_of (1 ∷ 1 ∷ [])) 0 ≡ 0 ∷ 2 ∷ 1 ∷ 3 ∷ [] }
    ensures at_the_corner { carrier_numbers 2 (digits_of (2 ∷ 0 ∷ [])) 1 ≡ 1 ∷ [] }
    ensures by_address { carriers (corner 2 (child_at (at 1 (1 ∷ 0 ∷ [])) (digits_of (2 ∷ 0 ∷ []))) 1) ≡ at 1 (2 ∷ 0 ∷ []) ∷ [] }
    ensures first { is_first_old 2 (digits_of (0 ∷ 0 ∷ [])) 1 3 ≡ false }
    ensures boundary { is_first_new 2 (digits_of (0 ∷ 0 ∷ [])) 1 ≡ false }
{}

#[test]
fn the_definitions_give_the_rows() {
    carriers_in_the_plane();
}

#[test]
fn a_child_at_the_left(rt: HostRuntime) {
    let dim = Dim::new(2).expect(&rt, "a dimension");
    let digits = Digits { k: [0, 1, 0, 0] };
    // The parent's corner 2 is old, and its corner 1 is new.
    let parents = Ages::new(4, 2);
    let child = parents.carried(dim, digits);
    assert!(rt; child == parents.row(dim, digits).of_row(dim, digits));
    for corner in 0..4 {
        assert!(rt;
            child.at(corner) == carrier(dim, digits, corner, 4, 2),
            "corner {corner}"
        );
    }
    assert!(rt; (child.kind_at(0), child.kind_at(1)) == (Kind::Dying, Kind::Kept));
}

#[test]
fn ages_one_by_one(rt: HostRuntime) {
    let ages = Ages::new(0, 0).with(2, true, false).with(1, false, true);
    assert!(rt; (ages, ages.any()) == (Ages::new(4, 2), (true, true)));
}

#[test]
fn level_one_of_the_plane(rt: HostRuntime) {
    let dim = Dim::new(2).expect(&rt, "a dimension");
    let digits = Digits { k: [0, 2, 0, 0] };
    let corners = [
        level_one(dim, digits, 1, 1),
        level_one(dim, digits, 1, 2),
        Ages::level_one(dim, digits, 2).at(3),
    ];
    assert!(rt; corners == [(false, true), (true, true), (false, false)]);
}

#[test]
fn a_life(rt: HostRuntime) {
    assert!(rt; kind_of(false, true) == Kind::Born);
    let states = [
        start_state(1, 1, 2),
        last_touch(State::Refining, Kind::Born),
        first_touch(State::EraseTriggered, Kind::Kept),
        first_touch(State::Refined, Kind::Dying),
    ];
    let wanted = [
        State::Refining,
        State::Refined,
        State::Erasing,
        State::Erasing,
    ];
    assert!(rt; states == wanted, "{states:?}");
}
