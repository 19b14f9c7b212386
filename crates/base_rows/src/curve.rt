//! Worked rows of the order of children, and what a loop over a cursor proves.
ghost use Rattle.std.specs.Prelude.{◌≡◌, ◌^◌, [], ◌∷◌};

use pe_base::{Digits, Dim, Place, Way};
use pe_curve::{Cursor, Step, child};

// The children of the root in the plane, in the order of the curve.
const PLANE: [(u64, u64); 9] = [
    (0, 0),
    (0, 1),
    (0, 2),
    (1, 2),
    (1, 1),
    (1, 0),
    (2, 0),
    (2, 1),
    (2, 2),
];

fn plane_place(level: u8, x: u64, y: u64) -> Place
    ensures level { result.level ≡ level }
    ensures pos { result.pos ≡ x ∷ y ∷ 0 ∷ 0 ∷ [] }
{
    Place {
        level,
        pos: [x, y, 0, 0],
    }
}

// How many children a cursor gives.
fn count(dim: Dim, way: Way, flips: u8) -> u8
    ensures { result ≡ 3 ^ dim }
{
    let mut count = 0;
    for _digits in Cursor::new(dim, way, flips) {
        count += 1;
    }
    count
}

// Whether two children share a face: one digit differs, by one.
fn share_a_face(a: &Digits, b: &Digits) -> bool {
    let mut distance = 0u8;
    for axis in 0..4 {
        distance = distance.saturating_add(a.k[axis].abs_diff(b.k[axis]));
    }
    distance == 1
}

// Whether each child shares a face with the one before it.
fn crosses_faces(dim: Dim, way: Way, flips: u8) -> bool {
    let mut last = None;
    for digits in Cursor::new(dim, way, flips) {
        if let Some(before) = &last {
            if !share_a_face(before, &digits) {
                return false;
            }
        }
        last = Some(digits);
    }
    true
}

#[test]
fn the_plane_is_walked_as_drawn(rt: HostRuntime) {
    let dim = Dim::new(2).expect(&rt, "a dimension");
    let root = plane_place(0, 0, 0);
    for n in 0..9 {
        let (x, y) = PLANE[n as usize];
        let forward = child(dim, &root, Way::Forward, n);
        let inverted = child(dim, &root, Way::Inverted, 8 - n);
        let place = plane_place(1, x, y);
        assert!(rt; (forward, inverted) == (place, place), "child {n}");
    }
    let above = plane_place(1, 0, 1);
    let first = child(dim, &above, Way::Forward, 0);
    let last = child(dim, &above, Way::Inverted, 8);
    let place = plane_place(2, 2, 3);
    assert!(rt; (first, last) == (place, place));
}

#[test]
fn each_step_crosses_a_face(rt: HostRuntime) {
    for (axes, parts) in [(2, 9), (3, 27), (4, 81)] {
        let dim = Dim::new(axes).expect(&rt, "a dimension");
        for flips in 0..16 {
            for way in [Way::Forward, Way::Inverted] {
                let told = (count(dim, way, flips), crosses_faces(dim, way, flips));
                assert!(rt; told == (parts, true), "{axes} {flips} {way:?}");
            }
        }
    }
}

#[test]
fn the_way_into_the_plane_and_its_first_turn(rt: HostRuntime) {
    let dim = Dim::new(2).expect(&rt, "a dimension");
    let first = Step::first(dim, Way::Inverted, 0);
    let mut step = Step {
        digits: Digits { k: [0, 2, 0, 0] },
        ups: [true; 4],
    };
    let moved = step.advance(2);
    let begin = Step {
        digits: Digits { k: [2, 2, 0, 0] },
        ups: [false; 4],
    };
    let next = Step {
        digits: Digits { k: [1, 2, 0, 0] },
        ups: [true, false, true, true],
    };
    assert!(rt; (first, moved, step) == (begin, 0, next));
}
