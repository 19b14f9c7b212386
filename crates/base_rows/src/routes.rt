//! Worked rows of the routes. A function without a body computes the definitions that its contract names.
ghost use Rattle.std.specs.Prelude.{◌≡◌, ◌+◌, ◌≤◌, [], ◌∷◌, map, Some, None};
ghost use Rattle.pe_base.specs.declared.way.Way.TheVariants.{Forward, Inverted};
ghost use Rattle.pe_base.specs.Tree.Places.{at};
ghost use Rattle.pe_base.specs.Steps.Around.{around, crossings};
ghost use Rattle.pe_base.specs.Steps.Routes.{stack_in, stack_out};
ghost use Rattle.pe_access.specs.States.{axes_of, level_of};

use pe_access::{CellState, Route};
use pe_base::{Digits, Dim, Way};
use pe_curve::Cursor;

// The vertex (1, 1) of level 1 and the cells around it; then those of (3, 1) on level 2, whose plane of axis 0 is
// that of (1, _) on level 1.
fn cells_around()
    ensures corner { around 2 Forward (at 1 (1 ∷ 1 ∷ [])) ≡
        map (at 1) ((0 ∷ 0 ∷ []) ∷ (0 ∷ 1 ∷ []) ∷ (1 ∷ 1 ∷ []) ∷ (1 ∷ 0 ∷ []) ∷ []) }
    ensures inverted { around 2 Inverted (at 1 (1 ∷ 1 ∷ [])) ≡
        map (at 1) ((1 ∷ 0 ∷ []) ∷ (1 ∷ 1 ∷ []) ∷ (0 ∷ 1 ∷ []) ∷ (0 ∷ 0 ∷ []) ∷ []) }
    ensures slower { crossings 2 (at 2 (3 ∷ 1 ∷ [])) 1 ≡ 2 }
    ensures slowest { crossings 2 (at 2 (3 ∷ 1 ∷ [])) 0 ≡ 1 }
    ensures stack_in { stack_in 2 Forward (at 1 (1 ∷ 1 ∷ [])) (at 1 (1 ∷ 1 ∷ [])) ≡ Some 1 }
    ensures stack_out { stack_out 2 Forward (at 1 (1 ∷ 1 ∷ [])) (at 1 (1 ∷ 1 ∷ [])) ≡ Some 3 }
    ensures first { stack_in 2 Forward (at 1 (2 ∷ 1 ∷ [])) (at 1 (1 ∷ 1 ∷ [])) ≡ None }
    ensures last { stack_out 2 Forward (at 1 (1 ∷ 2 ∷ [])) (at 1 (1 ∷ 1 ∷ [])) ≡ None }
{}

#[test]
fn the_definitions_give_the_rows() {
    cells_around();
}

#[test]
fn the_middle_cell_of_the_plane(rt: HostRuntime) {
    let dim = Dim::new(2).expect(&rt, "a dimension");
    let middle = CellState::root(dim, Way::Forward).descend(Digits { k: [1, 1, 0, 0] });
    let rows = [
        (Route::Temp(1), Route::Temp(3)),
        (Route::Stream, Route::Temp(3)),
        (Route::Temp(2), Route::Stream),
        (Route::Temp(2), Route::Temp(0)),
    ];
    for corner in 0..4 {
        let routes = (middle.route_in(corner), middle.route_out(corner));
        assert!(rt; routes == rows[corner as usize], "corner {corner}");
    }
}

#[test]
fn a_row_of_children(rt: HostRuntime) {
    let dim = Dim::new(2).expect(&rt, "a dimension");
    let root = CellState::root(dim, Way::Forward);
    let mut child = root.descend(Digits { k: [1, 0, 0, 0] });
    let mut row = child.row();
    root.step(2, &mut child, &mut row, false, Digits { k: [1, 1, 0, 0] });
    // The middle cell takes corner 3 from the stack of axis 1 and hands it to that of axis 0.
    let in_row = (child.coming_in(&row, 3), child.going_in(&row, 3));
    let alone = (child.coming(3), child.going(3));
    assert!(rt; (in_row, alone) == ((8 + 2, 8), (8 + 2, 8)));
}

#[test]
fn from_row_to_row(rt: HostRuntime) {
    let dim = Dim::new(2).expect(&rt, "a dimension");
    let root = CellState::root(dim, Way::Forward);
    let mut child = root.descend(Digits { k: [0, 2, 0, 0] });
    let next = Digits { k: [1, 2, 0, 0] };
    root.turn(2, 0, &mut child, [true, false, true, true], next);
    assert!(rt; child == root.descend(next));
}

// Where each vertex of a level waits: not touched yet, on a stack (its number and one), or back on the stream.
const UNTOUCHED: u8 = 0;

const DONE: u8 = 255;

// Whether a vertex is taken from where it waits. From then on it waits where it is put.
fn touch(table: &mut [u8; 256], slot: u8, route_in: Route, route_out: Route) -> bool {
    let from = match route_in {
        Route::Stream => UNTOUCHED,
        Route::Temp(stack) => stack.saturating_add(1),
    };
    let agrees = table[slot as usize] == from;
    table[slot as usize] = match route_out {
        Route::Stream => DONE,
        Route::Temp(stack) => stack.saturating_add(1),
    };
    agrees
}

// The place in the table of a corner that is strictly inside the root, which is `side` cells wide.
fn slot_of(pos: &[u8; 4], axes: u8, side: u8, corner: u8) -> Option<u8> {
    let mut slot = 0u8;
    let mut bits = corner;
    for (axis, p) in pos.iter().enumerate() {
        if axis < axes as usize {
            let q = p.wrapping_add(bits % 2);
            if q == 0 || q >= side {
                return None;
            }
            slot = slot.wrapping_mul(side).wrapping_add(q);
            bits /= 2;
        }
    }
    Some(slot)
}

// Touches the inside corners of a cell.
fn touch_corners(
    dim: Dim,
    state: &CellState,
    pos: &[u8; 4],
    side: u8,
    table: &mut [u8; 256],
) -> bool
    requires { axes_of state.now ≡ dim }
{
    let mut agree = true;
    for corner in 0..dim.corners() {
        if let Some(slot) = slot_of(pos, dim.axes(), side, corner) {
            let agrees = touch(table, slot, state.route_in(corner), state.route_out(corner));
            agree &= agrees;
        }
    }
    agree
}

// Walks the cells that lie so many levels below a cell.
fn walk(
    dim: Dim,
    way: Way,
    state: &CellState,
    pos: &[u8; 4],
    side: u8,
    levels: u8,
    table: &mut [u8; 256],
) -> bool
    requires axes { axes_of state.now ≡ dim }
    requires levels { level_of state.now + levels ≤ 20 }
{
    if levels == 0 {
        return touch_corners(dim, state, pos, side, table);
    }
    let mut agree = true;
    for digits in Cursor::new(dim, way, state.flips()) {
        let child = state.descend(digits);
        let [x, y, z, w] = *pos;
        let [i, j, k, l] = digits.k;
        let place = [
            x.wrapping_mul(3).wrapping_add(i),
            y.wrapping_mul(3).wrapping_add(j),
            z.wrapping_mul(3).wrapping_add(k),
            w.wrapping_mul(3).wrapping_add(l),
        ];
        let agrees = walk(
            dim,
            way,
            &child,
            &place,
            side.wrapping_mul(3),
            levels - 1,
            table,
        );
        agree &= agrees;
    }
    agree
}

// Each inside vertex comes from the stream once, then from the stack that it was put on, and goes back to the stream.
#[test]
fn each_vertex_is_found_where_it_was_put(rt: HostRuntime) {
    for (axes, levels, vertices) in [(2, 1, 4), (2, 2, 64), (3, 1, 8), (4, 1, 16)] {
        let dim = Dim::new(axes).expect(&rt, "a dimension");
        for way in [Way::Forward, Way::Inverted] {
            let mut table = [UNTOUCHED; 256];
            let root = CellState::root(dim, way);
            let found = walk(dim, way, &root, &[0; 4], 1, levels, &mut table);
            let done = table.iter().filter(|place| **place == DONE).count();
            assert!(rt;
                (found, done) == (true, vertices),
                "{axes} {levels} {way:?}"
            );
        }
    }
}
