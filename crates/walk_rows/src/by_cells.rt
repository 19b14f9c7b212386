//! A traversal whose first level is walked cell by cell: the root's corners are lent, the first event is fired, and each child
//! of the root is walked by a call of its own. Where a call fails, the test fails.
ghost use Rattle.std.specs.Prelude.{◌≡◌, ℕ, ◌+◌, ◌^◌, ◌<◌, ◌≤◌, List, [], ◌∷◌, OnOk};
ghost use Rattle.pe_base.specs.declared.place.Place.{Place as APlace};
ghost use Rattle.pe_base.specs.Acts.Moments.{IsTraversal};
ghost use Rattle.pe_base.specs.Limits.{most_traversals};
ghost use Rattle.pe_base.specs.Tree.Curve.{children};
ghost use Rattle.pe_base.specs.Tree.Places.{IsDigits, child_at as child_place, root as the_root};
ghost use Rattle.pe_base.specs.Tree.Ways.{way_of};
ghost use Rattle.pe_base.specs.Walk.Course.{done};
ghost use Rattle.pe_base.specs.Walk.Working.{no_tally};
ghost use Rattle.pe_stacks.specs.Corners.{IsFull, no_vertices};
ghost use Rattle.pe_stacks.specs.Grid.{input_stack, cell_input_stack};
ghost use Rattle.pe_stacks.specs.Holdings.{CountsWithin};
ghost use Rattle.pe_stacks.specs.Sights.{corner_records};
ghost use Rattle.pe_mapping.specs.Held.{Keeps, max_level};
ghost use Rattle.pe_hang.specs.InHand.{setting_of, vertices_on_stacks, cells_on_stacks};
ghost use Rattle.pe_adapt.specs.CountedTouches.{Machine, StreamStacks};
ghost use Rattle.pe_adapt.specs.WalkedCells.{machine_in_hand};
ghost use Rattle.pe_order.specs.CellTraffic.{CountsAreFew};
ghost use Rattle.pe_walk.specs.Machine.{root_corners};
ghost use Rattle.pe_walk.specs.Traversing.{HoldAGrid};
ghost use Rattle.pe_walk.specs.Visits.{with_vertices};
ghost use Rattle.walk_rows.specs.ByCells.{MayWalkInTurn};

use pe_access::CellState;
use pe_base::{Digits, Dim, Event, Kind, Place, Setup, State, Tally, Way};
use pe_curve::{Cursor, child_at};
use pe_mapping::Mapping;
use pe_stacks::{CellRec, Corners, Depot, Grid, Vertex};
use pe_walk::WalkStop;
use pe_walk::laws::{cells_in_turn, walk_cell};
use std::process::Abort;

const ROOT: Place = Place {
    level: 0,
    pos: [0; 4],
};

// Lends the root's corners, in descending number.
fn lend_corners<M: Mapping, DV: Depot<Vertex<M::V>>>(
    rt: &impl Abort,
    dim: Dim,
    m: &mut M,
    dv: &mut DV,
    corners: &mut Corners<M::V>,
)
    requires empty { corners.old ≡ no_vertices dim }
    requires counts { CountsWithin (DV.holds dv.old) (2 ^ 60) }
    ensures made { (start_level max_cells traversal : ℕ) (streams : StreamStacks) (rest : Machine)
        → (root_corners (setting_of M.rules (M.held m.old) start_level max_cells traversal) streams (2 ^ dim) []
        (with_vertices (vertices_on_stacks M.numbers (DV.holds dv.old)) (M.held m.old).list rest)).ending
        ≡ done (corner_records M.numbers.vertex corners.new, with_vertices (vertices_on_stacks M.numbers (DV.holds dv.new)) (M.held m.new).list rest) }
    ensures full { IsFull dim corners.new }
    ensures out { (DV.holds dv.new).out ≡ (DV.holds dv.old).out + 2 ^ dim }
    ensures counts { CountsWithin (DV.holds dv.new) (2 ^ 61) }
    ensures keeps { Keeps (M.held m.old) (M.held m.new) }
{
    let count = dim.corners();
    for done in 0..count {
        let payload = m.fresh_v().expect(rt, "a payload");
        let vertex = Vertex::new(State::Unrefined, Kind::Hanging, payload);
        corners.put(count - 1 - done, dv.lend(vertex));
    }
}

// Begins a traversal. Then the children of the root may be walked, one after another.
fn begin<M: Mapping, DV: Depot<Vertex<M::V>>, DC: Depot<CellRec<M::C>>>(
    rt: &impl Abort,
    setup: &Setup,
    grid: &Grid<M::C>,
    m: &mut M,
    dv: &mut DV,
    dc: &DC,
    corners: &mut Corners<M::V>,
)
    requires dim { (M.held m.old).dim ≡ setup.now.dim }
    requires axes { grid.now.dim ≡ setup.now.dim }
    requires greatest { max_level M.rules (M.held m.old) ≡ setup.now.max_level }
    requires finished { grid.now.finished < most_traversals }
    requires counts { CountsWithin (DV.holds dv.old) (2 ^ 60) }
    requires cell_counts { CountsWithin (DC.holds dc.now) (2 ^ 60) }
    requires grid { HoldAGrid M.numbers (M.held m.old) setup.now.max_level (record { vertices = DV.holds dv.old; cells = DC.holds dc.now }) grid.now }
    requires empty { corners.old ≡ no_vertices setup.now.dim }
    ensures may { MayWalkInTurn (setting_of M.rules (M.held m.new) setup.now.start_level setup.now.max_cells (grid.now.finished + 1))
        setup.now.max_level (input_stack grid.now.swapped) (cell_input_stack grid.now.swapped)
        (machine_in_hand M.numbers (DV.holds dv.new) (cells_on_stacks M.numbers (DC.holds dc.now)) corners.new grid.now.root (M.held m.new).list (no_tally (grid.now.finished + 1)))
        (children setup.now.dim (way_of (grid.now.finished + 1)) the_root) }
    ensures full { IsFull setup.now.dim corners.new }
    ensures out { (DV.holds dv.new).out ≡ (DV.holds dv.old).out + 2 ^ setup.now.dim }
    ensures few { CountsAreFew setup.now.max_cells (no_tally (grid.now.finished + 1)) (DV.holds dv.new) (DC.holds dc.now) }
    ensures keeps { Keeps (M.held m.old) (M.held m.new) }
{
    lend_corners(rt, setup.dim, m, dv, corners);
    m.plain_event(Event::BeginIteration, grid.finished() + 1)
        .expect(rt, "the first event");
    cells_in_turn::<M>();
}

// Walks the child of the root at these digits. Then the next one may be walked.
fn walk_child<M: Mapping, DV: Depot<Vertex<M::V>>, DC: Depot<CellRec<M::C>>>(
    setup: &Setup,
    traversal: u64,
    input: u8,
    cell_input: u8,
    digits: Digits,
    m: &mut M,
    dv: &mut DV,
    dc: &mut DC,
    corners: &mut Corners<M::V>,
    root: &mut CellRec<M::C>,
    tally: &mut Tally,
) -> Result<(), WalkStop>
    requires dim { (M.held m.old).dim ≡ setup.now.dim }
    requires greatest { max_level M.rules (M.held m.old) ≡ setup.now.max_level }
    requires traversal { IsTraversal traversal }
    requires digits { IsDigits setup.now.dim digits }
    requires full { IsFull setup.now.dim corners.old }
    requires few { CountsAreFew setup.now.max_cells tally.old (DV.holds dv.old) (DC.holds dc.old) }
    requires may { (others : List APlace) × MayWalkInTurn (setting_of M.rules (M.held m.old) setup.now.start_level setup.now.max_cells traversal) setup.now.max_level input cell_input
        (machine_in_hand M.numbers (DV.holds dv.old) (cells_on_stacks M.numbers (DC.holds dc.old)) corners.old root.old (M.held m.old).list tally.old)
        (child_place the_root digits ∷ others) }
    ensures next { OnOk result ((others : List APlace)
        → MayWalkInTurn (setting_of M.rules (M.held m.old) setup.now.start_level setup.now.max_cells traversal) setup.now.max_level input cell_input
        (machine_in_hand M.numbers (DV.holds dv.old) (cells_on_stacks M.numbers (DC.holds dc.old)) corners.old root.old (M.held m.old).list tally.old)
        (child_place the_root digits ∷ others)
        → MayWalkInTurn (setting_of M.rules (M.held m.new) setup.now.start_level setup.now.max_cells traversal) setup.now.max_level input cell_input
        (machine_in_hand M.numbers (DV.holds dv.new) (cells_on_stacks M.numbers (DC.holds dc.new)) corners.new root.new (M.held m.new).list tally.new) others) }
    ensures few { OnOk result (CountsAreFew setup.now.max_cells tally.new (DV.holds dv.new) (DC.holds dc.new)) }
    ensures out { (DV.holds dv.new).out ≡ (DV.holds dv.old).out }
    ensures full { IsFull setup.now.dim corners.new }
    ensures keeps { Keeps (M.held m.old) (M.held m.new) }
{
    let at = child_at(&ROOT, digits);
    let state = CellState::root(setup.dim, Way::of(traversal)).descend(digits);
    cells_in_turn::<M>();
    walk_cell(
        setup, traversal, input, cell_input, digits, &at, &state, m, dv, dc, corners, root, tally,
    )
}

// Walks the children of the root, each by a call of its own, and counts them.
fn walk_children<M: Mapping, DV: Depot<Vertex<M::V>>, DC: Depot<CellRec<M::C>>>(
    rt: &impl Abort,
    setup: &Setup,
    traversal: u64,
    input: u8,
    cell_input: u8,
    m: &mut M,
    dv: &mut DV,
    dc: &mut DC,
    corners: &mut Corners<M::V>,
    root: &mut CellRec<M::C>,
) -> Tally
    requires dim { (M.held m.old).dim ≡ setup.now.dim }
    requires greatest { max_level M.rules (M.held m.old) ≡ setup.now.max_level }
    requires traversal { IsTraversal traversal }
    requires full { IsFull setup.now.dim corners.old }
    requires few { CountsAreFew setup.now.max_cells (no_tally traversal) (DV.holds dv.old) (DC.holds dc.old) }
    requires may { MayWalkInTurn (setting_of M.rules (M.held m.old) setup.now.start_level setup.now.max_cells traversal) setup.now.max_level input cell_input
        (machine_in_hand M.numbers (DV.holds dv.old) (cells_on_stacks M.numbers (DC.holds dc.old)) corners.old root.old (M.held m.old).list (no_tally traversal))
        (children setup.now.dim (way_of traversal) the_root) }
    ensures out { (DV.holds dv.new).out ≡ (DV.holds dv.old).out }
    ensures full { IsFull setup.now.dim corners.new }
    ensures keeps { Keeps (M.held m.old) (M.held m.new) }
{
    let way = Way::of(traversal);
    let mut tally = Tally {
        traversal,
        way,
        cells: 0,
        read: 0,
        written: 0,
        created: 0,
        destroyed: 0,
        hanging: 0,
        deepest: 0,
    };
    let flips = CellState::root(setup.dim, way).flips();
    for digits in Cursor::new(setup.dim, way, flips) {
        walk_child(
            setup, traversal, input, cell_input, digits, m, dv, dc, corners, root, &mut tally,
        )
        .expect(rt, "a child");
    }
    tally
}

// Gives the root's corners up.
fn give_up_corners<V, DV: Depot<Vertex<V>>>(dim: Dim, corners: &mut Corners<V>, dv: &mut DV)
    requires full { IsFull dim corners.old }
    requires out { 2 ^ dim ≤ (DV.holds dv.old).out }
    ensures { corners.new ≡ no_vertices dim }
{
    for k in 0..dim.corners() {
        dv.give_up(corners.take(k));
    }
}

/// A traversal of the grid that depots hold, whose first level is walked cell by cell: the grid afterwards, and what was
/// counted.
pub(crate) fn traverse_by_cells<M: Mapping, DV: Depot<Vertex<M::V>>, DC: Depot<CellRec<M::C>>>(
    rt: &impl Abort,
    grid: Grid<M::C>,
    setup: &Setup,
    m: &mut M,
    dv: &mut DV,
    dc: &mut DC,
) -> (Grid<M::C>, Tally)
    requires dim { (M.held m.old).dim ≡ setup.now.dim }
    requires axes { grid.dim ≡ setup.now.dim }
    requires greatest { max_level M.rules (M.held m.old) ≡ setup.now.max_level }
    requires finished { grid.finished < most_traversals }
    requires counts { CountsWithin (DV.holds dv.old) (2 ^ 60) }
    requires cell_counts { CountsWithin (DC.holds dc.old) (2 ^ 60) }
    requires grid { HoldAGrid M.numbers (M.held m.old) setup.now.max_level (record { vertices = DV.holds dv.old; cells = DC.holds dc.old }) grid }
{
    let traversal = grid.finished() + 1;
    let (input, cell_input) = (grid.input(), grid.cell_input());
    let mut walked = grid;
    let mut corners = Corners::empty(setup.dim);
    begin(rt, setup, &walked, m, dv, dc, &mut corners);
    let tally = walk_children(
        rt,
        setup,
        traversal,
        input,
        cell_input,
        m,
        dv,
        dc,
        &mut corners,
        walked.root_mut(),
    );
    m.plain_event(Event::EndIteration, traversal)
        .expect(rt, "the last event");
    give_up_corners(setup.dim, &mut corners, dv);
    corners.close();
    (walked.advanced(), tally)
}
