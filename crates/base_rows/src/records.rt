//! Worked rows of depots, and a caller that knows a depot by its bound alone.
ghost use Rattle.std.specs.Prelude.{◌≡◌, ℕ, ◌+◌, ◌*◌, ◌^◌, ◌<◌, [], ◌∷◌, drop, true, false, IsSome};
ghost use Rattle.std.specs.Option.{option_map};
ghost use Rattle.pe_stacks.specs.declared.record.Vertex.{Vertex as AVertex};
ghost use Rattle.pe_stacks.specs.Corners.{vertex_at, with_vertex};
ghost use Rattle.pe_stacks.specs.Grid.{input_stack, cell_input_stack};
ghost use Rattle.pe_stacks.specs.Holdings.{new_holdings, stack_count, stack_at, items_at, len_at, lent, popped, given_up, pushed};

use pe_base::{Dim, Kind, State};
use pe_stacks::{CellRec, Corners, Depot, Grid, Shown, VecDepot, Vertex};

// Gives up the top of a stack and puts a fresh record in its place, which never wants memory.
fn replace_top<R, D: Depot<R>>(depot: &mut D, s: u8, r: R)
    requires stack { s < stack_count (D.holds depot.old) }
    requires full { 0 < len_at (D.holds depot.old) s }
    requires fresh { (D.holds depot.old).fresh < 2 ^ 63 }
    requires pushes { (stack_at (D.holds depot.old) s).pushes < 2 ^ 63 }
    requires pops { (stack_at (D.holds depot.old) s).pops < 2 ^ 63 }
    ensures calls { D.holds depot.new ≡ pushed (given_up (popped (lent (D.holds depot.old)) s)) s r }
    ensures top { items_at (D.holds depot.new) s ≡ r ∷ drop 1 (items_at (D.holds depot.old) s) }
    ensures spent { (D.holds depot.new).spent ≡ (D.holds depot.old).spent + 1 }
{
    let r = depot.lend(r);
    let top = depot.pop(s);
    depot.give_up(top);
    match depot.push(s, r) {
        Ok(()) => {}
        Err(_) => unreachable!(),
    }
}

// Changes the state of one corner, and nothing else.
fn depart_at<P>(corners: &mut Corners<P>, k: u8, state: State)
    requires { IsSome (vertex_at corners.old k) }
    ensures { corners.new ≡ with_vertex corners.old k (option_map (λ (v : AVertex P). record v { state = state }) (vertex_at corners.old k)) }
{
    corners.at_mut(k).depart(state);
}

// Changes the state of one corner in its quad, and nothing else.
fn depart_in_place<P>(corners: &mut Corners<P>, q: u8, state: State)
    requires quad { 4 * q < 2 ^ corners.old.dim }
    requires full { IsSome (vertex_at corners.old (4 * q + 3)) }
    ensures { corners.new ≡ with_vertex corners.old (4 * q + 3) (option_map (λ (v : AVertex P). record v { state = state }) (vertex_at corners.old (4 * q + 3))) }
{
    let quad = corners.quad_mut(q);
    match &mut quad.p3 {
        Some(v) => v.depart(state),
        None => unreachable!(),
    }
}

#[test]
fn a_depot_of_ten_stacks(rt: HostRuntime) {
    let alloc = rt.alloc();
    let mut depot = VecDepot::new(alloc, 10).expect(&rt, "memory");
    let r = depot.lend(1);
    let pushed = depot.push(8, r).is_ok();
    assert!(rt; (pushed, depot.len(8), depot.out(), depot.most()) == (true, 1, 0, 1));
    depot.reserve(8, 100).expect(&rt, "memory");
    assert!(rt; depot.spare(8) >= 100);
    for n in 0..100 {
        assert!(rt; depot.stacks() == 10 && depot.fresh() < 101 && depot.pushes(8) < 101);
        let r = depot.lend(n);
        assert!(rt; depot.spare(8) > 0);
        depot.push_spare(8, r);
    }
    assert!(rt; depot.stacks() == 10);
    assert!(rt; (depot.len(8), depot.out()) == (101, 0));
    depot.clear();
    assert!(rt; depot.stacks() == 10);
    let counts = (depot.len(8), depot.fresh(), depot.spent(), depot.pops(8));
    assert!(rt; counts == (0, 101, 101, 0));
}

#[test]
fn a_record_that_cannot_be_copied(rt: HostRuntime) {
    let alloc = rt.alloc();
    let mut depot = VecDepot::new(alloc, 2).expect(&rt, "memory");
    let r = depot.lend(CellRec::new(Box::new(alloc, 3).expect(&rt, "memory")));
    assert!(rt; depot.push(1, r).is_ok());
    let r = CellRec::new(Box::new(alloc, 4).expect(&rt, "memory"));
    replace_top(&mut depot, 1, r);
    let top = **depot.look(1, 0).payload();
    assert!(rt; (top, depot.spent(), depot.pops(1)) == (4, 1, 1));
}

#[test]
fn a_vertex_in_a_corner(rt: HostRuntime) {
    let dim = Dim::new(2).expect(&rt, "a dimension");
    let mut corners = Corners::empty(dim);
    corners.put(3, Vertex::new(State::Unrefined, Kind::Kept, 5));
    depart_at(&mut corners, 3, State::Unrefined);
    depart_in_place(&mut corners, 0, State::Refined);
    assert!(rt; corners.quad(0).p3.is_some());
    *corners.at_mut(3).payload_mut() = 6;
    let ages = (corners.at(3).is_old(), corners.at(3).is_new());
    let mut v = corners.take(3);
    corners.close();
    v.erase();
    assert!(rt; (ages, v.state()) == ((true, true), State::EraseTriggered));
    v.arrive(Kind::Born, State::Unrefined);
    v.refine(1, 2);
    let told = (v.state(), v.kind(), *v.payload());
    assert!(rt; told == (State::RefinementTriggered, Kind::Born, 6));
}

#[test]
fn a_grid_is_handed_on(rt: HostRuntime) {
    let dim = Dim::new(3).expect(&rt, "a dimension");
    let mut grid = Grid::fresh(dim, 7);
    *grid.root_mut().payload_mut() = 8;
    let grid = grid.advanced();
    let told = (grid.dim(), grid.finished(), *grid.root().payload());
    assert!(rt; told == (dim, 1, 8));
    let inputs = (grid.input(), grid.cell_input());
    let root = *grid.close().payload();
    assert!(rt; (inputs, root) == ((9, 1), 8));
    let grid = Grid::resume(dim, 4, root);
    let inputs = (grid.input(), grid.cell_input());
    assert!(rt; (inputs, *grid.close().payload()) == ((8, 0), 8));
}
