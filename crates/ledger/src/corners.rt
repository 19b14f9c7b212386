//! A cell of level 1 in the plane, loaded and stored corner by corner.
//!
//! It is the one in the middle, at (1, 1), in the first traversal, which walks the cells (0, 0), (0, 1), (0, 2), (1, 2), (1, 1),
//! (1, 0), (2, 0), (2, 1), (2, 2). Of its vertices the one at (1, 1) was last at the cell (0, 1), and waits on stack 1, of the
//! odd planes across axis 0; those at (1, 2) and (2, 2) come from the cell (1, 2) by stack 2, of the even planes across axis 1;
//! the one at (2, 1) is met here first, and is born. The vertices at (1, 1) and (2, 1) go on to the cell (1, 0) by stack 3, and
//! the one at (2, 2) to the cell (2, 1) by stack 0; the one at (1, 2) is met by no cell later, and goes to the output.
ghost use Rattle.std.specs.Prelude.{◌≡◌, ◌^◌, ◌<◌, ◌≤◌, [], ◌∷◌, true};
ghost use Rattle.pe_base.specs.declared.way.Way.TheVariants.{Forward};
ghost use Rattle.pe_access.specs.States.{StandsFor};
ghost use Rattle.pe_stacks.specs.Corners.{IsFull};
ghost use Rattle.pe_stacks.specs.Holdings.{CountsWithin, stack_count, len_at};

use crate::rows::{four, opened, square};
use crate::{Ledger, Number};
use pe_access::CellState;
use pe_adapt::{Spot, ages_of, load_corner, store_corner};
use pe_base::limits::LEAST_CELLS;
use pe_base::{Digits, Dim, Kind, Place, Setup, State, Way};
use pe_mapping::Mapping;
use pe_stacks::{CellRec, Corners, Depot, Shown, VecDepot, Vertex};
use pe_states::Ages;
use std::process::Abort;
use std::test::Fail;

const FEW: u64 = 1 << 60;

// Whether a depot has the stacks of vertices, and no count of it is great.
fn counts_few<R, D: Depot<R>>(depot: &D) -> bool
    ensures stacks { result ≡ true → stack_count (D.holds depot.now) ≡ 10 }
    ensures counts { result ≡ true → CountsWithin (D.holds depot.now) (2 ^ 60) }
{
    for s in 0..depot.stacks() {
        if depot.pushes(s) > FEW || depot.pops(s) > FEW {
            return false;
        }
    }
    depot.stacks() == 10
        && depot.fresh() <= FEW
        && depot.spent() <= FEW
        && depot.out() <= FEW
        && depot.most() <= FEW
}

// A corner of the cell.
fn spot_of(k: u8) -> Spot
    ensures { result ≡ (record {
      traversal = 1;
      input = 8;
      output = 9;
      digits = record { k = 1 ∷ 1 ∷ 0 ∷ 0 ∷ [] };
      cell = record { level = 1; pos = 1 ∷ 1 ∷ 0 ∷ 0 ∷ [] };
      corner = k;
    }) }
{
    Spot {
        traversal: 1,
        input: 8,
        output: 9,
        digits: Digits { k: [1, 1, 0, 0] },
        cell: Place {
            level: 1,
            pos: [1, 1, 0, 0],
        },
        corner: k,
    }
}

// Loads a corner.
fn loaded<D: Depot<Vertex<Number>>>(
    rt: &impl Abort,
    setup: &Setup,
    state: &CellState,
    k: u8,
    ledger: &mut Ledger,
    depot: &mut D,
    parents: &mut Corners<Number>,
    parent: &mut CellRec<Number>,
) -> Vertex<Number>
    requires corner { k < 4 }
    requires plane { setup.now.dim ≡ 2 }
    requires dim { ledger.old.dim ≡ 2 }
    requires greatest { ledger.old.greatest ≡ setup.now.max_level }
    requires state { StandsFor 2 Forward (record { level = 1; pos = 1 ∷ 1 ∷ 0 ∷ 0 ∷ [] }) state.now }
    requires full { IsFull 2 parents.old }
    ensures dim { ledger.new.dim ≡ 2 }
    ensures greatest { ledger.new.greatest ≡ ledger.old.greatest }
    ensures full { IsFull 2 parents.new }
{
    assert!(rt; counts_few(depot) && ages_of(setup.dim, parents) == Ages::new(0, 0));
    assert!(rt; depot.len(1) > 0 || k != 0);
    assert!(rt; depot.len(2) > 0 || k < 2);
    load_corner(setup, &spot_of(k), state, ledger, depot, parents, parent).expect(rt, "a vertex")
}

// Stores a corner.
fn store<D: Depot<Vertex<Number>>>(
    rt: &impl Abort,
    state: &CellState,
    k: u8,
    ledger: &mut Ledger,
    depot: &mut D,
    v: Vertex<Number>,
    parents: &mut Corners<Number>,
    parent: &mut CellRec<Number>,
)
    requires corner { k < 4 }
    requires dim { ledger.old.dim ≡ 2 }
    requires state { StandsFor 2 Forward (record { level = 1; pos = 1 ∷ 1 ∷ 0 ∷ 0 ∷ [] }) state.now }
    requires full { IsFull 2 parents.old }
    ensures dim { ledger.new.dim ≡ 2 }
    ensures full { IsFull 2 parents.new }
{
    assert!(rt; counts_few(depot) && depot.out() > 0);
    let stored = store_corner(&spot_of(k), state, ledger, depot, v, parents, parent);
    assert!(rt; stored.is_ok());
}

// Puts a vertex that was born in this traversal where it waits.
fn waits<D: Depot<Vertex<Number>>>(
    rt: &impl Abort,
    ledger: &mut Ledger,
    depot: &mut D,
    s: u8,
    number: u64,
)
    requires dim { ledger.old.dim ≡ 2 }
    requires stack { s < 10 }
    ensures dim { ledger.new.dim ≡ 2 }
    ensures greatest { ledger.new.greatest ≡ ledger.old.greatest }
{
    assert!(rt; counts_few(depot));
    let mut payload = ledger.fresh_v().expect(rt, "a number");
    *payload.0 = number;
    let v = depot.lend(Vertex::new(State::Unrefined, Kind::Born, payload));
    assert!(rt; depot.push(s, v).is_ok());
}

// The state of the cell.
fn state_of(dim: Dim) -> CellState
    requires { dim ≡ 2 }
    ensures { StandsFor 2 Forward (record { level = 1; pos = 1 ∷ 1 ∷ 0 ∷ 0 ∷ [] }) result }
{
    CellState::root(dim, Way::Forward).descend(Digits { k: [1, 1, 0, 0] })
}

// What lies on a stack: a vertex's number and its state.
fn at<D: Shown<Vertex<Number>>>(rt: &impl Abort, depot: &D, s: u8, i: u64) -> (u64, State) {
    assert!(rt; s < depot.stacks());
    assert!(rt; i < depot.len(s));
    let v = depot.look(s, i);
    (*v.payload().0, v.state())
}

// How many records lie on a stack, and how often it was pushed and popped.
fn moved<D: Depot<Vertex<Number>>>(rt: &impl Abort, depot: &D, s: u8) -> (u64, u64, u64) {
    assert!(rt; s < depot.stacks());
    (depot.len(s), depot.pushes(s), depot.pops(s))
}

#[test]
fn a_cell_by_its_corners(rt: HostRuntime) -> Result<(), Fail> {
    let dim = Dim::new(2).ok_or("a dimension")?;
    let setup = Setup {
        dim,
        max_level: 3,
        start_level: 1,
        max_cells: LEAST_CELLS,
    };
    let mut ledger = Ledger::new(rt.alloc(), dim, 3);
    let mut depot = VecDepot::new(rt.alloc(), 10)?;
    let state = state_of(dim);
    let mut parent = CellRec::new(ledger.fresh_c()?);
    let numbers = four(&mut ledger)?;
    let mut parents = square(dim, State::Unrefined, Kind::Hanging, numbers);
    waits(&rt, &mut ledger, &mut depot, 1, 10);
    waits(&rt, &mut ledger, &mut depot, 2, 20);
    waits(&rt, &mut ledger, &mut depot, 2, 30);
    let d = loaded(
        &rt,
        &setup,
        &state,
        3,
        &mut ledger,
        &mut depot,
        &mut parents,
        &mut parent,
    );
    let c = loaded(
        &rt,
        &setup,
        &state,
        2,
        &mut ledger,
        &mut depot,
        &mut parents,
        &mut parent,
    );
    let b = loaded(
        &rt,
        &setup,
        &state,
        1,
        &mut ledger,
        &mut depot,
        &mut parents,
        &mut parent,
    );
    let a = loaded(
        &rt,
        &setup,
        &state,
        0,
        &mut ledger,
        &mut depot,
        &mut parents,
        &mut parent,
    );
    assert!(rt; (depot.fresh(), depot.out(), depot.most()) == (4, 4, 4));
    store(
        &rt,
        &state,
        0,
        &mut ledger,
        &mut depot,
        a,
        &mut parents,
        &mut parent,
    );
    store(
        &rt,
        &state,
        1,
        &mut ledger,
        &mut depot,
        b,
        &mut parents,
        &mut parent,
    );
    store(
        &rt,
        &state,
        2,
        &mut ledger,
        &mut depot,
        c,
        &mut parents,
        &mut parent,
    );
    store(
        &rt,
        &state,
        3,
        &mut ledger,
        &mut depot,
        d,
        &mut parents,
        &mut parent,
    );
    assert!(rt; at(&rt, &depot, 3, 0) == (1, State::RefinementTriggered));
    assert!(rt; at(&rt, &depot, 3, 1) == (10, State::Unrefined));
    assert!(rt; at(&rt, &depot, 9, 0) == (20, State::Unrefined));
    assert!(rt; at(&rt, &depot, 0, 0) == (30, State::Unrefined));
    assert!(rt; moved(&rt, &depot, 0) == (1, 1, 0) && moved(&rt, &depot, 9) == (1, 1, 0));
    assert!(rt; moved(&rt, &depot, 1) == (0, 1, 1) && moved(&rt, &depot, 2) == (0, 2, 2));
    assert!(rt; moved(&rt, &depot, 3) == (2, 2, 0) && moved(&rt, &depot, 8) == (0, 0, 0));
    assert!(rt; (depot.fresh(), depot.spent(), depot.out()) == (4, 0, 0));
    assert!(rt; opened(parents) == State::Unrefined);
    Ok(())
}
