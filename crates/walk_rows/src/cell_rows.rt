//! Worked rows of traversals whose first level is walked cell by cell, by a mapping whose payloads are boxes. What is counted
//! comes from a plain program that walks maps of cells and vertices by their addresses. All else is to be what `traverse`
//! leaves.
ghost use Rattle.std.specs.Prelude.{◌≡◌, ◌^◌, ◌≤◌};
ghost use Rattle.pe_stacks.specs.Holdings.{CountsWithin, new_holdings};
ghost use Rattle.pe_mapping.specs.Held.{Keeps, max_level};
ghost use Rattle.pe_walk.specs.Traversing.{HoldAGrid};

use crate::by_cells::traverse_by_cells;
use ledger::{Ledger, Number};
use pe_base::limits::MOST_CELLS;
use pe_base::{Dim, Setup, Tally, Way};
use pe_mapping::Mapping;
use pe_stacks::{CellRec, Depot, Grid, Shown, VecDepot, Vertex};
use pe_walk::traverse;
use std::alloc::Global;
use std::process::Abort;
use std::test::Fail;

/// What a traversal counts: cells, read, written, created, destroyed, hanging, deepest.
type Row = (u64, u64, u64, u64, u64, u64, u8);

fn tally_of(traversal: u64, row: Row) -> Tally {
    let (cells, read, written, created, destroyed, hanging, deepest) = row;
    Tally {
        traversal,
        way: Way::of(traversal),
        cells,
        read,
        written,
        created,
        destroyed,
        hanging,
        deepest,
    }
}

fn setup_of(axes: u8, level: u8) -> Option<Setup> {
    let dim = Dim::new(axes)?;
    if level < 1 || 20 < level {
        return None;
    }
    Some(Setup {
        dim,
        max_level: level,
        start_level: level,
        max_cells: MOST_CELLS,
    })
}

// A fresh grid in depots that are new.
fn fresh_grid<M: Mapping, DV: Depot<Vertex<M::V>>, DC: Depot<CellRec<M::C>>>(
    root: M::C,
    setup: &Setup,
    m: &M,
    dv: &DV,
    dc: &DC,
) -> Grid<M::C>
    requires new { DV.holds dv.now ≡ new_holdings 10 }
    requires no_cells { DC.holds dc.now ≡ new_holdings 2 }
    ensures axes { result.dim ≡ setup.now.dim }
    ensures finished { result.finished ≡ 0 }
    ensures counts { CountsWithin (DV.holds dv.now) (2 ^ 60) }
    ensures cell_counts { CountsWithin (DC.holds dc.now) (2 ^ 60) }
    ensures grid { HoldAGrid M.numbers (M.held m.now) setup.now.max_level
        (record { vertices = DV.holds dv.now; cells = DC.holds dc.now }) result }
{
    // From the settings it is known that their levels and their dimension are in range.
    let setup = *setup;
    let _axes = setup.dim.axes();
    Grid::fresh(setup.dim, root)
}

// The grid after its first traversal, in depots that were new.
fn traversed<M: Mapping, DV: Depot<Vertex<M::V>>, DC: Depot<CellRec<M::C>>>(
    rt: &impl Abort,
    grid: Grid<M::C>,
    setup: &Setup,
    m: &mut M,
    dv: &mut DV,
    dc: &mut DC,
) -> Grid<M::C>
    requires dim { (M.held m.old).dim ≡ setup.now.dim }
    requires axes { grid.dim ≡ setup.now.dim }
    requires greatest { max_level M.rules (M.held m.old) ≡ setup.now.max_level }
    requires finished { grid.finished ≡ 0 }
    requires new { DV.holds dv.old ≡ new_holdings 10 }
    requires no_cells { DC.holds dc.old ≡ new_holdings 2 }
    requires counts { CountsWithin (DV.holds dv.old) (2 ^ 60) }
    requires cell_counts { CountsWithin (DC.holds dc.old) (2 ^ 60) }
    requires grid { HoldAGrid M.numbers (M.held m.old) setup.now.max_level
        (record { vertices = DV.holds dv.old; cells = DC.holds dc.old }) grid }
    ensures axes { result.dim ≡ setup.now.dim }
    ensures finished { result.finished ≡ 1 }
    ensures counts { CountsWithin (DV.holds dv.new) (2 ^ 60) }
    ensures cell_counts { CountsWithin (DC.holds dc.new) (2 ^ 60) }
    ensures grid { HoldAGrid M.numbers (M.held m.new) setup.now.max_level
        (record { vertices = DV.holds dv.new; cells = DC.holds dc.new }) result }
    ensures keeps { Keeps (M.held m.old) (M.held m.new) }
{
    // From the settings it is known how many cells may be walked.
    let setup = *setup;
    let (next, _tally) = traverse(grid, &setup, m, dv, dc).expect(rt, "the first traversal");
    next
}

/// A grid that is fresh, or that was traversed once.
#[derive(Clone, Copy)]
enum Past {
    Fresh,
    Traversed,
}

/// Whether a traversal is one call, or walks the first level cell by cell.
#[derive(Clone, Copy)]
enum Walk {
    Whole,
    ByCells,
}

// A grid in depots that are new.
fn grid_of<M: Mapping, DV: Depot<Vertex<M::V>>, DC: Depot<CellRec<M::C>>>(
    rt: &impl Abort,
    past: Past,
    root: M::C,
    setup: &Setup,
    m: &mut M,
    dv: &mut DV,
    dc: &mut DC,
) -> Grid<M::C>
    requires dim { (M.held m.old).dim ≡ setup.now.dim }
    requires greatest { max_level M.rules (M.held m.old) ≡ setup.now.max_level }
    requires new { DV.holds dv.old ≡ new_holdings 10 }
    requires no_cells { DC.holds dc.old ≡ new_holdings 2 }
    ensures axes { result.dim ≡ setup.now.dim }
    ensures finished { result.finished ≤ 1 }
    ensures counts { CountsWithin (DV.holds dv.new) (2 ^ 60) }
    ensures cell_counts { CountsWithin (DC.holds dc.new) (2 ^ 60) }
    ensures grid { HoldAGrid M.numbers (M.held m.new) setup.now.max_level
        (record { vertices = DV.holds dv.new; cells = DC.holds dc.new }) result }
    ensures keeps { Keeps (M.held m.old) (M.held m.new) }
{
    let fresh = fresh_grid(root, setup, m, dv, dc);
    match past {
        Past::Fresh => return fresh,
        Past::Traversed => return traversed(rt, fresh, setup, m, dv, dc),
    }
}

/// What a traversal counts and leaves: how many are finished, the next one's input, the root's record, and both depots.
#[derive(Drop)]
struct Left {
    tally: Tally,
    finished: u64,
    input: u8,
    root: CellRec<Number>,
    vertices: VecDepot<Vertex<Number>>,
    cells: VecDepot<CellRec<Number>>,
}

// One more traversal of a grid, by a ledger.
fn left_by(
    rt: &impl Abort,
    alloc: Global,
    setup: &Setup,
    past: Past,
    walk: Walk,
) -> Result<Left, Fail> {
    let mut ledger = Ledger::new(alloc, setup.dim, setup.max_level);
    let root = ledger.fresh_c()?;
    let mut dv = VecDepot::new(alloc, 10)?;
    let mut dc = VecDepot::new(alloc, 2)?;
    let grid = grid_of(rt, past, root, setup, &mut ledger, &mut dv, &mut dc);
    let (grid, tally) = match walk {
        Walk::Whole => {
            traverse(grid, setup, &mut ledger, &mut dv, &mut dc).expect(rt, "a traversal")
        }
        Walk::ByCells => traverse_by_cells(rt, grid, setup, &mut ledger, &mut dv, &mut dc),
    };
    Ok(Left {
        tally,
        finished: grid.finished(),
        input: grid.input(),
        root: grid.close(),
        vertices: dv,
        cells: dc,
    })
}

fn check_counts<R, D: Depot<R>>(rt: &impl Abort, depot: &D, wanted: &D) {
    assert!(rt; depot.stacks() == wanted.stacks());
    for s in 0..depot.stacks() {
        assert!(rt;
            (depot.len(s), depot.spare(s)) == (wanted.len(s), wanted.spare(s)),
            "stack {s}"
        );
        assert!(rt;
            (depot.pushes(s), depot.pops(s)) == (wanted.pushes(s), wanted.pops(s)),
            "stack {s}"
        );
    }
    assert!(rt; (depot.fresh(), depot.spent()) == (wanted.fresh(), wanted.spent()));
    assert!(rt; (depot.out(), depot.most()) == (wanted.out(), wanted.most()));
}

fn check_vertices(
    rt: &impl Abort,
    depot: &VecDepot<Vertex<Number>>,
    wanted: &VecDepot<Vertex<Number>>,
    s: u8,
) {
    assert!(rt; s < depot.stacks() && s < wanted.stacks());
    assert!(rt; depot.len(s) == wanted.len(s));
    for i in 0..depot.len(s) {
        let (a, b) = (depot.look(s, i), wanted.look(s, i));
        assert!(rt;
            (a.state(), a.kind()) == (b.state(), b.kind()),
            "vertex {i}"
        );
        assert!(rt; *a.payload().0 == *b.payload().0, "vertex {i}");
    }
}

fn check_cells(
    rt: &impl Abort,
    depot: &VecDepot<CellRec<Number>>,
    wanted: &VecDepot<CellRec<Number>>,
    s: u8,
) {
    assert!(rt; s < depot.stacks() && s < wanted.stacks());
    assert!(rt; depot.len(s) == wanted.len(s));
    for i in 0..depot.len(s) {
        let (a, b) = (depot.look(s, i), wanted.look(s, i));
        assert!(rt; *a.payload().0 == *b.payload().0, "cell {i}");
    }
}

// A traversal whose first level is walked cell by cell counts what is wanted, and leaves what one call leaves.
fn check_by_cells(
    rt: &impl Abort,
    alloc: Global,
    setup: &Setup,
    past: Past,
    wanted: &Tally,
) -> Result<(), Fail> {
    let whole = left_by(rt, alloc, setup, past, Walk::Whole)?;
    let left = left_by(rt, alloc, setup, past, Walk::ByCells)?;
    assert!(rt; left.tally == *wanted && whole.tally == *wanted);
    assert!(rt; (left.finished, left.input) == (whole.finished, whole.input));
    assert!(rt; *left.root.payload().0 == *whole.root.payload().0);
    check_counts(rt, &left.vertices, &whole.vertices);
    check_counts(rt, &left.cells, &whole.cells);
    check_vertices(rt, &left.vertices, &whole.vertices, 8);
    check_vertices(rt, &left.vertices, &whole.vertices, 9);
    check_cells(rt, &left.cells, &whole.cells, 0);
    check_cells(rt, &left.cells, &whole.cells, 1);
    Ok(())
}

#[test]
fn cells_are_born_one_by_one(rt: HostRuntime) -> Result<(), Fail> {
    let rows = [
        (2, 1, (9, 0, 4, 4, 0, 20, 1)),
        (2, 2, (90, 0, 68, 68, 0, 88, 2)),
        (3, 1, (27, 0, 8, 8, 0, 152, 1)),
    ];
    for (axes, level, row) in rows {
        let setup = setup_of(axes, level).ok_or("settings")?;
        check_by_cells(&rt, rt.alloc(), &setup, Past::Fresh, &tally_of(1, row))?;
    }
    Ok(())
}

#[test]
fn cells_are_read_one_by_one(rt: HostRuntime) -> Result<(), Fail> {
    let rows = [
        (2, 1, (9, 4, 4, 0, 0, 20, 1)),
        (2, 2, (90, 68, 68, 0, 0, 88, 2)),
        (3, 1, (27, 8, 8, 0, 0, 152, 1)),
    ];
    for (axes, level, row) in rows {
        let setup = setup_of(axes, level).ok_or("settings")?;
        check_by_cells(&rt, rt.alloc(), &setup, Past::Traversed, &tally_of(2, row))?;
    }
    Ok(())
}
