//! Some traversals of a fresh grid in depots.
ghost use Rattle.std.specs.Prelude.{◌≡◌, ◌+◌, ◌^◌, ◌<◌, true, IfOk};
ghost use Rattle.pe_stacks.specs.Holdings.{CountsWithin};
ghost use Rattle.pe_mapping.specs.Held.{Keeps, max_level};
ghost use Rattle.pe_walk.specs.Traversing.{Stores, HoldsNothing, HoldAGrid};

use pe_adapt::WalkStop;
use pe_base::limits::MOST_TRAVERSALS;
use pe_base::{Setup, Tally, Way};
use pe_mapping::Mapping;
use pe_stacks::{CellRec, Depot, Grid, Vertex};
use pe_walk::traverse;
use std::process::Abort;

/// What a traversal counts: cells, read, written, created, destroyed, hanging, deepest.
pub(crate) type Row = (u64, u64, u64, u64, u64, u64, u8);

fn tally_of(traversal: u64, row: Row) -> Tally {
    let (cells, read, written, created, destroyed, hanging, deepest) = row;
    Tally {
        traversal,
        way: Way::of(traversal),
        cells,
        read,
        written,
        created,
        destroyed,
        hanging,
        deepest,
    }
}

const FEW: u64 = 1 << 60;

// Whether no count of a depot is great.
fn counts_few<R, D: Depot<R>>(depot: &D) -> bool
    ensures { result ≡ true → CountsWithin (D.holds depot.now) (2 ^ 60) }
{
    for s in 0..depot.stacks() {
        if depot.pushes(s) > FEW || depot.pops(s) > FEW {
            return false;
        }
    }
    depot.fresh() <= FEW && depot.spent() <= FEW && depot.out() <= FEW && depot.most() <= FEW
}

// Whether a depot of that many stacks holds nothing.
fn holds_nothing<R, D: Depot<R>>(depot: &D, stacks: u8) -> bool
    ensures { result ≡ true → HoldsNothing stacks (D.holds depot.now) }
{
    for s in 0..depot.stacks() {
        if depot.len(s) > 0 {
            return false;
        }
    }
    depot.stacks() == stacks && depot.out() == 0
}

// A fresh grid in depots that hold nothing.
fn begun<M: Mapping, DV: Depot<Vertex<M::V>>, DC: Depot<CellRec<M::C>>>(
    root: M::C,
    setup: &Setup,
    m: &M,
    dv: &DV,
    dc: &DC,
) -> Grid<M::C>
    requires nothing { HoldsNothing 10 (DV.holds dv.now) }
    requires no_cells { HoldsNothing 2 (DC.holds dc.now) }
    ensures axes { result.dim ≡ setup.now.dim }
    ensures grid { HoldAGrid M.numbers (M.held m.now) setup.now.max_level
        (record { vertices = DV.holds dv.now; cells = DC.holds dc.now }) result }
{
    // From the settings it is known that their levels and their dimension are in range.
    let setup = *setup;
    let _axes = setup.dim.axes();
    Grid::fresh(setup.dim, root)
}

/// Makes as many traversals as there are rows, and compares what they count. The answer is why a traversal stopped, and how
/// many there were before it.
pub(crate) fn walks_as<M: Mapping, DV: Depot<Vertex<M::V>>, DC: Depot<CellRec<M::C>>>(
    rt: &impl Abort,
    root: M::C,
    setup: &Setup,
    m: &mut M,
    dv: &mut DV,
    dc: &mut DC,
    rows: &[Row],
) -> Option<WalkStop>
where
    M::C: Drop,
    requires dim { (M.held m.old).dim ≡ setup.now.dim }
    requires greatest { max_level M.rules (M.held m.old) ≡ setup.now.max_level }
{
    assert!(rt; holds_nothing(dv, 10) && holds_nothing(dc, 2));
    let mut grid = begun(root, setup, m, dv, dc);
    for row in rows {
        assert!(rt; counts_few(dv) && counts_few(dc) && grid.finished() < MOST_TRAVERSALS);
        let wanted = tally_of(grid.finished() + 1, *row);
        match traverse(grid, setup, m, dv, dc) {
            Ok((next, tally)) => {
                assert!(rt; tally == wanted);
                grid = next;
            }
            Err(stop) => return Some(stop),
        }
    }
    drop(grid.close());
    None
}
