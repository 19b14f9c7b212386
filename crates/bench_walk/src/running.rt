//! Traversals of a new grid in turn, each with its tally and its time.
ghost use Rattle.std.specs.Prelude.{◌≡◌, ◌^◌, ◌<◌, ◌≤◌, true, IfOk};
ghost use Rattle.pe_stacks.specs.Holdings.{CountsWithin};
ghost use Rattle.pe_mapping.specs.Held.{Keeps, max_level};
ghost use Rattle.pe_walk.specs.Traversing.{HoldsNothing, HoldAGrid};

use crate::times::Times;
use pe_base::limits::MOST_TRAVERSALS;
use pe_base::{Setup, Tally, Way};
use pe_mapping::Mapping;
use pe_stacks::{CellRec, Depot, Grid, VecDepot, Vertex};
use pe_walk::traverse;
use std::alloc::Global;
use std::io;
use std::io::{ErrorKind, Print};
use std::time::{Clock, Instant};

const FEW: u64 = 1 << 60;

/// How often a grid is walked, and how many walks are behind before it has its size.
#[derive(Clone, Copy)]
pub struct Repeats {
    /// How often.
    pub all: u64,
    /// How many.
    pub first: u64,
}

// Whether no count of a depot is great.
fn counts_few<R, D: Depot<R>>(depot: &D) -> bool
    ensures { result ≡ true → CountsWithin (D.holds depot.now) (2 ^ 60) }
{
    for s in 0..depot.stacks() {
        if depot.pushes(s) > FEW || depot.pops(s) > FEW {
            return false;
        }
    }
    depot.fresh() <= FEW && depot.spent() <= FEW && depot.out() <= FEW && depot.most() <= FEW
}

// A new grid in depots that hold nothing.
fn begun<M: Mapping, DV: Depot<Vertex<M::V>>, DC: Depot<CellRec<M::C>>>(
    root: M::C,
    setup: &Setup,
    m: &M,
    dv: &DV,
    dc: &DC,
) -> Grid<M::C>
    requires nothing { HoldsNothing 10 (DV.holds dv.now) }
    requires no_cells { HoldsNothing 2 (DC.holds dc.now) }
    ensures axes { result.dim ≡ setup.now.dim }
    ensures grid { HoldAGrid M.numbers (M.held m.now) setup.now.max_level
        (record { vertices = DV.holds dv.now; cells = DC.holds dc.now }) result }
{
    // From the settings it is known that their levels and their dimension are in range.
    let setup = *setup;
    let _axes = setup.dim.axes();
    Grid::fresh(setup.dim, root)
}

fn way_name(way: Way) -> &'static str {
    match way {
        Way::Forward => "forward",
        Way::Inverted => "inverted",
    }
}

// Tells what a traversal counted, and how many seconds it took.
fn told(rt: &(impl Print + Clock), begun: &Instant, tally: &Tally) -> io::Result<f64> {
    let seconds = begun.elapsed(rt)?.as_secs_f64();
    println!(rt;
        "traversal {} {} cells {} in {} out {} created {} destroyed {} hanging {}",
        tally.traversal,
        way_name(tally.way),
        tally.cells,
        tally.read,
        tally.written,
        tally.created,
        tally.destroyed,
        tally.hanging
    )?;
    Ok(seconds)
}

// Walks a grid once. On an error nothing is left of it.
fn walk_once<M: Mapping, DV: Depot<Vertex<M::V>>, DC: Depot<CellRec<M::C>>>(
    rt: &(impl Print + Clock),
    grid: Grid<M::C>,
    setup: &Setup,
    m: &mut M,
    dv: &mut DV,
    dc: &mut DC,
) -> io::Result<(Grid<M::C>, Tally, f64)>
where
    M::C: Drop,
    requires dim { (M.held m.old).dim ≡ setup.now.dim }
    requires axes { grid.dim ≡ setup.now.dim }
    requires greatest { max_level M.rules (M.held m.old) ≡ setup.now.max_level }
    requires grid { HoldAGrid M.numbers (M.held m.old) setup.now.max_level (record { vertices = DV.holds dv.old; cells = DC.holds dc.old }) grid }
    ensures keeps { Keeps (M.held m.old) (M.held m.new) }
    ensures axes { IfOk result (λ answer. answer.0.dim ≡ setup.now.dim) }
    ensures goes_on { IfOk result (λ answer. HoldAGrid M.numbers (M.held m.new) setup.now.max_level (record { vertices = DV.holds dv.new; cells = DC.holds dc.new }) answer.0) }
{
    if !counts_few(dv) || !counts_few(dc) || grid.finished() >= MOST_TRAVERSALS {
        drop(grid.close());
        return Err(io::Error::from(ErrorKind::InvalidInput));
    }
    let begun = match Instant::now(rt) {
        Ok(begun) => begun,
        Err(error) => {
            drop(grid.close());
            return Err(error);
        }
    };
    match traverse(grid, setup, m, dv, dc) {
        Ok((next, tally)) => match told(rt, &begun, &tally) {
            Ok(seconds) => Ok((next, tally, seconds)),
            Err(error) => {
                drop(next.close());
                Err(error)
            }
        },
        Err(_) => Err(io::Error::from(ErrorKind::Other)),
    }
}

/// Walks a new grid in new depots so often, and tells how long it took.
pub fn walk_often<M: Mapping>(
    rt: &(impl Print + Clock),
    alloc: Global,
    setup: &Setup,
    repeats: Repeats,
    m: &mut M,
) -> io::Result<Times>
where
    M::V: Drop,
    M::C: Drop,
    requires dim { (M.held m.old).dim ≡ setup.now.dim }
    requires greatest { max_level M.rules (M.held m.old) ≡ setup.now.max_level }
{
    let mut dv = VecDepot::<Vertex<M::V>>::new(alloc, 10)?;
    let mut dc = VecDepot::<CellRec<M::C>>::new(alloc, 2)?;
    let root = m.fresh_c()?;
    let mut grid = begun(root, setup, m, &dv, &dc);
    let mut times = Times::none();
    for made in 0..repeats.all {
        let (next, tally, seconds) = walk_once(rt, grid, setup, m, &mut dv, &mut dc)?;
        times.add(&tally, seconds, made >= repeats.first);
        grid = next;
    }
    drop(grid.close());
    Ok(times)
}
