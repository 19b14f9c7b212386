//! The traversals of a scenario in turn.
ghost use Rattle.std.specs.Prelude.{◌≡◌, ◌<◌, ◌≤◌, false, length, List};
ghost use Rattle.pe_base.specs.Limits.{scenario_traversals};
ghost use Rattle.pe_base.specs.Acts.Payloads.{zeros};
ghost use Rattle.pe_base.specs.Tree.Dim.{IsDim};
ghost use Rattle.pe_base.specs.Walk.Grids.{Grid as AGrid};
ghost use Rattle.pe_base.specs.Walk.Traversals.{Traversal};
ghost use Rattle.pe_stacks.specs.Holdings.{new_holdings};
ghost use Rattle.pe_base.specs.Calls.Follows.{read_by};
ghost use Rattle.pe_io.specs.Sink.{told_by};
ghost use Rattle.pe_adapt.specs.Stops.{failure_of};
ghost use Rattle.pe_scene.specs.SaidView.{said_of};
ghost use Rattle.pe_run.specs.declared.traversals.Halt.TheVariants.{Line as HaltLine};
ghost use Rattle.pe_run.specs.Between.{Stands, WalkAnswer, TraversalAnswer};
ghost use Rattle.pe_run.specs.Stages.{TraversalsAnswer};

use pe_adapt::WalkStop;
use pe_base::{Dim, Fields, Tally};
use pe_interp::Interp;
use pe_io::{Sink, SinkFailed};
use pe_report::tally_line;
use pe_scene::Scenario;
use pe_stacks::{CellRec, Depot, Grid, Vertex};
use pe_walk::traverse;

/// What a run has in hand between two traversals: the handle of the grid, and the numbers of the whole grid.
pub struct Between {
    /// The handle.
    pub grid: Grid<Fields>,
    /// The numbers.
    pub globals: Fields,
}

impl Between {
    /// Before the first traversal: all numbers are zeros.
    fn fresh(dim: Dim) -> Between
        ensures grid { result.grid ≡ record {
          dim = dim;
          finished = 0;
          swapped = false;
          root = record { payload = result.globals };
        } }
        ensures globals { result.globals.a ≡ zeros }
        ensures range { IsDim dim }
    {
        // From the number of axes it is known that the dimension is in range.
        let _axes = dim.axes();
        Between {
            grid: Grid::fresh(dim, Fields::zero()),
            globals: Fields::zero(),
        }
    }

    /// Ends the grid. Nothing of it stays.
    fn close(self) {
        let Between { grid, globals: _ } = self;
        drop(grid.close());
    }
}

/// Why traversals in turn end before all are done.
#[derive(Debug, Drop)]
pub enum Halt {
    /// A traversal stopped.
    Walk {
        /// Its number.
        traversal: u64,
        /// Why.
        stop: WalkStop,
    },
    /// The sink failed at the line of a tally.
    Line,
}

impl From<SinkFailed> for Halt {
    ghost from_gives = { λ _ halt. halt ≡ HaltLine };

    fn from(_: SinkFailed) -> Halt {
        Halt::Line
    }
}

/// Makes the traversals of a scenario in turn, from a grid of which nothing is known yet, and writes the tally line of each.
/// After an error nothing is out, and what lies on the stacks is left to `clear`.
pub fn traverse_all<K: Sink, DV: Depot<Vertex<Fields>>, DC: Depot<CellRec<Fields>>>(
    scenario: &Scenario,
    sink: &mut K,
    vertices: &mut DV,
    cells: &mut DC,
) -> Result<(), Halt>
    requires few { scenario.now.traversals ≤ scenario_traversals }
    requires vertices { DV.holds vertices.old ≡ new_holdings 10 }
    requires cells { DC.holds cells.old ≡ new_holdings 2 }
    ensures answer { TraversalsAnswer (said_of scenario.now) (told_by K.text K.writes K.faults sink.old) (told_by K.text K.writes K.faults sink.new)
        (DV.holds vertices.new) (DC.holds cells.new) result }
    ensures idle { (DV.holds vertices.new).out ≡ 0 }
    ensures idle_cells { (DC.holds cells.new).out ≡ 0 }
{
    let mut between = Between::fresh(scenario.setup.dim);
    for _ in 0..scenario.traversals {
        match traverse_more(scenario, between, sink, vertices, cells) {
            Ok(next) => between = next,
            Err(halt) => return Err(halt),
        }
    }
    between.close();
    Ok(())
}

// One traversal more, with its tally line.
fn traverse_more<K: Sink, DV: Depot<Vertex<Fields>>, DC: Depot<CellRec<Fields>>>(
    scenario: &Scenario,
    between: Between,
    sink: &mut K,
    vertices: &mut DV,
    cells: &mut DC,
) -> Result<Between, Halt>
    requires stands { (made : List Traversal) × (grid : AGrid) × (length made < scenario_traversals)
        × Stands (said_of scenario.now) between (DV.holds vertices.old) (DC.holds cells.old) made grid }
    ensures answer { (made : List Traversal) (grid : AGrid) → Stands (said_of scenario.now) between (DV.holds vertices.old) (DC.holds cells.old) made grid
        → TraversalAnswer (said_of scenario.now) grid made (told_by K.text K.writes K.faults sink.old) (told_by K.text K.writes K.faults sink.new)
        (DV.holds vertices.new) (DC.holds cells.new) result }
    ensures idle { (DV.holds vertices.new).out ≡ 0 }
    ensures idle_cells { (DC.holds cells.new).out ≡ 0 }
{
    let traversal = between.grid.finished() + 1;
    match walk_once(scenario, between, sink, vertices, cells) {
        Ok((next, tally)) => match tally_line(sink, &tally) {
            Ok(()) => Ok(next),
            Err(_) => {
                next.close();
                Err(Halt::Line)
            }
        },
        Err(stop) => Err(Halt::Walk { traversal, stop }),
    }
}

// One traversal more of the grid, and its tally, as the walk by address makes it.
fn walk_once<K: Sink, DV: Depot<Vertex<Fields>>, DC: Depot<CellRec<Fields>>>(
    scenario: &Scenario,
    between: Between,
    sink: &mut K,
    vertices: &mut DV,
    cells: &mut DC,
) -> Result<(Between, Tally), WalkStop>
    requires stands { (made : List Traversal) × (grid : AGrid) × (length made < scenario_traversals)
        × Stands (said_of scenario.now) between (DV.holds vertices.old) (DC.holds cells.old) made grid }
    ensures answer { (made : List Traversal) (grid : AGrid) → Stands (said_of scenario.now) between (DV.holds vertices.old) (DC.holds cells.old) made grid
        → WalkAnswer (said_of scenario.now) grid made (told_by K.text K.writes K.faults sink.old) (told_by K.text K.writes K.faults sink.new)
        (DV.holds vertices.new) (DC.holds cells.new) (read_by failure_of result) }
    ensures idle { (DV.holds vertices.new).out ≡ 0 }
    ensures idle_cells { (DC.holds cells.new).out ≡ 0 }
{
    let Between { grid, globals } = between;
    let mut mapping = Interp::new(scenario, globals, sink);
    let walked = traverse(grid, &scenario.setup, &mut mapping, vertices, cells);
    let globals = mapping.globals();
    match walked {
        Ok((grid, tally)) => Ok((Between { grid, globals }, tally)),
        Err(stop) => Err(stop),
    }
}
