ghost use Rattle.std.specs.Prelude.{◌≡◌, ◌+◌, ◌^◌, ◌<◌, ◌≤◌, is_err, IfOk};
ghost use Rattle.pe_base.specs.Limits.{most_traversals};
ghost use Rattle.pe_base.specs.Walk.Grids.{Grid as AGrid};
ghost use Rattle.pe_base.specs.Walk.Walk.{traverse};
ghost use Rattle.pe_stacks.specs.Holdings.{CountsWithin};
ghost use Rattle.pe_mapping.specs.Held.{Keeps, max_level, found_of};
ghost use Rattle.pe_hang.specs.InHand.{setting_of};
ghost use Rattle.pe_stacks.specs.RecordsOut.{RecordsOut, held_by};
ghost use Rattle.pe_base.specs.Calls.Follows.{read_by};
ghost use Rattle.pe_adapt.specs.Stops.{failure_of};
ghost use Rattle.pe_walk.specs.Traversing.{IsAdvanced, MayTraverse, HoldAGrid, Answers};

use crate::whole::traverse_stacks;
use pe_adapt::WalkStop;
use pe_base::{Setup, Tally};
use pe_mapping::Mapping;
use pe_stacks::{CellRec, Depot, Grid, Vertex};

/// Walks all cells of a grid once, in curve order, and fires the events of the mapping.
///
/// The grid is what the depots hold: its vertices and cells lie on the two input stacks, in the order in which this traversal
/// reads them, or there are none yet; all other stacks are empty, and nothing is out. Afterwards they hold the grid that comes
/// next, with input and output exchanged. What the walk by address does with that grid is what this call does: its text, its
/// values, its tally. Each vertex of the grid is popped from the input once, and each of the next is pushed on the output once.
///
/// It ends with `Event` where an event's result is out of range or a divisor is zero, at that event and place, or where the
/// sink failed; with `CellLimit` at the first cell past `max_cells`; and with `Memory` where there was none. A mapping that is
/// sure never makes it want memory where each stack that is no input has room for as many records as the walk has cells, or for
/// `2^d * max_cells`. After an error the grid is gone, nothing is out, and what lies on the stacks is left to `clear`.
pub fn traverse<M: Mapping, DV: Depot<Vertex<M::V>>, DC: Depot<CellRec<M::C>>>(
    grid: Grid<M::C>,
    setup: &Setup,
    m: &mut M,
    dv: &mut DV,
    dc: &mut DC,
) -> Result<(Grid<M::C>, Tally), WalkStop>
    requires dim { (M.held m.old).dim ≡ setup.now.dim }
    requires axes { grid.dim ≡ setup.now.dim }
    requires greatest { max_level M.rules (M.held m.old) ≡ setup.now.max_level }
    requires finished { grid.finished < most_traversals }
    requires counts { CountsWithin (DV.holds dv.old) (2 ^ 60) }
    requires cell_counts { CountsWithin (DC.holds dc.old) (2 ^ 60) }
    requires grid { HoldAGrid M.numbers (M.held m.old) setup.now.max_level (record { vertices = DV.holds dv.old; cells = DC.holds dc.old }) grid }
    ensures answers { (walked : AGrid) → MayTraverse M.numbers (M.held m.old) setup.now.max_level (record { vertices = DV.holds dv.old; cells = DC.holds dc.old }) grid walked
        → Answers M.numbers (setting_of M.rules (M.held m.old) setup.now.start_level setup.now.max_cells (grid.finished + 1)) walked grid.swapped
        (traverse (setting_of M.rules (M.held m.old) setup.now.start_level setup.now.max_cells (grid.finished + 1)) walked)
        (read_by failure_of result) (found_of (M.held m.old) (held_by (DV.holds dv.old) (DV.room dv.old)) (held_by (DC.holds dc.old) (DC.room dc.old)))
        (record { vertices = DV.holds dv.old; cells = DC.holds dc.old }) (M.held m.new) (record { vertices = DV.holds dv.new; cells = DC.holds dc.new }) }
    ensures goes_on { IfOk result (λ answer. HoldAGrid M.numbers (M.held m.new) setup.now.max_level (record { vertices = DV.holds dv.new; cells = DC.holds dc.new }) answer.0) }
    ensures few { IfOk result (λ answer. answer.1.cells ≤ setup.now.max_cells) }
    ensures advanced { IfOk result (λ answer. IsAdvanced grid answer.0) }
    ensures left { RecordsOut 0 0 (DV.holds dv.old) (DV.room dv.old) (DV.holds dv.new) (DV.room dv.new) (is_err result) }
    ensures cells_left { RecordsOut 0 0 (DC.holds dc.old) (DC.room dc.old) (DC.holds dc.new) (DC.room dc.new) (is_err result) }
    ensures keeps { Keeps (M.held m.old) (M.held m.new) }
{
    traverse_stacks(grid, setup, m, dv, dc)
}
