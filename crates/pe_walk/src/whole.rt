// A whole traversal of the grid that depots hold.
ghost use Rattle.std.specs.Prelude.{◌≡◌, ◌+◌, ◌^◌, ◌<◌, ◌≤◌, is_err, IfOk};
ghost use Rattle.pe_base.specs.Limits.{most_traversals};
ghost use Rattle.pe_base.specs.Walk.Working.{no_tally};
ghost use Rattle.pe_stacks.specs.Holdings.{CountsWithin};
ghost use Rattle.pe_mapping.specs.Held.{Keeps, found_of};
ghost use Rattle.pe_hang.specs.InHand.{setting_of};
ghost use Rattle.pe_base.specs.Calls.Follows.{Follows, Fits, read_by};
ghost use Rattle.pe_stacks.specs.RecordsOut.{RecordsOut, held_by};
ghost use Rattle.pe_adapt.specs.Stops.{failure_of};
ghost use Rattle.pe_walk.specs.Machine.{traverse};
ghost use Rattle.pe_walk.specs.Gridded.{stream_stacks_of};
ghost use Rattle.pe_adapt.specs.WalkedCells.{stream_stacks_of as stream_stacks_in};
ghost use Rattle.pe_walk.specs.InHand.{machine_between};
ghost use Rattle.pe_walk.specs.Traversing.{IsAdvanced};

use crate::root::{ROOT, walk_stacks};
use pe_adapt::{Progress, Settings, WalkStop, settings_at};
use pe_base::{Setup, Tally};
use pe_mapping::Mapping;
use pe_stacks::{CellRec, Depot, Grid, Vertex};

// What is set for the traversal of a grid that comes next.
fn settings_of<C>(grid: &Grid<C>, setup: &Setup) -> Settings
    requires finished { grid.now.finished < most_traversals }
    ensures setup { result.setup ≡ setup.now }
    ensures traversal { result.traversal ≡ grid.now.finished + 1 }
    ensures streams { stream_stacks_in result ≡ stream_stacks_of grid.now.swapped }
{
    settings_at(setup, grid.finished() + 1, grid.input(), grid.cell_input())
}

/// A traversal on stacks. On an error the root's record is lent and given up, and no record is out.
pub(crate) fn traverse_stacks<M: Mapping, DV: Depot<Vertex<M::V>>, DC: Depot<CellRec<M::C>>>(
    grid: Grid<M::C>,
    setup: &Setup,
    m: &mut M,
    dv: &mut DV,
    dc: &mut DC,
) -> Result<(Grid<M::C>, Tally), WalkStop>
    requires dim { (M.held m.old).dim ≡ setup.now.dim }
    requires finished { grid.finished < most_traversals }
    requires cell_counts { CountsWithin (DC.holds dc.old) (2 ^ 60) }
    requires fits { Fits
        (traverse (setting_of M.rules (M.held m.old) setup.now.start_level setup.now.max_cells (grid.finished + 1)) (stream_stacks_of grid.swapped) setup.now.max_level
        (machine_between M.numbers (DV.holds dv.old) (DC.holds dc.old) grid.root (M.held m.old).list (no_tally (grid.finished + 1)))) }
    ensures follows { Follows
        (traverse (setting_of M.rules (M.held m.old) setup.now.start_level setup.now.max_cells (grid.finished + 1)) (stream_stacks_of grid.swapped) setup.now.max_level
        (machine_between M.numbers (DV.holds dv.old) (DC.holds dc.old) grid.root (M.held m.old).list (no_tally (grid.finished + 1))))
        (λ answer. machine_between M.numbers (DV.holds dv.new) (DC.holds dc.new) answer.0.root (M.held m.new).list answer.1)
        (read_by failure_of result) (found_of (M.held m.old) (held_by (DV.holds dv.old) (DV.room dv.old)) (held_by (DC.holds dc.old) (DC.room dc.old))) (M.held m.new).told }
    ensures left { RecordsOut 0 0 (DV.holds dv.old) (DV.room dv.old) (DV.holds dv.new) (DV.room dv.new) (is_err result) }
    ensures cells_left { RecordsOut 0 0 (DC.holds dc.old) (DC.room dc.old) (DC.holds dc.new) (DC.room dc.new) (is_err result) }
    ensures few { IfOk result (λ answer. answer.1.cells ≤ setup.now.max_cells) }
    ensures keeps { Keeps (M.held m.old) (M.held m.new) }
    ensures advanced { IfOk result (λ answer. IsAdvanced grid answer.0) }
{
    let settings = settings_of(&grid, setup);
    let mut progress = Progress::at_first(&settings, ROOT);
    let mut walked = grid;
    match walk_stacks(&settings, &mut progress, m, dv, dc, walked.root_mut()) {
        Ok(()) => Ok((walked.advanced(), progress.tally)),
        Err(halt) => {
            let root = dc.lend(walked.close());
            dc.give_up(root);
            Err(WalkStop::of_halt(halt, progress.at))
        }
    }
}
