// The walk of one cell, as a call of its own.
ghost use Rattle.std.specs.Prelude.{◌≡◌, ℕ, ◌≤◌, ◌^◌, List, length, is_err, OnOk};
ghost use Rattle.pe_base.specs.declared.place.Place.{Place as APlace};
ghost use Rattle.pe_base.specs.Tree.Dim.{IsDim};
ghost use Rattle.pe_base.specs.Acts.Effects.{VertexRecord};
ghost use Rattle.pe_stacks.specs.Corners.{IsFull};
ghost use Rattle.pe_mapping.specs.Held.{max_level, found_of};
ghost use Rattle.pe_stacks.specs.Sights.{corner_records};
ghost use Rattle.pe_hang.specs.InHand.{setting_of, cells_on_stacks, Stays};
ghost use Rattle.pe_stacks.specs.RecordsOut.{RecordsOut, held_by};
ghost use Rattle.pe_base.specs.Calls.Follows.{read_by};
ghost use Rattle.pe_adapt.specs.Stops.{failure_of};
ghost use Rattle.pe_adapt.specs.Ages.{AreAgesOf, GiveKinds};
ghost use Rattle.pe_walk.specs.Machine.{kind_among};
ghost use Rattle.pe_adapt.specs.WalkedCells.{IsWalked, machine_in_hand};
ghost use Rattle.pe_order.specs.CellTraffic.{CountsAreFew};
ghost use Rattle.pe_walk.specs.Beneath.{LeavesBeneath};
ghost use Rattle.pe_walk.specs.FaceLaw.{Moment, IsCalledAt, MayCall, CellAnswers, by_address};

use crate::axes;
use crate::root::kind_of_children;
use pe_access::CellState;
use pe_adapt::{Progress, Settings, WalkStop, WalkedCell, ages_of, corner_ages, settings_at};
use pe_base::{Digits, Kind, Place, Setup, Tally};
use pe_mapping::Mapping;
use pe_stacks::{CellRec, Corners, Depot, Vertex};
use pe_states::{Ages, kind_of};

// The kind of a cell of a level, by the ages of its parent's corners.
fn kind_at(traversal: u64, level: u8, parents: Ages) -> Kind
    requires { 1 ≤ level }
    ensures { (axes : ℕ) (cell : APlace) (its : List VertexRecord) → IsDim axes → cell.level ≡ level → length its ≡ 2 ^ axes → AreAgesOf axes its parents
        → kind_among traversal cell its ≡ result }
{
    if level == 1 {
        kind_of_children(traversal)
    } else {
        let (old, new) = parents.any();
        kind_of(old, new)
    }
}

// What is known of a cell, by its parent's corners.
fn walked_cell(
    settings: &Settings,
    digits: Digits,
    at: &Place,
    state: &CellState,
    parents: Ages,
) -> WalkedCell
    requires called { IsCalledAt settings.now.setup.dim settings.now.traversal at.now digits state.now }
    ensures walked { IsWalked settings.now.setup.dim settings.now result }
    ensures place { result.place ≡ at.now }
    ensures kinds { (its : List VertexRecord) → AreAgesOf settings.now.setup.dim its parents
        → GiveKinds settings.now.setup.dim settings.now.traversal at.now its result.ages }
{
    let dim = settings.setup.dim;
    WalkedCell {
        place: *at,
        state: *state,
        row: state.row(),
        ages: corner_ages(dim, at.level, digits, settings.traversal, parents),
    }
}

/// Walks a cell below the root with all below it, as a traversal does when it comes to the cell.
///
/// At that moment each stack has on top what the walk of the cell takes from it: the vertices that arrive at its faces from
/// earlier cells, and on the input stacks the vertices and cells that it reads. `parents` and `parent` are the corners and the
/// record of the cell's parent, `digits` the cell's digits there, and `state` is its state in the way of this traversal.
/// Afterwards what arrived and was read is gone. What leaves the cell at its faces to later cells lies on their stacks, what
/// it writes on the output stacks, and all beneath is as it was, each vertex and each cell there with its values. All values
/// are those of the walk by address. The tally counts on, and each stack has moved just what the loads and stores within the
/// cell ask for.
///
/// It ends as `traverse` does: with `Event`, `CellLimit` or `Memory`. After an error nothing of the cell stays out.
pub fn walk_cell<M: Mapping, DV: Depot<Vertex<M::V>>, DC: Depot<CellRec<M::C>>>(
    setup: &Setup,
    traversal: u64,
    input: u8,
    cell_input: u8,
    digits: Digits,
    at: &Place,
    state: &CellState,
    m: &mut M,
    dv: &mut DV,
    dc: &mut DC,
    parents: &mut Corners<M::V>,
    parent: &mut CellRec<M::C>,
    tally: &mut Tally,
) -> Result<(), WalkStop>
    requires dim { (M.held m.old).dim ≡ setup.now.dim }
    requires greatest { max_level M.rules (M.held m.old) ≡ setup.now.max_level }
    requires called { IsCalledAt (M.held m.old).dim traversal at.now digits state.now }
    requires full { IsFull (M.held m.old).dim parents.old }
    requires few { CountsAreFew setup.now.max_cells tally.old (DV.holds dv.old) (DC.holds dc.old) }
    requires may { (moment : Moment) × MayCall (setting_of M.rules (M.held m.old) setup.now.start_level setup.now.max_cells traversal) setup.now.max_level at.now input cell_input
        (machine_in_hand M.numbers (DV.holds dv.old) (cells_on_stacks M.numbers (DC.holds dc.old)) parents.old parent.old (M.held m.old).list tally.old) moment }
    ensures answers { (moment : Moment)
        → MayCall (setting_of M.rules (M.held m.old) setup.now.start_level setup.now.max_cells traversal) setup.now.max_level at.now input cell_input
        (machine_in_hand M.numbers (DV.holds dv.old) (cells_on_stacks M.numbers (DC.holds dc.old)) parents.old parent.old (M.held m.old).list tally.old) moment
        → CellAnswers (setting_of M.rules (M.held m.old) setup.now.start_level setup.now.max_cells traversal) moment
        (by_address (setting_of M.rules (M.held m.old) setup.now.start_level setup.now.max_cells traversal) moment)
        (read_by failure_of result) (found_of (M.held m.old) (held_by (DV.holds dv.old) (DV.room dv.old)) (held_by (DC.holds dc.old) (DC.room dc.old)))
        (record { vertices = DV.holds dv.old; cells = DC.holds dc.old }) tally.old (M.held m.new).told (record { vertices = DV.holds dv.new; cells = DC.holds dc.new })
        (machine_in_hand M.numbers (DV.holds dv.new) (cells_on_stacks M.numbers (DC.holds dc.new)) parents.new parent.new (M.held m.new).list tally.new) }
    ensures beneath { OnOk result ((moment : Moment)
        → MayCall (setting_of M.rules (M.held m.old) setup.now.start_level setup.now.max_cells traversal) setup.now.max_level at.now input cell_input
        (machine_in_hand M.numbers (DV.holds dv.old) (cells_on_stacks M.numbers (DC.holds dc.old)) parents.old parent.old (M.held m.old).list tally.old) moment
        → LeavesBeneath moment (machine_in_hand M.numbers (DV.holds dv.old) (cells_on_stacks M.numbers (DC.holds dc.old)) parents.old parent.old (M.held m.old).list tally.old)
        (machine_in_hand M.numbers (DV.holds dv.new) (cells_on_stacks M.numbers (DC.holds dc.new)) parents.new parent.new (M.held m.new).list tally.new)) }
    ensures left { RecordsOut 0 0 (DV.holds dv.old) (DV.room dv.old) (DV.holds dv.new) (DV.room dv.new) (is_err result) }
    ensures cells_left { RecordsOut 0 0 (DC.holds dc.old) (DC.room dc.old) (DC.holds dc.new) (DC.room dc.new) (is_err result) }
    ensures stays { Stays M.numbers.vertex (M.held m.old) (M.held m.new) parents.old parents.new }
{
    let settings = settings_at(setup, traversal, input, cell_input);
    let ages = ages_of(setup.dim, parents);
    let cell = walked_cell(&settings, digits, at, state, ages);
    let kind = kind_at(traversal, at.level, ages);
    let levels = setup.max_level - at.level;
    let mut progress = Progress {
        tally: *tally,
        at: *at,
    };
    let mut corners = Corners::empty(setup.dim);
    let walked = axes::walk_cell(
        &settings,
        &cell,
        kind,
        levels,
        &mut progress,
        m,
        dv,
        dc,
        &mut corners,
        parents,
        parent,
    );
    corners.close();
    *tally = progress.tally;
    match walked {
        Ok(()) => Ok(()),
        Err(halt) => Err(WalkStop::of_halt(halt, progress.at)),
    }
}
