// One corner of a cell, loaded or stored, with all that it asks for.
ghost use Rattle.std.specs.Prelude.{◌≡◌, ℕ, ◌-◌, ◌<◌, ◌^◌, is_err, IfSome};
ghost use Rattle.pe_base.specs.Tree.Places.{corner, parent_of};
ghost use Rattle.pe_base.specs.Tree.Ways.{way_of};
ghost use Rattle.pe_base.specs.Steps.Routes.{stack_in};
ghost use Rattle.pe_access.specs.States.{StandsFor};
ghost use Rattle.pe_base.specs.Acts.Moments.{IsTraversal};
ghost use Rattle.pe_stacks.specs.Corners.{IsFull};
ghost use Rattle.pe_stacks.specs.Holdings.{CountsWithin, stack_count, len_at};
ghost use Rattle.pe_mapping.specs.Held.{max_level, found_of};
ghost use Rattle.pe_stacks.specs.Sights.{record_of, corner_records};
ghost use Rattle.pe_hang.specs.InHand.{setting_of, setting_of_events, Stays};
ghost use Rattle.pe_base.specs.Calls.Follows.{Follows, read_by};
ghost use Rattle.pe_stacks.specs.RecordsOut.{RecordsOut, held_by};
ghost use Rattle.pe_adapt.specs.Stops.{failure_of};
ghost use Rattle.pe_adapt.specs.Ages.{IsPlaced, IsQuiet};
ghost use Rattle.pe_adapt.specs.Spots.{IsSpot, AreStreams, source_of, desk_in_hand};
ghost use Rattle.pe_adapt.specs.Touches.{kind_in_hand, load_corner, store_corner};

use crate::kinds::{ages_of, corner_ages};
use crate::settings::{Settings, settings_at};
use crate::slot::{load_in_slot, store_in_slot};
use crate::{Progress, Spot, WalkStop, WalkedCell};
use pe_access::CellState;
use pe_base::limits::LEAST_CELLS;
use pe_base::{Dim, Setup};
use pe_mapping::Mapping;
use pe_stacks::{CellRec, Corners, Depot, Vertex, close_slot};
use pe_states::Ages;

/// Loads a corner: its record is lent, or popped from the stack that the order around the vertex names, and the events of
/// the load are fired. On an error the record is given up.
///
/// A mapping that is sure never makes this want memory.
pub fn load_corner<M: Mapping, DV: Depot<Vertex<M::V>>>(
    setup: &Setup,
    spot: &Spot,
    state: &CellState,
    m: &mut M,
    dv: &mut DV,
    parents: &mut Corners<M::V>,
    parent: &mut CellRec<M::C>,
) -> Result<Vertex<M::V>, WalkStop>
    requires dim { (M.held m.old).dim ≡ setup.now.dim }
    requires greatest { max_level M.rules (M.held m.old) ≡ setup.now.max_level }
    requires spot { IsSpot (M.held m.old).dim spot.now }
    requires streams { AreStreams spot.now }
    requires state { StandsFor (M.held m.old).dim (way_of spot.now.traversal) spot.now.cell state.now }
    requires full { IsFull (M.held m.old).dim parents.old }
    requires quiet { IsQuiet (M.held m.old).dim (parent_of spot.now.cell) (corner_records M.numbers.vertex parents.old) }
    requires stacks { stack_count (DV.holds dv.old) ≡ 10 }
    requires counts { CountsWithin (DV.holds dv.old) (2 ^ 62 - 1) }
    requires source { IfSome
        (source_of spot.now.input
        (kind_in_hand (setting_of M.rules (M.held m.old) setup.now.start_level 0 spot.now.traversal) spot.now.cell
        (corner_records M.numbers.vertex parents.old) (corner (M.held m.old).dim spot.now.cell spot.now.corner))
        (stack_in (M.held m.old).dim (way_of spot.now.traversal) (corner (M.held m.old).dim spot.now.cell spot.now.corner) spot.now.cell))
        (λ s. 0 < len_at (DV.holds dv.old) s) }
    ensures follows { (cells : ℕ → ℕ) → Follows
        (load_corner (setting_of M.rules (M.held m.old) setup.now.start_level 0 spot.now.traversal) spot.now.input spot.now.cell spot.now.corner
        (desk_in_hand M.numbers (DV.holds dv.old) parents.old parent.old (M.held m.old).list))
        (λ v. (record_of M.numbers.vertex v, desk_in_hand M.numbers (DV.holds dv.new) parents.new parent.new (M.held m.new).list))
        (read_by failure_of result) (found_of (M.held m.old) (held_by (DV.holds dv.old) (DV.room dv.old)) cells) (M.held m.new).told }
    ensures left { RecordsOut 0 1 (DV.holds dv.old) (DV.room dv.old) (DV.holds dv.new) (DV.room dv.new) (is_err result) }
    ensures stays { Stays M.numbers.vertex (M.held m.old) (M.held m.new) parents.old parents.new }
{
    let ages = corner_ages(
        setup.dim,
        spot.cell.level,
        spot.digits,
        spot.traversal,
        ages_of(setup.dim, parents),
    );
    let settings = settings_at(setup, spot.traversal, spot.input, 0);
    let cell = WalkedCell {
        place: spot.cell,
        state: *state,
        row: state.row(),
        ages,
    };
    let mut progress = Progress::at_first(&settings, spot.cell);
    let mut slot = None;
    match load_in_slot(
        &settings,
        &cell,
        spot.corner,
        &mut progress,
        &mut slot,
        m,
        dv,
        parents,
        parent,
    ) {
        Ok(()) => Ok(slot.unwrap()),
        Err(halt) => {
            close_slot(slot);
            Err(WalkStop::of_halt(halt, progress.at))
        }
    }
}

// What is set for a store, which asks for the traversal and its streams alone: the rest is that of the least grid.
fn settings_of_store(spot: &Spot) -> Settings
    requires traversal { IsTraversal spot.now.traversal }
    requires streams { AreStreams spot.now }
    ensures traversal { result.traversal ≡ spot.now.traversal }
    ensures output { result.output ≡ spot.now.output }
{
    let setup = Setup {
        dim: Dim::new(2).unwrap(),
        max_level: 1,
        start_level: 1,
        max_cells: LEAST_CELLS,
    };
    settings_at(&setup, spot.traversal, spot.input, 0)
}

/// Stores a corner: the events of the store are fired, and its record is given up, or pushed on the stack that the order
/// around the vertex names. On an error the record is given up.
///
/// With a mapping that is sure, memory is wanting only where the record was to be pushed on a stack without spare.
pub fn store_corner<M: Mapping, DV: Depot<Vertex<M::V>>>(
    spot: &Spot,
    state: &CellState,
    m: &mut M,
    dv: &mut DV,
    v: Vertex<M::V>,
    parents: &mut Corners<M::V>,
    parent: &mut CellRec<M::C>,
) -> Result<(), WalkStop>
    requires spot { IsSpot (M.held m.old).dim spot.now }
    requires streams { AreStreams spot.now }
    requires state { StandsFor (M.held m.old).dim (way_of spot.now.traversal) spot.now.cell state.now }
    requires full { IsFull (M.held m.old).dim parents.old }
    requires placed { IsPlaced (M.held m.old).dim v.kind (corner (M.held m.old).dim spot.now.cell spot.now.corner) }
    requires stacks { stack_count (DV.holds dv.old) ≡ 10 }
    requires counts { CountsWithin (DV.holds dv.old) (2 ^ 62 - 1) }
    requires out { 0 < (DV.holds dv.old).out }
    ensures follows { (cells : ℕ → ℕ) → Follows
        (store_corner (setting_of_events M.rules (M.held m.old) spot.now.traversal) spot.now.output spot.now.cell spot.now.corner (record_of M.numbers.vertex v)
        (desk_in_hand M.numbers (DV.holds dv.old) parents.old parent.old (M.held m.old).list))
        (λ done. desk_in_hand M.numbers (DV.holds dv.new) parents.new parent.new (M.held m.new).list)
        (read_by failure_of result) (found_of (M.held m.old) (held_by (DV.holds dv.old) (DV.room dv.old)) cells) (M.held m.new).told }
    ensures left { RecordsOut 1 0 (DV.holds dv.old) (DV.room dv.old) (DV.holds dv.new) (DV.room dv.new) (is_err result) }
    ensures stays { Stays M.numbers.vertex (M.held m.old) (M.held m.new) parents.old parents.new }
{
    let settings = settings_of_store(spot);
    // A store asks for no ages.
    let cell = WalkedCell {
        place: spot.cell,
        state: *state,
        row: state.row(),
        ages: Ages::new(0, 0),
    };
    let mut progress = Progress::at_first(&settings, spot.cell);
    let mut slot = Some(v);
    let answer = store_in_slot(
        &settings,
        &cell,
        spot.corner,
        &mut progress,
        &mut slot,
        m,
        dv,
        parents,
        parent,
    );
    close_slot(slot);
    match answer {
        Ok(()) => Ok(()),
        Err(halt) => Err(WalkStop::of_halt(halt, progress.at)),
    }
}
