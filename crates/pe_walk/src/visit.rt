// The visit of a cell: its record comes to hand, the cell is entered and left, and the record goes.
ghost use Rattle.std.specs.Prelude.{◌≡◌, ℕ, ◌+◌, ◌≤◌, ◌<◌, ◌^◌, [], Err, is_err, OnOk};
ghost use Rattle.pe_base.specs.declared.kind.Kind.TheVariants.{Born, Dying};
ghost use Rattle.pe_base.specs.declared.event.Event.TheVariants.{EnterCell};
ghost use Rattle.pe_base.specs.declared.event.Sort.TheVariants.{Cell as OfCell};
ghost use Rattle.pe_base.specs.Acts.Events.{sort_of};
ghost use Rattle.pe_base.specs.Walk.Core.{cell_event, enter_touch, leave_touch};
ghost use Rattle.pe_stacks.specs.declared.record.Vertex.{Vertex as AVertex};
ghost use Rattle.pe_stacks.specs.Corners.{IsFull};
ghost use Rattle.pe_stacks.specs.Holdings.{Holdings, lent};
ghost use Rattle.pe_stacks.specs.Sights.{corner_records};
ghost use Rattle.pe_base.specs.Acts.Moments.{IsBelowRoot};
ghost use Rattle.pe_hang.specs.InHand.{family_in_hand, own_in_hand, cells_on_stacks, CornersStay, Stays};
ghost use Rattle.pe_base.specs.Calls.Follows.{Follows, Fits, read_by};
ghost use Rattle.pe_stacks.specs.RecordsOut.{RecordsOut, held_by};
ghost use Rattle.pe_mapping.specs.Held.{found_of};
ghost use Rattle.pe_walk.specs.Machine.{kind_among, enter_cell, leave_cell};
ghost use Rattle.pe_adapt.specs.WalkedCells.{setting_in, stream_stacks_of, machine_in_hand, failure_in};

use pe_adapt::{Inner, Progress, Settings, put_down};
use pe_base::{Event, Kind, Place};
use pe_mapping::Mapping;
use pe_stacks::{CellRec, Corners, Depot};

// Fires an event of a cell.
#[tactic(auto, using(pe_hang::proofs::Ages::ages_triggered))]
fn fire_cell<M: Mapping>(
    event: Event,
    settings: &Settings,
    at: &Place,
    cell: &mut CellRec<M::C>,
    progress: &mut Progress,
    m: &mut M,
    corners: &mut Corners<M::V>,
    parents: &mut Corners<M::V>,
    parent: &mut CellRec<M::C>,
) -> Result<(), Inner>
    requires sort { sort_of event ≡ OfCell }
    requires place { IsBelowRoot at.now }
    requires full { IsFull (M.held m.old).dim parents.old }
    requires own_full { IsFull (M.held m.old).dim corners.old }
    ensures follows { (vertices cells : ℕ → ℕ) → Follows
        (cell_event (setting_in M.rules (M.held m.old) settings.now) event at.now
        (own_in_hand M.numbers cell.old corners.old, family_in_hand M.numbers parents.old parent.old (M.held m.old).list))
        (λ done. (own_in_hand M.numbers cell.new corners.new, family_in_hand M.numbers parents.new parent.new (M.held m.new).list))
        (read_by (failure_in progress.new) result) (found_of (M.held m.old) vertices cells) (M.held m.new).told }
    ensures stays { Stays M.numbers.vertex (M.held m.old) (M.held m.new) parents.old parents.new }
    ensures own { CornersStay M.numbers.vertex (M.held m.old).dim corners.old corners.new }
    ensures tally { progress.new.tally ≡ progress.old.tally }
{
    match m.cell_event(
        event,
        settings.traversal,
        at,
        cell,
        corners,
        parents,
        parent,
    ) {
        Ok(()) => Ok(()),
        Err(stop) => {
            progress.at = *at;
            Err(Inner::of_event(stop, event))
        }
    }
}

// Enters a cell whose record is out. On an error the record is given up.
fn enter_found<M: Mapping, DC: Depot<CellRec<M::C>>>(
    settings: &Settings,
    at: &Place,
    cell: CellRec<M::C>,
    progress: &mut Progress,
    m: &mut M,
    dc: &mut DC,
    corners: &mut Corners<M::V>,
    parents: &mut Corners<M::V>,
    parent: &mut CellRec<M::C>,
) -> Result<CellRec<M::C>, Inner>
    requires place { IsBelowRoot at.now }
    requires full { IsFull (M.held m.old).dim parents.old }
    requires own_full { IsFull (M.held m.old).dim corners.old }
    requires out { 0 < (DC.holds dc.old).out }
    ensures follows { (vertices cells : ℕ → ℕ) → Follows
        (cell_event (setting_in M.rules (M.held m.old) settings.now) EnterCell at.now
        (own_in_hand M.numbers cell corners.old, family_in_hand M.numbers parents.old parent.old (M.held m.old).list))
        (λ cell. (own_in_hand M.numbers cell corners.new, family_in_hand M.numbers parents.new parent.new (M.held m.new).list))
        (read_by (failure_in progress.new) result) (found_of (M.held m.old) vertices cells) (M.held m.new).told }
    ensures holds { OnOk result (DC.holds dc.new ≡ DC.holds dc.old) }
    ensures left { RecordsOut 1 1 (DC.holds dc.old) (DC.room dc.old) (DC.holds dc.new) (DC.room dc.new) (is_err result) }
    ensures fresh { (DC.holds dc.new).fresh ≡ (DC.holds dc.old).fresh }
    ensures stays { Stays M.numbers.vertex (M.held m.old) (M.held m.new) parents.old parents.new }
    ensures own { CornersStay M.numbers.vertex (M.held m.old).dim corners.old corners.new }
    ensures tally { progress.new.tally ≡ progress.old.tally }
{
    let mut cell = cell;
    let event = Event::EnterCell;
    match fire_cell(
        event, settings, at, &mut cell, progress, m, corners, parents, parent,
    ) {
        Ok(()) => Ok(cell),
        Err(halt) => {
            dc.give_up(cell);
            Err(halt)
        }
    }
}

// Makes the record of a cell that is born, and enters the cell. On an error the record is given up.
fn enter_born<M: Mapping, DC: Depot<CellRec<M::C>>>(
    settings: &Settings,
    at: &Place,
    progress: &mut Progress,
    m: &mut M,
    dc: &mut DC,
    corners: &mut Corners<M::V>,
    parents: &mut Corners<M::V>,
    parent: &mut CellRec<M::C>,
) -> Result<CellRec<M::C>, Inner>
    requires place { IsBelowRoot at.now }
    requires full { IsFull (M.held m.old).dim parents.old }
    requires own_full { IsFull (M.held m.old).dim corners.old }
    requires count { (DC.holds dc.old).fresh < 2 ^ 63 }
    ensures follows { (vertices cells : ℕ → ℕ) → Follows
        (enter_touch (setting_in M.rules (M.held m.old) settings.now) Born [] at.now (corner_records M.numbers.vertex corners.old)
        (family_in_hand M.numbers parents.old parent.old (M.held m.old).list))
        (λ cell. (own_in_hand M.numbers cell corners.new, family_in_hand M.numbers parents.new parent.new (M.held m.new).list))
        (read_by (failure_in progress.new) result) (found_of (M.held m.old) vertices cells) (M.held m.new).told }
    ensures holds { OnOk result (DC.holds dc.new ≡ lent (DC.holds dc.old)) }
    ensures left { RecordsOut 0 1 (DC.holds dc.old) (DC.room dc.old) (DC.holds dc.new) (DC.room dc.new) (is_err result) }
    ensures fresh { (DC.holds dc.new).fresh ≤ (DC.holds dc.old).fresh + 1 }
    ensures stays { Stays M.numbers.vertex (M.held m.old) (M.held m.new) parents.old parents.new }
    ensures own { CornersStay M.numbers.vertex (M.held m.old).dim corners.old corners.new }
    ensures tally { progress.new.tally ≡ progress.old.tally }
{
    let payload = match m.fresh_c() {
        Ok(payload) => payload,
        Err(_) => return Err(Inner::Memory),
    };
    let mut cell = dc.lend(CellRec::new(payload));
    let event = Event::CreateCell;
    match fire_cell(
        event, settings, at, &mut cell, progress, m, corners, parents, parent,
    ) {
        Ok(()) => enter_found(
            settings, at, cell, progress, m, dc, corners, parents, parent,
        ),
        Err(halt) => {
            dc.give_up(cell);
            Err(halt)
        }
    }
}

/// Enters a cell of a kind: its record is made where it is born, else taken off the input. On an error the record is given up.
pub(crate) fn enter_cell<M: Mapping, DC: Depot<CellRec<M::C>>>(
    settings: &Settings,
    at: &Place,
    kind: Kind,
    progress: &mut Progress,
    m: &mut M,
    dc: &mut DC,
    corners: &mut Corners<M::V>,
    parents: &mut Corners<M::V>,
    parent: &mut CellRec<M::C>,
) -> Result<CellRec<M::C>, Inner>
    requires place { IsBelowRoot at.now }
    requires kind { kind_among settings.now.traversal at.now (corner_records M.numbers.vertex parents.old) ≡ kind }
    requires full { IsFull (M.held m.old).dim parents.old }
    requires own_full { IsFull (M.held m.old).dim corners.old }
    requires fits { (vertices : Holdings (AVertex M.V)) × Fits
        (enter_cell (setting_in M.rules (M.held m.old) settings.now) (stream_stacks_of settings.now) at.now (corner_records M.numbers.vertex corners.old)
        (machine_in_hand M.numbers vertices (cells_on_stacks M.numbers (DC.holds dc.old)) parents.old parent.old (M.held m.old).list progress.old.tally)) }
    ensures follows { (vertices : Holdings (AVertex M.V)) (room : ℕ → ℕ) → Follows
        (enter_cell (setting_in M.rules (M.held m.old) settings.now) (stream_stacks_of settings.now) at.now (corner_records M.numbers.vertex corners.old)
        (machine_in_hand M.numbers vertices (cells_on_stacks M.numbers (DC.holds dc.old)) parents.old parent.old (M.held m.old).list progress.old.tally))
        (λ cell. (
          own_in_hand M.numbers cell corners.new,
          machine_in_hand M.numbers vertices (cells_on_stacks M.numbers (DC.holds dc.new)) parents.new parent.new (M.held m.new).list progress.new.tally,
        ))
        (read_by (failure_in progress.new) result) (found_of (M.held m.old) room (held_by (DC.holds dc.old) (DC.room dc.old))) (M.held m.new).told }
    ensures left { RecordsOut 0 1 (DC.holds dc.old) (DC.room dc.old) (DC.holds dc.new) (DC.room dc.new) (is_err result) }
    ensures fresh { (DC.holds dc.new).fresh ≤ (DC.holds dc.old).fresh + 1 }
    ensures stays { Stays M.numbers.vertex (M.held m.old) (M.held m.new) parents.old parents.new }
    ensures own { CornersStay M.numbers.vertex (M.held m.old).dim corners.old corners.new }
    ensures tally { progress.new.tally ≡ progress.old.tally }
{
    match kind {
        Kind::Born => enter_born(settings, at, progress, m, dc, corners, parents, parent),
        _ => {
            let cell = dc.pop(settings.cell_input);
            enter_found(
                settings, at, cell, progress, m, dc, corners, parents, parent,
            )
        }
    }
}

// Fires the events of a cell that is left.
fn fire_leaving<M: Mapping>(
    settings: &Settings,
    at: &Place,
    kind: Kind,
    cell: &mut CellRec<M::C>,
    progress: &mut Progress,
    m: &mut M,
    corners: &mut Corners<M::V>,
    parents: &mut Corners<M::V>,
    parent: &mut CellRec<M::C>,
) -> Result<(), Inner>
    requires place { IsBelowRoot at.now }
    requires full { IsFull (M.held m.old).dim parents.old }
    requires own_full { IsFull (M.held m.old).dim corners.old }
    ensures follows { (vertices cells : ℕ → ℕ) → Follows
        (leave_touch (setting_in M.rules (M.held m.old) settings.now) kind at.now (own_in_hand M.numbers cell.old corners.old)
        (family_in_hand M.numbers parents.old parent.old (M.held m.old).list))
        (λ done. (own_in_hand M.numbers cell.new corners.new, family_in_hand M.numbers parents.new parent.new (M.held m.new).list))
        (read_by (failure_in progress.new) result) (found_of (M.held m.old) vertices cells) (M.held m.new).told }
    ensures stays { Stays M.numbers.vertex (M.held m.old) (M.held m.new) parents.old parents.new }
    ensures own { CornersStay M.numbers.vertex (M.held m.old).dim corners.old corners.new }
    ensures tally { progress.new.tally ≡ progress.old.tally }
{
    let event = Event::LeaveCell;
    match fire_cell(
        event, settings, at, cell, progress, m, corners, parents, parent,
    ) {
        Ok(()) => match kind {
            Kind::Dying => {
                let event = Event::DestroyCell;
                fire_cell(
                    event, settings, at, cell, progress, m, corners, parents, parent,
                )
            }
            _ => Ok(()),
        },
        Err(halt) => Err(halt),
    }
}

/// Leaves a cell of a kind: its record is given up where it dies, else put on the output. On an error the record is given up.
pub(crate) fn leave_cell<M: Mapping, DC: Depot<CellRec<M::C>>>(
    settings: &Settings,
    at: &Place,
    kind: Kind,
    cell: CellRec<M::C>,
    progress: &mut Progress,
    m: &mut M,
    dc: &mut DC,
    corners: &mut Corners<M::V>,
    parents: &mut Corners<M::V>,
    parent: &mut CellRec<M::C>,
) -> Result<(), Inner>
    requires place { IsBelowRoot at.now }
    requires kind { kind_among settings.now.traversal at.now (corner_records M.numbers.vertex parents.old) ≡ kind }
    requires full { IsFull (M.held m.old).dim parents.old }
    requires own_full { IsFull (M.held m.old).dim corners.old }
    requires out { 0 < (DC.holds dc.old).out }
    requires fits { (vertices : Holdings (AVertex M.V)) × Fits
        (leave_cell (setting_in M.rules (M.held m.old) settings.now) (stream_stacks_of settings.now) at.now (
          own_in_hand M.numbers cell corners.old,
          machine_in_hand M.numbers vertices (cells_on_stacks M.numbers (DC.holds dc.old)) parents.old parent.old (M.held m.old).list progress.old.tally,
        )) }
    ensures follows { (vertices : Holdings (AVertex M.V)) (room : ℕ → ℕ) → Follows
        (leave_cell (setting_in M.rules (M.held m.old) settings.now) (stream_stacks_of settings.now) at.now (
          own_in_hand M.numbers cell corners.old,
          machine_in_hand M.numbers vertices (cells_on_stacks M.numbers (DC.holds dc.old)) parents.old parent.old (M.held m.old).list progress.old.tally,
        ))
        (λ done. (
          corner_records M.numbers.vertex corners.new,
          machine_in_hand M.numbers vertices (cells_on_stacks M.numbers (DC.holds dc.new)) parents.new parent.new (M.held m.new).list progress.new.tally,
        ))
        (read_by (failure_in progress.new) result) (found_of (M.held m.old) room (held_by (DC.holds dc.old) (DC.room dc.old))) (M.held m.new).told }
    ensures left { RecordsOut 1 0 (DC.holds dc.old) (DC.room dc.old) (DC.holds dc.new) (DC.room dc.new) (is_err result) }
    ensures fresh { (DC.holds dc.new).fresh ≡ (DC.holds dc.old).fresh }
    ensures stays { Stays M.numbers.vertex (M.held m.old) (M.held m.new) parents.old parents.new }
    ensures own { CornersStay M.numbers.vertex (M.held m.old).dim corners.old corners.new }
    ensures tally { progress.new.tally ≡ progress.old.tally }
{
    let mut cell = cell;
    match fire_leaving(
        settings, at, kind, &mut cell, progress, m, corners, parents, parent,
    ) {
        Ok(()) => match kind {
            Kind::Dying => {
                dc.give_up(cell);
                Ok(())
            }
            _ => put_down(dc, settings.cell_output, cell),
        },
        Err(halt) => {
            dc.give_up(cell);
            Err(halt)
        }
    }
}
