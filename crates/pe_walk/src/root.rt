// The root: its corners are made for one traversal, the traversal begins, its children are walked, and the traversal ends.
ghost use Rattle.std.specs.Prelude.{◌≡◌, ℕ, ◌≤◌, ◌^◌, ◌==◌, if◌then◌else◌, [], is_err, OnOk, OnErr};
ghost use Rattle.pe_base.specs.declared.kind.Kind.TheVariants.{Born, Kept};
ghost use Rattle.pe_base.specs.declared.event.Sort.TheVariants.{Plain};
ghost use Rattle.pe_base.specs.Acts.Events.{sort_of};
ghost use Rattle.pe_base.specs.Walk.Core.{plain_event};
ghost use Rattle.pe_stacks.specs.Corners.{IsFull, no_vertices};
ghost use Rattle.pe_mapping.specs.Held.{Keeps, found_of};
ghost use Rattle.pe_stacks.specs.Sights.{corner_records};
ghost use Rattle.pe_hang.specs.InHand.{vertices_on_stacks, cells_on_stacks};
ghost use Rattle.pe_base.specs.Calls.Follows.{Follows, Fits, wanting, read_by};
ghost use Rattle.pe_stacks.specs.RecordsOut.{RecordsOut, held_by};
ghost use Rattle.pe_adapt.specs.CountedTouches.{Machine as AMachine};
ghost use Rattle.pe_walk.specs.Machine.{root_corners, traverse};
ghost use Rattle.pe_adapt.specs.WalkedCells.{setting_in, stream_stacks_of, machine_in_hand, failure_in};
ghost use Rattle.pe_walk.specs.InHand.{machine_between};
ghost use Rattle.pe_walk.specs.Visits.{walk_root, with_vertices, CountsCells, Walks, WalkLeft, hands_of};

use crate::axes::walk_children;
use crate::child::Above;
use crate::hand::give_up_from;
use pe_access::CellState;
use pe_adapt::{Inner, Progress, Settings, ages_of};
use pe_base::{Event, Kind, Place, State};
use pe_mapping::Mapping;
use pe_stacks::{CellRec, Corners, Depot, Vertex};
use std::alloc::AllocError;

/// The root's place.
pub(crate) const ROOT: Place = Place {
    level: 0,
    pos: [0; 4],
};

// Makes the root's corners, in descending number: fresh records are lent. On an error those that were lent are given up.
fn lend_corners<M: Mapping, DV: Depot<Vertex<M::V>>>(
    settings: &Settings,
    m: &mut M,
    dv: &mut DV,
    corners: &mut Corners<M::V>,
) -> Result<(), AllocError>
    requires dim { (M.held m.old).dim ≡ settings.now.setup.dim }
    requires empty { corners.old ≡ no_vertices settings.now.setup.dim }
    requires fits { (rest : AMachine) × Fits
        (root_corners (setting_in M.rules (M.held m.old) settings.now) (stream_stacks_of settings.now) (2 ^ (M.held m.old).dim) []
        (with_vertices (vertices_on_stacks M.numbers (DV.holds dv.old)) (M.held m.old).list rest)) }
    ensures follows { (rest : AMachine) (cells : ℕ → ℕ) → Follows
        (root_corners (setting_in M.rules (M.held m.old) settings.now) (stream_stacks_of settings.now) (2 ^ (M.held m.old).dim) []
        (with_vertices (vertices_on_stacks M.numbers (DV.holds dv.old)) (M.held m.old).list rest))
        (λ done. (corner_records M.numbers.vertex corners.new, with_vertices (vertices_on_stacks M.numbers (DV.holds dv.new)) (M.held m.new).list rest))
        (read_by (λ error. wanting) result) (found_of (M.held m.old) (held_by (DV.holds dv.old) (DV.room dv.old)) cells) (M.held m.new).told }
    ensures left { RecordsOut 0 (2 ^ settings.now.setup.dim) (DV.holds dv.old) (DV.room dv.old) (DV.holds dv.new) (DV.room dv.new) (is_err result) }
    ensures keeps { Keeps (M.held m.old) (M.held m.new) }
    ensures loaded { OnOk result (IsFull settings.now.setup.dim corners.new) }
    ensures emptied { OnErr result (corners.new ≡ no_vertices settings.now.setup.dim) }
{
    let dim = settings.setup.dim;
    let count = dim.corners();
    for done in 0..count {
        let k = count - 1 - done;
        match m.fresh_v() {
            Ok(payload) => {
                let vertex = Vertex::new(State::Unrefined, Kind::Hanging, payload);
                corners.put(k, dv.lend(vertex));
            }
            Err(error) => {
                give_up_from(dim, k + 1, corners, dv);
                return Err(error);
            }
        }
    }
    Ok(())
}

// Fires an event of the traversal as a whole.
fn fire_plain<M: Mapping>(
    event: Event,
    settings: &Settings,
    progress: &mut Progress,
    m: &mut M,
) -> Result<(), Inner>
    requires sort { sort_of event ≡ Plain }
    ensures follows { (vertices cells : ℕ → ℕ) → Follows (plain_event (setting_in M.rules (M.held m.old) settings.now) event (M.held m.old).list)
        (λ done. (M.held m.new).list) (read_by (failure_in progress.new) result) (found_of (M.held m.old) vertices cells) (M.held m.new).told }
    ensures keeps { Keeps (M.held m.old) (M.held m.new) }
    ensures tally { progress.new.tally ≡ progress.old.tally }
{
    match m.plain_event(event, settings.traversal) {
        Ok(()) => Ok(()),
        Err(stop) => {
            progress.at = ROOT;
            Err(Inner::of_event(stop, event))
        }
    }
}

/// The kind of the root's children.
pub(crate) fn kind_of_children(traversal: u64) -> Kind
    ensures { result ≡ (if traversal == 1 then Born else Kept) }
{
    if traversal == 1 {
        Kind::Born
    } else {
        Kind::Kept
    }
}

// Walks the children of the root, between the first event of the traversal and its last.
fn walk_root<M: Mapping, DV: Depot<Vertex<M::V>>, DC: Depot<CellRec<M::C>>>(
    settings: &Settings,
    progress: &mut Progress,
    m: &mut M,
    dv: &mut DV,
    dc: &mut DC,
    corners: &mut Corners<M::V>,
    root: &mut CellRec<M::C>,
) -> Result<(), Inner>
    requires dim { (M.held m.old).dim ≡ settings.now.setup.dim }
    requires full { IsFull settings.now.setup.dim corners.old }
    requires few { progress.old.tally.cells ≤ settings.now.setup.max_cells }
    requires fits { Fits
        (walk_root (setting_in M.rules (M.held m.old) settings.now) (stream_stacks_of settings.now) settings.now.setup.max_level
        (machine_in_hand M.numbers (DV.holds dv.old) (cells_on_stacks M.numbers (DC.holds dc.old)) corners.old root.old (M.held m.old).list progress.old.tally)) }
    ensures follows { Walks M.rules M.numbers settings.now
        (λ set. walk_root set (stream_stacks_of settings.now) settings.now.setup.max_level)
        (λ machine. machine) result
        (hands_of (M.held m.old) (DV.holds dv.old) (DV.room dv.old) (DC.holds dc.old) (DC.room dc.old) corners.old root.old progress.old)
        (hands_of (M.held m.new) (DV.holds dv.new) (DV.room dv.new) (DC.holds dc.new) (DC.room dc.new) corners.new root.new progress.new) }
    ensures left { WalkLeft M.numbers settings.now 0 result
        (hands_of (M.held m.old) (DV.holds dv.old) (DV.room dv.old) (DC.holds dc.old) (DC.room dc.old) corners.old root.old progress.old)
        (hands_of (M.held m.new) (DV.holds dv.new) (DV.room dv.new) (DC.holds dc.new) (DC.room dc.new) corners.new root.new progress.new) }
{
    match fire_plain(Event::BeginIteration, settings, progress, m) {
        Ok(()) => {}
        Err(halt) => return Err(halt),
    }
    let above = Above {
        place: ROOT,
        state: CellState::root(settings.setup.dim, settings.way),
        ages: ages_of(settings.setup.dim, corners),
    };
    let kind = kind_of_children(settings.traversal);
    let levels = settings.setup.max_level;
    match walk_children(
        settings, &above, kind, levels, progress, m, dv, dc, corners, root,
    ) {
        Ok(()) => fire_plain(Event::EndIteration, settings, progress, m),
        Err(halt) => Err(halt),
    }
}

/// Walks a grid on stacks, with the root's record in hand. Nothing more is out afterwards, whatever the answer.
pub(crate) fn walk_stacks<M: Mapping, DV: Depot<Vertex<M::V>>, DC: Depot<CellRec<M::C>>>(
    settings: &Settings,
    progress: &mut Progress,
    m: &mut M,
    dv: &mut DV,
    dc: &mut DC,
    root: &mut CellRec<M::C>,
) -> Result<(), Inner>
    requires dim { (M.held m.old).dim ≡ settings.now.setup.dim }
    requires few { progress.old.tally.cells ≤ settings.now.setup.max_cells }
    requires fits { Fits
        (traverse (setting_in M.rules (M.held m.old) settings.now) (stream_stacks_of settings.now) settings.now.setup.max_level
        (machine_between M.numbers (DV.holds dv.old) (DC.holds dc.old) root.old (M.held m.old).list progress.old.tally)) }
    ensures follows { Follows
        (traverse (setting_in M.rules (M.held m.old) settings.now) (stream_stacks_of settings.now) settings.now.setup.max_level
        (machine_between M.numbers (DV.holds dv.old) (DC.holds dc.old) root.old (M.held m.old).list progress.old.tally))
        (λ done. machine_between M.numbers (DV.holds dv.new) (DC.holds dc.new) root.new (M.held m.new).list progress.new.tally)
        (read_by (failure_in progress.new) result)
        (found_of (M.held m.old) (held_by (DV.holds dv.old) (DV.room dv.old)) (held_by (DC.holds dc.old) (DC.room dc.old))) (M.held m.new).told }
    ensures left { RecordsOut 0 0 (DV.holds dv.old) (DV.room dv.old) (DV.holds dv.new) (DV.room dv.new) (is_err result) }
    ensures cells_left { RecordsOut 0 0 (DC.holds dc.old) (DC.room dc.old) (DC.holds dc.new) (DC.room dc.new) (is_err result) }
    ensures counts { CountsCells settings.now.setup.max_cells 0 progress.old (DC.holds dc.old) progress.new (DC.holds dc.new) (is_err result) }
    ensures keeps { Keeps (M.held m.old) (M.held m.new) }
{
    let dim = settings.setup.dim;
    let mut corners = Corners::empty(dim);
    match lend_corners(settings, m, dv, &mut corners) {
        Ok(()) => {}
        Err(_) => {
            corners.close();
            return Err(Inner::Memory);
        }
    }
    let walked = walk_root(settings, progress, m, dv, dc, &mut corners, root);
    give_up_from(dim, 0, &mut corners, dv);
    corners.close();
    walked
}
