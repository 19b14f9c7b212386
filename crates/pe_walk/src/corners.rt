// All corners of the cell that is walked, loaded in descending number and stored in ascending number.
ghost use Rattle.std.specs.Prelude.{◌≡◌, ℕ, ℤ, ◌≤◌, ◌^◌, false, [], List, is_err, None, Option, OnOk, OnErr};
ghost use Rattle.pe_stacks.specs.Corners.{IsFull, no_vertices};
ghost use Rattle.pe_stacks.specs.Holdings.{Holdings};
ghost use Rattle.pe_stacks.specs.Sights.{corner_records};
ghost use Rattle.pe_hang.specs.InHand.{Stays};
ghost use Rattle.pe_base.specs.Calls.Follows.{Follows, Fits, read_by};
ghost use Rattle.pe_stacks.specs.RecordsOut.{RecordsOut, held_by};
ghost use Rattle.pe_mapping.specs.Held.{found_of};
ghost use Rattle.pe_adapt.specs.Ages.{GiveKinds};
ghost use Rattle.pe_walk.specs.Machine.{load_all, store_all};
ghost use Rattle.pe_adapt.specs.WalkedCells.{IsWalked, setting_in, stream_stacks_of, machine_in_hand, failure_in};
ghost use Rattle.pe_adapt.specs.TouchCalls.{MayGo, GoesAlong, hand_of, filled_in};
ghost use Rattle.pe_walk.specs.Corners.{AreOf, filled_in_corners, seen_slots};

use crate::quad::{load_last, load_quad, store_quad};
use pe_adapt::{Inner, Progress, Settings, WalkedCell};
use pe_base::Dim;
use pe_mapping::Mapping;
use pe_stacks::{CellRec, Corners, Depot, Vertex};

// Gives up what is in a slot, if it is filled.
fn give_up_slot<X, D: Depot<X>>(d: &mut D, slot: &mut Option<X>)
    requires out { filled_in slot.old ≤ (D.holds d.old).out }
    ensures left { RecordsOut (filled_in slot.old) 0 (D.holds d.old) (D.room d.old) (D.holds d.new) (D.room d.new) false }
    ensures emptied { slot.new ≡ None }
{
    match slot.take() {
        Some(x) => d.give_up(x),
        None => {}
    }
}

// Gives up all corners that are filled.
#[cold]
#[inline(never)]
fn give_up_filled<V, D: Depot<Vertex<V>>>(dim: Dim, d: &mut D, corners: &mut Corners<V>)
    requires corners { AreOf dim corners.old }
    requires out { filled_in_corners corners.old ≤ (D.holds d.old).out }
    ensures left { RecordsOut (filled_in_corners corners.old) 0 (D.holds d.old) (D.room d.old) (D.holds d.new) (D.room d.new) false }
    ensures emptied { corners.new ≡ no_vertices dim }
{
    for k in 0..dim.corners() {
        give_up_slot(d, corners.slot_mut(k));
    }
}

// Loads all corners. On an error those that were loaded stay in their slots.
#[inline(always)]
fn load_quads<const AXES: u8, M: Mapping, DV: Depot<Vertex<M::V>>>(
    settings: &Settings,
    cell: &WalkedCell,
    progress: &mut Progress,
    m: &mut M,
    dv: &mut DV,
    corners: &mut Corners<M::V>,
    parents: &mut Corners<M::V>,
    parent: &mut CellRec<M::C>,
) -> Result<(), Inner>
    requires axes { settings.now.setup.dim ≡ AXES }
    requires dim { (M.held m.old).dim ≡ settings.now.setup.dim }
    requires walked { IsWalked (M.held m.old).dim settings.now cell.now }
    requires kinds { GiveKinds (M.held m.old).dim settings.now.traversal cell.now.place (corner_records M.numbers.vertex parents.old) cell.now.ages }
    requires full { IsFull (M.held m.old).dim parents.old }
    requires empty { corners.old ≡ no_vertices (M.held m.old).dim }
    requires fits { MayGo M.rules M.numbers settings.now (λ set. load_all set (stream_stacks_of settings.now) cell.now.place (2 ^ (M.held m.old).dim) [])
        (hand_of (M.held m.old) (DV.holds dv.old) (DV.room dv.old) parents.old parent.old progress.old) }
    ensures goes { GoesAlong M.rules M.numbers settings.now (λ set. load_all set (stream_stacks_of settings.now) cell.now.place (2 ^ (M.held m.old).dim) [])
        (λ machine. (seen_slots M.numbers.vertex corners.new, machine)) 0 (filled_in_corners corners.new) result
        (hand_of (M.held m.old) (DV.holds dv.old) (DV.room dv.old) parents.old parent.old progress.old)
        (hand_of (M.held m.new) (DV.holds dv.new) (DV.room dv.new) parents.new parent.new progress.new) }
    ensures corners { AreOf (M.held m.old).dim corners.new }
    ensures loaded { OnOk result (filled_in_corners corners.new ≡ 2 ^ (M.held m.old).dim) }
{
    load_last::<AXES, M, DV>(settings, cell, progress, m, dv, corners, parents, parent)?;
    load_quad::<AXES, M, DV>(settings, cell, 1, progress, m, dv, corners, parents, parent)?;
    load_quad::<AXES, M, DV>(settings, cell, 0, progress, m, dv, corners, parents, parent)
}

// Stores all corners. On an error those that were not stored stay in their slots.
#[inline]
fn store_quads<const AXES: u8, M: Mapping, DV: Depot<Vertex<M::V>>>(
    settings: &Settings,
    cell: &WalkedCell,
    progress: &mut Progress,
    m: &mut M,
    dv: &mut DV,
    corners: &mut Corners<M::V>,
    parents: &mut Corners<M::V>,
    parent: &mut CellRec<M::C>,
) -> Result<(), Inner>
    requires axes { settings.now.setup.dim ≡ AXES }
    requires dim { (M.held m.old).dim ≡ settings.now.setup.dim }
    requires walked { IsWalked (M.held m.old).dim settings.now cell.now }
    requires full { IsFull (M.held m.old).dim parents.old }
    requires corners { AreOf (M.held m.old).dim corners.old }
    requires filled { filled_in_corners corners.old ≡ 2 ^ (M.held m.old).dim }
    requires out { 2 ^ (M.held m.old).dim ≤ (DV.holds dv.old).out }
    requires fits { MayGo M.rules M.numbers settings.now (λ set. store_all set (stream_stacks_of settings.now) cell.now.place 0 (seen_slots M.numbers.vertex corners.old))
        (hand_of (M.held m.old) (DV.holds dv.old) (DV.room dv.old) parents.old parent.old progress.old) }
    ensures goes { GoesAlong M.rules M.numbers settings.now (λ set. store_all set (stream_stacks_of settings.now) cell.now.place 0 (seen_slots M.numbers.vertex corners.old))
        (λ machine. machine) (2 ^ (M.held m.old).dim) (filled_in_corners corners.new) result
        (hand_of (M.held m.old) (DV.holds dv.old) (DV.room dv.old) parents.old parent.old progress.old)
        (hand_of (M.held m.new) (DV.holds dv.new) (DV.room dv.new) parents.new parent.new progress.new) }
    ensures corners { AreOf (M.held m.old).dim corners.new }
    ensures emptied { OnOk result (filled_in_corners corners.new ≡ 0) }
{
    store_quad::<AXES, M, DV>(settings, cell, 0, progress, m, dv, corners, parents, parent)?;
    store_quad::<AXES, M, DV>(settings, cell, 1, progress, m, dv, corners, parents, parent)?;
    store_quad::<AXES, M, DV>(settings, cell, 2, progress, m, dv, corners, parents, parent)?;
    store_quad::<AXES, M, DV>(settings, cell, 3, progress, m, dv, corners, parents, parent)
}

/// Loads all corners of the cell that is walked, in descending number. On an error all that were loaded are given up.
#[inline(always)]
pub(crate) fn load_corners<const AXES: u8, M: Mapping, DV: Depot<Vertex<M::V>>>(
    settings: &Settings,
    cell: &WalkedCell,
    progress: &mut Progress,
    m: &mut M,
    dv: &mut DV,
    corners: &mut Corners<M::V>,
    parents: &mut Corners<M::V>,
    parent: &mut CellRec<M::C>,
) -> Result<(), Inner>
    requires axes { settings.now.setup.dim ≡ AXES }
    requires dim { (M.held m.old).dim ≡ settings.now.setup.dim }
    requires walked { IsWalked (M.held m.old).dim settings.now cell.now }
    requires kinds { GiveKinds (M.held m.old).dim settings.now.traversal cell.now.place (corner_records M.numbers.vertex parents.old) cell.now.ages }
    requires full { IsFull (M.held m.old).dim parents.old }
    requires empty { corners.old ≡ no_vertices (M.held m.old).dim }
    requires fits { (cells : Holdings (List ℤ)) → Fits
        (load_all (setting_in M.rules (M.held m.old) settings.now) (stream_stacks_of settings.now) cell.now.place (2 ^ (M.held m.old).dim) []
        (machine_in_hand M.numbers (DV.holds dv.old) cells parents.old parent.old (M.held m.old).list progress.old.tally)) }
    ensures follows { (cells : Holdings (List ℤ)) (room : ℕ → ℕ) → Follows
        (load_all (setting_in M.rules (M.held m.old) settings.now) (stream_stacks_of settings.now) cell.now.place (2 ^ (M.held m.old).dim) []
        (machine_in_hand M.numbers (DV.holds dv.old) cells parents.old parent.old (M.held m.old).list progress.old.tally))
        (λ done. (corner_records M.numbers.vertex corners.new, machine_in_hand M.numbers (DV.holds dv.new) cells parents.new parent.new (M.held m.new).list progress.new.tally))
        (read_by (failure_in progress.new) result) (found_of (M.held m.old) (held_by (DV.holds dv.old) (DV.room dv.old)) room) (M.held m.new).told }
    ensures left { RecordsOut 0 (2 ^ (M.held m.old).dim) (DV.holds dv.old) (DV.room dv.old) (DV.holds dv.new) (DV.room dv.new) (is_err result) }
    ensures stays { Stays M.numbers.vertex (M.held m.old) (M.held m.new) parents.old parents.new }
    ensures counted { progress.new.tally.cells ≡ progress.old.tally.cells }
    ensures loaded { OnOk result (IsFull (M.held m.old).dim corners.new) }
    ensures emptied { OnErr result (corners.new ≡ no_vertices (M.held m.old).dim) }
{
    match load_quads::<AXES, M, DV>(settings, cell, progress, m, dv, corners, parents, parent) {
        Ok(()) => Ok(()),
        Err(halt) => {
            give_up_filled(settings.setup.dim, dv, corners);
            Err(halt)
        }
    }
}

/// Stores all corners of the cell that is walked, in ascending number. Whatever the answer, no corner is left: on an error
/// those that were not stored are given up.
#[inline]
pub(crate) fn store_corners<const AXES: u8, M: Mapping, DV: Depot<Vertex<M::V>>>(
    settings: &Settings,
    cell: &WalkedCell,
    progress: &mut Progress,
    m: &mut M,
    dv: &mut DV,
    corners: &mut Corners<M::V>,
    parents: &mut Corners<M::V>,
    parent: &mut CellRec<M::C>,
) -> Result<(), Inner>
    requires axes { settings.now.setup.dim ≡ AXES }
    requires dim { (M.held m.old).dim ≡ settings.now.setup.dim }
    requires walked { IsWalked (M.held m.old).dim settings.now cell.now }
    requires full { IsFull (M.held m.old).dim parents.old }
    requires loaded { IsFull (M.held m.old).dim corners.old }
    requires out { 2 ^ (M.held m.old).dim ≤ (DV.holds dv.old).out }
    requires fits { (cells : Holdings (List ℤ)) → Fits
        (store_all (setting_in M.rules (M.held m.old) settings.now) (stream_stacks_of settings.now) cell.now.place 0 (corner_records M.numbers.vertex corners.old)
        (machine_in_hand M.numbers (DV.holds dv.old) cells parents.old parent.old (M.held m.old).list progress.old.tally)) }
    ensures follows { (cells : Holdings (List ℤ)) (room : ℕ → ℕ) → Follows
        (store_all (setting_in M.rules (M.held m.old) settings.now) (stream_stacks_of settings.now) cell.now.place 0 (corner_records M.numbers.vertex corners.old)
        (machine_in_hand M.numbers (DV.holds dv.old) cells parents.old parent.old (M.held m.old).list progress.old.tally))
        (λ done. machine_in_hand M.numbers (DV.holds dv.new) cells parents.new parent.new (M.held m.new).list progress.new.tally)
        (read_by (failure_in progress.new) result) (found_of (M.held m.old) (held_by (DV.holds dv.old) (DV.room dv.old)) room) (M.held m.new).told }
    ensures left { RecordsOut (2 ^ (M.held m.old).dim) 0 (DV.holds dv.old) (DV.room dv.old) (DV.holds dv.new) (DV.room dv.new) (is_err result) }
    ensures stays { Stays M.numbers.vertex (M.held m.old) (M.held m.new) parents.old parents.new }
    ensures counted { progress.new.tally.cells ≡ progress.old.tally.cells }
    ensures emptied { corners.new ≡ no_vertices (M.held m.old).dim }
{
    match store_quads::<AXES, M, DV>(settings, cell, progress, m, dv, corners, parents, parent) {
        Ok(()) => Ok(()),
        Err(halt) => {
            give_up_filled(settings.setup.dim, dv, corners);
            Err(halt)
        }
    }
}
