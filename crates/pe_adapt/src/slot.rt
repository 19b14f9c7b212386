// A corner of the cell that is walked, loaded and stored in its slot.
ghost use Rattle.std.specs.Prelude.{◌≡◌, ◌<◌, ◌^◌, None, IsSome, OnOk, OnErr};
ghost use Rattle.pe_stacks.specs.Corners.{IsFull};
ghost use Rattle.pe_stacks.specs.Sights.{corner_records};
ghost use Rattle.pe_adapt.specs.Ages.{GiveKinds};
ghost use Rattle.pe_adapt.specs.Slots.{seen_slot};
ghost use Rattle.pe_adapt.specs.CountedTouches.{load_corner, store_corner};
ghost use Rattle.pe_adapt.specs.WalkedCells.{IsWalked, stream_stacks_of};
ghost use Rattle.pe_adapt.specs.TouchCalls.{MayGo, GoesAlong, hand_of, filled_in};

use crate::counted::{load_first, load_hanging, store_hanging, store_last};
use crate::progress::Progress;
use crate::settings::Settings;
use crate::walked::WalkedCell;
use crate::{Inner, put_down};
use pe_base::Kind;
use pe_mapping::Mapping;
use pe_stacks::{CellRec, Corners, Depot, Vertex, fill_slot, filled};
use pe_states::kind_of;

/// Loads a corner of the cell that is walked, in its slot. One that is on its way from another cell is popped, and that is
/// all. On an error its record is given up, and the slot is empty.
#[inline(always)]
pub fn load_in_slot<M: Mapping, DV: Depot<Vertex<M::V>>>(
    settings: &Settings,
    cell: &WalkedCell,
    k: u8,
    progress: &mut Progress,
    slot: &mut Option<Vertex<M::V>>,
    m: &mut M,
    dv: &mut DV,
    parents: &mut Corners<M::V>,
    parent: &mut CellRec<M::C>,
) -> Result<(), Inner>
    requires walked { IsWalked (M.held m.old).dim settings.now cell.now }
    requires corner { k < 2 ^ (M.held m.old).dim }
    requires kinds { GiveKinds (M.held m.old).dim settings.now.traversal cell.now.place (corner_records M.numbers.vertex parents.old) cell.now.ages }
    requires full { IsFull (M.held m.old).dim parents.old }
    requires empty { slot.old ≡ None }
    requires fits { MayGo M.rules M.numbers settings.now (λ set. load_corner set (stream_stacks_of settings.now) cell.now.place k)
        (hand_of (M.held m.old) (DV.holds dv.old) (DV.room dv.old) parents.old parent.old progress.old) }
    ensures goes { GoesAlong M.rules M.numbers settings.now (λ set. load_corner set (stream_stacks_of settings.now) cell.now.place k)
        (λ machine. (seen_slot M.numbers.vertex slot.new, machine)) 0 (filled_in slot.new) result
        (hand_of (M.held m.old) (DV.holds dv.old) (DV.room dv.old) parents.old parent.old progress.old)
        (hand_of (M.held m.new) (DV.holds dv.new) (DV.room dv.new) parents.new parent.new progress.new) }
    ensures loaded { OnOk result (IsSome slot.new) }
    ensures emptied { OnErr result (slot.new ≡ None) }
{
    let (old, new) = cell.ages.at(k);
    if !old && !new {
        return load_hanging(settings, cell, k, progress, slot, m, dv, parents, parent);
    }
    let come = cell.state.coming_in(&cell.row, k);
    if come == 0 {
        let kind = kind_of(old, new);
        return load_first(
            settings, cell, k, kind, progress, slot, m, dv, parents, parent,
        );
    }
    fill_slot(slot, dv.pop((come % 8) as u8));
    Ok(())
}

/// Stores a corner of the cell that is walked, in its slot. One that goes on to another cell is pushed, and that is all.
/// Whatever the answer, its record is given up or on its stack, and the slot is empty.
#[inline(always)]
pub fn store_in_slot<M: Mapping, DV: Depot<Vertex<M::V>>>(
    settings: &Settings,
    cell: &WalkedCell,
    k: u8,
    progress: &mut Progress,
    slot: &mut Option<Vertex<M::V>>,
    m: &mut M,
    dv: &mut DV,
    parents: &mut Corners<M::V>,
    parent: &mut CellRec<M::C>,
) -> Result<(), Inner>
    requires walked { IsWalked (M.held m.old).dim settings.now cell.now }
    requires corner { k < 2 ^ (M.held m.old).dim }
    requires filled { IsSome slot.old }
    requires full { IsFull (M.held m.old).dim parents.old }
    requires out { 0 < (DV.holds dv.old).out }
    requires fits { MayGo M.rules M.numbers settings.now (λ set. store_corner set (stream_stacks_of settings.now) cell.now.place k (seen_slot M.numbers.vertex slot.old))
        (hand_of (M.held m.old) (DV.holds dv.old) (DV.room dv.old) parents.old parent.old progress.old) }
    ensures goes { GoesAlong M.rules M.numbers settings.now (λ set. store_corner set (stream_stacks_of settings.now) cell.now.place k (seen_slot M.numbers.vertex slot.old))
        (λ machine. machine) 1 0 result
        (hand_of (M.held m.old) (DV.holds dv.old) (DV.room dv.old) parents.old parent.old progress.old)
        (hand_of (M.held m.new) (DV.holds dv.new) (DV.room dv.new) parents.new parent.new progress.new) }
    ensures emptied { slot.new ≡ None }
{
    let kind = filled(slot).kind();
    match kind {
        Kind::Hanging => store_hanging(settings, cell, k, progress, slot, m, dv, parents, parent),
        _ => {
            let go = cell.state.going_in(&cell.row, k);
            if go == 0 {
                store_last(
                    settings, cell, k, kind, progress, slot, m, dv, parents, parent,
                )
            } else {
                put_down(dv, (go % 8) as u8, slot.take().unwrap())
            }
        }
    }
}
