// The slow touches of a corner of the cell that is walked, in its slot: first, last and hanging ones.
ghost use Rattle.std.specs.Prelude.{◌≡◌, ℕ, true, ◌<◌, ◌^◌, None, IsSome, IsSomeAnd, OnOk, OnErr, is_none};
ghost use Rattle.pe_base.specs.Tree.Places.{corner};
ghost use Rattle.pe_base.specs.Tree.Ways.{way_of};
ghost use Rattle.pe_base.specs.declared.kind.Kind.TheVariants.{Hanging};
ghost use Rattle.pe_base.specs.Steps.Routes.{stack_in, stack_out};
ghost use Rattle.pe_stacks.specs.Corners.{IsFull};
ghost use Rattle.pe_stacks.specs.Sights.{corner_records};
ghost use Rattle.pe_adapt.specs.Slots.{seen_slot};
ghost use Rattle.pe_adapt.specs.Touches.{kind_in_hand};
ghost use Rattle.pe_adapt.specs.CountedTouches.{load_corner, store_corner};
ghost use Rattle.pe_adapt.specs.WalkedCells.{IsWalked, setting_in, stream_stacks_of};
ghost use Rattle.pe_adapt.specs.TouchCalls.{MayGo, GoesAlong, hand_of, filled_in};

use crate::progress::Progress;
use crate::settings::Settings;
use crate::tallies::{count_load, count_store};
use crate::walked::WalkedCell;
use crate::{Inner, corner_place, load, store};
use pe_base::Kind;
use pe_mapping::Mapping;
use pe_stacks::{CellRec, Corners, Depot, Vertex};

// Loads a corner that hangs.
#[inline]
pub(crate) fn load_hanging<M: Mapping, DV: Depot<Vertex<M::V>>>(
    settings: &Settings,
    cell: &WalkedCell,
    k: u8,
    progress: &mut Progress,
    slot: &mut Option<Vertex<M::V>>,
    m: &mut M,
    dv: &mut DV,
    parents: &mut Corners<M::V>,
    parent: &mut CellRec<M::C>,
) -> Result<(), Inner>
    requires walked { IsWalked (M.held m.old).dim settings.now cell.now }
    requires corner { k < 2 ^ (M.held m.old).dim }
    requires hangs { kind_in_hand (setting_in M.rules (M.held m.old) settings.now) cell.now.place (corner_records M.numbers.vertex parents.old)
        (corner (M.held m.old).dim cell.now.place k) ≡ Hanging }
    requires full { IsFull (M.held m.old).dim parents.old }
    requires empty { slot.old ≡ None }
    requires fits { MayGo M.rules M.numbers settings.now (λ set. load_corner set (stream_stacks_of settings.now) cell.now.place k)
        (hand_of (M.held m.old) (DV.holds dv.old) (DV.room dv.old) parents.old parent.old progress.old) }
    ensures goes { GoesAlong M.rules M.numbers settings.now (λ set. load_corner set (stream_stacks_of settings.now) cell.now.place k)
        (λ machine. (seen_slot M.numbers.vertex slot.new, machine)) 0 (filled_in slot.new) result
        (hand_of (M.held m.old) (DV.holds dv.old) (DV.room dv.old) parents.old parent.old progress.old)
        (hand_of (M.held m.new) (DV.holds dv.new) (DV.room dv.new) parents.new parent.new progress.new) }
    ensures loaded { OnOk result (IsSome slot.new) }
    ensures emptied { OnErr result (slot.new ≡ None) }
{
    let at = corner_place(&cell.place, k);
    count_load(&mut progress.tally, Kind::Hanging);
    match load::load_hanging(settings.traversal, &at, slot, m, dv, parents, parent) {
        Ok(()) => Ok(()),
        Err(halt) => {
            progress.at = at;
            Err(halt)
        }
    }
}

// Loads a corner that counts, for the first time.
#[inline(always)]
pub(crate) fn load_first<M: Mapping, DV: Depot<Vertex<M::V>>>(
    settings: &Settings,
    cell: &WalkedCell,
    k: u8,
    kind: Kind,
    progress: &mut Progress,
    slot: &mut Option<Vertex<M::V>>,
    m: &mut M,
    dv: &mut DV,
    parents: &mut Corners<M::V>,
    parent: &mut CellRec<M::C>,
) -> Result<(), Inner>
    requires walked { IsWalked (M.held m.old).dim settings.now cell.now }
    requires corner { k < 2 ^ (M.held m.old).dim }
    requires kind { kind ≡ kind_in_hand (setting_in M.rules (M.held m.old) settings.now) cell.now.place (corner_records M.numbers.vertex parents.old)
        (corner (M.held m.old).dim cell.now.place k) }
    requires counts { kind ≡ Hanging → ⊥ }
    requires first { stack_in (M.held m.old).dim (way_of settings.now.traversal) (corner (M.held m.old).dim cell.now.place k) cell.now.place ≡ None }
    requires full { IsFull (M.held m.old).dim parents.old }
    requires empty { slot.old ≡ None }
    requires fits { MayGo M.rules M.numbers settings.now (λ set. load_corner set (stream_stacks_of settings.now) cell.now.place k)
        (hand_of (M.held m.old) (DV.holds dv.old) (DV.room dv.old) parents.old parent.old progress.old) }
    ensures goes { GoesAlong M.rules M.numbers settings.now (λ set. load_corner set (stream_stacks_of settings.now) cell.now.place k)
        (λ machine. (seen_slot M.numbers.vertex slot.new, machine)) 0 (filled_in slot.new) result
        (hand_of (M.held m.old) (DV.holds dv.old) (DV.room dv.old) parents.old parent.old progress.old)
        (hand_of (M.held m.new) (DV.holds dv.new) (DV.room dv.new) parents.new parent.new progress.new) }
    ensures loaded { OnOk result (IsSome slot.new) }
    ensures emptied { OnErr result (slot.new ≡ None) }
{
    let at = corner_place(&cell.place, k);
    count_load(&mut progress.tally, kind);
    match load::load_first(
        settings.setup.start_level,
        kind,
        settings.input,
        settings.traversal,
        &at,
        slot,
        m,
        dv,
        parents,
        parent,
    ) {
        Ok(()) => Ok(()),
        Err(halt) => {
            progress.at = at;
            Err(halt)
        }
    }
}

// Stores a corner that hangs.
#[inline]
pub(crate) fn store_hanging<M: Mapping, DV: Depot<Vertex<M::V>>>(
    settings: &Settings,
    cell: &WalkedCell,
    k: u8,
    progress: &mut Progress,
    slot: &mut Option<Vertex<M::V>>,
    m: &mut M,
    dv: &mut DV,
    parents: &mut Corners<M::V>,
    parent: &mut CellRec<M::C>,
) -> Result<(), Inner>
    requires walked { IsWalked (M.held m.old).dim settings.now cell.now }
    requires corner { k < 2 ^ (M.held m.old).dim }
    requires hangs { IsSomeAnd slot.old (λ v. v.kind ≡ Hanging) }
    requires full { IsFull (M.held m.old).dim parents.old }
    requires out { 0 < (DV.holds dv.old).out }
    requires fits { MayGo M.rules M.numbers settings.now (λ set. store_corner set (stream_stacks_of settings.now) cell.now.place k (seen_slot M.numbers.vertex slot.old))
        (hand_of (M.held m.old) (DV.holds dv.old) (DV.room dv.old) parents.old parent.old progress.old) }
    ensures goes { GoesAlong M.rules M.numbers settings.now (λ set. store_corner set (stream_stacks_of settings.now) cell.now.place k (seen_slot M.numbers.vertex slot.old))
        (λ machine. machine) 1 0 result
        (hand_of (M.held m.old) (DV.holds dv.old) (DV.room dv.old) parents.old parent.old progress.old)
        (hand_of (M.held m.new) (DV.holds dv.new) (DV.room dv.new) parents.new parent.new progress.new) }
    ensures emptied { slot.new ≡ None }
{
    let at = corner_place(&cell.place, k);
    match store::store_hanging(settings.traversal, &at, slot, m, dv, parents, parent) {
        Ok(()) => Ok(()),
        Err(halt) => {
            progress.at = at;
            Err(halt)
        }
    }
}

// Stores a corner that counts, for the last time.
#[inline]
pub(crate) fn store_last<M: Mapping, DV: Depot<Vertex<M::V>>>(
    settings: &Settings,
    cell: &WalkedCell,
    k: u8,
    kind: Kind,
    progress: &mut Progress,
    slot: &mut Option<Vertex<M::V>>,
    m: &mut M,
    dv: &mut DV,
    parents: &mut Corners<M::V>,
    parent: &mut CellRec<M::C>,
) -> Result<(), Inner>
    requires walked { IsWalked (M.held m.old).dim settings.now cell.now }
    requires corner { k < 2 ^ (M.held m.old).dim }
    requires kind { IsSomeAnd slot.old (λ v. v.kind ≡ kind) }
    requires counts { kind ≡ Hanging → ⊥ }
    requires last { stack_out (M.held m.old).dim (way_of settings.now.traversal) (corner (M.held m.old).dim cell.now.place k) cell.now.place ≡ None }
    requires full { IsFull (M.held m.old).dim parents.old }
    requires out { 0 < (DV.holds dv.old).out }
    requires fits { MayGo M.rules M.numbers settings.now (λ set. store_corner set (stream_stacks_of settings.now) cell.now.place k (seen_slot M.numbers.vertex slot.old))
        (hand_of (M.held m.old) (DV.holds dv.old) (DV.room dv.old) parents.old parent.old progress.old) }
    ensures goes { GoesAlong M.rules M.numbers settings.now (λ set. store_corner set (stream_stacks_of settings.now) cell.now.place k (seen_slot M.numbers.vertex slot.old))
        (λ machine. machine) 1 0 result
        (hand_of (M.held m.old) (DV.holds dv.old) (DV.room dv.old) parents.old parent.old progress.old)
        (hand_of (M.held m.new) (DV.holds dv.new) (DV.room dv.new) parents.new parent.new progress.new) }
    ensures emptied { slot.new ≡ None }
{
    let at = corner_place(&cell.place, k);
    count_store(&mut progress.tally, kind);
    match store::store_last(
        settings.output,
        settings.traversal,
        &at,
        slot,
        m,
        dv,
        parents,
        parent,
    ) {
        Ok(()) => Ok(()),
        Err(halt) => {
            progress.at = at;
            Err(halt)
        }
    }
}
