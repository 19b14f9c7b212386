// The corners of the cell that is walked in their slots, one by one and four by four: loaded in descending number and stored in
// ascending number.
ghost use Rattle.std.specs.Prelude.{◌≡◌, ◌+◌, ◌-◌, ◌*◌, ◌<◌, ◌^◌, OnOk};
ghost use Rattle.pe_adapt.specs.TouchCalls.{hand_of};
ghost use Rattle.pe_walk.specs.Corners.{AreOf, MayLoad, MayStore, TouchesOn, filled_in_corners, loads_left, stores_left};

use pe_adapt::{Inner, Progress, Settings, WalkedCell, corners_in, load_in_slot, store_in_slot};
use pe_mapping::Mapping;
use pe_stacks::{CellRec, Corners, Depot, Vertex};

// Loads corner `k`. All behind it are loaded, and none before it is.
#[inline(always)]
fn load_next<M: Mapping, DV: Depot<Vertex<M::V>>>(
    settings: &Settings,
    cell: &WalkedCell,
    k: u8,
    progress: &mut Progress,
    m: &mut M,
    dv: &mut DV,
    corners: &mut Corners<M::V>,
    parents: &mut Corners<M::V>,
    parent: &mut CellRec<M::C>,
) -> Result<(), Inner>
    requires ready { MayLoad M.rules M.numbers settings.now cell.now corners.old
        (hand_of (M.held m.old) (DV.holds dv.old) (DV.room dv.old) parents.old parent.old progress.old) }
    requires inside { k < 2 ^ settings.now.setup.dim }
    requires behind { filled_in_corners corners.old ≡ 2 ^ settings.now.setup.dim - (k + 1) }
    ensures goes { TouchesOn M.rules M.numbers settings.now (λ set. loads_left set) cell.now.place corners.old corners.new result
        (hand_of (M.held m.old) (DV.holds dv.old) (DV.room dv.old) parents.old parent.old progress.old)
        (hand_of (M.held m.new) (DV.holds dv.new) (DV.room dv.new) parents.new parent.new progress.new) }
    ensures ready { OnOk result (MayLoad M.rules M.numbers settings.now cell.now corners.new
        (hand_of (M.held m.new) (DV.holds dv.new) (DV.room dv.new) parents.new parent.new progress.new)) }
    ensures behind { OnOk result (filled_in_corners corners.new ≡ 2 ^ settings.now.setup.dim - k) }
    ensures corners { AreOf settings.now.setup.dim corners.new }
{
    let slot = corners.slot_mut(k);
    load_in_slot(settings, cell, k, progress, slot, m, dv, parents, parent)
}

// Stores corner `k`. All behind it are still to be stored, and none before it is.
#[inline(always)]
fn store_next<M: Mapping, DV: Depot<Vertex<M::V>>>(
    settings: &Settings,
    cell: &WalkedCell,
    k: u8,
    progress: &mut Progress,
    m: &mut M,
    dv: &mut DV,
    corners: &mut Corners<M::V>,
    parents: &mut Corners<M::V>,
    parent: &mut CellRec<M::C>,
) -> Result<(), Inner>
    requires ready { MayStore M.rules M.numbers settings.now cell.now corners.old
        (hand_of (M.held m.old) (DV.holds dv.old) (DV.room dv.old) parents.old parent.old progress.old) }
    requires inside { k < 2 ^ settings.now.setup.dim }
    requires behind { filled_in_corners corners.old ≡ 2 ^ settings.now.setup.dim - k }
    ensures goes { TouchesOn M.rules M.numbers settings.now (λ set. stores_left set) cell.now.place corners.old corners.new result
        (hand_of (M.held m.old) (DV.holds dv.old) (DV.room dv.old) parents.old parent.old progress.old)
        (hand_of (M.held m.new) (DV.holds dv.new) (DV.room dv.new) parents.new parent.new progress.new) }
    ensures ready { OnOk result (MayStore M.rules M.numbers settings.now cell.now corners.new
        (hand_of (M.held m.new) (DV.holds dv.new) (DV.room dv.new) parents.new parent.new progress.new)) }
    ensures behind { OnOk result (filled_in_corners corners.new ≡ 2 ^ settings.now.setup.dim - (k + 1)) }
    ensures corners { AreOf settings.now.setup.dim corners.new }
{
    let slot = corners.slot_mut(k);
    store_in_slot(settings, cell, k, progress, slot, m, dv, parents, parent)
}

// Loads corners `4 q` to `4 q + 3`, if the cell has them. All behind them are loaded, and none before them is.
#[inline(always)]
pub(crate) fn load_quad<const AXES: u8, M: Mapping, DV: Depot<Vertex<M::V>>>(
    settings: &Settings,
    cell: &WalkedCell,
    q: u8,
    progress: &mut Progress,
    m: &mut M,
    dv: &mut DV,
    corners: &mut Corners<M::V>,
    parents: &mut Corners<M::V>,
    parent: &mut CellRec<M::C>,
) -> Result<(), Inner>
    requires axes { settings.now.setup.dim ≡ AXES }
    requires ready { MayLoad M.rules M.numbers settings.now cell.now corners.old
        (hand_of (M.held m.old) (DV.holds dv.old) (DV.room dv.old) parents.old parent.old progress.old) }
    requires quad { q < 4 }
    requires behind { filled_in_corners corners.old ≡ 2 ^ settings.now.setup.dim - (4 * q + 4) }
    ensures goes { TouchesOn M.rules M.numbers settings.now (λ set. loads_left set) cell.now.place corners.old corners.new result
        (hand_of (M.held m.old) (DV.holds dv.old) (DV.room dv.old) parents.old parent.old progress.old)
        (hand_of (M.held m.new) (DV.holds dv.new) (DV.room dv.new) parents.new parent.new progress.new) }
    ensures ready { OnOk result (MayLoad M.rules M.numbers settings.now cell.now corners.new
        (hand_of (M.held m.new) (DV.holds dv.new) (DV.room dv.new) parents.new parent.new progress.new)) }
    ensures behind { OnOk result (filled_in_corners corners.new ≡ 2 ^ settings.now.setup.dim - 4 * q) }
    ensures corners { AreOf settings.now.setup.dim corners.new }
{
    let first = 4 * q;
    if corners_in::<AXES>(settings) <= first + 3 {
        return Ok(());
    }
    load_next(
        settings,
        cell,
        first + 3,
        progress,
        m,
        dv,
        corners,
        parents,
        parent,
    )?;
    load_next(
        settings,
        cell,
        first + 2,
        progress,
        m,
        dv,
        corners,
        parents,
        parent,
    )?;
    load_next(
        settings,
        cell,
        first + 1,
        progress,
        m,
        dv,
        corners,
        parents,
        parent,
    )?;
    load_next(
        settings, cell, first, progress, m, dv, corners, parents, parent,
    )
}

// Stores corners `4 q` to `4 q + 3`, if the cell has them. All behind them are still to be stored, and none before them is.
#[inline(always)]
pub(crate) fn store_quad<const AXES: u8, M: Mapping, DV: Depot<Vertex<M::V>>>(
    settings: &Settings,
    cell: &WalkedCell,
    q: u8,
    progress: &mut Progress,
    m: &mut M,
    dv: &mut DV,
    corners: &mut Corners<M::V>,
    parents: &mut Corners<M::V>,
    parent: &mut CellRec<M::C>,
) -> Result<(), Inner>
    requires axes { settings.now.setup.dim ≡ AXES }
    requires ready { MayStore M.rules M.numbers settings.now cell.now corners.old
        (hand_of (M.held m.old) (DV.holds dv.old) (DV.room dv.old) parents.old parent.old progress.old) }
    requires quad { q < 4 }
    requires behind { filled_in_corners corners.old ≡ 2 ^ settings.now.setup.dim - 4 * q }
    ensures goes { TouchesOn M.rules M.numbers settings.now (λ set. stores_left set) cell.now.place corners.old corners.new result
        (hand_of (M.held m.old) (DV.holds dv.old) (DV.room dv.old) parents.old parent.old progress.old)
        (hand_of (M.held m.new) (DV.holds dv.new) (DV.room dv.new) parents.new parent.new progress.new) }
    ensures ready { OnOk result (MayStore M.rules M.numbers settings.now cell.now corners.new
        (hand_of (M.held m.new) (DV.holds dv.new) (DV.room dv.new) parents.new parent.new progress.new)) }
    ensures behind { OnOk result (filled_in_corners corners.new ≡ 2 ^ settings.now.setup.dim - (4 * q + 4)) }
    ensures corners { AreOf settings.now.setup.dim corners.new }
{
    let first = 4 * q;
    if corners_in::<AXES>(settings) <= first + 3 {
        return Ok(());
    }
    store_next(
        settings, cell, first, progress, m, dv, corners, parents, parent,
    )?;
    store_next(
        settings,
        cell,
        first + 1,
        progress,
        m,
        dv,
        corners,
        parents,
        parent,
    )?;
    store_next(
        settings,
        cell,
        first + 2,
        progress,
        m,
        dv,
        corners,
        parents,
        parent,
    )?;
    store_next(
        settings,
        cell,
        first + 3,
        progress,
        m,
        dv,
        corners,
        parents,
        parent,
    )
}

// Loads corners 8 to 15, as a call of its own: all sixteen in one place are too much code.
#[inline(never)]
fn load_upper<const AXES: u8, M: Mapping, DV: Depot<Vertex<M::V>>>(
    settings: &Settings,
    cell: &WalkedCell,
    progress: &mut Progress,
    m: &mut M,
    dv: &mut DV,
    corners: &mut Corners<M::V>,
    parents: &mut Corners<M::V>,
    parent: &mut CellRec<M::C>,
) -> Result<(), Inner>
    requires axes { settings.now.setup.dim ≡ AXES }
    requires ready { MayLoad M.rules M.numbers settings.now cell.now corners.old
        (hand_of (M.held m.old) (DV.holds dv.old) (DV.room dv.old) parents.old parent.old progress.old) }
    requires behind { filled_in_corners corners.old ≡ 2 ^ settings.now.setup.dim - 16 }
    ensures goes { TouchesOn M.rules M.numbers settings.now (λ set. loads_left set) cell.now.place corners.old corners.new result
        (hand_of (M.held m.old) (DV.holds dv.old) (DV.room dv.old) parents.old parent.old progress.old)
        (hand_of (M.held m.new) (DV.holds dv.new) (DV.room dv.new) parents.new parent.new progress.new) }
    ensures ready { OnOk result (MayLoad M.rules M.numbers settings.now cell.now corners.new
        (hand_of (M.held m.new) (DV.holds dv.new) (DV.room dv.new) parents.new parent.new progress.new)) }
    ensures behind { OnOk result (filled_in_corners corners.new ≡ 2 ^ settings.now.setup.dim - 8) }
    ensures corners { AreOf settings.now.setup.dim corners.new }
{
    load_quad::<AXES, M, DV>(settings, cell, 3, progress, m, dv, corners, parents, parent)?;
    load_quad::<AXES, M, DV>(settings, cell, 2, progress, m, dv, corners, parents, parent)
}

// Loads corners 8 to 15, if the cell has them.
#[inline(always)]
pub(crate) fn load_last<const AXES: u8, M: Mapping, DV: Depot<Vertex<M::V>>>(
    settings: &Settings,
    cell: &WalkedCell,
    progress: &mut Progress,
    m: &mut M,
    dv: &mut DV,
    corners: &mut Corners<M::V>,
    parents: &mut Corners<M::V>,
    parent: &mut CellRec<M::C>,
) -> Result<(), Inner>
    requires axes { settings.now.setup.dim ≡ AXES }
    requires ready { MayLoad M.rules M.numbers settings.now cell.now corners.old
        (hand_of (M.held m.old) (DV.holds dv.old) (DV.room dv.old) parents.old parent.old progress.old) }
    requires behind { filled_in_corners corners.old ≡ 2 ^ settings.now.setup.dim - 16 }
    ensures goes { TouchesOn M.rules M.numbers settings.now (λ set. loads_left set) cell.now.place corners.old corners.new result
        (hand_of (M.held m.old) (DV.holds dv.old) (DV.room dv.old) parents.old parent.old progress.old)
        (hand_of (M.held m.new) (DV.holds dv.new) (DV.room dv.new) parents.new parent.new progress.new) }
    ensures ready { OnOk result (MayLoad M.rules M.numbers settings.now cell.now corners.new
        (hand_of (M.held m.new) (DV.holds dv.new) (DV.room dv.new) parents.new parent.new progress.new)) }
    ensures behind { OnOk result (filled_in_corners corners.new ≡ 2 ^ settings.now.setup.dim - 8) }
    ensures corners { AreOf settings.now.setup.dim corners.new }
{
    if corners_in::<AXES>(settings) <= 8 {
        return Ok(());
    }
    load_upper::<AXES, M, DV>(settings, cell, progress, m, dv, corners, parents, parent)
}
