// The walk of a cell with all below it.
ghost use Rattle.std.specs.Prelude.{◌≡◌, suc, ◌+◌, ◌≤◌, ◌<◌};
ghost use Rattle.pe_base.specs.declared.place.Place.{Place as APlace};
ghost use Rattle.pe_base.specs.Walk.Core.{Family};
ghost use Rattle.pe_stacks.specs.Corners.{IsFull, no_vertices};
ghost use Rattle.pe_stacks.specs.Sights.{corner_records};
ghost use Rattle.pe_hang.specs.InHand.{own_in_hand, CornersStay};
ghost use Rattle.pe_adapt.specs.Ages.{AreAgesOf, GiveKinds};
ghost use Rattle.pe_walk.specs.Machine.{kind_among, walk_cell};
ghost use Rattle.pe_adapt.specs.WalkedCells.{stream_stacks_of, IsWalked};
ghost use Rattle.pe_walk.specs.Children.{IsAbove};
ghost use Rattle.pe_walk.specs.Visits.{walk_children, walk_below, visit_cell, with_family, MayWalkCells, Walks, WalkLeft, hands_of};

use crate::child::{Above, advance, first_child};
use crate::corners::{load_corners, store_corners};
use crate::count::count_cell;
use crate::hand::give_up_from;
use crate::visit::{enter_cell, leave_cell};
use pe_adapt::{Inner, Progress, Settings, WalkedCell, ages_of, dim_in};
use pe_base::Kind;
use pe_mapping::Mapping;
use pe_stacks::{CellRec, Corners, Depot, Vertex};
use pe_states::kind_of;

/// Walks a cell: it is counted, its corners are loaded, it is visited, and its corners are stored.
#[cycle(cells)]
pub(crate) fn walk_cell<
    const AXES: u8,
    M: Mapping,
    DV: Depot<Vertex<M::V>>,
    DC: Depot<CellRec<M::C>>,
>(
    settings: &Settings,
    cell: &WalkedCell,
    kind: Kind,
    levels: u8,
    progress: &mut Progress,
    m: &mut M,
    dv: &mut DV,
    dc: &mut DC,
    corners: &mut Corners<M::V>,
    parents: &mut Corners<M::V>,
    parent: &mut CellRec<M::C>,
) -> Result<(), Inner>
    requires axes { settings.now.setup.dim ≡ AXES }
    requires may { MayWalkCells M.rules M.numbers settings.now cell.now.place.level levels
        (λ set. walk_cell set (stream_stacks_of settings.now) (suc levels) cell.now.place)
        (hands_of (M.held m.old) (DV.holds dv.old) (DV.room dv.old) (DC.holds dc.old) (DC.room dc.old) parents.old parent.old progress.old) }
    requires walked { IsWalked (M.held m.old).dim settings.now cell.now }
    requires kinds { GiveKinds (M.held m.old).dim settings.now.traversal cell.now.place (corner_records M.numbers.vertex parents.old) cell.now.ages }
    requires kind { kind_among settings.now.traversal cell.now.place (corner_records M.numbers.vertex parents.old) ≡ kind }
    requires empty { corners.old ≡ no_vertices (M.held m.old).dim }
    ensures follows { Walks M.rules M.numbers settings.now
        (λ set. walk_cell set (stream_stacks_of settings.now) (suc levels) cell.now.place)
        (λ machine. machine) result
        (hands_of (M.held m.old) (DV.holds dv.old) (DV.room dv.old) (DC.holds dc.old) (DC.room dc.old) parents.old parent.old progress.old)
        (hands_of (M.held m.new) (DV.holds dv.new) (DV.room dv.new) (DC.holds dc.new) (DC.room dc.new) parents.new parent.new progress.new) }
    ensures left { WalkLeft M.numbers settings.now 0 result
        (hands_of (M.held m.old) (DV.holds dv.old) (DV.room dv.old) (DC.holds dc.old) (DC.room dc.old) parents.old parent.old progress.old)
        (hands_of (M.held m.new) (DV.holds dv.new) (DV.room dv.new) (DC.holds dc.new) (DC.room dc.new) parents.new parent.new progress.new) }
    ensures emptied { corners.new ≡ no_vertices (M.held m.old).dim }
{
    let dim = settings.setup.dim;
    match count_cell(settings, &cell.place, progress) {
        Ok(()) => {}
        Err(halt) => return Err(halt),
    }
    match load_corners::<AXES, M, DV>(settings, cell, progress, m, dv, corners, parents, parent) {
        Ok(()) => {}
        Err(halt) => return Err(halt),
    }
    match visit_cell::<AXES, M, DV, DC>(
        settings, cell, kind, levels, progress, m, dv, dc, corners, parents, parent,
    ) {
        Ok(()) => store_corners::<AXES, M, DV>(
            settings, cell, progress, m, dv, corners, parents, parent,
        ),
        Err(halt) => {
            give_up_from(dim, 0, corners, dv);
            Err(halt)
        }
    }
}

// Visits a cell whose corners are in hand: it is entered, its children are walked, and it is left.
#[cycle(cells)]
fn visit_cell<const AXES: u8, M: Mapping, DV: Depot<Vertex<M::V>>, DC: Depot<CellRec<M::C>>>(
    settings: &Settings,
    cell: &WalkedCell,
    kind: Kind,
    levels: u8,
    progress: &mut Progress,
    m: &mut M,
    dv: &mut DV,
    dc: &mut DC,
    corners: &mut Corners<M::V>,
    parents: &mut Corners<M::V>,
    parent: &mut CellRec<M::C>,
) -> Result<(), Inner>
    requires axes { settings.now.setup.dim ≡ AXES }
    requires may { MayWalkCells M.rules M.numbers settings.now cell.now.place.level levels
        (λ set. visit_cell set (stream_stacks_of settings.now) levels cell.now.place (corner_records M.numbers.vertex corners.old))
        (hands_of (M.held m.old) (DV.holds dv.old) (DV.room dv.old) (DC.holds dc.old) (DC.room dc.old) parents.old parent.old progress.old) }
    requires walked { IsWalked (M.held m.old).dim settings.now cell.now }
    requires kind { kind_among settings.now.traversal cell.now.place (corner_records M.numbers.vertex parents.old) ≡ kind }
    requires own_full { IsFull (M.held m.old).dim corners.old }
    ensures follows { Walks M.rules M.numbers settings.now
        (λ set. visit_cell set (stream_stacks_of settings.now) levels cell.now.place (corner_records M.numbers.vertex corners.old))
        (λ machine. (corner_records M.numbers.vertex corners.new, machine)) result
        (hands_of (M.held m.old) (DV.holds dv.old) (DV.room dv.old) (DC.holds dc.old) (DC.room dc.old) parents.old parent.old progress.old)
        (hands_of (M.held m.new) (DV.holds dv.new) (DV.room dv.new) (DC.holds dc.new) (DC.room dc.new) parents.new parent.new progress.new) }
    ensures left { WalkLeft M.numbers settings.now 1 result
        (hands_of (M.held m.old) (DV.holds dv.old) (DV.room dv.old) (DC.holds dc.old) (DC.room dc.old) parents.old parent.old progress.old)
        (hands_of (M.held m.new) (DV.holds dv.new) (DV.room dv.new) (DC.holds dc.new) (DC.room dc.new) parents.new parent.new progress.new) }
    ensures own { CornersStay M.numbers.vertex (M.held m.old).dim corners.old corners.new }
{
    let place = &cell.place;
    match enter_cell(
        settings, place, kind, progress, m, dc, corners, parents, parent,
    ) {
        Ok(entered) => {
            let mut own = entered;
            match walk_below::<AXES, M, DV, DC>(
                settings, cell, levels, progress, m, dv, dc, corners, &mut own,
            ) {
                Ok(()) => leave_cell(
                    settings, place, kind, own, progress, m, dc, corners, parents, parent,
                ),
                Err(halt) => {
                    dc.give_up(own);
                    Err(halt)
                }
            }
        }
        Err(halt) => Err(halt),
    }
}

// Walks the children of a cell, if there are any: by its corners in hand.
#[cycle(cells)]
fn walk_below<const AXES: u8, M: Mapping, DV: Depot<Vertex<M::V>>, DC: Depot<CellRec<M::C>>>(
    settings: &Settings,
    cell: &WalkedCell,
    levels: u8,
    progress: &mut Progress,
    m: &mut M,
    dv: &mut DV,
    dc: &mut DC,
    corners: &mut Corners<M::V>,
    own: &mut CellRec<M::C>,
) -> Result<(), Inner>
    requires axes { settings.now.setup.dim ≡ AXES }
    requires may { (outer : Family) × MayWalkCells M.rules M.numbers settings.now cell.now.place.level levels
        (λ set machine. walk_below set (stream_stacks_of settings.now) levels cell.now.place (own_in_hand M.numbers own.old corners.old, with_family outer machine))
        (hands_of (M.held m.old) (DV.holds dv.old) (DV.room dv.old) (DC.holds dc.old) (DC.room dc.old) corners.old own.old progress.old) }
    requires walked { IsWalked (M.held m.old).dim settings.now cell.now }
    ensures follows { (outer : Family) → Walks M.rules M.numbers settings.now
        (λ set machine. walk_below set (stream_stacks_of settings.now) levels cell.now.place (own_in_hand M.numbers own.old corners.old, with_family outer machine))
        (λ machine. (own_in_hand M.numbers own.new corners.new, with_family outer machine)) result
        (hands_of (M.held m.old) (DV.holds dv.old) (DV.room dv.old) (DC.holds dc.old) (DC.room dc.old) corners.old own.old progress.old)
        (hands_of (M.held m.new) (DV.holds dv.new) (DV.room dv.new) (DC.holds dc.new) (DC.room dc.new) corners.new own.new progress.new) }
    ensures left { WalkLeft M.numbers settings.now 0 result
        (hands_of (M.held m.old) (DV.holds dv.old) (DV.room dv.old) (DC.holds dc.old) (DC.room dc.old) corners.old own.old progress.old)
        (hands_of (M.held m.new) (DV.holds dv.new) (DV.room dv.new) (DC.holds dc.new) (DC.room dc.new) corners.new own.new progress.new) }
{
    if levels == 0 {
        return Ok(());
    }
    let ages = ages_of(settings.setup.dim, corners);
    let (old, new) = ages.any();
    let kind = kind_of(old, new);
    match kind {
        Kind::Hanging => Ok(()),
        _ => {
            let above = Above {
                place: cell.place,
                state: cell.state,
                ages,
            };
            walk_children::<AXES, M, DV, DC>(
                settings, &above, kind, levels, progress, m, dv, dc, corners, own,
            )
        }
    }
}

/// Walks the children of a cell, one after another along rows.
#[cycle(cells)]
pub(crate) fn walk_children<
    const AXES: u8,
    M: Mapping,
    DV: Depot<Vertex<M::V>>,
    DC: Depot<CellRec<M::C>>,
>(
    settings: &Settings,
    above: &Above,
    kind: Kind,
    levels: u8,
    progress: &mut Progress,
    m: &mut M,
    dv: &mut DV,
    dc: &mut DC,
    parents: &mut Corners<M::V>,
    parent: &mut CellRec<M::C>,
) -> Result<(), Inner>
    requires axes { settings.now.setup.dim ≡ AXES }
    requires may { MayWalkCells M.rules M.numbers settings.now above.now.place.level levels
        (λ set. walk_children set (stream_stacks_of settings.now) levels above.now.place)
        (hands_of (M.held m.old) (DV.holds dv.old) (DV.room dv.old) (DC.holds dc.old) (DC.room dc.old) parents.old parent.old progress.old) }
    requires above { IsAbove (M.held m.old).dim settings.now above.now }
    requires some { 0 < levels }
    requires aged { AreAgesOf (M.held m.old).dim (corner_records M.numbers.vertex parents.old) above.now.ages }
    requires kind { (cell : APlace) → cell.level ≡ above.now.place.level + 1 → kind_among settings.now.traversal cell (corner_records M.numbers.vertex parents.old) ≡ kind }
    ensures follows { Walks M.rules M.numbers settings.now
        (λ set. walk_children set (stream_stacks_of settings.now) levels above.now.place)
        (λ machine. machine) result
        (hands_of (M.held m.old) (DV.holds dv.old) (DV.room dv.old) (DC.holds dc.old) (DC.room dc.old) parents.old parent.old progress.old)
        (hands_of (M.held m.new) (DV.holds dv.new) (DV.room dv.new) (DC.holds dc.new) (DC.room dc.new) parents.new parent.new progress.new) }
    ensures left { WalkLeft M.numbers settings.now 0 result
        (hands_of (M.held m.old) (DV.holds dv.old) (DV.room dv.old) (DC.holds dc.old) (DC.room dc.old) parents.old parent.old progress.old)
        (hands_of (M.held m.new) (DV.holds dv.new) (DV.room dv.new) (DC.holds dc.new) (DC.room dc.new) parents.new parent.new progress.new) }
{
    let mut corners = Corners::empty(settings.setup.dim);
    let mut child = first_child::<AXES>(settings, above);
    let parts = dim_in::<AXES>(settings).parts();
    for n in 0..parts {
        let cell = &child.cell;
        match walk_cell::<AXES, M, DV, DC>(
            settings,
            cell,
            kind,
            levels - 1,
            progress,
            m,
            dv,
            dc,
            &mut corners,
            parents,
            parent,
        ) {
            Ok(()) => {}
            Err(halt) => {
                corners.close();
                return Err(halt);
            }
        }
        if n + 1 < parts {
            advance::<AXES>(settings, above, &mut child);
        }
    }
    corners.close();
    Ok(())
}
