// The walk of a cell and of its children: there is one for each number of axes, which knows it when it is compiled.
ghost use Rattle.std.specs.Prelude.{◌≡◌, suc, ◌+◌, ◌≤◌, ◌<◌};
ghost use Rattle.pe_base.specs.declared.place.Place.{Place as APlace};
ghost use Rattle.pe_stacks.specs.Corners.{no_vertices};
ghost use Rattle.pe_stacks.specs.Sights.{corner_records};
ghost use Rattle.pe_adapt.specs.Ages.{AreAgesOf, GiveKinds};
ghost use Rattle.pe_walk.specs.Machine.{kind_among, walk_cell};
ghost use Rattle.pe_adapt.specs.WalkedCells.{stream_stacks_of, IsWalked};
ghost use Rattle.pe_walk.specs.Children.{IsAbove};
ghost use Rattle.pe_walk.specs.Visits.{walk_children, MayWalkCells, Walks, WalkLeft, hands_of};

use crate::cell;
use crate::child::Above;
use pe_adapt::{Inner, Progress, Settings, WalkedCell};
use pe_base::Kind;
use pe_mapping::Mapping;
use pe_stacks::{CellRec, Corners, Depot, Vertex};

/// Walks a cell: it is counted, its corners are loaded, it is visited, and its corners are stored.
pub(crate) fn walk_cell<M: Mapping, DV: Depot<Vertex<M::V>>, DC: Depot<CellRec<M::C>>>(
    settings: &Settings,
    cell: &WalkedCell,
    kind: Kind,
    levels: u8,
    progress: &mut Progress,
    m: &mut M,
    dv: &mut DV,
    dc: &mut DC,
    corners: &mut Corners<M::V>,
    parents: &mut Corners<M::V>,
    parent: &mut CellRec<M::C>,
) -> Result<(), Inner>
    requires may { MayWalkCells M.rules M.numbers settings.now cell.now.place.level levels
        (λ set. walk_cell set (stream_stacks_of settings.now) (suc levels) cell.now.place)
        (hands_of (M.held m.old) (DV.holds dv.old) (DV.room dv.old) (DC.holds dc.old) (DC.room dc.old) parents.old parent.old progress.old) }
    requires walked { IsWalked (M.held m.old).dim settings.now cell.now }
    requires kinds { GiveKinds (M.held m.old).dim settings.now.traversal cell.now.place (corner_records M.numbers.vertex parents.old) cell.now.ages }
    requires kind { kind_among settings.now.traversal cell.now.place (corner_records M.numbers.vertex parents.old) ≡ kind }
    requires empty { corners.old ≡ no_vertices (M.held m.old).dim }
    ensures follows { Walks M.rules M.numbers settings.now
        (λ set. walk_cell set (stream_stacks_of settings.now) (suc levels) cell.now.place)
        (λ machine. machine) result
        (hands_of (M.held m.old) (DV.holds dv.old) (DV.room dv.old) (DC.holds dc.old) (DC.room dc.old) parents.old parent.old progress.old)
        (hands_of (M.held m.new) (DV.holds dv.new) (DV.room dv.new) (DC.holds dc.new) (DC.room dc.new) parents.new parent.new progress.new) }
    ensures left { WalkLeft M.numbers settings.now 0 result
        (hands_of (M.held m.old) (DV.holds dv.old) (DV.room dv.old) (DC.holds dc.old) (DC.room dc.old) parents.old parent.old progress.old)
        (hands_of (M.held m.new) (DV.holds dv.new) (DV.room dv.new) (DC.holds dc.new) (DC.room dc.new) parents.new parent.new progress.new) }
    ensures emptied { corners.new ≡ no_vertices (M.held m.old).dim }
{
    match settings.setup.dim.axes() {
        2 => cell::walk_cell::<2, M, DV, DC>(
            settings, cell, kind, levels, progress, m, dv, dc, corners, parents, parent,
        ),
        3 => cell::walk_cell::<3, M, DV, DC>(
            settings, cell, kind, levels, progress, m, dv, dc, corners, parents, parent,
        ),
        _ => cell::walk_cell::<4, M, DV, DC>(
            settings, cell, kind, levels, progress, m, dv, dc, corners, parents, parent,
        ),
    }
}

/// Walks the children of a cell, one after another along rows.
pub(crate) fn walk_children<M: Mapping, DV: Depot<Vertex<M::V>>, DC: Depot<CellRec<M::C>>>(
    settings: &Settings,
    above: &Above,
    kind: Kind,
    levels: u8,
    progress: &mut Progress,
    m: &mut M,
    dv: &mut DV,
    dc: &mut DC,
    parents: &mut Corners<M::V>,
    parent: &mut CellRec<M::C>,
) -> Result<(), Inner>
    requires may { MayWalkCells M.rules M.numbers settings.now above.now.place.level levels
        (λ set. walk_children set (stream_stacks_of settings.now) levels above.now.place)
        (hands_of (M.held m.old) (DV.holds dv.old) (DV.room dv.old) (DC.holds dc.old) (DC.room dc.old) parents.old parent.old progress.old) }
    requires above { IsAbove (M.held m.old).dim settings.now above.now }
    requires some { 0 < levels }
    requires aged { AreAgesOf (M.held m.old).dim (corner_records M.numbers.vertex parents.old) above.now.ages }
    requires kind { (cell : APlace) → cell.level ≡ above.now.place.level + 1 → kind_among settings.now.traversal cell (corner_records M.numbers.vertex parents.old) ≡ kind }
    ensures follows { Walks M.rules M.numbers settings.now
        (λ set. walk_children set (stream_stacks_of settings.now) levels above.now.place)
        (λ machine. machine) result
        (hands_of (M.held m.old) (DV.holds dv.old) (DV.room dv.old) (DC.holds dc.old) (DC.room dc.old) parents.old parent.old progress.old)
        (hands_of (M.held m.new) (DV.holds dv.new) (DV.room dv.new) (DC.holds dc.new) (DC.room dc.new) parents.new parent.new progress.new) }
    ensures left { WalkLeft M.numbers settings.now 0 result
        (hands_of (M.held m.old) (DV.holds dv.old) (DV.room dv.old) (DC.holds dc.old) (DC.room dc.old) parents.old parent.old progress.old)
        (hands_of (M.held m.new) (DV.holds dv.new) (DV.room dv.new) (DC.holds dc.new) (DC.room dc.new) parents.new parent.new progress.new) }
{
    match settings.setup.dim.axes() {
        2 => cell::walk_children::<2, M, DV, DC>(
            settings, above, kind, levels, progress, m, dv, dc, parents, parent,
        ),
        3 => cell::walk_children::<3, M, DV, DC>(
            settings, above, kind, levels, progress, m, dv, dc, parents, parent,
        ),
        _ => cell::walk_children::<4, M, DV, DC>(
            settings, above, kind, levels, progress, m, dv, dc, parents, parent,
        ),
    }
}
