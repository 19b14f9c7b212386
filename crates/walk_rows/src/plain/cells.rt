//! The cells of a level, and those around a vertex.
ghost use Rattle.std.specs.Prelude.{◌≡◌, IfOk, [], ◌∷◌, ◌&&◌};
ghost use Rattle.std.specs.List.{flat_map, list_any};
ghost use Rattle.pe_base.specs.Tree.Places.{IsCellPlace, is_same};
ghost use Rattle.pe_base.specs.Tree.Curve.{children, order};
ghost use Rattle.pe_base.specs.Steps.Around.{is_corner_pos, is_corner, around, steps};
ghost use Rattle.pe_base.specs.Steps.Faces.{is_step};

use super::setting::Setting;
use pe_base::{Dim, Place};
use pe_curve::child;
use std::test::Fail;

const ROOT: Place = Place {
    level: 0,
    pos: [0; 4],
};

// Refuses what is no place of a cell.
fn expect_cell(dim: Dim, place: &Place) -> Result<(), Fail>
    ensures { IfOk result (λ _. IsCellPlace dim place.now) }
{
    if place.level > 20 {
        return Err(Fail::new("a level above 20"));
    }
    let width = 3u64.pow(place.level as u32);
    let axes = dim.axes() as usize;
    for axis in 0..4 {
        let bound = if axis < axes { width } else { 1 };
        if place.pos[axis] >= bound {
            return Err(Fail::new("a position outside the root"));
        }
    }
    Ok(())
}

/// The children of a cell, in the order of the walk.
pub(super) fn children(setting: &Setting, cell: &Place) -> Result<Vec<Place>, Fail>
    ensures { IfOk result (λ v. v.items ≡ children setting.now.dim setting.now.way cell.now) }
{
    expect_cell(setting.dim, cell)?;
    if cell.level == 20 {
        return Err(Fail::new("no children below level 20"));
    }
    let mut out = Vec::new(setting.alloc);
    for n in 0..setting.dim.parts() {
        out.push(child(setting.dim, cell, setting.way, n))?;
    }
    Ok(out)
}

// The children of some cells.
fn refined(setting: &Setting, cells: &[Place]) -> Result<Vec<Place>, Fail>
    ensures { IfOk result (λ v. v.items ≡ flat_map (children setting.now.dim setting.now.way) cells.now) }
{
    let mut out = Vec::new(setting.alloc);
    for cell in cells {
        let mut below = children(setting, cell)?;
        out.append(&mut below)?;
    }
    Ok(out)
}

/// All cells of a level, in the order of the walk.
pub(super) fn order(setting: &Setting, level: u8) -> Result<Vec<Place>, Fail>
    ensures { IfOk result (λ v. v.items ≡ order setting.now.dim setting.now.way level) }
{
    let mut cells = vec![in setting.alloc; ROOT]?;
    for depth in 0..level {
        cells = refined(setting, &cells)?;
    }
    Ok(cells)
}

// Whether a vertex is a corner of a cell.
fn is_corner(vertex: &Place, cell: &Place) -> bool
    ensures { result ≡ is_corner vertex.now cell.now }
{
    let [q0, q1, q2, q3] = vertex.pos;
    let [p0, p1, p2, p3] = cell.pos;
    vertex.level == cell.level
        && is_end(q0, p0)
        && is_end(q1, p1)
        && is_end(q2, p2)
        && is_end(q3, p3)
}

// Whether a coordinate is one of the two ends of a position.
fn is_end(q: u64, p: u64) -> bool
    ensures { result ≡ is_corner_pos (q ∷ []) (p ∷ []) }
{
    q == p || (q > 0 && q - 1 == p)
}

/// The cells around a vertex, in the order of the walk.
pub(super) fn around(setting: &Setting, vertex: &Place) -> Result<Vec<Place>, Fail>
    ensures { IfOk result (λ v. v.items ≡ around setting.now.dim setting.now.way vertex.now) }
{
    let mut out = Vec::new(setting.alloc);
    for cell in &order(setting, vertex.level)? {
        if is_corner(vertex, cell) {
            out.push(*cell)?;
        }
    }
    Ok(out)
}

// Whether two places are the same.
fn is_same(a: &Place, b: &Place) -> bool
    ensures { result ≡ is_same a.now b.now }
{
    a == b
}

// Whether a step leads from a cell to another.
fn leads(from: &Place, to: &Place, a: &Place, b: &Place) -> bool
    ensures { result ≡ (is_same from.now a.now && is_same to.now b.now) }
{
    is_same(from, a) && is_same(to, b)
}

// Whether one of the steps along a list leads from a cell to another.
fn has_step(cells: &[Place], a: &Place, b: &Place) -> bool
    ensures { result ≡ list_any (λ step. is_same step.0 a.now && is_same step.1 b.now) (steps cells.now) }
{
    for i in 1..cells.len() {
        if leads(&cells[i - 1], &cells[i], a, b) {
            return true;
        }
    }
    false
}

/// Whether around a vertex a cell is followed by another.
pub(super) fn is_step(setting: &Setting, vertex: &Place, a: &Place, b: &Place) -> Result<bool, Fail>
    ensures { IfOk result (λ found. found ≡ is_step setting.now.dim setting.now.way vertex.now a.now b.now) }
{
    Ok(has_step(&around(setting, vertex)?, a, b))
}
