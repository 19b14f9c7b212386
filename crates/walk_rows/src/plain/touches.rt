//! The corners of a cell, and the loads and stores of its walk.
ghost use Rattle.std.specs.Prelude.{◌≡◌, ◌+◌, ◌/◌, ◌%◌, ◌<◌, IfOk};
ghost use Rattle.pe_base.specs.Tree.Places.{bits, moved, corner};
ghost use Rattle.pe_base.specs.Steps.Faces.{corner_touches, loads, stores};

use super::cells::children;
use super::setting::Setting;
use pe_base::{Dim, Place};
use std::marker::Model;
use std::test::Fail;

/// A corner of a cell, and the cell that it is touched for.
#[derive(Debug, Drop)]
pub(super) struct Touch {
    vertex: Place,
    cell: Place,
}

impl Model for Touch {
    ghost use Rattle.pe_base.specs.Steps.Faces.{Touch as ATouch};

    ghost Value = { ATouch };

    ghost view = { λ t. record { vertex = t.vertex; cell = t.cell } };
}

impl Touch {
    fn new(vertex: Place, cell: Place) -> Touch
        ensures { result ≡ record { vertex = vertex; cell = cell } }
    {
        Touch { vertex, cell }
    }

    pub(super) fn vertex(&self) -> &Place
        ensures { result.now ≡ self.now.vertex }
    {
        &self.vertex
    }

    pub(super) fn cell(&self) -> &Place
        ensures { result.now ≡ self.now.cell }
    {
        &self.cell
    }
}

// One end of a position, by the bit of a corner's number that has this weight.
fn end_of(x: u64, k: u8, weight: u8) -> Result<u64, Fail>
    requires { 0 < weight }
    ensures { IfOk result (λ y. y ≡ x + k / weight % 2) }
{
    match x.checked_add((k / weight % 2) as u64) {
        Some(y) => Ok(y),
        None => Err(Fail::new("a position out of range")),
    }
}

// A position moved by the bits of a corner's number.
fn moved(dim: Dim, pos: [u64; 4], k: u8) -> Result<[u64; 4], Fail>
    ensures { IfOk result (λ p. p ≡ moved pos (bits dim k)) }
{
    let [x, y, z, w] = pos;
    let x = end_of(x, k, 1)?;
    let y = end_of(y, k, 2)?;
    if dim.axes() == 2 {
        return Ok([x, y, z, w]);
    }
    let z = end_of(z, k, 4)?;
    if dim.axes() == 3 {
        return Ok([x, y, z, w]);
    }
    let w = end_of(w, k, 8)?;
    Ok([x, y, z, w])
}

// Corner k of a cell.
fn corner(dim: Dim, cell: &Place, k: u8) -> Result<Place, Fail>
    ensures { IfOk result (λ vertex. vertex ≡ corner dim cell.now k) }
{
    let pos = moved(dim, cell.pos, k)?;
    Ok(Place {
        level: cell.level,
        pos,
    })
}

// The corners of a cell, in ascending number.
fn corner_touches(setting: &Setting, cell: &Place) -> Result<Vec<Touch>, Fail>
    ensures { IfOk result (λ v. v.items ≡ corner_touches setting.now.dim cell.now) }
{
    let mut out = Vec::new(setting.alloc);
    for k in 0..setting.dim.corners() {
        let vertex = corner(setting.dim, cell, k)?;
        out.push(Touch::new(vertex, *cell))?;
    }
    Ok(out)
}

/// The loads of the walk of a cell, some levels deep.
pub(super) fn loads(setting: &Setting, levels: u8, cell: &Place) -> Result<Vec<Touch>, Fail>
    ensures { IfOk result (λ v. v.items ≡ loads setting.now.dim setting.now.way levels cell.now) }
{
    let mut out = corner_touches(setting, cell)?;
    out.reverse();
    if levels == 0 {
        return Ok(out);
    }
    for child in &children(setting, cell)? {
        let mut below = loads(setting, levels - 1, child)?;
        out.append(&mut below)?;
    }
    Ok(out)
}

/// The stores of the walk of a cell, some levels deep.
pub(super) fn stores(setting: &Setting, levels: u8, cell: &Place) -> Result<Vec<Touch>, Fail>
    ensures { IfOk result (λ v. v.items ≡ stores setting.now.dim setting.now.way levels cell.now) }
{
    let mut own = corner_touches(setting, cell)?;
    if levels == 0 {
        return Ok(own);
    }
    let mut out = Vec::new(setting.alloc);
    for child in &children(setting, cell)? {
        let mut below = stores(setting, levels - 1, child)?;
        out.append(&mut below)?;
    }
    out.append(&mut own)?;
    Ok(out)
}
