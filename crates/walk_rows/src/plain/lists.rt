//! The lists of a face: what arrives in a cell there, and what the cell leaves.
ghost use Rattle.std.specs.Prelude.{◌≡◌, ◌<◌, ◌+◌, ◌/◌, ◌%◌, ◌&&◌, IfOk, slice_index};
ghost use Rattle.pe_base.specs.Steps.Faces.{beside, across, plane, in_finest, is_on, face_on, comes_across, goes_across, arriving, leaving, facing};

use super::cells::is_step;
use super::grid::Grid;
use super::setting::Setting;
use super::touches::{Touch, loads, stores};
use pe_base::Place;
use std::marker::Model;
use std::test::Fail;

/// A face of a cell: the axis that it is normal to, and its side, 0 or 1.
#[derive(Debug, Drop)]
pub(super) struct Face {
    axis: usize,
    side: u64,
}

impl Model for Face {
    ghost use Rattle.std.specs.Prelude.{◌<◌};
    ghost use Rattle.pe_base.specs.Steps.Faces.{Face as AFace};

    ghost Value = { AFace };

    ghost view = { λ f. record { axis = f.axis; side = f.side } };

    ghost invariant = { λ f. f.axis < 4 };
}

impl Face {
    /// The face of a cell on a stack: two for each axis, of even and of odd planes.
    pub(super) fn on(stack: u8, cell: &Place) -> Face
        requires { stack < 8 }
        ensures { result ≡ face_on (stack / 2) (stack % 2) cell.now }
    {
        let axis = (stack / 2) as usize;
        let parity = (stack % 2) as u64;
        Face {
            axis,
            side: (cell.pos[axis] % 2 + parity) % 2,
        }
    }

    /// The same face, as the neighbour across it sees it.
    pub(super) fn facing(&self) -> Face
        ensures { result ≡ facing self.now }
    {
        Face {
            axis: self.axis,
            side: 1u64.saturating_sub(self.side),
        }
    }

    /// The cell across the face of a cell.
    pub(super) fn across(&self, cell: &Place) -> Result<Place, Fail>
        ensures { IfOk result (λ next. next ≡ across self.now cell.now) }
    {
        let mut pos = cell.pos;
        pos[self.axis] = beside(self.side, cell.pos[self.axis])?;
        Ok(Place {
            level: cell.level,
            pos,
        })
    }

    // The coordinate of the face of a cell.
    fn plane(&self, cell: &Place) -> Result<u64, Fail>
        ensures { IfOk result (λ x. x ≡ plane self.now cell.now) }
    {
        match cell.pos[self.axis].checked_add(self.side) {
            Some(x) => Ok(x),
            None => Err(Fail::new("a plane out of range")),
        }
    }

    // The coordinate of a vertex on the face's axis.
    fn coordinate(&self, vertex: &Place) -> u64
        ensures { result ≡ slice_index vertex.now.pos self.now.axis }
    {
        vertex.pos[self.axis]
    }
}

// The position across a face.
fn beside(side: u64, x: u64) -> Result<u64, Fail>
    ensures { IfOk result (λ y. y ≡ beside side x) }
{
    if side == 0 {
        return Ok(x.saturating_sub(1));
    }
    match x.checked_add(1) {
        Some(y) => Ok(y),
        None => Err(Fail::new("a position out of range")),
    }
}

// A coordinate of a level, in widths of the cells of a finest level.
fn in_finest(finest: u8, level: u8, x: u64) -> Result<u64, Fail>
    ensures { IfOk result (λ y. y ≡ in_finest finest level x) }
{
    let Some(width) = 3u64.checked_pow(finest.saturating_sub(level) as u32) else {
        return Err(Fail::new("a width out of range"));
    };
    match x.checked_mul(width) {
        Some(y) => Ok(y),
        None => Err(Fail::new("a coordinate out of range")),
    }
}

// Whether a vertex lies in the plane of a cell's face.
fn is_on(finest: u8, face: &Face, cell: &Place, vertex: &Place) -> Result<bool, Fail>
    ensures { IfOk result (λ on. on ≡ is_on finest face.now cell.now vertex.now) }
{
    let at = in_finest(finest, vertex.level, face.coordinate(vertex))?;
    let want = in_finest(finest, cell.level, face.plane(cell)?)?;
    Ok(at == want)
}

// Whether a vertex that counts comes to a cell across a face of it.
fn comes_across<G: Grid>(
    setting: &Setting,
    grid: &G,
    face: &Face,
    touch: &Touch,
) -> Result<bool, Fail>
    ensures { IfOk result (λ comes. comes ≡ comes_across setting.now.dim setting.now.way G.counts face.now touch.now) }
{
    if !grid.counts(touch.vertex()) {
        return Ok(false);
    }
    let before = face.across(touch.cell())?;
    is_step(setting, touch.vertex(), &before, touch.cell())
}

// Whether a vertex that counts goes from a cell across a face of it.
fn goes_across<G: Grid>(
    setting: &Setting,
    grid: &G,
    face: &Face,
    touch: &Touch,
) -> Result<bool, Fail>
    ensures { IfOk result (λ goes. goes ≡ goes_across setting.now.dim setting.now.way G.counts face.now touch.now) }
{
    if !grid.counts(touch.vertex()) {
        return Ok(false);
    }
    let behind = face.across(touch.cell())?;
    is_step(setting, touch.vertex(), touch.cell(), &behind)
}

// Whether the touch of a vertex is among those that arrive in a cell at a face.
fn arrives<G: Grid>(
    setting: &Setting,
    grid: &G,
    finest: u8,
    face: &Face,
    cell: &Place,
    touch: &Touch,
) -> Result<bool, Fail>
    ensures { IfOk result (λ arrives. arrives ≡ (is_on finest face.now cell.now touch.now.vertex && comes_across setting.now.dim setting.now.way G.counts face.now touch.now)) }
{
    if !is_on(finest, face, cell, touch.vertex())? {
        return Ok(false);
    }
    comes_across(setting, grid, face, touch)
}

// Whether the touch of a vertex is among those that a cell leaves at a face.
fn leaves<G: Grid>(
    setting: &Setting,
    grid: &G,
    finest: u8,
    face: &Face,
    cell: &Place,
    touch: &Touch,
) -> Result<bool, Fail>
    ensures { IfOk result (λ leaves. leaves ≡ (is_on finest face.now cell.now touch.now.vertex && goes_across setting.now.dim setting.now.way G.counts face.now touch.now)) }
{
    if !is_on(finest, face, cell, touch.vertex())? {
        return Ok(false);
    }
    goes_across(setting, grid, face, touch)
}

// The level at the bottom of some levels.
fn finest(cell: &Place, levels: u8) -> Result<u8, Fail>
    ensures { IfOk result (λ level. level ≡ cell.now.level + levels) }
{
    match cell.level.checked_add(levels) {
        Some(level) => Ok(level),
        None => Err(Fail::new("a level out of range")),
    }
}

/// The vertices that the walk of a cell takes over at a face, in the order of their loads.
pub(super) fn arriving<G: Grid>(
    setting: &Setting,
    grid: &G,
    levels: u8,
    face: &Face,
    cell: &Place,
) -> Result<Vec<Place>, Fail>
    ensures { IfOk result (λ v. v.items ≡ arriving setting.now.dim setting.now.way G.counts levels face.now cell.now) }
{
    let finest = finest(cell, levels)?;
    let touches = loads(setting, levels, cell)?;
    let mut out = Vec::new(setting.alloc);
    for touch in &touches {
        if arrives(setting, grid, finest, face, cell, touch)? {
            out.push(*touch.vertex())?;
        }
    }
    Ok(out)
}

/// The vertices that the walk of a cell leaves at a face, the last one stored first.
pub(super) fn leaving<G: Grid>(
    setting: &Setting,
    grid: &G,
    levels: u8,
    face: &Face,
    cell: &Place,
) -> Result<Vec<Place>, Fail>
    ensures { IfOk result (λ v. v.items ≡ leaving setting.now.dim setting.now.way G.counts levels face.now cell.now) }
{
    let finest = finest(cell, levels)?;
    let mut touches = stores(setting, levels, cell)?;
    touches.reverse();
    let mut out = Vec::new(setting.alloc);
    for touch in &touches {
        if leaves(setting, grid, finest, face, cell, touch)? {
            out.push(*touch.vertex())?;
        }
    }
    Ok(out)
}
