//! What the program computes on grids of two levels: neighbours agree, and the lists of children compose.
ghost use Rattle.std.specs.Prelude.{◌<◌};

use super::cells::{children, order};
use super::grid::{Everywhere, Grid, RefinedOnce, Regular};
use super::lists::{Face, arriving, leaving};
use super::setting::Setting;
use pe_base::{Dim, Place, Way};
use std::process::Abort;
use std::test::Fail;

// What waits beneath the lists of a cell.
const BENEATH: Place = Place {
    level: 20,
    pos: [7; 4],
};

// Compares what a cell leaves at a face with what arrives in its neighbour there. Answers how many vertices it leaves.
fn compare<G: Grid>(
    rt: &impl Abort,
    setting: &Setting,
    grid: &G,
    face: &Face,
    cell: &Place,
    next: &Place,
) -> Result<usize, Fail> {
    let left = leaving(setting, grid, 1, face, cell)?;
    let taken = arriving(setting, grid, 1, &face.facing(), next)?;
    assert!(rt;
        left.as_slice() == taken.as_slice(),
        "from {cell:?} to {next:?}"
    );
    Ok(left.len())
}

// Compares the lists of a cell of level 1 at each face to a cell of the root.
fn compare_all<G: Grid>(
    rt: &impl Abort,
    setting: &Setting,
    grid: &G,
    cells: &[Place],
    cell: &Place,
) -> Result<usize, Fail> {
    let mut passed = 0usize;
    for stack in 0..2 * setting.dim.axes() {
        let face = Face::on(stack, cell);
        let next = face.across(cell)?;
        if next != *cell && cells.contains(&next) {
            passed = passed.saturating_add(compare(rt, setting, grid, &face, cell, &next)?);
        }
    }
    Ok(passed)
}

// Compares the lists of all cells of level 1. Answers how often a vertex passes from one of them to another.
fn neighbours<G: Grid>(rt: &impl Abort, setting: &Setting, grid: &G) -> Result<usize, Fail> {
    let cells = order(setting, 1)?;
    let mut passed = 0usize;
    for cell in &cells {
        passed = passed.saturating_add(compare_all(rt, setting, grid, &cells, cell)?);
    }
    Ok(passed)
}

// A stack, the top first, after one list is taken off the top and another is put there.
fn exchange(
    rt: &impl Abort,
    stack: &[Place],
    takes: &[Place],
    mut gives: Vec<Place>,
) -> Result<Vec<Place>, Fail> {
    let count = takes.len();
    assert!(rt; count <= stack.len(), "{takes:?} of {stack:?}");
    assert!(rt; &stack[..count] == takes);
    gives.extend_from_slice(&stack[count..])?;
    Ok(gives)
}

// Walks a cell on one stack: its own corners, its children in order, and its own corners again.
fn compose<G: Grid>(
    rt: &impl Abort,
    setting: &Setting,
    grid: &G,
    levels: u8,
    stack: u8,
    cell: &Place,
) -> Result<(), Fail>
    requires levels { 0 < levels }
    requires stack { stack < 8 }
{
    let face = Face::on(stack, cell);
    let mut waiting = arriving(setting, grid, levels, &face, cell)?;
    waiting.push(BENEATH)?;
    let own = arriving(setting, grid, 0, &face, cell)?;
    waiting = exchange(rt, &waiting, &own, Vec::new(setting.alloc))?;
    for child in &children(setting, cell)? {
        let face = Face::on(stack, child);
        let takes = arriving(setting, grid, levels - 1, &face, child)?;
        let gives = leaving(setting, grid, levels - 1, &face, child)?;
        waiting = exchange(rt, &waiting, &takes, gives)?;
    }
    let own = leaving(setting, grid, 0, &face, cell)?;
    waiting = exchange(rt, &waiting, &[], own)?;
    let mut want = leaving(setting, grid, levels, &face, cell)?;
    want.push(BENEATH)?;
    assert!(rt; waiting.as_slice() == want.as_slice(), "at {cell:?}");
    Ok(())
}

// Walks a cell on each stack.
fn compose_all<G: Grid>(
    rt: &impl Abort,
    setting: &Setting,
    grid: &G,
    levels: u8,
    cell: &Place,
) -> Result<(), Fail>
    requires { 0 < levels }
{
    for stack in 0..2 * setting.dim.axes() {
        compose(rt, setting, grid, levels, stack, cell)?;
    }
    Ok(())
}

// Walks the root and the cells of level 1.
fn composition<G: Grid>(rt: &impl Abort, setting: &Setting, grid: &G) -> Result<(), Fail> {
    for root in &order(setting, 0)? {
        compose_all(rt, setting, grid, 2, root)?;
    }
    for cell in &order(setting, 1)? {
        compose_all(rt, setting, grid, 1, cell)?;
    }
    Ok(())
}

// The plane or space, in a way.
fn setting(rt: &HostRuntime, axes: u8, way: Way) -> Result<Setting, Fail> {
    let dim = Dim::new(axes).ok_or("a dimension")?;
    Ok(Setting {
        alloc: rt.alloc(),
        dim,
        way,
    })
}

#[test]
fn neighbours_agree_in_the_plane(rt: HostRuntime) -> Result<(), Fail> {
    for way in [Way::Forward, Way::Inverted] {
        let plane = setting(&rt, 2, way)?;
        assert!(rt; neighbours(&rt, &plane, &Regular)? == 48);
        assert!(rt; neighbours(&rt, &plane, &RefinedOnce)? == 23);
    }
    Ok(())
}

#[test]
fn neighbours_agree_in_space(rt: HostRuntime) -> Result<(), Fail> {
    for way in [Way::Forward, Way::Inverted] {
        let space = setting(&rt, 3, way)?;
        assert!(rt; neighbours(&rt, &space, &Everywhere)? == 544);
    }
    Ok(())
}

#[test]
fn the_walk_composes_in_the_plane(rt: HostRuntime) -> Result<(), Fail> {
    for way in [Way::Forward, Way::Inverted] {
        let plane = setting(&rt, 2, way)?;
        composition(&rt, &plane, &Regular)?;
        composition(&rt, &plane, &RefinedOnce)?;
    }
    Ok(())
}

#[test]
fn the_walk_composes_in_space(rt: HostRuntime) -> Result<(), Fail> {
    for way in [Way::Forward, Way::Inverted] {
        let space = setting(&rt, 3, way)?;
        composition(&rt, &space, &Everywhere)?;
    }
    Ok(())
}
