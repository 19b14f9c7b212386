ghost use Rattle.std.specs.Prelude.{◌≡◌, ℕ, ◌+◌, ◌-◌, ◌/◌, ◌%◌, ◌<◌, ◌≤◌, ◌^◌, false, max, slice_get, slice_index, slice_index_or, Some};
ghost use Rattle.pe_base.specs.Limits.{most_levels};
ghost use Rattle.pe_base.specs.declared.place.Place.{Place as APlace};
ghost use Rattle.pe_base.specs.declared.place.Digits.{Digits as SomeDigits};
ghost use Rattle.pe_base.specs.declared.way.Way.{Way as AWay};
ghost use Rattle.pe_base.specs.Tree.Dim.{IsDim};
ghost use Rattle.pe_base.specs.Tree.Places.{IsDigits, IsCellPlace, IsInside, bits, child_at, corner as corner_at, root};
ghost use Rattle.pe_base.specs.Tree.Curve.{flips};
ghost use Rattle.pe_base.specs.Steps.Routes.{stack_in, stack_out, way_turns};
ghost use Rattle.pe_access.specs.Numbers.{stack_of};
ghost use Rattle.pe_access.specs.Rows.{IsRow, end_at, side_of};
ghost use Rattle.pe_access.specs.States.{StandsFor, axes_of, level_of, odd_count, is_upwards, route_of};

use crate::numbers::{Axis, Numbers, bit};
use crate::route::Route;
use crate::row::Row;
use pe_base::{Digits, Dim, Way};

/// What the walk knows of a cell besides its record: parities and faces, and no position.
#[derive(Clone, Copy, Debug, PartialEq, Eq)]
pub struct CellState {
    axes: u8,
    way: Way,
    level: u8,
    along: [Axis; 4],
}

impl CellState {
    /// The state of the root in a traversal that goes this way.
    pub fn root(dim: Dim, way: Way) -> CellState
        ensures stands { StandsFor dim way root result }
        ensures level { level_of result ≡ 0 }
    {
        CellState {
            axes: dim.axes(),
            way,
            level: 0,
            along: [Axis::root(), Axis::root(), Axis::root(), Axis::root()],
        }
    }

    /// The state of the child at these digits. The cell's level is below `limits::MOST_LEVELS`.
    pub fn descend(&self, k: Digits) -> CellState
        requires level { level_of self.now < most_levels }
        requires digits { IsDigits (axes_of self.now) k }
        ensures stands { (axes : ℕ) (way : AWay) (cell : APlace) → IsCellPlace axes cell → StandsFor axes way cell self.now
            → StandsFor axes way (child_at cell k) result }
        ensures axes { axes_of result ≡ axes_of self.now }
        ensures level { level_of result ≡ level_of self.now + 1 }
    {
        self.child(self.axes, k)
    }

    /// What `descend` gives, for a caller who has the number of axes at hand.
    #[inline(always)]
    pub fn child(&self, axes: u8, digits: Digits) -> CellState
        requires same { axes ≡ axes_of self.now }
        requires level { level_of self.now < most_levels }
        requires digits { IsDigits (axes_of self.now) digits }
        ensures stands { (axes : ℕ) (way : AWay) (cell : APlace) → IsCellPlace axes cell → StandsFor axes way cell self.now
            → StandsFor axes way (child_at cell digits) result }
        ensures axes { axes_of result ≡ axes_of self.now }
        ensures level { level_of result ≡ level_of self.now + 1 }
    {
        let [x, y, z, w] = self.along;
        let [i, j, k, l] = digits.k;
        let level = self.level + 1;
        let turns = self.turns();
        let third = if 2 < axes {
            z.child(2, level, turns + i + j + bit(z.odd), k)
        } else {
            z
        };
        let fourth = if 3 < axes {
            w.child(3, level, turns + i + j + k + bit(w.odd), l)
        } else {
            w
        };
        let along = [
            x.child(0, level, turns + bit(x.odd), i),
            y.child(1, level, turns + i + bit(y.odd), j),
            third,
            fourth,
        ];
        CellState {
            axes: self.axes,
            way: self.way,
            level,
            along,
        }
    }

    /// Makes the state of a child that of the child at these digits, which differ from its own on the last axis alone.
    ///
    /// That is what `descend` gives, with less to do along a row of children. `up` says whether the last axis is walked upwards.
    #[inline(always)]
    pub fn step(&self, axes: u8, child: &mut CellState, row: &mut Row, up: bool, digits: Digits)
        requires same { axes ≡ axes_of self.now }
        requires level { level_of self.now < most_levels }
        requires digits { IsDigits (axes_of self.now) digits }
        requires axes { IsDim (axes_of self.now) }
        ensures stands { (axes : ℕ) (way : AWay) (cell : APlace) (from : SomeDigits) → IsCellPlace axes cell → IsDigits axes from
            → StandsFor axes way cell self.now → StandsFor axes way (child_at cell from) child.old
            → ((i : ℕ) → i < axes - 1 → slice_index from.k i ≡ slice_index digits.k i) → up ≡ is_upwards way cell digits (axes - 1)
            → StandsFor axes way (child_at cell digits) child.new }
        ensures axes { axes_of child.new ≡ axes_of child.old }
        ensures level { level_of child.new ≡ level_of child.old }
        ensures row { axes_of child.old ≡ axes_of self.now → IsRow child.old row.old → IsRow child.new row.new }
    {
        let axis = axes - 1;
        let last = axis as usize;
        let parent = self.along[last];
        let end = parent.walked(axis, self.level + 1, up, digits.k[last]);
        child.along[last] = end;
        set_ends(axes, &end, &mut row.ends);
    }

    /// Makes the state of a child that of the child at these digits, which agree with its own before an axis.
    ///
    /// That is what `descend` gives, with less to do from one row of children to the next. `ups` says of each axis whether it is
    /// walked upwards.
    #[inline(always)]
    pub fn turn(&self, axes: u8, first: u8, child: &mut CellState, ups: [bool; 4], digits: Digits)
        requires same { axes ≡ axes_of self.now }
        requires level { level_of self.now < most_levels }
        requires digits { IsDigits (axes_of self.now) digits }
        requires axes { IsDim (axes_of self.now) }
        requires first { first ≤ axes }
        ensures stands { (axes : ℕ) (way : AWay) (cell : APlace) (from : SomeDigits) → IsCellPlace axes cell → IsDigits axes from
            → StandsFor axes way cell self.now → StandsFor axes way (child_at cell from) child.old
            → ((i : ℕ) → i < first → slice_index from.k i ≡ slice_index digits.k i)
            → ((i : ℕ) → i < axes → slice_index_or ups i false ≡ is_upwards way cell digits i)
            → StandsFor axes way (child_at cell digits) child.new }
        ensures axes { axes_of child.new ≡ axes_of child.old }
        ensures level { level_of child.new ≡ level_of child.old }
    {
        for axis in first..axes {
            let place = axis as usize;
            let parent = self.along[place];
            child.along[place] = parent.walked(axis, self.level + 1, ups[place], digits.k[place]);
        }
    }

    // The turns of every axis: one where the walk is inverted, and one for each odd position.
    fn turns(&self) -> u8
        ensures value { result ≡ way_turns self.now.way + odd_count self.now.along }
        ensures small { result < 6 }
    {
        let [x, y, z, w] = self.along;
        let inverted = match self.way {
            Way::Forward => 0,
            Way::Inverted => 1,
        };
        inverted + bit(x.odd) + bit(y.odd) + bit(z.odd) + bit(w.odd)
    }

    /// The flips of the cell, for a cursor over its children: bit i is the flip of axis i.
    pub fn flips(&self) -> u8
        ensures { (axes : ℕ) (way : AWay) (cell : APlace) → IsCellPlace axes cell → StandsFor axes way cell self.now
            → bits axes result ≡ flips axes cell.pos }
    {
        let [x, y, z, w] = self.along;
        let sum = bit(x.odd) + bit(y.odd) + bit(z.odd) + bit(w.odd);
        (sum + bit(x.odd)) % 2
            + 2 * ((sum + bit(y.odd)) % 2)
            + 4 * ((sum + bit(z.odd)) % 2)
            + 8 * ((sum + bit(w.odd)) % 2)
    }

    /// The number of the face by which the cell takes its corner: 0 where it is the first of the vertex's cells, else
    /// eight times the face's level, and the stack.
    ///
    /// `corner` is below `2^d`, and that corner lies strictly inside the root cube.
    pub fn coming(&self, corner: u8) -> u32
        requires { corner < 2 ^ axes_of self.now }
        ensures { (axes : ℕ) (way : AWay) (cell : APlace) → IsCellPlace axes cell → StandsFor axes way cell self.now
            → let vertex = corner_at axes cell corner in IsInside axes vertex → stack_of result ≡ stack_in axes way vertex cell }
    {
        let [x, y, z, w] = self.along;
        let last = z.at(corner / 4 % 2).coming.max(w.at(corner / 8 % 2).coming);
        let behind = y.at(corner / 2 % 2).coming.max(last);
        x.at(corner % 2).coming.max(behind)
    }

    /// The number of the face by which the cell hands its corner on: 0 where it is the last of the vertex's cells, else
    /// eight times the face's level, and the stack.
    ///
    /// `corner` is below `2^d`, and that corner lies strictly inside the root cube.
    pub fn going(&self, corner: u8) -> u32
        requires { corner < 2 ^ axes_of self.now }
        ensures { (axes : ℕ) (way : AWay) (cell : APlace) → IsCellPlace axes cell → StandsFor axes way cell self.now
            → let vertex = corner_at axes cell corner in IsInside axes vertex → stack_of result ≡ stack_out axes way vertex cell }
    {
        let [x, y, z, w] = self.along;
        let last = z.at(corner / 4 % 2).going.max(w.at(corner / 8 % 2).going);
        let behind = y.at(corner / 2 % 2).going.max(last);
        x.at(corner % 2).going.max(behind)
    }

    /// The numbers of the cell's corners.
    pub fn row(&self) -> Row
        requires { IsDim (axes_of self.now) }
        ensures { IsRow self.now result }
    {
        let mut row = Row::empty();
        self.set_row(self.axes, &mut row);
        row
    }

    /// Makes these numbers those of the cell's corners.
    #[inline(always)]
    pub fn set_row(&self, axes: u8, row: &mut Row)
        requires same { axes ≡ axes_of self.now }
        requires axes { IsDim (axes_of self.now) }
        ensures { IsRow self.now row.new }
    {
        let [x, y, z, _] = self.along;
        set_greatest(
            axes,
            (x.near.coming, x.far.coming),
            (y.near.coming, y.far.coming),
            (z.near.coming, z.far.coming),
            &mut row.coming,
        );
        set_greatest(
            axes,
            (x.near.going, x.far.going),
            (y.near.going, y.far.going),
            (z.near.going, z.far.going),
            &mut row.going,
        );
        set_ends(axes, &self.along[(axes - 1) as usize], &mut row.ends);
    }

    /// The number by which the cell takes its corner, as `coming` tells it, from the numbers of its corners.
    #[inline(always)]
    pub fn coming_in(&self, row: &Row, corner: u8) -> u32
        requires corner { corner < 2 ^ axes_of self.now }
        requires row { IsRow self.now row.now }
        requires axes { IsDim (axes_of self.now) }
        ensures { (axes : ℕ) (way : AWay) (cell : APlace) → IsCellPlace axes cell → StandsFor axes way cell self.now
            → let vertex = corner_at axes cell corner in IsInside axes vertex → stack_of result ≡ stack_in axes way vertex cell }
    {
        row.coming[(corner % 8) as usize].max(row.ends[(corner / 2) as usize].coming)
    }

    /// The number by which the cell hands its corner on, as `going` tells it, from the numbers of its corners.
    #[inline(always)]
    pub fn going_in(&self, row: &Row, corner: u8) -> u32
        requires corner { corner < 2 ^ axes_of self.now }
        requires row { IsRow self.now row.now }
        requires axes { IsDim (axes_of self.now) }
        ensures { (axes : ℕ) (way : AWay) (cell : APlace) → IsCellPlace axes cell → StandsFor axes way cell self.now
            → let vertex = corner_at axes cell corner in IsInside axes vertex → stack_of result ≡ stack_out axes way vertex cell }
    {
        row.going[(corner % 8) as usize].max(row.ends[(corner / 2) as usize].going)
    }

    /// Where the cell takes its corner from: the stream exactly where no other cell comes before it around the
    /// vertex, else the stack of the face to the cell before.
    ///
    /// `corner` is below `2^d`, and that corner lies strictly inside the root cube.
    pub fn route_in(&self, corner: u8) -> Route
        requires { corner < 2 ^ axes_of self.now }
        ensures { (axes : ℕ) (way : AWay) (cell : APlace) → IsCellPlace axes cell → StandsFor axes way cell self.now
            → let vertex = corner_at axes cell corner in IsInside axes vertex → result ≡ route_of (stack_in axes way vertex cell) }
    {
        route_of(self.coming(corner))
    }

    /// Where the cell puts its corner: the stream exactly where no other cell comes after it around the vertex,
    /// else the stack of the face to the next cell.
    ///
    /// `corner` is below `2^d`, and that corner lies strictly inside the root cube.
    pub fn route_out(&self, corner: u8) -> Route
        requires { corner < 2 ^ axes_of self.now }
        ensures { (axes : ℕ) (way : AWay) (cell : APlace) → IsCellPlace axes cell → StandsFor axes way cell self.now
            → let vertex = corner_at axes cell corner in IsInside axes vertex → result ≡ route_of (stack_out axes way vertex cell) }
    {
        route_of(self.going(corner))
    }
}

// The route that a face's number tells.
fn route_of(number: u32) -> Route
    ensures { result ≡ route_of (stack_of number) }
{
    match number {
        0 => Route::Stream,
        _ => Route::Temp((number % 8) as u8),
    }
}

// Sets the greatest number at each corner along all axes but the last, by the numbers of both sides on axes 0 to 2.
#[inline(always)]
fn set_greatest(axes: u8, x: (u32, u32), y: (u32, u32), z: (u32, u32), numbers: &mut [u32; 8])
    requires { IsDim axes }
    ensures two { axes ≡ 2 → (corner : ℕ) → corner < 4 → slice_index numbers.new corner ≡ side_of x (corner % 2) }
    ensures three { axes ≡ 3 → (corner : ℕ) → corner < 8
        → slice_index numbers.new corner ≡ max (side_of x (corner % 2)) (side_of y (corner / 2 % 2)) }
    ensures four { axes ≡ 4 → (corner : ℕ) → corner < 8
        → slice_index numbers.new corner ≡ max (side_of x (corner % 2)) (max (side_of y (corner / 2 % 2)) (side_of z (corner / 4))) }
{
    if axes == 2 {
        numbers[0] = x.0;
        numbers[1] = x.1;
        numbers[2] = x.0;
        numbers[3] = x.1;
        return;
    }
    let a = x.0.max(y.0);
    let b = x.1.max(y.0);
    let c = x.0.max(y.1);
    let d = x.1.max(y.1);
    if axes == 3 {
        *numbers = [a, b, c, d, a, b, c, d];
        return;
    }
    *numbers = [
        a.max(z.0),
        b.max(z.0),
        c.max(z.0),
        d.max(z.0),
        a.max(z.1),
        b.max(z.1),
        c.max(z.1),
        d.max(z.1),
    ];
}

// Sets the face of each two corners along the last axis.
#[inline(always)]
fn set_ends(axes: u8, last: &Axis, ends: &mut [Numbers; 8])
    requires { IsDim axes }
    ensures { (pair : ℕ) → pair < 2 ^ (axes - 1) → slice_get ends.new pair ≡ Some (end_at last.now (pair / 2 ^ (axes - 2))) }
{
    let near = last.near;
    let far = last.far;
    match axes {
        2 => {
            ends[0] = near;
            ends[1] = far;
        }
        3 => {
            ends[0] = near;
            ends[1] = near;
            ends[2] = far;
            ends[3] = far;
        }
        _ => *ends = [near, near, near, near, far, far, far, far],
    }
}
