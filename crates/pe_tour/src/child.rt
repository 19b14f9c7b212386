// The children of a cell, each made from the one before it: along a row only the digit on the last axis changes.
ghost use Rattle.std.specs.Prelude.{◌≡◌, ℕ, ◌+◌, ◌-◌, ◌<◌, ◌≤◌, ◌^◌};
ghost use Rattle.pe_base.specs.Tree.Dim.{IsDim};
ghost use Rattle.pe_base.specs.Tree.Places.{IsCellPlace, IsDigits, child_at};
ghost use Rattle.pe_base.specs.declared.place.Digits.{Digits as SomeDigits};
ghost use Rattle.pe_states.specs.Sides.{IsRow as IsRowOfAges};
ghost use Rattle.pe_tour.specs.Cells.{IsOver, IsChild, IsAhead, AreChildAges, AgreeBefore, kind_of_child};

use crate::settings::dim_in;
use crate::{CellAt, TourSettings};
use pe_access::Row;
use pe_base::{Digits, Kind, Place};
use pe_curve::{Step, child_at};
use pe_states::{Ages, kind_of};

/// A child of a cell, and what it shares with the others of its row.
#[derive(Clone, Copy)]
pub(crate) struct Child {
    /// What is known of it.
    pub cell: CellAt,
    /// The part of its ages that is the same along the row.
    pub row_ages: Ages,
}

// The kind of the children of a cell, by the ages of its corners.
fn kind_below(settings: &TourSettings, over: &CellAt, ages: Ages) -> Kind
    requires { over.now.place.level < 20 }
    ensures { result ≡ kind_of_child settings.now.traversal (over.now.place.level + 1) ages }
{
    if over.place.level > 0 {
        let (old, new) = ages.any();
        return kind_of(old, new);
    }
    if settings.traversal == 1 {
        Kind::Born
    } else {
        Kind::Kept
    }
}

// The ages of a child's corners.
#[inline(always)]
fn child_ages<const AXES: u8>(
    settings: &TourSettings,
    over: &CellAt,
    row_ages: Ages,
    digits: Digits,
) -> Ages
    requires axes { settings.now.dim ≡ AXES }
    requires level { over.now.place.level < 20 }
    requires digits { IsDigits settings.now.dim digits }
    ensures { (ages : ℕ) → IsRowOfAges settings.now.dim digits ages row_ages → AreChildAges settings.now ages (over.now.place.level + 1) digits result }
{
    let dim = dim_in::<AXES>(settings);
    if over.place.level == 0 {
        Ages::level_one(dim, digits, settings.traversal)
    } else {
        row_ages.of_row(dim, digits)
    }
}

/// The first child of a cell whose corners have these ages.
pub(crate) fn first_child<const AXES: u8>(
    settings: &TourSettings,
    over: &CellAt,
    ages: Ages,
) -> Child
    requires axes { settings.now.dim ≡ AXES }
    requires over { IsOver settings.now over.now }
    ensures { IsChild settings.now over.now ages 0 result }
{
    let dim = dim_in::<AXES>(settings);
    let step = Step::first(dim, settings.way, over.state.flips());
    let digits = step.digits;
    let place = child_at(&over.place, digits);
    let state = over.state.child(AXES, digits);
    let mut row = Row::empty();
    state.set_row(AXES, &mut row);
    let row_ages = ages.row(dim, digits);
    let its_ages = child_ages::<AXES>(settings, over, row_ages, digits);
    let kind = kind_below(settings, over, ages);
    Child {
        cell: CellAt {
            place,
            step,
            state,
            row,
            ages: its_ages,
            kind,
        },
        row_ages,
    }
}

/// Makes a child the next one: of its row, or the first of another row.
#[inline(always)]
pub(crate) fn advance<const AXES: u8>(
    settings: &TourSettings,
    over: &CellAt,
    ages: Ages,
    child: &mut Child,
)
    requires axes { settings.now.dim ≡ AXES }
    requires over { IsOver settings.now over.now }
    requires child { (n : ℕ) × (n + 1 < 3 ^ settings.now.dim) × IsChild settings.now over.now ages n child.old }
    ensures { (n : ℕ) → n + 1 < 3 ^ settings.now.dim → IsChild settings.now over.now ages n child.old → IsChild settings.now over.now ages (n + 1) child.new }
{
    let moved = child.cell.step.advance(AXES);
    if moved == AXES - 1 {
        step_to::<AXES>(settings, over, ages, child);
    } else {
        turn_to::<AXES>(settings, over, ages, child, moved);
    }
}

// Makes a child the one of its step, which is of the same row.
#[inline(always)]
fn step_to<const AXES: u8>(settings: &TourSettings, over: &CellAt, ages: Ages, child: &mut Child)
    requires axes { settings.now.dim ≡ AXES }
    requires over { IsOver settings.now over.now }
    requires child { (n : ℕ) × IsAhead settings.now over.now ages (settings.now.dim - 1) n child.old }
    ensures { (n : ℕ) → IsAhead settings.now over.now ages (settings.now.dim - 1) n child.old → IsChild settings.now over.now ages n child.new }
{
    let step = child.cell.step;
    over.state.step(
        AXES,
        &mut child.cell.state,
        &mut child.cell.row,
        step.ups[(AXES - 1) as usize],
        step.digits,
    );
    step_place::<AXES>(&over.place, &mut child.cell.place, step.digits);
    child.cell.ages = child_ages::<AXES>(settings, over, child.row_ages, step.digits);
}

// Makes a child the one of its step, which agrees with it before an axis.
fn turn_to<const AXES: u8>(
    settings: &TourSettings,
    over: &CellAt,
    ages: Ages,
    child: &mut Child,
    first: u8,
)
    requires axes { settings.now.dim ≡ AXES }
    requires over { IsOver settings.now over.now }
    requires first { first ≤ settings.now.dim }
    requires child { (n : ℕ) × IsAhead settings.now over.now ages first n child.old }
    ensures { (n : ℕ) → IsAhead settings.now over.now ages first n child.old → IsChild settings.now over.now ages n child.new }
{
    let dim = dim_in::<AXES>(settings);
    let step = child.cell.step;
    let place = child_at(&over.place, step.digits);
    child.cell.place = place;
    over.state
        .turn(AXES, first, &mut child.cell.state, step.ups, step.digits);
    child.cell.state.set_row(AXES, &mut child.cell.row);
    let row_ages = ages.row(dim, step.digits);
    child.row_ages = row_ages;
    let its_ages = child_ages::<AXES>(settings, over, row_ages, step.digits);
    child.cell.ages = its_ages;
}

// Makes the place of a child that of the child at these digits, of the same row.
#[inline(always)]
fn step_place<const AXES: u8>(parent: &Place, place: &mut Place, digits: Digits)
    requires axes { IsDim AXES }
    requires parent { IsCellPlace AXES parent.now }
    requires digits { IsDigits AXES digits }
    ensures { (from : SomeDigits) → IsDigits AXES from → AgreeBefore (AXES - 1) from digits
        → place.old ≡ child_at parent.now from → place.new ≡ child_at parent.now digits }
{
    let last = (AXES - 1) as usize;
    place.pos[last] = 3 * parent.pos[last] + digits.k[last] as u64;
}
