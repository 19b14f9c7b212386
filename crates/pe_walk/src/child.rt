// The children of a cell, each made from the one before it: along a row only the digit on the last axis changes.
ghost use Rattle.std.specs.Prelude.{◌≡◌, ℕ, ◌+◌, ◌-◌, ◌<◌, ◌≤◌, ◌^◌, List};
ghost use Rattle.pe_base.specs.Tree.Dim.{IsDim};
ghost use Rattle.pe_base.specs.Tree.Places.{IsCellPlace, IsDigits, child_at};
ghost use Rattle.pe_base.specs.declared.place.Digits.{Digits as SomeDigits};
ghost use Rattle.pe_base.specs.Acts.Effects.{VertexRecord};
ghost use Rattle.pe_states.specs.Sides.{IsRow as IsRowOfAges};
ghost use Rattle.pe_adapt.specs.Ages.{AreAgesOf, GiveKinds};
ghost use Rattle.pe_walk.specs.Children.{IsAbove, IsChild, IsAhead, AgreeBefore};

use pe_access::{CellState, Row};
use pe_adapt::{Settings, WalkedCell, dim_in};
use pe_base::{Digits, Place};
use pe_curve::{Step, child_at};
use pe_states::Ages;

/// What is known of a cell whose children are walked.
#[derive(Clone, Copy)]
pub(crate) struct Above {
    /// Its place.
    pub place: Place,
    /// Its state.
    pub state: CellState,
    /// Which of its corners are old, and which are new.
    pub ages: Ages,
}

/// A child of a cell, and what it shares with the others of its row.
#[derive(Clone, Copy)]
pub(crate) struct Child {
    /// What is known of it.
    pub cell: WalkedCell,
    /// Where it stands on the way along the curve.
    pub step: Step,
    /// The part of its ages that is the same along the row.
    pub row_ages: Ages,
}

// The ages of a child's corners.
#[inline(always)]
fn child_ages<const AXES: u8>(
    settings: &Settings,
    above: &Above,
    row_ages: Ages,
    digits: Digits,
) -> Ages
    requires axes { settings.now.setup.dim ≡ AXES }
    requires above { IsAbove settings.now.setup.dim settings.now above.now }
    requires digits { IsDigits settings.now.setup.dim digits }
    requires row { IsRowOfAges settings.now.setup.dim digits above.now.ages row_ages }
    ensures { (its : List VertexRecord) → AreAgesOf settings.now.setup.dim its above.now.ages
        → GiveKinds settings.now.setup.dim settings.now.traversal (child_at above.now.place digits) its result }
{
    let dim = dim_in::<AXES>(settings);
    if above.place.level == 0 {
        Ages::level_one(dim, digits, settings.traversal)
    } else {
        row_ages.of_row(dim, digits)
    }
}

/// The first child.
pub(crate) fn first_child<const AXES: u8>(settings: &Settings, above: &Above) -> Child
    requires axes { settings.now.setup.dim ≡ AXES }
    requires above { IsAbove settings.now.setup.dim settings.now above.now }
    ensures { IsChild settings.now.setup.dim settings.now above.now 0 result }
{
    let dim = dim_in::<AXES>(settings);
    let step = Step::first(dim, settings.way, above.state.flips());
    let digits = step.digits;
    let place = child_at(&above.place, digits);
    let state = above.state.child(AXES, digits);
    let mut row = Row::empty();
    state.set_row(AXES, &mut row);
    let row_ages = above.ages.row(dim, digits);
    let ages = child_ages::<AXES>(settings, above, row_ages, digits);
    Child {
        cell: WalkedCell {
            place,
            state,
            row,
            ages,
        },
        step,
        row_ages,
    }
}

/// Makes a child the next one: of its row, or the first of another row.
#[inline(always)]
pub(crate) fn advance<const AXES: u8>(settings: &Settings, above: &Above, child: &mut Child)
    requires axes { settings.now.setup.dim ≡ AXES }
    requires above { IsAbove settings.now.setup.dim settings.now above.now }
    requires child { (n : ℕ) × (n + 1 < 3 ^ settings.now.setup.dim) × IsChild settings.now.setup.dim settings.now above.now n child.old }
    ensures { (n : ℕ) → n + 1 < 3 ^ settings.now.setup.dim → IsChild settings.now.setup.dim settings.now above.now n child.old
        → IsChild settings.now.setup.dim settings.now above.now (n + 1) child.new }
{
    let moved = child.step.advance(AXES);
    if moved == AXES - 1 {
        step_to::<AXES>(settings, above, child);
    } else {
        turn_to::<AXES>(settings, above, child, moved);
    }
}

// Makes a child the one of its step, which is of the same row.
#[inline(always)]
fn step_to<const AXES: u8>(settings: &Settings, above: &Above, child: &mut Child)
    requires axes { settings.now.setup.dim ≡ AXES }
    requires above { IsAbove settings.now.setup.dim settings.now above.now }
    requires child { (n : ℕ) × IsAhead settings.now.setup.dim settings.now above.now (settings.now.setup.dim - 1) n child.old }
    ensures { (n : ℕ) → IsAhead settings.now.setup.dim settings.now above.now (settings.now.setup.dim - 1) n child.old
        → IsChild settings.now.setup.dim settings.now above.now n child.new }
{
    let step = child.step;
    above.state.step(
        AXES,
        &mut child.cell.state,
        &mut child.cell.row,
        step.ups[(AXES - 1) as usize],
        step.digits,
    );
    step_place::<AXES>(&above.place, &mut child.cell.place, step.digits);
    child.cell.ages = child_ages::<AXES>(settings, above, child.row_ages, step.digits);
}

// Makes a child the one of its step, which agrees with it before an axis.
fn turn_to<const AXES: u8>(settings: &Settings, above: &Above, child: &mut Child, first: u8)
    requires axes { settings.now.setup.dim ≡ AXES }
    requires above { IsAbove settings.now.setup.dim settings.now above.now }
    requires first { first ≤ settings.now.setup.dim }
    requires child { (n : ℕ) × IsAhead settings.now.setup.dim settings.now above.now first n child.old }
    ensures { (n : ℕ) → IsAhead settings.now.setup.dim settings.now above.now first n child.old
        → IsChild settings.now.setup.dim settings.now above.now n child.new }
{
    let dim = dim_in::<AXES>(settings);
    let step = child.step;
    let place = child_at(&above.place, step.digits);
    child.cell.place = place;
    above
        .state
        .turn(AXES, first, &mut child.cell.state, step.ups, step.digits);
    child.cell.state.set_row(AXES, &mut child.cell.row);
    let row_ages = above.ages.row(dim, step.digits);
    child.row_ages = row_ages;
    let ages = child_ages::<AXES>(settings, above, row_ages, step.digits);
    child.cell.ages = ages;
}

// Makes the place of a child that of the child at these digits, of the same row.
#[inline(always)]
fn step_place<const AXES: u8>(parent: &Place, place: &mut Place, digits: Digits)
    requires axes { IsDim AXES }
    requires parent { IsCellPlace AXES parent.now }
    requires digits { IsDigits AXES digits }
    ensures { (from : SomeDigits) → IsDigits AXES from → AgreeBefore (AXES - 1) from digits
        → place.old ≡ child_at parent.now from → place.new ≡ child_at parent.now digits }
{
    let last = (AXES - 1) as usize;
    place.pos[last] = 3 * parent.pos[last] + digits.k[last] as u64;
}
