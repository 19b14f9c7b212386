ghost use Rattle.std.specs.Prelude.{◌≡◌, ◌≢◌, ℕ, ◌+◌, ◌<◌, ◌≤◌, ◌^◌, not, if◌then◌else◌, List, length, IsTrue, slice_index, slice_set};
ghost use Rattle.pe_base.specs.declared.way.Way.{Way as AWay};
ghost use Rattle.pe_base.specs.Tree.Dim.{IsDim};
ghost use Rattle.pe_base.specs.Tree.Places.{bits};
ghost use Rattle.pe_curve.specs.Steps.{IsStep, IsAdvanced, CanAdvance, goes_up, moves_along, moved_digit};

use pe_base::{Digits, Dim, Way};

/// A child of a cell on the way along the curve: where it lies, and how each axis is walked there.
///
/// The next child is made from it by `advance`, with no number and no division.
#[derive(Clone, Copy, Debug, PartialEq, Eq)]
pub struct Step {
    /// The child's digits.
    pub digits: Digits,
    /// Whether each axis is walked upwards. Those of axes that the dimension does not have say nothing.
    pub ups: [bool; 4],
}

impl Step {
    /// The first child of a cell in the order of a way.
    ///
    /// Bit i of `flips` is the flip of axis i. Bits from the dimension on are not read.
    pub fn first(dim: Dim, way: Way, flips: u8) -> Step
        ensures { IsStep dim way (bits dim flips) 0 result }
    {
        let turns = match way {
            Way::Forward => 0,
            Way::Inverted => 1,
        };
        let ups = [
            (turns + flips % 2) % 2 == 0,
            (turns + flips / 2 % 2) % 2 == 0,
            (turns + flips / 4 % 2) % 2 == 0,
            (turns + flips / 8 % 2) % 2 == 0,
        ];
        let [first, second, third, fourth] = ups;
        let axes = dim.axes();
        Step {
            digits: Digits {
                k: [
                    begin(axes, 0, first),
                    begin(axes, 1, second),
                    begin(axes, 2, third),
                    begin(axes, 3, fourth),
                ],
            },
            ups,
        }
    }

    /// Makes a child the next one, and tells the axis that moved: the last one that can.
    ///
    /// The axes before it are as they were. Those behind it keep their digits, and turn over.
    #[inline(always)]
    pub fn advance(&mut self, axes: u8) -> u8
        requires axes { IsDim axes }
        requires more { CanAdvance axes self.old }
        ensures moved { IsAdvanced axes self.old result self.new }
        ensures next { (way : AWay) (es : List ℕ) (n : ℕ) → length es ≡ axes → n + 1 < 3 ^ axes → IsStep axes way es n self.old → IsStep axes way es (n + 1) self.new }
    {
        let last = axes - 1;
        if self.moves(last) {
            self.go_on(last);
            last
        } else {
            self.turn_over(last);
            self.advance_before(last)
        }
    }

    // Moves the last axis before this one that can move. Those between turn over.
    fn advance_before(&mut self, axes: u8) -> u8
        requires few { axes ≤ 4 }
        requires more { CanAdvance axes self.old }
        ensures { IsAdvanced axes self.old result self.new }
    {
        let last = axes - 1;
        if self.moves(last) {
            self.go_on(last);
            last
        } else {
            self.turn_over(last);
            self.advance_before(last)
        }
    }

    // Whether an axis can go on in its direction.
    #[inline(always)]
    fn moves(&self, axis: u8) -> bool
        requires { axis < 4 }
        ensures { result ≡ moves_along self.now axis }
    {
        let digit = self.digits.k[axis as usize];
        if self.ups[axis as usize] {
            digit < 2
        } else {
            0 < digit
        }
    }

    // Moves an axis by one in its direction.
    #[inline(always)]
    fn go_on(&mut self, axis: u8)
        requires axis { axis < 4 }
        requires can { IsTrue (moves_along self.old axis) }
        ensures digits { self.new.digits.k ≡ slice_set self.old.digits.k axis (moved_digit (goes_up self.old axis) (slice_index self.old.digits.k axis)) }
        ensures ups { self.new.ups ≡ self.old.ups }
    {
        let digit = self.digits.k[axis as usize];
        self.digits.k[axis as usize] = if self.ups[axis as usize] {
            digit + 1
        } else {
            digit - 1
        };
    }

    // Turns the direction of an axis over.
    #[inline(always)]
    fn turn_over(&mut self, axis: u8)
        requires { axis < 4 }
        ensures digits { self.new.digits ≡ self.old.digits }
        ensures same { (other : ℕ) → other ≢ axis → goes_up self.new other ≡ goes_up self.old other }
        ensures other { goes_up self.new axis ≡ not (goes_up self.old axis) }
    {
        self.ups[axis as usize] = !self.ups[axis as usize];
    }
}

// The digit at which an axis begins: 2 where it is walked downwards, and 0 on an axis that the dimension does not have.
fn begin(axes: u8, axis: u8, up: bool) -> u8
    ensures within { axis < axes → result ≡ (if up then 0 else 2) }
    ensures past { axes ≤ axis → result ≡ 0 }
{
    if axis < axes && !up { 2 } else { 0 }
}
