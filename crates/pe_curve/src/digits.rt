ghost use Rattle.std.specs.Prelude.{◌≡◌, ℕ, ◌+◌, ◌%◌, ◌<◌, ◌^◌, slice_get, Some};
ghost use Rattle.pe_base.specs.declared.way.Way.{Way as AWay};
ghost use Rattle.pe_base.specs.declared.way.Way.TheVariants.{Forward};
ghost use Rattle.pe_base.specs.Tree.Places.{IsDigits, bits};
ghost use Rattle.pe_base.specs.Tree.Curve.{child_digits, mirrored};

use pe_base::{Digits, Dim, Way};

/// The digits of the n-th child in the order of a way, counted from 0, of a cell with these flips.
/// Bit i of `flips` is the flip of axis i.
pub(crate) fn digits_at(dim: Dim, way: Way, flips: u8, n: u8) -> Digits
    requires { n < 3 ^ dim }
    ensures child { slice_get (child_digits dim way (bits dim flips)) n ≡ Some result }
    ensures digits { IsDigits dim result }
{
    match way {
        Way::Forward => forward_digits(dim, flips, n),
        Way::Inverted => forward_digits(dim, flips, dim.parts() - 1 - n),
    }
}

// The digits of the n-th child along the curve: those of n in base 3, axis 0 leading, each turned.
fn forward_digits(dim: Dim, flips: u8, n: u8) -> Digits
    requires { n < 3 ^ dim }
    ensures child { slice_get (child_digits dim Forward (bits dim flips)) n ≡ Some result }
    ensures digits { IsDigits dim result }
{
    let first = flips % 2;
    let second = flips / 2 % 2;
    let third = flips / 4 % 2;
    let fourth = flips / 8 % 2;
    match dim.axes() {
        2 => {
            let (x, y) = (n / 3, n % 3);
            Digits {
                k: [mirrored(first, x), mirrored(second + x, y), 0, 0],
            }
        }
        3 => {
            let (x, rest) = (n / 9, n % 9);
            let (y, z) = (rest / 3, rest % 3);
            Digits {
                k: [
                    mirrored(first, x),
                    mirrored(second + x, y),
                    mirrored(third + x + y, z),
                    0,
                ],
            }
        }
        _ => {
            let (x, behind) = (n / 27, n % 27);
            let (y, rest) = (behind / 9, behind % 9);
            let (z, w) = (rest / 3, rest % 3);
            Digits {
                k: [
                    mirrored(first, x),
                    mirrored(second + x, y),
                    mirrored(third + x + y, z),
                    mirrored(fourth + x + y + z, w),
                ],
            }
        }
    }
}

/// The digits of a child so many steps behind the first of its row, whose digits are known. Along a row the last digit goes
/// from 0 to 2, or from 2 to 0.
pub(crate) fn along_row(dim: Dim, first: Digits, steps: u8) -> Digits
    requires digits { IsDigits dim first }
    requires steps { steps < 3 }
    ensures { (way : AWay) (flips n : ℕ) → n % 3 ≡ 0 → n + 2 < 3 ^ dim
        → slice_get (child_digits dim way (bits dim flips)) n ≡ Some first → slice_get (child_digits dim way (bits dim flips)) (n + steps) ≡ Some result }
{
    let last = (dim.axes() - 1) as usize;
    let mut k = first.k;
    k[last] = match steps {
        0 => k[last],
        1 => 1,
        _ => 2 - k[last],
    };
    Digits { k }
}

// A digit, mirrored where the number of turns is odd.
fn mirrored(turns: u8, t: u8) -> u8
    requires { t < 3 }
    ensures { result ≡ mirrored turns t }
{
    if turns % 2 == 0 { t } else { 2 - t }
}
