ghost use Rattle.std.specs.Prelude.{◌≡◌, ℕ, ◌<◌, ◌^◌, ◌==◌, ◌||◌, ◌&&◌};
ghost use Rattle.std.specs.List.{list_any, range_with_len};
ghost use Rattle.pe_base.specs.Tree.Places.{IsDigits};
ghost use Rattle.pe_base.specs.Life.Kinds.{kind_from};
ghost use Rattle.pe_states.specs.Ages.{has_bit, is_old_at, is_new_at, some_carrier, is_first_old, is_first_new};
ghost use Rattle.pe_states.specs.Sides.{IsRow};

use crate::sides::{spread, trim};
use crate::table::kind_of;
use pe_base::{Digits, Dim, Kind};
use std::marker::Model;

/// Which corners of a cell are old, and which are new.
///
/// Contracts see the ages as one number: bit k says that corner k is old, bit `16 + k` that it is new.
#[derive(Clone, Copy, Debug, PartialEq, Eq)]
pub struct Ages {
    bits: u32,
}

impl Model for Ages {
    ghost use Rattle.std.specs.Prelude.{ℕ};

    ghost Value = { ℕ };

    ghost view = { λ ages. ages.bits };

    ghost inverse = { λ n. record { bits = n } };
}

impl Ages {
    /// The ages of the corners whose bits are set in `olds` and in `news`.
    pub fn new(olds: u16, news: u16) -> Ages
        ensures old { (k : ℕ) → k < 16 → is_old_at result k ≡ has_bit olds k }
        ensures new { (k : ℕ) → k < 16 → is_new_at result k ≡ has_bit news k }
    {
        Ages {
            bits: u32::from(olds) | u32::from(news) << 16,
        }
    }

    /// These ages, and one corner more that is old, new, or both.
    pub fn with(self, corner: u8, old: bool, new: bool) -> Ages
        requires { corner < 16 }
        ensures old { (k : ℕ) → k < 16 → is_old_at result k ≡ (is_old_at self k || k == corner && old) }
        ensures new { (k : ℕ) → k < 16 → is_new_at result k ≡ (is_new_at self k || k == corner && new) }
    {
        let olds = if old { 1 << corner } else { 0 };
        let news = if new { 1 << corner } else { 0 };
        let more = Ages::new(olds, news);
        Ages {
            bits: self.bits | more.bits,
        }
    }

    /// Whether a corner is old, and whether it is new.
    pub fn at(self, corner: u8) -> (bool, bool)
        requires { corner < 16 }
        ensures { result ≡ (is_old_at self corner, is_new_at self corner) }
    {
        let here = self.bits >> corner;
        (here & 1 == 1, here >> 16 & 1 == 1)
    }

    /// The kind of a vertex whose carriers give these ages to a corner.
    pub fn kind_at(self, corner: u8) -> Kind
        requires { corner < 16 }
        ensures { result ≡ kind_from (is_old_at self corner) (is_new_at self corner) }
    {
        let (old, new) = self.at(corner);
        kind_of(old, new)
    }

    /// Whether some corner is old, and whether some corner is new.
    pub fn any(self) -> (bool, bool)
        ensures { result ≡ (list_any (is_old_at self) (range_with_len 0 16), list_any (is_new_at self) (range_with_len 0 16)) }
    {
        (self.bits & 0xffff != 0, self.bits & 0xffff_0000 != 0)
    }

    /// Of the ages of a cell's corners those of the child's at these digits: a corner is old, or new, where some carrier is.
    pub fn carried(self, dim: Dim, digits: Digits) -> Ages
        requires { IsDigits dim digits }
        ensures old { (k : ℕ) → k < 2 ^ dim → is_old_at result k ≡ some_carrier dim digits k (is_old_at self) }
        ensures new { (k : ℕ) → k < 2 ^ dim → is_new_at result k ≡ some_carrier dim digits k (is_new_at self) }
    {
        self.row(dim, digits).of_row(dim, digits)
    }

    /// The part of `carried` that is the same for the three children of a row: they differ in their digit on the last axis.
    pub fn row(self, dim: Dim, digits: Digits) -> Ages
        requires { IsDigits dim digits }
        ensures { IsRow dim digits self result }
    {
        let [first, second, third, _] = digits.k;
        let mut bits = spread(self.bits, 1, 0x5555_5555, first);
        if dim.axes() > 2 {
            bits = spread(bits, 2, 0x3333_3333, second);
        }
        if dim.axes() > 3 {
            bits = spread(bits, 4, 0x0f0f_0f0f, third);
        }
        Ages { bits }
    }

    /// The ages of the child at these digits, from the row that it is in.
    pub fn of_row(self, dim: Dim, digits: Digits) -> Ages
        requires { IsDigits dim digits }
        ensures old { (ages : ℕ) → IsRow dim digits ages self → (k : ℕ) → k < 2 ^ dim → is_old_at result k ≡ some_carrier dim digits k (is_old_at ages) }
        ensures new { (ages : ℕ) → IsRow dim digits ages self → (k : ℕ) → k < 2 ^ dim → is_new_at result k ≡ some_carrier dim digits k (is_new_at ages) }
    {
        let [_, second, third, fourth] = digits.k;
        let bits = match dim.axes() {
            2 => spread(self.bits, 2, 0x3333_3333, second),
            3 => spread(self.bits, 4, 0x0f0f_0f0f, third),
            _ => spread(self.bits, 8, 0x00ff_00ff, fourth),
        };
        Ages { bits }
    }

    /// The ages of the cell of level 1 at these digits: its corners inside the root are stored after every traversal,
    /// and before every one but the first.
    pub fn level_one(dim: Dim, digits: Digits, traversal: u64) -> Ages
        requires { IsDigits dim digits }
        ensures old { (k : ℕ) → k < 2 ^ dim → is_old_at result k ≡ is_first_old dim digits traversal k }
        ensures new { (k : ℕ) → k < 2 ^ dim → is_new_at result k ≡ is_first_new dim digits k }
    {
        let [first, second, third, fourth] = digits.k;
        let all = if traversal == 1 {
            0xffff_0000
        } else {
            0xffff_ffff
        };
        let mut bits = trim(all, 1, 0x5555_5555, first);
        bits = trim(bits, 2, 0x3333_3333, second);
        if dim.axes() > 2 {
            bits = trim(bits, 4, 0x0f0f_0f0f, third);
        }
        if dim.axes() > 3 {
            bits = trim(bits, 8, 0x00ff_00ff, fourth);
        }
        Ages { bits }
    }
}
