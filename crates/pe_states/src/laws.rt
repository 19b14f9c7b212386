//! Laws of the definitions. The functions do nothing.
ghost use Rattle.std.specs.Prelude.{◌≡◌, ℕ, ◌<◌, ◌≤◌, ◌^◌, Bool, true, All, map};
ghost use Rattle.pe_base.specs.declared.place.Place.{Place as APlace};
ghost use Rattle.pe_base.specs.declared.place.Digits.{Digits as SomeDigits};
ghost use Rattle.pe_base.specs.Tree.Places.{IsCellPlace, IsDigits, child_at, corner};
ghost use Rattle.pe_base.specs.Life.Carriers.{carriers};
ghost use Rattle.pe_states.specs.Carriers.{carrier_numbers};
ghost use Rattle.pe_states.specs.Ages.{some_carrier};

/// The carriers of a corner of a child are corners of its parent: those of these numbers.
pub fn carriers_are_corners()
    ensures corners { (axes : ℕ) (parent : APlace) (digits : SomeDigits) (k : ℕ) → axes ≤ 4 → IsCellPlace axes parent → IsDigits axes digits
        → k < 2 ^ axes → carriers (corner axes (child_at parent digits) k) ≡ map (corner axes parent) (carrier_numbers axes digits k) }
    ensures numbers { (axes : ℕ) (digits : SomeDigits) (k : ℕ) → axes ≤ 4 → IsDigits axes digits
        → All (λ n. n < 2 ^ axes) (carrier_numbers axes digits k) }
{}

/// Where all of the parent's corners pass a test, some carrier of each of the child's does.
pub fn full_ages_stay()
    ensures { (axes : ℕ) (digits : SomeDigits) (k : ℕ) (test : ℕ → Bool) → axes ≤ 4 → IsDigits axes digits
        → ((n : ℕ) → n < 2 ^ axes → test n ≡ true) → some_carrier axes digits k test ≡ true }
{}
