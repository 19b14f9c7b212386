ghost use Rattle.std.specs.Prelude.{ℕ, ◌↔◌, IsTrue, IfOk, Contains};
ghost use Rattle.pe_io.specs.Numbers.{IsNextListed};

use std::alloc::{AllocError, Global};
use std::collections::BTreeSet;

/// The set of some numbers.
pub(crate) fn set_of(alloc: Global, numbers: &[u64]) -> Result<BTreeSet<u64>, AllocError>
    ensures { IfOk result (λ set. (n : ℕ) → Contains set.keys n ↔ Contains numbers.now n) }
{
    numbers.iter().copied().collect(alloc)
}

/// Whether the number after `count` is in the set. There is none after the last of 64 bits.
pub(crate) fn has_next(set: &BTreeSet<u64>, count: u64) -> bool
    ensures { IsTrue result ↔ IsNextListed set.now.keys count }
{
    match count.checked_add(1) {
        Some(number) => set.contains(&number),
        None => false,
    }
}
