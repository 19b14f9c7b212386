// What a traversal counts of its vertices.
ghost use Rattle.std.specs.Prelude.{◌≡◌, true};
ghost use Rattle.pe_base.specs.Walk.Touches.{tally_load, tally_store};
ghost use Rattle.pe_adapt.specs.CountedTouches.{tally_may_rise};

use pe_base::{Kind, Tally};

// Counts the load of a vertex of a kind, the first one unless it hangs.
#[inline]
pub(crate) fn count_load(tally: &mut Tally, kind: Kind)
    requires { tally_may_rise tally.old ≡ true }
    ensures { tally.new ≡ tally_load kind true tally.old }
{
    match kind {
        Kind::Hanging => tally.hanging += 1,
        Kind::Born => tally.created += 1,
        Kind::Kept | Kind::Dying => tally.read += 1,
    }
}

// Counts the store of a vertex of a kind, the last one unless it hangs.
#[inline]
pub(crate) fn count_store(tally: &mut Tally, kind: Kind)
    requires { tally_may_rise tally.old ≡ true }
    ensures { tally.new ≡ tally_store kind true tally.old }
{
    match kind {
        Kind::Hanging => {}
        Kind::Dying => tally.destroyed += 1,
        Kind::Kept | Kind::Born => tally.written += 1,
    }
}
