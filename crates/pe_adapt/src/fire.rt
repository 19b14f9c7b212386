// An event of a vertex in its slot.
ghost use Rattle.std.specs.Prelude.{◌≡◌, ℕ, ◌<◌, is_err, None, IsSome, OnOk, OnErr};
ghost use Rattle.pe_base.specs.declared.event.Sort.TheVariants.{Vertex as OfVertex};
ghost use Rattle.pe_base.specs.Acts.Events.{sort_of};
ghost use Rattle.pe_base.specs.Walk.Core.{vertex_event};
ghost use Rattle.pe_stacks.specs.Corners.{IsFull};
ghost use Rattle.pe_base.specs.Acts.Moments.{IsTraversal, IsBelowRoot};
ghost use Rattle.pe_hang.specs.InHand.{setting_of_events, family_in_hand, Stays};
ghost use Rattle.pe_base.specs.Calls.Follows.{Follows, read_by};
ghost use Rattle.pe_stacks.specs.RecordsOut.{RecordsOut};
ghost use Rattle.pe_mapping.specs.Held.{found_of};
ghost use Rattle.pe_adapt.specs.Stops.{failure_of_halt};
ghost use Rattle.pe_adapt.specs.Slots.{seen_slot};

use crate::Inner;
use pe_base::{Event, Place};
use pe_mapping::Mapping;
use pe_stacks::{CellRec, Corners, Depot, Vertex, filled_mut};

// Fires an event of a vertex whose record is out. On an error the record is given up.
#[inline]
#[tactic(auto, using(pe_hang::proofs::Ages::ages_triggered))]
pub fn fire<M: Mapping, DV: Depot<Vertex<M::V>>>(
    event: Event,
    traversal: u64,
    at: &Place,
    slot: &mut Option<Vertex<M::V>>,
    m: &mut M,
    dv: &mut DV,
    parents: &mut Corners<M::V>,
    parent: &mut CellRec<M::C>,
) -> Result<(), Inner>
    requires sort { sort_of event ≡ OfVertex }
    requires traversal { IsTraversal traversal }
    requires place { IsBelowRoot at.now }
    requires filled { IsSome slot.old }
    requires full { IsFull (M.held m.old).dim parents.old }
    requires out { 0 < (DV.holds dv.old).out }
    ensures follows { (vertices cells : ℕ → ℕ) → Follows
        (vertex_event (setting_of_events M.rules (M.held m.old) traversal) event at.now
        (seen_slot M.numbers.vertex slot.old, family_in_hand M.numbers parents.old parent.old (M.held m.old).list))
        (λ done. (seen_slot M.numbers.vertex slot.new, family_in_hand M.numbers parents.new parent.new (M.held m.new).list))
        (read_by (failure_of_halt at.now) result) (found_of (M.held m.old) vertices cells) (M.held m.new).told }
    ensures holds { OnOk result (DV.holds dv.new ≡ DV.holds dv.old) }
    ensures left { RecordsOut 1 1 (DV.holds dv.old) (DV.room dv.old) (DV.holds dv.new) (DV.room dv.new) (is_err result) }
    ensures stays { Stays M.numbers.vertex (M.held m.old) (M.held m.new) parents.old parents.new }
    ensures filled { OnOk result (IsSome slot.new) }
    ensures emptied { OnErr result (slot.new ≡ None) }
{
    match m.vertex_event(event, traversal, at, filled_mut(slot), parents, parent) {
        Ok(()) => Ok(()),
        Err(stop) => {
            dv.give_up(slot.take().unwrap());
            Err(Inner::of_event(stop, event))
        }
    }
}
