ghost use Rattle.std.specs.Prelude.{◌≡◌, ℕ, ◌^◌, ◌<◌, is_err, OnOk};
ghost use Rattle.pe_base.specs.declared.event.Event.TheVariants.{CreateHangingVertex, DestroyHangingVertex};
ghost use Rattle.pe_stacks.specs.Corners.{IsFull};
ghost use Rattle.pe_stacks.specs.Holdings.{lent, given_up, KeepsRoom};
ghost use Rattle.pe_stacks.specs.Sights.{record_of};
ghost use Rattle.pe_base.specs.Acts.Moments.{IsTraversal, IsBelowRoot};
ghost use Rattle.pe_hang.specs.InHand.{setting_of_events, family_in_hand, nothing_of, Stays};
ghost use Rattle.pe_base.specs.Calls.Follows.{Follows, failure_at, read_by};
ghost use Rattle.pe_stacks.specs.RecordsOut.{RecordsOut};
ghost use Rattle.pe_mapping.specs.Held.{found_of};
ghost use Rattle.pe_hang.specs.Hanging.{made, ended};

use pe_base::{Event, Kind, Place, State, Stop};
use pe_mapping::Mapping;
use pe_stacks::{CellRec, Corners, Depot, Vertex};

/// Makes a hanging vertex: a fresh record is lent, and its event is fired.
///
/// An `Err` is what the mapping answered, or want of memory, of a mapping that is not sure. The record is
/// given up then.
#[tactic(auto, using(crate::proofs::Ages::ages_triggered))]
pub fn make_hanging<M: Mapping, DV: Depot<Vertex<M::V>>>(
    m: &mut M,
    dv: &mut DV,
    traversal: u64,
    at: &Place,
    parents: &mut Corners<M::V>,
    parent: &mut CellRec<M::C>,
) -> Result<Vertex<M::V>, Stop>
    requires traversal { IsTraversal traversal }
    requires place { IsBelowRoot at.now }
    requires full { IsFull (M.held m.old).dim parents.old }
    requires count { (DV.holds dv.old).fresh < 2 ^ 63 }
    ensures follows { (vertices cells : ℕ → ℕ) → Follows
        (made (setting_of_events M.rules (M.held m.old) traversal) at.now
        (family_in_hand M.numbers parents.old parent.old (M.held m.old).list))
        (λ v. (record_of M.numbers.vertex v, family_in_hand M.numbers parents.new parent.new (M.held m.new).list))
        (read_by (failure_at CreateHangingVertex at.now) result) (found_of (M.held m.old) vertices cells) (M.held m.new).told }
    ensures lent { OnOk result (DV.holds dv.new ≡ lent (DV.holds dv.old)) }
    ensures stacks { (DV.holds dv.new).stacks ≡ (DV.holds dv.old).stacks }
    ensures left { RecordsOut 0 1 (DV.holds dv.old) (DV.room dv.old) (DV.holds dv.new) (DV.room dv.new) (is_err result) }
    ensures stays { Stays M.numbers.vertex (M.held m.old) (M.held m.new) parents.old parents.new }
{
    let payload = match m.fresh_v() {
        Ok(payload) => payload,
        Err(_) => return Err(Stop::Memory),
    };
    let mut v = dv.lend(Vertex::new(State::Unrefined, Kind::Hanging, payload));
    match m.vertex_event(
        Event::CreateHangingVertex,
        traversal,
        at,
        &mut v,
        parents,
        parent,
    ) {
        Ok(()) => Ok(v),
        Err(stop) => {
            dv.give_up(v);
            Err(stop)
        }
    }
}

/// Ends a hanging vertex: its event is fired, and its record is given up in any case.
///
/// An `Err` is what the mapping answered.
#[tactic(auto, using(crate::proofs::Ages::ages_triggered))]
pub fn end_hanging<M: Mapping, DV: Depot<Vertex<M::V>>>(
    m: &mut M,
    dv: &mut DV,
    traversal: u64,
    at: &Place,
    v: Vertex<M::V>,
    parents: &mut Corners<M::V>,
    parent: &mut CellRec<M::C>,
) -> Result<(), Stop>
    requires traversal { IsTraversal traversal }
    requires place { IsBelowRoot at.now }
    requires full { IsFull (M.held m.old).dim parents.old }
    requires out { 0 < (DV.holds dv.old).out }
    ensures follows { (vertices cells : ℕ → ℕ) → Follows
        (ended (setting_of_events M.rules (M.held m.old) traversal) at.now (record_of M.numbers.vertex v)
        (family_in_hand M.numbers parents.old parent.old (M.held m.old).list))
        (λ done. nothing_of (family_in_hand M.numbers parents.new parent.new (M.held m.new).list))
        (read_by (failure_at DestroyHangingVertex at.now) result) (found_of (M.held m.old) vertices cells) (M.held m.new).told }
    ensures given_up { DV.holds dv.new ≡ given_up (DV.holds dv.old) }
    ensures left { RecordsOut 1 0 (DV.holds dv.old) (DV.room dv.old) (DV.holds dv.new) (DV.room dv.new) (is_err result) }
    ensures stays { Stays M.numbers.vertex (M.held m.old) (M.held m.new) parents.old parents.new }
{
    let mut v = v;
    let answer = m.vertex_event(
        Event::DestroyHangingVertex,
        traversal,
        at,
        &mut v,
        parents,
        parent,
    );
    dv.give_up(v);
    answer
}
