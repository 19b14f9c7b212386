// The load of a corner that hangs, or is loaded for the first time, of a kind that is known.
ghost use Rattle.std.specs.Prelude.{◌≡◌, ℕ, true, ◌≤◌, ◌<◌, ◌^◌, is_err, slice_get, Some, None, IsSome, OnOk, OnErr};
ghost use Rattle.pe_base.specs.declared.kind.Kind.TheVariants.{Born, Hanging};
ghost use Rattle.pe_base.specs.declared.event.Event.TheVariants.{TouchVertexFirstTime};
ghost use Rattle.pe_base.specs.Tree.Places.{corner};
ghost use Rattle.pe_base.specs.Walk.Core.{load_touch, read_vertex, vertex_event};
ghost use Rattle.pe_base.specs.Walk.Working.{no_vertex};
ghost use Rattle.pe_stacks.specs.declared.record.Vertex.{Vertex as AVertex};
ghost use Rattle.pe_stacks.specs.Corners.{IsFull};
ghost use Rattle.pe_stacks.specs.Holdings.{stack_count, stack_at, items_at, len_at, lent, popped};
ghost use Rattle.pe_stacks.specs.Sights.{record_of};
ghost use Rattle.pe_base.specs.Acts.Moments.{IsTraversal, IsBelowRoot};
ghost use Rattle.pe_hang.specs.InHand.{setting_of, setting_of_events, family_in_hand, Stays};
ghost use Rattle.pe_hang.specs.Moves.{MayPop};
ghost use Rattle.pe_base.specs.Calls.Follows.{Follows, Fits, read_by};
ghost use Rattle.pe_stacks.specs.RecordsOut.{RecordsOut, held_by};
ghost use Rattle.pe_mapping.specs.Held.{found_of};
ghost use Rattle.pe_adapt.specs.Stops.{failure_of_halt};
ghost use Rattle.pe_adapt.specs.Slots.{seen_slot};
ghost use Rattle.pe_adapt.specs.Spots.{desk_in_hand};
ghost use Rattle.pe_adapt.specs.Touches.{load_as};

use crate::Inner;
use crate::fire::fire;
use pe_base::{Event, Kind, Place};
use pe_hang::make_hanging;
use pe_mapping::Mapping;
use pe_stacks::{CellRec, Corners, Depot, Vertex, fill_slot, filled_mut};
use pe_states::{first_touch, start_state};

/// Loads a corner that hangs, in its slot. On an error its record is given up, and the slot is empty.
#[inline]
pub(crate) fn load_hanging<M: Mapping, DV: Depot<Vertex<M::V>>>(
    traversal: u64,
    at: &Place,
    slot: &mut Option<Vertex<M::V>>,
    m: &mut M,
    dv: &mut DV,
    parents: &mut Corners<M::V>,
    parent: &mut CellRec<M::C>,
) -> Result<(), Inner>
    requires traversal { IsTraversal traversal }
    requires place { IsBelowRoot at.now }
    requires empty { slot.old ≡ None }
    requires full { IsFull (M.held m.old).dim parents.old }
    requires fits { Fits (load_as (setting_of M.rules (M.held m.old) 0 0 traversal) 0 Hanging None at.now
        (desk_in_hand M.numbers (DV.holds dv.old) parents.old parent.old (M.held m.old).list)) }
    ensures follows { (input : ℕ) (cells : ℕ → ℕ) → Follows
        (load_as (setting_of M.rules (M.held m.old) 0 0 traversal) input Hanging None at.now
        (desk_in_hand M.numbers (DV.holds dv.old) parents.old parent.old (M.held m.old).list))
        (λ done. (seen_slot M.numbers.vertex slot.new, desk_in_hand M.numbers (DV.holds dv.new) parents.new parent.new (M.held m.new).list))
        (read_by (failure_of_halt at.now) result) (found_of (M.held m.old) (held_by (DV.holds dv.old) (DV.room dv.old)) cells) (M.held m.new).told }
    ensures left { RecordsOut 0 1 (DV.holds dv.old) (DV.room dv.old) (DV.holds dv.new) (DV.room dv.new) (is_err result) }
    ensures stays { Stays M.numbers.vertex (M.held m.old) (M.held m.new) parents.old parents.new }
    ensures filled { OnOk result (IsSome slot.new) }
    ensures emptied { OnErr result (slot.new ≡ None) }
{
    match make_hanging(m, dv, traversal, at, parents, parent) {
        Ok(v) => {
            fill_slot(slot, v);
            Ok(())
        }
        Err(stop) => Err(Inner::of_event(stop, Event::CreateHangingVertex)),
    }
}

// Makes a vertex that is born: a fresh record is lent, and its two events are fired. On an error it is given up.
#[inline]
fn load_born<M: Mapping, DV: Depot<Vertex<M::V>>>(
    start_level: u8,
    traversal: u64,
    at: &Place,
    slot: &mut Option<Vertex<M::V>>,
    m: &mut M,
    dv: &mut DV,
    parents: &mut Corners<M::V>,
    parent: &mut CellRec<M::C>,
) -> Result<(), Inner>
    requires traversal { IsTraversal traversal }
    requires place { IsBelowRoot at.now }
    requires empty { slot.old ≡ None }
    requires full { IsFull (M.held m.old).dim parents.old }
    requires count { (DV.holds dv.old).fresh < 2 ^ 63 }
    ensures follows { (vertices cells : ℕ → ℕ) → Follows
        (load_touch (setting_of M.rules (M.held m.old) start_level 0 traversal) Born true no_vertex at.now
        (family_in_hand M.numbers parents.old parent.old (M.held m.old).list))
        (λ done. (seen_slot M.numbers.vertex slot.new, family_in_hand M.numbers parents.new parent.new (M.held m.new).list))
        (read_by (failure_of_halt at.now) result) (found_of (M.held m.old) vertices cells) (M.held m.new).told }
    ensures lent { OnOk result (DV.holds dv.new ≡ lent (DV.holds dv.old)) }
    ensures left { RecordsOut 0 1 (DV.holds dv.old) (DV.room dv.old) (DV.holds dv.new) (DV.room dv.new) (is_err result) }
    ensures stays { Stays M.numbers.vertex (M.held m.old) (M.held m.new) parents.old parents.new }
    ensures filled { OnOk result (IsSome slot.new) }
    ensures emptied { OnErr result (slot.new ≡ None) }
{
    let payload = match m.fresh_v() {
        Ok(payload) => payload,
        Err(_) => return Err(Inner::Memory),
    };
    let state = start_state(traversal, at.level, start_level);
    fill_slot(slot, dv.lend(Vertex::new(state, Kind::Born, payload)));
    fire(
        Event::CreateInnerVertex,
        traversal,
        at,
        slot,
        m,
        dv,
        parents,
        parent,
    )?;
    fire(
        Event::TouchVertexFirstTime,
        traversal,
        at,
        slot,
        m,
        dv,
        parents,
        parent,
    )
}

// Reads a vertex that was stored: its record is popped from the input, and its event is fired. On an error it is given up.
#[inline]
fn load_stored<M: Mapping, DV: Depot<Vertex<M::V>>>(
    kind: Kind,
    input: u8,
    traversal: u64,
    at: &Place,
    slot: &mut Option<Vertex<M::V>>,
    m: &mut M,
    dv: &mut DV,
    parents: &mut Corners<M::V>,
    parent: &mut CellRec<M::C>,
) -> Result<(), Inner>
    requires traversal { IsTraversal traversal }
    requires place { IsBelowRoot at.now }
    requires empty { slot.old ≡ None }
    requires full { IsFull (M.held m.old).dim parents.old }
    requires may { MayPop (DV.holds dv.old) input }
    ensures follows { (vertices cells : ℕ → ℕ) (found : AVertex M.V) → slice_get (items_at (DV.holds dv.old) input) 0 ≡ Some found → Follows
        (vertex_event (setting_of_events M.rules (M.held m.old) traversal) TouchVertexFirstTime at.now (
          read_vertex (setting_of_events M.rules (M.held m.old) traversal) kind (record_of M.numbers.vertex found),
          family_in_hand M.numbers parents.old parent.old (M.held m.old).list,
        ))
        (λ done. (seen_slot M.numbers.vertex slot.new, family_in_hand M.numbers parents.new parent.new (M.held m.new).list))
        (read_by (failure_of_halt at.now) result) (found_of (M.held m.old) vertices cells) (M.held m.new).told }
    ensures popped { OnOk result (DV.holds dv.new ≡ popped (DV.holds dv.old) input) }
    ensures left { RecordsOut 0 1 (DV.holds dv.old) (DV.room dv.old) (DV.holds dv.new) (DV.room dv.new) (is_err result) }
    ensures stays { Stays M.numbers.vertex (M.held m.old) (M.held m.new) parents.old parents.new }
    ensures filled { OnOk result (IsSome slot.new) }
    ensures emptied { OnErr result (slot.new ≡ None) }
{
    fill_slot(slot, dv.pop(input));
    let v = filled_mut(slot);
    let state = first_touch(v.state(), kind);
    v.arrive(kind, state);
    fire(
        Event::TouchVertexFirstTime,
        traversal,
        at,
        slot,
        m,
        dv,
        parents,
        parent,
    )
}

/// Loads a corner for the first time, in its slot: it is born, or was stored. On an error its record is given up, and the
/// slot is empty.
#[inline]
pub(crate) fn load_first<M: Mapping, DV: Depot<Vertex<M::V>>>(
    start_level: u8,
    kind: Kind,
    input: u8,
    traversal: u64,
    at: &Place,
    slot: &mut Option<Vertex<M::V>>,
    m: &mut M,
    dv: &mut DV,
    parents: &mut Corners<M::V>,
    parent: &mut CellRec<M::C>,
) -> Result<(), Inner>
    requires traversal { IsTraversal traversal }
    requires place { IsBelowRoot at.now }
    requires counts { kind ≡ Hanging → ⊥ }
    requires empty { slot.old ≡ None }
    requires full { IsFull (M.held m.old).dim parents.old }
    requires fits { Fits (load_as (setting_of M.rules (M.held m.old) start_level 0 traversal) input kind None at.now
        (desk_in_hand M.numbers (DV.holds dv.old) parents.old parent.old (M.held m.old).list)) }
    ensures follows { (cells : ℕ → ℕ) → Follows
        (load_as (setting_of M.rules (M.held m.old) start_level 0 traversal) input kind None at.now
        (desk_in_hand M.numbers (DV.holds dv.old) parents.old parent.old (M.held m.old).list))
        (λ done. (seen_slot M.numbers.vertex slot.new, desk_in_hand M.numbers (DV.holds dv.new) parents.new parent.new (M.held m.new).list))
        (read_by (failure_of_halt at.now) result) (found_of (M.held m.old) (held_by (DV.holds dv.old) (DV.room dv.old)) cells) (M.held m.new).told }
    ensures left { RecordsOut 0 1 (DV.holds dv.old) (DV.room dv.old) (DV.holds dv.new) (DV.room dv.new) (is_err result) }
    ensures stays { Stays M.numbers.vertex (M.held m.old) (M.held m.new) parents.old parents.new }
    ensures filled { OnOk result (IsSome slot.new) }
    ensures emptied { OnErr result (slot.new ≡ None) }
{
    match kind {
        Kind::Born => load_born(start_level, traversal, at, slot, m, dv, parents, parent),
        _ => load_stored(kind, input, traversal, at, slot, m, dv, parents, parent),
    }
}
