// The store of a corner that hangs, or is stored for the last time.
ghost use Rattle.std.specs.Prelude.{◌≡◌, ℕ, true, ◌<◌, None, IsSome, IsSomeAnd, Err, is_err, OnOk, OnErr, IfErr, Option};
ghost use Rattle.pe_stacks.specs.Corners.{IsFull};
ghost use Rattle.pe_base.specs.declared.kind.Kind.TheVariants.{Dying, Hanging};
ghost use Rattle.pe_base.specs.Walk.Core.{store_of};
ghost use Rattle.pe_stacks.specs.Holdings.{pushed, given_up};
ghost use Rattle.pe_stacks.specs.Sights.{record_of};
ghost use Rattle.pe_base.specs.Acts.Moments.{IsTraversal, IsBelowRoot};
ghost use Rattle.pe_hang.specs.InHand.{setting_of_events, family_in_hand, nothing_of, Stays};
ghost use Rattle.pe_hang.specs.Moves.{MayPush};
ghost use Rattle.pe_base.specs.Calls.Follows.{Follows, Fits, read_by};
ghost use Rattle.pe_stacks.specs.RecordsOut.{RecordsOut, held_by};
ghost use Rattle.pe_mapping.specs.Held.{found_of};
ghost use Rattle.pe_adapt.specs.declared.stop.Inner.TheVariants.{Memory as ForMemory};
ghost use Rattle.pe_adapt.specs.Stops.{failure_of_halt};
ghost use Rattle.pe_adapt.specs.Slots.{seen_slot};
ghost use Rattle.pe_adapt.specs.Spots.{desk_in_hand};
ghost use Rattle.pe_adapt.specs.Touches.{store_as};

use crate::Inner;
use crate::fire::fire;
use pe_base::{Event, Kind, Place};
use pe_hang::end_hanging;
use pe_mapping::Mapping;
use pe_stacks::{CellRec, Corners, Depot, Vertex, filled_mut};
use pe_states::last_touch;

// Puts a record on a stack that may have no room for it. Where there is no memory it is given up.
#[cold]
#[inline(never)]
fn put_down_grown<X, D: Depot<X>>(d: &mut D, s: u8, r: X) -> Result<(), Inner>
    requires may { MayPush (D.holds d.old) s }
    ensures pushed { OnOk result (D.holds d.new ≡ pushed (D.holds d.old) s r) }
    ensures memory { IfErr result (λ halt. halt ≡ ForMemory) }
    ensures overfull { OnErr result (D.room d.old s ≡ 0) }
    ensures left { RecordsOut 1 0 (D.holds d.old) (D.room d.old) (D.holds d.new) (D.room d.new) (is_err result) }
    ensures fresh { (D.holds d.new).fresh ≡ (D.holds d.old).fresh }
{
    match d.push(s, r) {
        Ok(()) => Ok(()),
        Err(back) => {
            d.give_up(back);
            Err(Inner::Memory)
        }
    }
}

/// Puts a record on a stack. Where there is no memory it is given up.
#[inline(always)]
pub fn put_down<X, D: Depot<X>>(d: &mut D, s: u8, r: X) -> Result<(), Inner>
    requires may { MayPush (D.holds d.old) s }
    ensures pushed { OnOk result (D.holds d.new ≡ pushed (D.holds d.old) s r) }
    ensures memory { IfErr result (λ halt. halt ≡ ForMemory) }
    ensures overfull { OnErr result (D.room d.old s ≡ 0) }
    ensures left { RecordsOut 1 0 (D.holds d.old) (D.room d.old) (D.holds d.new) (D.room d.new) (is_err result) }
    ensures fresh { (D.holds d.new).fresh ≡ (D.holds d.old).fresh }
{
    if d.spare(s) > 0 {
        d.push_spare(s, r);
        Ok(())
    } else {
        put_down_grown(d, s, r)
    }
}

/// Stores a corner that hangs, in its slot: it ends. Whatever the answer, its record is given up, and the slot is empty.
#[inline]
pub(crate) fn store_hanging<M: Mapping, DV: Depot<Vertex<M::V>>>(
    traversal: u64,
    at: &Place,
    slot: &mut Option<Vertex<M::V>>,
    m: &mut M,
    dv: &mut DV,
    parents: &mut Corners<M::V>,
    parent: &mut CellRec<M::C>,
) -> Result<(), Inner>
    requires traversal { IsTraversal traversal }
    requires place { IsBelowRoot at.now }
    requires hanging { IsSomeAnd slot.old (λ v. v.kind ≡ Hanging) }
    requires full { IsFull (M.held m.old).dim parents.old }
    requires out { 0 < (DV.holds dv.old).out }
    ensures follows { (output : ℕ) (to : Option ℕ) (cells : ℕ → ℕ)
        → let course = store_as (setting_of_events M.rules (M.held m.old) traversal) output to at.now (seen_slot M.numbers.vertex slot.old)
        (desk_in_hand M.numbers (DV.holds dv.old) parents.old parent.old (M.held m.old).list) in Fits course → Follows course
        (λ done. desk_in_hand M.numbers (DV.holds dv.new) parents.new parent.new (M.held m.new).list)
        (read_by (failure_of_halt at.now) result) (found_of (M.held m.old) (held_by (DV.holds dv.old) (DV.room dv.old)) cells) (M.held m.new).told }
    ensures left { RecordsOut 1 0 (DV.holds dv.old) (DV.room dv.old) (DV.holds dv.new) (DV.room dv.new) (is_err result) }
    ensures stays { Stays M.numbers.vertex (M.held m.old) (M.held m.new) parents.old parents.new }
    ensures emptied { slot.new ≡ None }
{
    match end_hanging(m, dv, traversal, at, slot.take().unwrap(), parents, parent) {
        Ok(()) => Ok(()),
        Err(stop) => Err(Inner::of_event(stop, Event::DestroyHangingVertex)),
    }
}

// Ends a vertex that dies: its two events are fired, and its record is given up in any case.
#[inline]
fn store_dying<M: Mapping, DV: Depot<Vertex<M::V>>>(
    traversal: u64,
    at: &Place,
    slot: &mut Option<Vertex<M::V>>,
    m: &mut M,
    dv: &mut DV,
    parents: &mut Corners<M::V>,
    parent: &mut CellRec<M::C>,
) -> Result<(), Inner>
    requires traversal { IsTraversal traversal }
    requires place { IsBelowRoot at.now }
    requires filled { IsSome slot.old }
    requires full { IsFull (M.held m.old).dim parents.old }
    requires out { 0 < (DV.holds dv.old).out }
    ensures follows { (vertices cells : ℕ → ℕ) → Follows
        (store_of (setting_of_events M.rules (M.held m.old) traversal) Dying true at.now (seen_slot M.numbers.vertex slot.old)
        (family_in_hand M.numbers parents.old parent.old (M.held m.old).list))
        (λ done. nothing_of (family_in_hand M.numbers parents.new parent.new (M.held m.new).list))
        (read_by (failure_of_halt at.now) result) (found_of (M.held m.old) vertices cells) (M.held m.new).told }
    ensures given_up { OnOk result (DV.holds dv.new ≡ given_up (DV.holds dv.old)) }
    ensures left { RecordsOut 1 0 (DV.holds dv.old) (DV.room dv.old) (DV.holds dv.new) (DV.room dv.new) (is_err result) }
    ensures stays { Stays M.numbers.vertex (M.held m.old) (M.held m.new) parents.old parents.new }
    ensures emptied { slot.new ≡ None }
{
    fire(
        Event::TouchVertexLastTime,
        traversal,
        at,
        slot,
        m,
        dv,
        parents,
        parent,
    )?;
    fire(
        Event::DestroyVertex,
        traversal,
        at,
        slot,
        m,
        dv,
        parents,
        parent,
    )?;
    dv.give_up(slot.take().unwrap());
    Ok(())
}

// Stores a vertex that stays, for the last time: its event is fired, and it goes to the output. On an error its record is
// given up.
#[inline]
fn store_staying<M: Mapping, DV: Depot<Vertex<M::V>>>(
    kind: Kind,
    output: u8,
    traversal: u64,
    at: &Place,
    slot: &mut Option<Vertex<M::V>>,
    m: &mut M,
    dv: &mut DV,
    parents: &mut Corners<M::V>,
    parent: &mut CellRec<M::C>,
) -> Result<(), Inner>
    requires traversal { IsTraversal traversal }
    requires place { IsBelowRoot at.now }
    requires filled { IsSome slot.old }
    requires counts { kind ≡ Hanging → ⊥ }
    requires stays { kind ≡ Dying → ⊥ }
    requires kind { (seen_slot M.numbers.vertex slot.old).kind ≡ kind }
    requires full { IsFull (M.held m.old).dim parents.old }
    requires out { 0 < (DV.holds dv.old).out }
    requires fits { Fits (store_as (setting_of_events M.rules (M.held m.old) traversal) output None at.now (seen_slot M.numbers.vertex slot.old)
        (desk_in_hand M.numbers (DV.holds dv.old) parents.old parent.old (M.held m.old).list)) }
    ensures follows { (cells : ℕ → ℕ) → Follows
        (store_as (setting_of_events M.rules (M.held m.old) traversal) output None at.now (seen_slot M.numbers.vertex slot.old)
        (desk_in_hand M.numbers (DV.holds dv.old) parents.old parent.old (M.held m.old).list))
        (λ done. desk_in_hand M.numbers (DV.holds dv.new) parents.new parent.new (M.held m.new).list)
        (read_by (failure_of_halt at.now) result) (found_of (M.held m.old) (held_by (DV.holds dv.old) (DV.room dv.old)) cells) (M.held m.new).told }
    ensures left { RecordsOut 1 0 (DV.holds dv.old) (DV.room dv.old) (DV.holds dv.new) (DV.room dv.new) (is_err result) }
    ensures stays { Stays M.numbers.vertex (M.held m.old) (M.held m.new) parents.old parents.new }
    ensures emptied { slot.new ≡ None }
{
    fire(
        Event::TouchVertexLastTime,
        traversal,
        at,
        slot,
        m,
        dv,
        parents,
        parent,
    )?;
    let v = filled_mut(slot);
    let state = last_touch(v.state(), kind);
    v.depart(state);
    put_down(dv, output, slot.take().unwrap())
}

/// Stores a corner that does not hang, in its slot, for the last time: it is written, or it dies. Whatever the answer, the
/// slot is empty; on an error its record is given up.
#[inline]
pub(crate) fn store_last<M: Mapping, DV: Depot<Vertex<M::V>>>(
    output: u8,
    traversal: u64,
    at: &Place,
    slot: &mut Option<Vertex<M::V>>,
    m: &mut M,
    dv: &mut DV,
    parents: &mut Corners<M::V>,
    parent: &mut CellRec<M::C>,
) -> Result<(), Inner>
    requires traversal { IsTraversal traversal }
    requires place { IsBelowRoot at.now }
    requires counts { IsSomeAnd slot.old (λ v. v.kind ≡ Hanging → ⊥) }
    requires full { IsFull (M.held m.old).dim parents.old }
    requires out { 0 < (DV.holds dv.old).out }
    requires fits { Fits (store_as (setting_of_events M.rules (M.held m.old) traversal) output None at.now (seen_slot M.numbers.vertex slot.old)
        (desk_in_hand M.numbers (DV.holds dv.old) parents.old parent.old (M.held m.old).list)) }
    ensures follows { (cells : ℕ → ℕ) → Follows
        (store_as (setting_of_events M.rules (M.held m.old) traversal) output None at.now (seen_slot M.numbers.vertex slot.old)
        (desk_in_hand M.numbers (DV.holds dv.old) parents.old parent.old (M.held m.old).list))
        (λ done. desk_in_hand M.numbers (DV.holds dv.new) parents.new parent.new (M.held m.new).list)
        (read_by (failure_of_halt at.now) result) (found_of (M.held m.old) (held_by (DV.holds dv.old) (DV.room dv.old)) cells) (M.held m.new).told }
    ensures left { RecordsOut 1 0 (DV.holds dv.old) (DV.room dv.old) (DV.holds dv.new) (DV.room dv.new) (is_err result) }
    ensures stays { Stays M.numbers.vertex (M.held m.old) (M.held m.new) parents.old parents.new }
    ensures emptied { slot.new ≡ None }
{
    let kind = filled_mut(slot).kind();
    match kind {
        Kind::Dying => store_dying(traversal, at, slot, m, dv, parents, parent),
        _ => store_staying(kind, output, traversal, at, slot, m, dv, parents, parent),
    }
}
