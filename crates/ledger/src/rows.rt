//! Callers that know a mapping by its bound alone, and what they see of the ledger.
ghost use Rattle.std.specs.Prelude.{◌≡◌, ℕ, ◌^◌, ◌++◌, OnOk, OnErr, None};
ghost use Rattle.pe_base.specs.declared.event.Event.TheVariants.{BeginIteration, CreateInnerVertex, TouchVertexFirstTime, EnterCell};
ghost use Rattle.pe_base.specs.Acts.Effects.{Outcome, plain_sight};
ghost use Rattle.pe_stacks.specs.Corners.{IsFull};
ghost use Rattle.pe_mapping.specs.Held.{outcome_of, Keeps};
ghost use Rattle.pe_base.specs.Calls.Told.{Adds, AddsPart};
ghost use Rattle.pe_stacks.specs.Sights.{vertex_sight, cell_sight};
ghost use Rattle.pe_base.specs.Acts.Moments.{IsTraversal, IsBelowRoot};

use crate::{Ledger, Number};
use pe_base::{Dim, Event, Kind, Place, State, Stop};
use pe_mapping::Mapping;
use pe_stacks::{CellRec, Corners, Vertex};
use std::alloc::AllocError;
use std::test::Fail;

// Begins a traversal.
fn begin<M: Mapping>(m: &mut M, traversal: u64) -> Result<(), Stop>
    requires { IsTraversal traversal }
    ensures text { OnOk result (Adds (M.held m.old).told
        (outcome_of M.rules (M.held m.old) BeginIteration traversal plain_sight).text (M.held m.new).told) }
    ensures part { OnErr result (AddsPart (M.held m.old).told
        (outcome_of M.rules (M.held m.old) BeginIteration traversal plain_sight).text (M.held m.new).told) }
    ensures keeps { Keeps (M.held m.old) (M.held m.new) }
{
    m.plain_event(Event::BeginIteration, traversal)
}

// Fires the two events of a vertex that is born.
fn welcome<M: Mapping>(
    m: &mut M,
    traversal: u64,
    at: &Place,
    vertex: &mut Vertex<M::V>,
    parents: &mut Corners<M::V>,
    parent: &mut CellRec<M::C>,
) -> Result<(), Stop>
    requires traversal { IsTraversal traversal }
    requires place { IsBelowRoot at.now }
    requires parents { IsFull (M.held m.old).dim parents.old }
    ensures text { let first : Outcome = outcome_of M.rules (M.held m.old) CreateInnerVertex traversal
        (vertex_sight M.numbers at.now vertex.old parents.old parent.old) in
        let second : Outcome = M.rules.effect (M.held m.old).plan TouchVertexFirstTime traversal first.list first.seen in
        OnOk result (Adds (M.held m.old).told (first.text ++ second.text) (M.held m.new).told) }
    ensures part { let first : Outcome = outcome_of M.rules (M.held m.old) CreateInnerVertex traversal
        (vertex_sight M.numbers at.now vertex.old parents.old parent.old) in
        let second : Outcome = M.rules.effect (M.held m.old).plan TouchVertexFirstTime traversal first.list first.seen in
        OnErr result (AddsPart (M.held m.old).told (first.text ++ second.text) (M.held m.new).told) }
    ensures kind { vertex.new.kind ≡ vertex.old.kind }
    ensures keeps { Keeps (M.held m.old) (M.held m.new) }
    ensures parents { IsFull (M.held m.old).dim parents.new }
{
    match m.vertex_event(
        Event::CreateInnerVertex,
        traversal,
        at,
        vertex,
        parents,
        parent,
    ) {
        Ok(()) => {}
        Err(stop) => return Err(stop),
    }
    match m.vertex_event(
        Event::TouchVertexFirstTime,
        traversal,
        at,
        vertex,
        parents,
        parent,
    ) {
        Ok(()) => Ok(()),
        Err(stop) => Err(stop),
    }
}

// Enters a cell, and tells the kind of its first corner then.
fn enter<M: Mapping>(
    m: &mut M,
    traversal: u64,
    at: &Place,
    cell: &mut CellRec<M::C>,
    corners: &mut Corners<M::V>,
    parents: &mut Corners<M::V>,
    parent: &mut CellRec<M::C>,
) -> Option<Kind>
    requires traversal { IsTraversal traversal }
    requires place { IsBelowRoot at.now }
    requires parents { IsFull (M.held m.old).dim parents.old }
    requires corners { IsFull (M.held m.old).dim corners.old }
    ensures keeps { Keeps (M.held m.old) (M.held m.new) }
    ensures parents { IsFull (M.held m.old).dim parents.new }
    ensures corners { IsFull (M.held m.old).dim corners.new }
{
    match m.cell_event(
        Event::EnterCell,
        traversal,
        at,
        cell,
        corners,
        parents,
        parent,
    ) {
        Ok(()) => Some(corners.at(0).kind()),
        Err(_) => None,
    }
}

/// Four corners of a state and a kind.
pub(crate) fn square(
    dim: Dim,
    state: State,
    kind: Kind,
    numbers: (Number, Number, Number, Number),
) -> Corners<Number>
    requires { dim ≡ 2 }
    ensures { IsFull 2 result }
{
    let (a, b, c, d) = numbers;
    let mut corners = Corners::empty(dim);
    corners.put(0, Vertex::new(state, kind, a));
    corners.put(1, Vertex::new(state, kind, b));
    corners.put(2, Vertex::new(state, kind, c));
    corners.put(3, Vertex::new(state, kind, d));
    corners
}

/// Takes the corners out, and tells the state of the first.
pub(crate) fn opened(corners: Corners<Number>) -> State
    requires { IsFull 2 corners }
{
    let mut corners = corners;
    let first = corners.take(0).state();
    drop(corners.take(1));
    drop(corners.take(2));
    drop(corners.take(3));
    corners.close();
    first
}

/// Four numbers.
pub(crate) fn four(ledger: &mut Ledger) -> Result<(Number, Number, Number, Number), AllocError>
    ensures dim { ledger.new.dim ≡ ledger.old.dim }
    ensures greatest { ledger.new.greatest ≡ ledger.old.greatest }
{
    Ok((
        ledger.fresh_v()?,
        ledger.fresh_v()?,
        ledger.fresh_v()?,
        ledger.fresh_v()?,
    ))
}

#[test]
fn events_see_boxes(rt: HostRuntime) -> Result<(), Fail> {
    let dim = Dim::new(2).ok_or("a dimension")?;
    let mut ledger = Ledger::new(rt.alloc(), dim, 3);
    let at = Place {
        level: 1,
        pos: [1, 1, 0, 0],
    };
    let mut vertex = Vertex::new(State::Unrefined, Kind::Born, ledger.fresh_v()?);
    let mut cell = CellRec::new(ledger.fresh_c()?);
    let mut parent = CellRec::new(ledger.fresh_c()?);
    let above = four(&mut ledger)?;
    let below = four(&mut ledger)?;
    let mut parents = square(dim, State::Refined, Kind::Kept, above);
    let mut corners = square(dim, State::Refined, Kind::Kept, below);
    assert!(rt; begin(&mut ledger, 1).is_ok());
    assert!(rt; welcome(&mut ledger, 1, &at, &mut vertex, &mut parents, &mut parent).is_ok());
    let kind = enter(
        &mut ledger,
        1,
        &at,
        &mut cell,
        &mut corners,
        &mut parents,
        &mut parent,
    );
    let states = (opened(corners), opened(parents));
    assert!(rt; (*vertex.payload().0, vertex.state()) == (1, State::RefinementTriggered));
    assert!(rt; (kind, *cell.payload().0) == (Some(Kind::Kept), 9));
    assert!(rt; states == (State::EraseTriggered, State::Refined));
    Ok(())
}
