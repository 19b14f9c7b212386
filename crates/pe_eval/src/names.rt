ghost use Rattle.std.specs.Prelude.{◌≡◌, ◌≤◌, ◌^◌, Some, IsTrue, slice_index, pos};
ghost use Rattle.pe_base.specs.Acts.Moments.{IsBelowRoot};
ghost use Rattle.pe_stacks.specs.Sights.{fields_numbers, seen_vertex};
ghost use Rattle.pe_check.specs.Fits.{name_fits, slot_fits, vertex_fits, has_place, is_cell};
ghost use Rattle.pe_eval.specs.Names.{name_value, slot_value, vertex_named};
ghost use Rattle.pe_eval.specs.Sights.{sight, globals_of, frame, reach_of, IsReady, situation};

use crate::view::View;
use pe_base::{Fields, Place};
use pe_check::{Name, Slot, VertexName};
use pe_stacks::{CellRec, Vertex};

impl View<'_> {
    /// What a name stands for.
    #[inline(always)]
    pub(crate) fn named(&self, name: Name) -> i64
        requires fits { IsTrue (name_fits (reach_of self.now) name) }
        requires ready { IsReady self.now }
        ensures { result ≡ name_value name (situation self.now) }
    {
        match name {
            Name::Traversal => self.traversal(),
            Name::Level => self.level(),
            Name::Axis(axis) => self.position(axis),
            Name::State(vertex) => i64::from(self.vertex(vertex).state().number()),
            Name::Kind(vertex) => i64::from(self.vertex(vertex).kind().number()),
            Name::Slot(slot) => self.slot(slot),
        }
    }

    /// A number that may be assigned.
    fn slot(&self, slot: Slot) -> i64
        requires fits { IsTrue (slot_fits (reach_of self.now) slot) }
        requires ready { IsReady self.now }
        ensures { result ≡ slot_value slot (situation self.now) }
    {
        match slot {
            Slot::Global(field) => self.globals().get(field),
            Slot::Vertex(vertex, field) => self.vertex(vertex).payload().get(field),
            Slot::Cell(field) => self.cell().payload().get(field),
            Slot::Parent(field) => self.parent().payload().get(field),
        }
    }

    /// The number of the traversal.
    fn traversal(&self) -> i64
        requires { IsReady self.now }
        ensures { result ≡ pos (frame self.now).setting.traversal }
    {
        match self {
            View::Plain { t, .. } => *t as i64,
            View::Vertex { t, .. } => *t as i64,
            View::Cell { t, .. } => *t as i64,
        }
    }

    /// The level of the place.
    fn level(&self) -> i64
        requires place { IsTrue (has_place (frame self.now).sort) }
        requires ready { IsReady self.now }
        ensures { result ≡ pos (sight self.now).place.level }
    {
        i64::from(self.place().level)
    }

    /// The position of the place on an axis.
    fn position(&self, axis: u8) -> i64
        requires place { IsTrue (has_place ((frame self.now).sort)) }
        requires ready { IsReady self.now }
        ensures { result ≡ pos (slice_index (sight self.now).place.pos axis) }
    {
        position_on(self.place(), axis) as i64
    }

    /// The numbers of the whole grid.
    fn globals(&self) -> &Fields
        ensures { result.now.a ≡ globals_of self.now }
    {
        match self {
            View::Plain { globals, .. } => globals,
            View::Vertex { globals, .. } => globals,
            View::Cell { globals, .. } => globals,
        }
    }

    /// The place of the vertex or of the cell.
    fn place(&self) -> &Place
        requires place { IsTrue (has_place (frame self.now).sort) }
        requires ready { IsReady self.now }
        ensures value { result.now ≡ (sight self.now).place }
        ensures below { IsBelowRoot result.now }
    {
        match self {
            View::Plain { .. } => unreachable!(),
            View::Vertex { at, .. } => at,
            View::Cell { at, .. } => at,
        }
    }

    /// The event's cell.
    fn cell(&self) -> &CellRec<Fields>
        requires { IsTrue (is_cell ((frame self.now).sort)) }
        ensures { (sight self.now).cell ≡ Some result.now.payload.a }
    {
        match self {
            View::Plain { .. } | View::Vertex { .. } => unreachable!(),
            View::Cell { cell, .. } => cell,
        }
    }

    /// The parent cell.
    fn parent(&self) -> &CellRec<Fields>
        requires { IsTrue (has_place ((frame self.now).sort)) }
        ensures { result.now.payload.a ≡ (sight self.now).parent }
    {
        match self {
            View::Plain { .. } => unreachable!(),
            View::Vertex { parent, .. } => parent,
            View::Cell { parent, .. } => parent,
        }
    }

    /// The vertex that a name speaks of.
    fn vertex(&self, name: VertexName) -> &Vertex<Fields>
        requires fits { IsTrue (vertex_fits (reach_of self.now) name) }
        requires ready { IsReady self.now }
        ensures { vertex_named name (sight self.now) ≡ Some (seen_vertex fields_numbers.vertex result.now) }
    {
        match (self, name) {
            (View::Vertex { vertex, .. }, VertexName::Own) => vertex,
            (View::Cell { corners, .. }, VertexName::Corner(k)) => corners.at(k),
            (View::Vertex { parents, .. }, VertexName::ParentCorner(k)) => parents.at(k),
            (View::Cell { parents, .. }, VertexName::ParentCorner(k)) => parents.at(k),
            _ => unreachable!(),
        }
    }
}

/// The position of a place on an axis, and 0 on an axis behind the fourth.
fn position_on(place: &Place, axis: u8) -> u64
    requires { IsBelowRoot place.now }
    ensures value { result ≡ slice_index place.now.pos axis }
    ensures few { result ≤ 3 ^ 20 }
{
    match place.pos.get(axis as usize) {
        Some(x) => *x,
        None => 0,
    }
}
