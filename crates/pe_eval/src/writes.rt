ghost use Rattle.std.specs.Prelude.{◌≡◌, ℕ, ◌^◌, ◌<◌, IsTrue, slice_set};
ghost use Rattle.pe_stacks.specs.Corners.{IsFull};
ghost use Rattle.pe_stacks.specs.Sights.{fields_numbers, seen_corners, seen_vertex};
ghost use Rattle.pe_check.specs.Fits.{slot_fits, vertex_fits};
ghost use Rattle.pe_eval.specs.Meaning.{with_number, with_global, with_field, with_trigger, triggered, triggered_state, changed_at};
ghost use Rattle.pe_eval.specs.Sights.{sight, globals_of, frame, reach_of, IsReady};

use crate::view::View;
use pe_base::Fields;
use pe_check::{Slot, VertexName};
use pe_parse::Trigger;
use pe_stacks::{CellRec, Corners, Vertex};

impl View<'_> {
    /// Sets a number.
    pub(crate) fn set(&mut self, slot: Slot, x: i64)
        requires fits { IsTrue (slot_fits (reach_of self.old) slot) }
        requires ready { IsReady self.old }
        ensures sight { sight self.new ≡ with_number slot x (sight self.old) }
        ensures globals { globals_of self.new ≡ with_global slot x (globals_of self.old) }
        ensures frame { frame self.new ≡ frame self.old }
        ensures ready { IsReady self.new }
    {
        match slot {
            Slot::Global(field) => self.set_global(field, x),
            Slot::Vertex(vertex, field) => self.set_of_vertex(vertex, field, x),
            Slot::Cell(field) => self.set_of_cell(field, x),
            Slot::Parent(field) => self.set_of_parent(field, x),
        }
    }

    /// Sets a number of the whole grid.
    fn set_global(&mut self, field: u8, x: i64)
        requires fits { IsTrue (slot_fits (reach_of self.old) (Slot.Global field)) }
        requires ready { IsReady self.old }
        ensures sight { sight self.new ≡ sight self.old }
        ensures globals { globals_of self.new ≡ slice_set (globals_of self.old) field x }
        ensures frame { frame self.new ≡ frame self.old }
        ensures ready { IsReady self.new }
    {
        match self {
            View::Plain { globals, .. } => globals.set(field, x),
            View::Vertex { globals, .. } => globals.set(field, x),
            View::Cell { globals, .. } => globals.set(field, x),
        }
    }

    /// Sets a number of the event's cell.
    fn set_of_cell(&mut self, field: u8, x: i64)
        requires fits { IsTrue (slot_fits (reach_of self.old) (Slot.Cell field)) }
        requires ready { IsReady self.old }
        ensures sight { sight self.new ≡ with_number (Slot.Cell field) x (sight self.old) }
        ensures globals { globals_of self.new ≡ globals_of self.old }
        ensures frame { frame self.new ≡ frame self.old }
        ensures ready { IsReady self.new }
    {
        match self {
            View::Plain { .. } | View::Vertex { .. } => unreachable!(),
            View::Cell { cell, .. } => set_in_cell(cell, field, x),
        }
    }

    /// Sets a number of the parent cell.
    fn set_of_parent(&mut self, field: u8, x: i64)
        requires fits { IsTrue (slot_fits (reach_of self.old) (Slot.Parent field)) }
        requires ready { IsReady self.old }
        ensures sight { sight self.new ≡ with_number (Slot.Parent field) x (sight self.old) }
        ensures globals { globals_of self.new ≡ globals_of self.old }
        ensures frame { frame self.new ≡ frame self.old }
        ensures ready { IsReady self.new }
    {
        match self {
            View::Plain { .. } => unreachable!(),
            View::Vertex { parent, .. } => set_in_cell(parent, field, x),
            View::Cell { parent, .. } => set_in_cell(parent, field, x),
        }
    }

    /// Sets a number of a vertex.
    fn set_of_vertex(&mut self, name: VertexName, field: u8, x: i64)
        requires fits { IsTrue (slot_fits (reach_of self.old) (Slot.Vertex name field)) }
        requires ready { IsReady self.old }
        ensures sight { sight self.new ≡ with_number (Slot.Vertex name field) x (sight self.old) }
        ensures globals { globals_of self.new ≡ globals_of self.old }
        ensures frame { frame self.new ≡ frame self.old }
        ensures ready { IsReady self.new }
    {
        match (self, name) {
            (View::Vertex { vertex, .. }, VertexName::Own) => {
                set_in_vertex(vertex, field, x);
            }
            (View::Cell { corners, .. }, VertexName::Corner(k)) => {
                set_of_corner(corners, k, field, x);
            }
            (View::Vertex { parents, .. }, VertexName::ParentCorner(k)) => {
                set_of_corner(parents, k, field, x);
            }
            (View::Cell { parents, .. }, VertexName::ParentCorner(k)) => {
                set_of_corner(parents, k, field, x);
            }
            _ => unreachable!(),
        }
    }

    /// Asks a vertex to refine or to erase.
    pub(crate) fn apply(&mut self, trigger: Trigger, name: VertexName)
        requires fits { IsTrue (vertex_fits (reach_of self.old) name) }
        requires ready { IsReady self.old }
        ensures sight { sight self.new ≡ triggered trigger (frame self.old).setting.max_level name (sight self.old) }
        ensures globals { globals_of self.new ≡ globals_of self.old }
        ensures frame { frame self.new ≡ frame self.old }
        ensures ready { IsReady self.new }
    {
        match (self, name) {
            (
                View::Vertex {
                    vertex,
                    at,
                    max_level,
                    ..
                },
                VertexName::Own,
            ) => {
                trigger_vertex(vertex, trigger, at.level, *max_level);
            }
            (
                View::Cell {
                    corners,
                    at,
                    max_level,
                    ..
                },
                VertexName::Corner(k),
            ) => {
                trigger_corner(corners, k, trigger, at.level, *max_level);
            }
            (
                View::Vertex {
                    parents,
                    at,
                    max_level,
                    ..
                },
                VertexName::ParentCorner(k),
            ) => {
                trigger_corner(parents, k, trigger, at.level - 1, *max_level);
            }
            (
                View::Cell {
                    parents,
                    at,
                    max_level,
                    ..
                },
                VertexName::ParentCorner(k),
            ) => {
                trigger_corner(parents, k, trigger, at.level - 1, *max_level);
            }
            _ => unreachable!(),
        }
    }
}

/// Sets a number of a corner.
fn set_of_corner(corners: &mut Corners<Fields>, k: u8, field: u8, x: i64)
    requires corner { k < 2 ^ corners.old.dim }
    requires full { IsFull corners.old.dim corners.old }
    requires field { field < 8 }
    ensures seen { seen_corners fields_numbers.vertex corners.new ≡ changed_at k (with_field field x) (seen_corners fields_numbers.vertex corners.old) }
    ensures dim { corners.new.dim ≡ corners.old.dim }
    ensures full { (axes : ℕ) → IsFull axes corners.old → IsFull axes corners.new }
{
    set_in_vertex(corners.at_mut(k), field, x);
}

/// Asks a corner, on a level, to refine or to erase.
fn trigger_corner(corners: &mut Corners<Fields>, k: u8, trigger: Trigger, level: u8, max_level: u8)
    requires corner { k < 2 ^ corners.old.dim }
    requires full { IsFull corners.old.dim corners.old }
    ensures seen { seen_corners fields_numbers.vertex corners.new ≡ changed_at k (with_trigger trigger level max_level) (seen_corners fields_numbers.vertex corners.old) }
    ensures dim { corners.new.dim ≡ corners.old.dim }
    ensures full { (axes : ℕ) → IsFull axes corners.old → IsFull axes corners.new }
{
    trigger_vertex(corners.at_mut(k), trigger, level, max_level);
}

/// Sets a number of a cell.
fn set_in_cell(cell: &mut CellRec<Fields>, field: u8, x: i64)
    requires { field < 8 }
    ensures { cell.new.payload.a ≡ slice_set cell.old.payload.a field x }
{
    cell.payload_mut().set(field, x);
}

/// Sets a number of a vertex.
fn set_in_vertex(vertex: &mut Vertex<Fields>, field: u8, x: i64)
    requires { field < 8 }
    ensures { seen_vertex fields_numbers.vertex vertex.new ≡ with_field field x (seen_vertex fields_numbers.vertex vertex.old) }
{
    vertex.payload_mut().set(field, x);
}

/// Asks a vertex of a level to refine or to erase.
fn trigger_vertex(vertex: &mut Vertex<Fields>, trigger: Trigger, level: u8, max_level: u8)
    ensures { vertex.new ≡ record vertex.old { state = triggered_state trigger level max_level vertex.old.kind vertex.old.state } }
{
    match trigger {
        Trigger::Refine => vertex.refine(level, max_level),
        Trigger::Erase => vertex.erase(),
    }
}
