//! A place in the plane: what its events change, by function and by body.
ghost use Rattle.std.specs.Prelude.{◌≡◌, IsTrue};
ghost use Rattle.pe_stacks.specs.Corners.{IsFull};
ghost use Rattle.pe_check.specs.Fits.{fits};
ghost use Rattle.pe_base.specs.declared.event.Event.TheVariants as event;
ghost use Rattle.pe_base.specs.Acts.Moments.{IsTraversal, IsBelowRoot};
ghost use Rattle.pe_eval.specs.Sights.{frame, reach_of, IsReady};
ghost use Rattle.bench_eval.specs.Mill.{reach_at};

use crate::functions::{end, enter, touch};
use pe_base::{Dim, Fields, Kind, Place, State, Stop};
use pe_check::Checked;
use pe_eval::{View, eval};
use pe_io::{Sink, SureSink};
use pe_stacks::{CellRec, Corners, Vertex};

/// A vertex and a cell at one place of a traversal, and the numbers of the whole grid.
#[derive(Drop)]
pub struct Site {
    t: u64,
    max_level: u8,
    at: Place,
    pub globals: Fields,
    pub vertex: Vertex<Fields>,
    pub cell: CellRec<Fields>,
    ghost traversal: { IsTraversal t },
    ghost place: { IsBelowRoot at },
}

fn new_vertex() -> Vertex<Fields> {
    Vertex::new(State::Unrefined, Kind::Kept, Fields::zero())
}

fn new_cell() -> CellRec<Fields> {
    CellRec::new(Fields::zero())
}

/// Four corners.
fn square(dim: Dim) -> Corners<Fields>
    requires { dim ≡ 2 }
    ensures { IsFull 2 result }
{
    let mut corners = Corners::empty(dim);
    corners.put(0, new_vertex());
    corners.put(1, new_vertex());
    corners.put(2, new_vertex());
    corners.put(3, new_vertex());
    corners
}

/// Takes the corners out.
fn open(corners: Corners<Fields>)
    requires { IsFull 2 corners }
{
    let mut corners = corners;
    drop(corners.take(0));
    drop(corners.take(1));
    drop(corners.take(2));
    drop(corners.take(3));
    corners.close();
}

/// Runs a body so many times.
fn evaluate<K: Sink>(body: &Checked, view: &mut View, sink: &mut K, rounds: u32) -> Result<(), Stop>
    requires fits { IsTrue (fits (reach_of view.old) body.now) }
    requires ready { IsReady view.old }
    ensures frame { frame view.new ≡ frame view.old }
    ensures ready { IsReady view.new }
{
    for _round in 0..rounds {
        match eval(body, view, sink) {
            Ok(()) => {}
            Err(stop) => return Err(stop),
        }
    }
    Ok(())
}

impl Site {
    /// A place where a mill with number 6 asks for refinement, and nothing has happened yet.
    pub fn new() -> Site {
        Site {
            t: 1,
            max_level: 6,
            at: Place {
                level: 1,
                pos: [2, 2, 0, 0],
            },
            globals: Fields::zero(),
            vertex: new_vertex(),
            cell: new_cell(),
        }
    }

    /// Touches the vertex for the last time, by function.
    #[inline(never)]
    pub fn touch(&mut self, rounds: u32) -> Result<(), Stop> {
        for _round in 0..rounds {
            match touch(self.t, self.max_level, &self.at, &mut self.vertex) {
                Ok(()) => {}
                Err(stop) => return Err(stop),
            }
        }
        Ok(())
    }

    /// Enters the cell, by function.
    #[inline(never)]
    pub fn enter(&mut self, rounds: u32) -> Result<(), Stop> {
        for _round in 0..rounds {
            match enter(&mut self.globals, &mut self.cell) {
                Ok(()) => {}
                Err(stop) => return Err(stop),
            }
        }
        Ok(())
    }

    /// Ends the traversal, by function.
    #[inline(never)]
    pub fn end<K: Sink>(&mut self, sink: &mut K, rounds: u32) -> Result<(), Stop> {
        for _round in 0..rounds {
            match end(self.t as i64, &self.globals, sink) {
                Ok(()) => {}
                Err(stop) => return Err(stop),
            }
        }
        Ok(())
    }

    /// Touches the vertex for the last time, by body.
    pub fn touch_by(&mut self, body: &Checked, dim: Dim, rounds: u32) -> Result<(), Stop>
        requires dim { dim ≡ 2 }
        requires fits { IsTrue (fits (reach_at event.TouchVertexLastTime) body.now) }
    {
        let mut parents = square(dim);
        let mut parent = new_cell();
        let mut view = View::Vertex {
            t: self.t,
            max_level: self.max_level,
            at: self.at,
            globals: &mut self.globals,
            vertex: &mut self.vertex,
            parents: &mut parents,
            parent: &mut parent,
        };
        let answer = evaluate(body, &mut view, &mut SureSink::new(), rounds);
        match view {
            View::Vertex { parents, .. } => {
                let _ = parents;
            }
            View::Plain { .. } | View::Cell { .. } => unreachable!(),
        }
        open(parents);
        answer
    }

    /// Enters the cell, by body.
    pub fn enter_by(&mut self, body: &Checked, dim: Dim, rounds: u32) -> Result<(), Stop>
        requires dim { dim ≡ 2 }
        requires fits { IsTrue (fits (reach_at event.EnterCell) body.now) }
    {
        let mut corners = square(dim);
        let mut parents = square(dim);
        let mut parent = new_cell();
        let mut view = View::Cell {
            t: self.t,
            max_level: self.max_level,
            at: self.at,
            globals: &mut self.globals,
            cell: &mut self.cell,
            corners: &mut corners,
            parents: &mut parents,
            parent: &mut parent,
        };
        let answer = evaluate(body, &mut view, &mut SureSink::new(), rounds);
        match view {
            View::Cell {
                corners,
                parents,
                ..
            } => {
                let _ = corners;
                let _ = parents;
            }
            View::Plain { .. } | View::Vertex { .. } => unreachable!(),
        }
        open(corners);
        open(parents);
        answer
    }

    /// Ends the traversal, by body.
    pub fn end_by<K: Sink>(&mut self, body: &Checked, sink: &mut K, rounds: u32) -> Result<(), Stop>
        requires { IsTrue (fits (reach_at event.EndIteration) body.now) }
    {
        let mut view = View::Plain {
            t: self.t,
            globals: &mut self.globals,
        };
        evaluate(body, &mut view, sink, rounds)
    }
}
