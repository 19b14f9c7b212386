ghost use Rattle.std.specs.Prelude.{◌≡◌, ◌*◌, ◌^◌, ◌<◌, None, Some, IsSome};
ghost use Rattle.std.specs.Borrow.{Lends, sem};
ghost use Rattle.std.specs.contracts.option.Option.{the_row as option_row};
ghost use Rattle.pe_stacks.specs.contracts.corners.Corners.{the_row};
ghost use Rattle.pe_stacks.specs.contracts.record.Vertex.{the_row as vertex_row};
ghost use Rattle.pe_stacks.specs.contracts.quad.Quad.{the_row as quad_row};
ghost use Rattle.pe_stacks.specs.Corners.{no_vertices, vertex_at, with_vertex};
ghost use Rattle.pe_stacks.specs.Quads.{quad_at, with_quad};

use crate::Vertex;
use crate::quad::{Quad, fill_slot, filled_mut};
use crate::slots::Slots;
use pe_base::Dim;
use std::marker::Model;

/// The corners of a cell: up to `2^d` vertices in numbered slots.
///
/// Bit i of a corner's number says that the corner lies at the far end of axis i. No call takes memory.
/// Corners are ended by `close`, once every slot is empty.
pub struct Corners<P> {
    dim: Dim,
    slots: Slots<Vertex<P>>,
}

impl<P> Model for Corners<P> {
    ghost use Rattle.pe_stacks.specs.declared.record.Vertex.{Vertex};
    ghost use Rattle.pe_stacks.specs.Corners.{CornerList};

    ghost Value = { CornerList (Vertex P) };

    ghost use Rattle.pe_stacks.specs.CornersView.{corner_list, IsSound};

    ghost view = { corner_list };

    ghost invariant = { IsSound };
}

impl<P> Corners<P> {
    /// The corners of a cell in `dim` dimensions, with every slot empty.
    pub fn empty(dim: Dim) -> Corners<P>
        ensures { result ≡ no_vertices dim }
    {
        // From the call it is known that the dimension has no more corners than there are slots.
        let _axes = dim.axes();
        Corners {
            dim,
            slots: Slots::empty(),
        }
    }

    /// Puts a vertex in a slot that is empty.
    pub fn put(&mut self, k: u8, v: Vertex<P>)
        requires corner { k < 2 ^ self.old.dim }
        requires empty { vertex_at self.old k ≡ None }
        ensures { self.new ≡ with_vertex self.old k (Some v) }
    {
        fill_slot(self.slot_mut(k), v);
    }

    /// Takes the vertex out of a slot that is full.
    pub fn take(&mut self, k: u8) -> Vertex<P>
        requires { IsSome (vertex_at self.old k) }
        ensures value { vertex_at self.old k ≡ Some result }
        ensures corners { self.new ≡ with_vertex self.old k None }
    {
        // From the fields it is known that a full slot is one of the dimension's.
        let _dim = self.dim;
        self.slot_mut(k).take().unwrap()
    }

    /// The vertex in a slot that is full.
    pub fn at(&self, k: u8) -> &Vertex<P>
        requires { IsSome (vertex_at self.now k) }
        ensures { vertex_at self.now k ≡ Some result.now }
    {
        match self.slots.slot(k) {
            Some(v) => v,
            None => unreachable!(),
        }
    }

    /// The vertex in a slot that is full, to be changed in place.
    pub fn at_mut(&mut self, k: u8) -> &mut Vertex<P>
        requires { IsSome (vertex_at self.old k) }
        ensures value { vertex_at self.old k ≡ Some result.now }
        ensures* writes_back { sem 𝓛 (Lends (the_row P.row) (vertex_row P.row) self.entry result
            (λ w. with_vertex self.old k (Some w))) }
    {
        // From the fields it is known that a full slot is one of the dimension's.
        let _dim = self.dim;
        filled_mut(self.slot_mut(k))
    }

    /// Four corners: quad `q` has those numbered `4 q` to `4 q + 3`.
    pub fn quad(&self, q: u8) -> &Quad<Vertex<P>>
        requires { 4 * q < 2 ^ self.now.dim }
        ensures { result.now ≡ quad_at self.now q }
    {
        self.slots.quad(q)
    }

    /// Four corners, to be touched in place.
    pub fn quad_mut(&mut self, q: u8) -> &mut Quad<Vertex<P>>
        requires { 4 * q < 2 ^ self.old.dim }
        ensures value { result.now ≡ quad_at self.old q }
        ensures* writes_back { sem 𝓛 (Lends (the_row P.row) (quad_row (vertex_row P.row)) self.entry result
            (with_quad self.old q)) }
    {
        self.slots.quad_mut(q)
    }

    /// Ends corners whose slots are all empty.
    pub fn close(self)
        requires { self ≡ no_vertices self.dim }
    {
        let Corners { dim: _, slots } = self;
        slots.close();
    }

    /// The slot of a corner, to be touched in place.
    pub fn slot_mut(&mut self, k: u8) -> &mut Option<Vertex<P>>
        requires { k < 2 ^ self.old.dim }
        ensures value { vertex_at self.old k ≡ result.now }
        ensures* writes_back { sem 𝓛 (Lends (the_row P.row) (option_row (vertex_row P.row)) self.entry result
            (with_vertex self.old k)) }
    {
        self.slots.slot_mut(k)
    }
}
