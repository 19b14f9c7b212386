//! Counts in records: of a cell, and of its corners.
ghost use Rattle.std.specs.Prelude.{◌≡◌};
ghost use Rattle.pe_stacks.specs.Corners.{IsFull};
ghost use Rattle.bench_walk.specs.Counting.{counted};
ghost use Rattle.bench_walk.specs.Slots.{counted_slot, counted_quad, counted_corners};

use pe_base::{Dim, Fields};
use pe_stacks::{Corners, Quad, Vertex};

/// Counts one in the first number, up to the greatest number.
#[inline]
pub fn count(fields: &mut Fields)
    ensures { fields.new.a ≡ counted fields.old.a }
{
    let next = fields.get(0).saturating_add(1);
    fields.set(0, next);
}

#[inline]
fn count_slot(slot: &mut Option<Vertex<Fields>>)
    ensures { slot.new ≡ counted_slot slot.old }
{
    match slot {
        Some(vertex) => count(vertex.payload_mut()),
        None => {}
    }
}

#[inline]
fn count_quad(quad: &mut Quad<Vertex<Fields>>)
    ensures { quad.new ≡ counted_quad quad.old }
{
    count_slot(&mut quad.p0);
    count_slot(&mut quad.p1);
    count_slot(&mut quad.p2);
    count_slot(&mut quad.p3);
}

/// Counts one at each corner.
#[inline]
pub fn count_corners(dim: Dim, corners: &mut Corners<Fields>)
    requires { IsFull dim corners.old }
    ensures { corners.new ≡ counted_corners corners.old }
{
    match dim.axes() {
        2 => count_quad(corners.quad_mut(0)),
        3 => {
            count_quad(corners.quad_mut(0));
            count_quad(corners.quad_mut(1));
        }
        _ => {
            count_quad(corners.quad_mut(0));
            count_quad(corners.quad_mut(1));
            count_quad(corners.quad_mut(2));
            count_quad(corners.quad_mut(3));
        }
    }
}
