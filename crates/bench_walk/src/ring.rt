ghost use Rattle.std.specs.Prelude.{◌≡◌, ◌*◌, ◌≤◌, ◌<◌, ◌^◌, IfSome, slice_index};
ghost use Rattle.std.specs.Int.{abs_diff};
ghost use Rattle.pe_base.specs.Acts.Moments.{IsTraversal, IsBelowRoot};
ghost use Rattle.bench_walk.specs.Ring.{squared, width, distance, is_near, asked_state};

use crate::corners::{count, count_corners};
use crate::sphere::{MOST_LEVELS, Sphere};
use pe_base::{Dim, Effects, Event, Fields, Place, Stop};
use pe_mapping::Mapping;
use pe_stacks::{CellRec, Corners, Vertex};
use std::alloc::AllocError;

/// A mapping that refines around a sphere that moves. Whenever a cell is entered it is counted, and each of its corners.
#[derive(Drop)]
pub struct Ring {
    sphere: Sphere,
}

// The square of the distance of two numbers on an axis.
#[inline]
fn squared_apart(x: u64, centre: u64) -> u64
    requires x { x ≤ 387420489 }
    requires centre { centre ≤ 2200000000 }
    ensures value { result ≡ squared (abs_diff x centre) }
    ensures far { result ≤ 4840000000000000000 }
    ensures near { centre ≤ 387420489 → result ≤ 160000000000000000 }
{
    let apart = x.abs_diff(centre);
    apart * apart
}

// The width of a cell of so many levels above the greatest, in cells of the greatest level.
#[inline]
fn width_of(levels: u8) -> u64
    requires { levels ≤ 18 }
    ensures value { result ≡ 3 ^ levels }
    ensures small { result ≤ 387420489 }
{
    3u64.pow(u32::from(levels))
}

// The position of a place on an axis, in cells of the greatest level.
#[inline]
fn position(greatest: u8, at: &Place, axis: usize) -> u64
    requires axis { axis < 4 }
    requires few { greatest ≤ 18 }
    requires place { IsBelowRoot at.now }
    requires level { at.now.level ≤ greatest }
    ensures value { result ≡ slice_index at.now.pos axis * width greatest at.now.level }
    ensures small { result ≤ 387420489 }
{
    at.pos[axis] * width_of(greatest - at.level)
}

impl Sphere {
    // The square of the distance of a place from the centre.
    #[inline]
    fn distance(self, traversal: u64, at: &Place) -> u64
        requires traversal { IsTraversal traversal }
        requires place { IsBelowRoot at.now }
        requires level { at.now.level ≤ self.greatest }
        ensures { result ≡ distance self traversal at.now }
    {
        let greatest = self.greatest;
        let axes = self.dim.axes();
        let whole = width_of(greatest);
        let middle = whole / 2;
        let first = squared_apart(position(greatest, at, 0), 45 * whole / 100 + 2 * traversal);
        let second = squared_apart(position(greatest, at, 1), middle);
        let third = if 2 < axes {
            squared_apart(position(greatest, at, 2), middle)
        } else {
            0
        };
        let fourth = if 3 < axes {
            squared_apart(position(greatest, at, 3), middle)
        } else {
            0
        };
        first + second + third + fourth
    }

    // Whether a place is no further from the sphere than the width of a cell.
    #[inline]
    fn is_near(self, traversal: u64, at: &Place) -> bool
        requires traversal { IsTraversal traversal }
        requires place { IsBelowRoot at.now }
        requires level { at.now.level ≤ self.greatest }
        ensures { result ≡ is_near self traversal at.now }
    {
        let radius = 3 * width_of(self.greatest) / 10;
        let width = width_of(self.greatest - at.level);
        let inner = squared_apart(radius.saturating_sub(width), 0);
        let outer = squared_apart(radius + width, 0);
        let distance = self.distance(traversal, at);
        inner <= distance && distance <= outer
    }

    // Asks a vertex to refine or to erase, by its place.
    #[inline]
    fn ask(self, traversal: u64, at: &Place, vertex: &mut Vertex<Fields>)
        requires traversal { IsTraversal traversal }
        requires place { IsBelowRoot at.now }
        ensures { vertex.new ≡ record vertex.old { state = asked_state self traversal at.now vertex.old.kind vertex.old.state } }
    {
        let greatest = self.greatest;
        let level = at.level;
        if level > greatest {
            return;
        }
        if self.is_near(traversal, at) {
            vertex.refine(level, greatest);
        } else {
            vertex.erase();
        }
    }
}

impl Ring {
    /// The mapping of a grid of this dimension and greatest level, which is at most 18.
    pub fn new(dim: Dim, greatest: u8) -> Option<Ring>
        ensures dim { IfSome result (λ ring. ring.sphere.dim ≡ dim) }
        ensures greatest { IfSome result (λ ring. ring.sphere.greatest ≡ greatest) }
    {
        if MOST_LEVELS < greatest {
            return None;
        }
        Some(Ring {
            sphere: Sphere { dim, greatest },
        })
    }
}

impl Effects for Ring {
    type Plan = Sphere;

    ghost use Rattle.bench_walk.specs.Ring.{ring_rules};
    ghost use Rattle.bench_walk.specs.Law.{ring_lawful};

    ghost rules = { ring_rules };

    ghost lawful = { ring_lawful };
}

impl Mapping for Ring {
    type V = Fields;

    type C = Fields;

    ghost use Rattle.std.specs.Prelude.{[], Some, true};
    ghost use Rattle.bench_walk.specs.Counting.{fields_numbers};

    ghost numbers = { fields_numbers };

    ghost held = { λ it. record {
      plan = it.sphere;
      list = [];
      told = record { text = Some []; writes = 0; faults = 0 };
      dim = it.sphere.dim;
      sure = true;
      lent = [];
    } };

    #[inline]
    fn fresh_v(&mut self) -> Result<Fields, AllocError> {
        Ok(Fields::zero())
    }

    #[inline]
    fn fresh_c(&mut self) -> Result<Fields, AllocError> {
        Ok(Fields::zero())
    }

    fn plain_event(&mut self, _event: Event, _traversal: u64) -> Result<(), Stop> {
        Ok(())
    }

    #[inline]
    fn vertex_event(
        &mut self,
        event: Event,
        traversal: u64,
        at: &Place,
        vertex: &mut Vertex<Fields>,
        _parents: &mut Corners<Fields>,
        _parent: &mut CellRec<Fields>,
    ) -> Result<(), Stop> {
        match event {
            Event::TouchVertexFirstTime => {
                self.sphere.ask(traversal, at, vertex);
                Ok(())
            }
            _ => Ok(()),
        }
    }

    #[inline]
    fn cell_event(
        &mut self,
        event: Event,
        _traversal: u64,
        _at: &Place,
        cell: &mut CellRec<Fields>,
        corners: &mut Corners<Fields>,
        _parents: &mut Corners<Fields>,
        _parent: &mut CellRec<Fields>,
    ) -> Result<(), Stop> {
        match event {
            Event::EnterCell => {
                count_corners(self.sphere.dim, corners);
                count(cell.payload_mut());
                Ok(())
            }
            _ => Ok(()),
        }
    }
}
