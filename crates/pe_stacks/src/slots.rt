ghost use Rattle.std.specs.Prelude.{◌≡◌, ◌<◌, replicate, None, Some, slice_get, slice_set};
ghost use Rattle.std.specs.Borrow.{Lends, sem};
ghost use Rattle.std.specs.contracts.option.Option.{the_row as option_row};
ghost use Rattle.pe_stacks.specs.contracts.quad.Quad.{the_row as quad_row};
ghost use Rattle.pe_stacks.specs.contracts.slots.Slots.{the_row};
ghost use Rattle.pe_stacks.specs.Quads.{quad_of, set_quad};

use crate::quad::Quad;
use std::marker::Model;

/// Sixteen slots by number, four by four, each empty or full, without an array of the type parameter.
pub(crate) struct Slots<X> {
    q0: Quad<X>,
    q1: Quad<X>,
    q2: Quad<X>,
    q3: Quad<X>,
}

impl<X> Model for Slots<X> {
    ghost use Rattle.std.specs.Prelude.{List, Option};

    ghost Value = { List (Option X) };

    ghost use Rattle.pe_stacks.specs.Slots.{listed};

    ghost view = { listed };
}

impl<X> Slots<X> {
    pub(crate) fn empty() -> Slots<X>
        ensures { result ≡ replicate 16 None }
    {
        Slots {
            q0: Quad::empty(),
            q1: Quad::empty(),
            q2: Quad::empty(),
            q3: Quad::empty(),
        }
    }

    pub(crate) fn slot(&self, k: u8) -> &Option<X>
        requires { k < 16 }
        ensures { slice_get self.now k ≡ Some result.now }
    {
        match k {
            0 => &self.q0.p0,
            1 => &self.q0.p1,
            2 => &self.q0.p2,
            3 => &self.q0.p3,
            4 => &self.q1.p0,
            5 => &self.q1.p1,
            6 => &self.q1.p2,
            7 => &self.q1.p3,
            8 => &self.q2.p0,
            9 => &self.q2.p1,
            10 => &self.q2.p2,
            11 => &self.q2.p3,
            12 => &self.q3.p0,
            13 => &self.q3.p1,
            14 => &self.q3.p2,
            _ => &self.q3.p3,
        }
    }

    pub(crate) fn slot_mut(&mut self, k: u8) -> &mut Option<X>
        requires { k < 16 }
        ensures value { slice_get self.old k ≡ Some result.now }
        ensures* writes_back { sem 𝓛 (Lends (the_row X.row) (option_row X.row) self.entry result
            (slice_set self.old k)) }
    {
        match k {
            0 => &mut self.q0.p0,
            1 => &mut self.q0.p1,
            2 => &mut self.q0.p2,
            3 => &mut self.q0.p3,
            4 => &mut self.q1.p0,
            5 => &mut self.q1.p1,
            6 => &mut self.q1.p2,
            7 => &mut self.q1.p3,
            8 => &mut self.q2.p0,
            9 => &mut self.q2.p1,
            10 => &mut self.q2.p2,
            11 => &mut self.q2.p3,
            12 => &mut self.q3.p0,
            13 => &mut self.q3.p1,
            14 => &mut self.q3.p2,
            _ => &mut self.q3.p3,
        }
    }

    pub(crate) fn quad(&self, q: u8) -> &Quad<X>
        requires { q < 4 }
        ensures { result.now ≡ quad_of self.now q }
    {
        match q {
            0 => &self.q0,
            1 => &self.q1,
            2 => &self.q2,
            _ => &self.q3,
        }
    }

    pub(crate) fn quad_mut(&mut self, q: u8) -> &mut Quad<X>
        requires { q < 4 }
        ensures value { result.now ≡ quad_of self.old q }
        ensures* writes_back { sem 𝓛 (Lends (the_row X.row) (quad_row X.row) self.entry result
            (set_quad self.old q)) }
    {
        match q {
            0 => &mut self.q0,
            1 => &mut self.q1,
            2 => &mut self.q2,
            _ => &mut self.q3,
        }
    }

    pub(crate) fn close(self)
        requires { self ≡ replicate 16 None }
    {
        let Slots { q0, q1, q2, q3 } = self;
        q0.close();
        q1.close();
        q2.close();
        q3.close();
    }
}
