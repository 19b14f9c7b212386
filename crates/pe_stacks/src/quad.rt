ghost use Rattle.std.specs.Prelude.{◌≡◌, ◌<◌, None, Some, IsSome};
ghost use Rattle.std.specs.Borrow.{Lends, sem};
ghost use Rattle.std.specs.contracts.option.Option.{the_row as option_row};
ghost use Rattle.pe_stacks.specs.Quads.{no_quad};

use std::mem;

/// Four of a cell's corners, those with one number above the lowest two bits: each slot is empty or full.
pub struct Quad<X> {
    /// The corner whose lowest two bits are 0.
    pub p0: Option<X>,
    /// The corner that lies at the far end of axis 0.
    pub p1: Option<X>,
    /// The corner that lies at the far end of axis 1.
    pub p2: Option<X>,
    /// The corner that lies at the far end of both.
    pub p3: Option<X>,
}

impl<X> Quad<X> {
    pub(crate) fn empty() -> Quad<X>
        ensures { result ≡ no_quad }
    {
        Quad {
            p0: None,
            p1: None,
            p2: None,
            p3: None,
        }
    }

    pub(crate) fn close(self)
        requires { self ≡ no_quad }
    {
        let Quad { p0, p1, p2, p3 } = self;
        close_slot(p0);
        close_slot(p1);
        close_slot(p2);
        close_slot(p3);
    }
}

/// Puts what is given in a slot that is empty.
#[inline]
pub fn fill_slot<X>(slot: &mut Option<X>, x: X)
    requires { slot.old ≡ None }
    ensures { slot.new ≡ Some x }
{
    let before = mem::replace(slot, Some(x));
    close_slot(before);
}

/// Ends a slot that is empty.
#[inline]
pub fn close_slot<X>(slot: Option<X>)
    requires { slot ≡ None }
{
    match slot {
        None => {}
        Some(_) => unreachable!(),
    }
}

/// What is in a slot that is full.
#[inline]
pub fn filled<X>(slot: &Option<X>) -> &X
    requires { IsSome slot.now }
    ensures { slot.now ≡ Some result.now }
{
    match slot {
        Some(x) => x,
        None => unreachable!(),
    }
}

/// Lends what is in a slot that is full.
#[inline]
pub fn filled_mut<X>(slot: &mut Option<X>) -> &mut X
    requires { IsSome slot.old }
    ensures value { slot.old ≡ Some result.now }
    ensures* writes_back { sem 𝓛 (Lends (option_row X.row) X.row slot.entry result Some) }
{
    match slot {
        Some(x) => x,
        None => unreachable!(),
    }
}
