ghost use Rattle.std.specs.Prelude.{◌≡◌};
ghost use Rattle.pe_base.specs.declared.place.Place.{Place as APlace};
ghost use Rattle.pe_base.specs.declared.event.Event.{Event as AnEvent};
ghost use Rattle.pe_base.specs.declared.stop.Stop.{Stop as AStop};
ghost use Rattle.pe_base.specs.declared.stop.Stop.TheVariants.{Memory as NoMemory};
ghost use Rattle.pe_base.specs.Calls.Follows.{failure_at};
ghost use Rattle.pe_adapt.specs.declared.stop.Inner.TheVariants.{Event as ByEvent};
ghost use Rattle.pe_adapt.specs.declared.stop.WalkStop.TheVariants.{Event as AtEvent};
ghost use Rattle.pe_adapt.specs.Stops.{failure_of, failure_of_halt};

use pe_base::{Event, Place, Stop};

/// Why a walk stopped.
#[derive(Clone, Copy, Debug, PartialEq, Eq)]
pub enum WalkStop {
    /// An event stopped it: a result was out of range, a divisor was zero, or the sink failed.
    Event {
        /// Why.
        stop: Stop,
        /// The event.
        event: Event,
        /// Its place.
        at: Place,
    },
    /// One cell more was to be walked than may be.
    CellLimit {
        /// That cell's place.
        at: Place,
    },
    /// There was no memory.
    Memory,
}

/// Why a walk stops, apart from the place, which the walk keeps: small, since every call of the walk hands it on.
#[derive(Clone, Copy, Debug, PartialEq, Eq)]
pub enum Inner {
    /// An event stopped it.
    Event(Stop, Event),
    /// One cell more was to be walked than may be.
    CellLimit,
    /// There was no memory.
    Memory,
}

impl Inner {
    /// The stop by an event.
    pub fn of_event(stop: Stop, event: Event) -> Inner
        ensures failure { (at : APlace) → failure_of_halt at result ≡ failure_at event at stop }
        ensures named { (stop ≡ NoMemory → ⊥) → result ≡ ByEvent stop event }
    {
        match stop {
            Stop::Memory => Inner::Memory,
            Stop::Overflow | Stop::Division | Stop::Sink => Inner::Event(stop, event),
        }
    }
}

impl WalkStop {
    /// The stop at a place.
    pub fn of_halt(halt: Inner, at: Place) -> WalkStop
        ensures failure { failure_of result ≡ failure_of_halt at halt }
        ensures named { (stop : AStop) (event : AnEvent) → halt ≡ ByEvent stop event → result ≡ AtEvent stop event at }
    {
        match halt {
            Inner::Event(stop, event) => WalkStop::Event { stop, event, at },
            Inner::CellLimit => WalkStop::CellLimit { at },
            Inner::Memory => WalkStop::Memory,
        }
    }
}
