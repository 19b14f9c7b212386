//! Which events are traced.
ghost use Rattle.std.specs.Prelude.{◌≡◌, ◌||◌, ◌==◌, false};
ghost use Rattle.pe_base.specs.declared.event.Event.{Event as AnEvent};
ghost use Rattle.pe_base.specs.Acts.Events.{number_of};

use pe_base::Event;

/// For each event, whether a line is printed where it fires.
#[derive(Clone, Copy, Debug)]
pub struct Trace {
    traced: [bool; Event::COUNT],
}

impl Trace {
    ghost use Rattle.pe_scene.specs.Trace.{traces};

    /// No event is traced.
    pub fn none() -> Trace
        ensures { (event : AnEvent) → traces result event ≡ false }
    {
        Trace {
            traced: [false; Event::COUNT],
        }
    }

    /// One more event is traced.
    pub fn with(mut self, event: Event) -> Trace
        ensures { (other : AnEvent) → traces result other ≡ (number_of event == number_of other || traces self other) }
    {
        self.traced[event as usize] = true;
        self
    }

    /// Whether the event is traced.
    pub fn has(&self, event: Event) -> bool
        ensures { result ≡ traces self.now event }
    {
        self.traced[event as usize]
    }
}
