//! What an event does: its trace line, and then its body.
ghost use Rattle.std.specs.Prelude.{◌≡◌, IsTrue, true};
ghost use Rattle.pe_base.specs.Acts.Events.{sort_of};
ghost use Rattle.pe_base.specs.Acts.Effects.{MayLeave};
ghost use Rattle.pe_base.specs.Calls.Outcomes.{AnswersBy};
ghost use Rattle.pe_io.specs.Sink.{told_by};
ghost use Rattle.pe_check.specs.Fits.{has_place};
ghost use Rattle.pe_eval.specs.Sights.{sight, globals_of, frame, IsReady};
ghost use Rattle.pe_scene.specs.SaidView.{said_of};
ghost use Rattle.pe_interp.specs.Effect.{setting_at, effect_of};

use crate::lines::write_trace;
use pe_base::{Event, Place, Stop};
use pe_eval::{View, eval};
use pe_io::Sink;
use pe_scene::Scenario;

/// Writes the trace line of an event at a place, if the scenario traces it, and runs the body of the event, if it has one.
pub(crate) fn act<K: Sink>(
    scenario: &Scenario,
    event: Event,
    traversal: u64,
    at: &Place,
    view: &mut View,
    sink: &mut K,
) -> Result<(), Stop>
    requires sort { (frame view.old).sort ≡ sort_of event }
    requires setting { (frame view.old).setting ≡ setting_at (said_of scenario.now) event traversal }
    requires dim { IsTrue (has_place (frame view.old).sort) → (frame view.old).dim ≡ scenario.now.setup.dim }
    requires place { (sight view.old).place ≡ at.now }
    requires ready { IsReady view.old }
    ensures answer { AnswersBy (effect_of (said_of scenario.now) event traversal (globals_of view.old) (sight view.old)) true
        (told_by K.text K.writes K.faults sink.old) (told_by K.text K.writes K.faults sink.new) (globals_of view.new) (sight view.new) result }
    ensures lawful { MayLeave scenario.now.setup.max_level (sight view.old) (sight view.new) }
    ensures frame { frame view.new ≡ frame view.old }
    ensures ready { IsReady view.new }
{
    match write_trace(scenario, event, traversal, at, sink) {
        Ok(()) => {}
        Err(_) => return Err(Stop::Sink),
    }
    match scenario.bodies.of(event) {
        Some(body) => eval(body, view, sink),
        None => Ok(()),
    }
}
