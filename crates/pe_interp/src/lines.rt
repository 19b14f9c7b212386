//! The trace lines of events.
ghost use Rattle.std.specs.Prelude.{◌≡◌, [], ◌∷◌, ◌++◌};
ghost use Rattle.pe_base.specs.Acts.Events.{sort_of};
ghost use Rattle.pe_base.specs.Lines.{line_by};
ghost use Rattle.pe_base.specs.Calls.Told.{Tells};
ghost use Rattle.pe_io.specs.Sink.{told_by};
ghost use Rattle.pe_scene.specs.SaidView.{said_of};
ghost use Rattle.pe_interp.specs.Effect.{trace_line};

use pe_base::{Dim, Event, Place, Sort};
use pe_io::{Line, Sink, SinkFailed};
use pe_scene::Scenario;

/// Writes the trace line of an event, if the scenario traces it.
pub(crate) fn write_trace<K: Sink>(
    scenario: &Scenario,
    event: Event,
    traversal: u64,
    place: &Place,
    sink: &mut K,
) -> Result<(), SinkFailed>
    ensures told { Tells (trace_line (said_of scenario.now) event traversal place.now)
        (told_by K.text K.writes K.faults sink.old) (told_by K.text K.writes K.faults sink.new) result }
{
    if scenario.trace.has(event) {
        trace_words(scenario.setup.dim, event, traversal, place).end(sink)
    } else {
        Ok(())
    }
}

// The trace line of an event, without its line feed: a plain event with the number of the traversal, every other with
// its place.
fn trace_words(dim: Dim, event: Event, traversal: u64, place: &Place) -> Line
    ensures { result ++ 10 ∷ [] ≡ line_by (sort_of event) dim event traversal place.now }
{
    let mut line = Line::of(event.name());
    match event.sort() {
        Sort::Plain => line.number(traversal),
        Sort::Vertex | Sort::Cell => line.place(dim, place),
    }
    line
}
