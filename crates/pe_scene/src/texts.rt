//! Arrays of texts, and the events to trace.
ghost use Rattle.std.specs.Prelude.{◌≡◌, []};
ghost use Rattle.toml.specs.View.{view, items_view, table_view};
ghost use Rattle.pe_scene.specs.Trace.{traces};
ghost use Rattle.pe_scene.specs.Texts.{are_texts, next_event, events_after, trace_in};
ghost use Rattle.pe_scene.specs.TextsView.{GivesTrace, TracesEvents};

use crate::fault::{KeyFault, SceneFault};
use crate::section::{Section, value_at};
use crate::trace::Trace;
use pe_base::Event;
use std::alloc::Global;
use toml::{Table, Value};

/// Whether each value is a text.
pub(crate) fn are_texts(values: &[Value]) -> bool
    ensures { result ≡ are_texts (items_view values.now) }
{
    for value in values {
        if value.as_str().is_none() {
            return false;
        }
    }
    true
}

/// The event of a name, if it is not traced yet.
fn next_event(trace: &Trace, name: &Value) -> Option<Event>
    ensures { result ≡ next_event (traces trace.now) (view name.now) }
{
    let event = Event::of_name(name.as_str()?)?;
    if trace.has(event) { None } else { Some(event) }
}

/// The marks of the events of some names, none twice.
fn trace_of(names: &[Value]) -> Option<Trace>
    ensures { TracesEvents result (events_after [] (items_view names.now)) }
{
    let mut trace = Trace::none();
    for name in names {
        let event = next_event(&trace, name)?;
        trace = trace.with(event);
    }
    Some(trace)
}

/// The events to trace.
pub(crate) fn trace_in(alloc: Global, table: &Table) -> Result<Trace, SceneFault>
    ensures { GivesTrace result (trace_in (table_view table.now)) }
{
    let value = match value_at(table, "trace") {
        Some(value) => value,
        None => return Ok(Trace::none()),
    };
    let names = match value.as_array() {
        Some(names) => names.as_slice(),
        None => return Err(KeyFault::Shape.at(alloc, Section::Document, "trace")),
    };
    if !are_texts(names) {
        return Err(KeyFault::Shape.at(alloc, Section::Document, "trace"));
    }
    match trace_of(names) {
        Some(trace) => Ok(trace),
        None => Err(KeyFault::Name.at(alloc, Section::Document, "trace")),
    }
}
