//! The table of bodies.
ghost use Rattle.std.specs.Prelude.{◌≡◌, IfOk, IfSome, IsTrue, length};
ghost use Rattle.toml.specs.View.{table_view};
ghost use Rattle.pe_check.specs.FieldNames.{names_view};
ghost use Rattle.pe_check.specs.Fits.{fits};
ghost use Rattle.pe_scene.specs.Bodies.{reach_at, AllFit};
ghost use Rattle.pe_scene.specs.BodyTable.{body_in, all_bodies, bodies_in};
ghost use Rattle.pe_scene.specs.Faults.{Gives};

use crate::bodies::Bodies;
use crate::body::read_body;
use crate::fault::{KeyFault, SceneFault};
use crate::section::{Section, value_at};
use pe_base::{Dim, Event, Names};
use pe_check::Checked;
use std::alloc::Global;
use toml::Table;

/// The body at the name of an event, if one stands there.
fn body_in(
    alloc: Global,
    table: &Table,
    event: Event,
    names: &Names,
    dim: Dim,
) -> Result<Option<Checked>, SceneFault>
    ensures gives { Gives (λ body. body) result (body_in dim (names_view names.now) (table_view table.now) event) }
    ensures fits { IfOk result (λ found. IfSome found (λ body.
        IsTrue (fits (reach_at dim (length names.now.vertex) (length names.now.cell) (length names.now.global) event) body))) }
{
    let value = match value_at(table, event.name()) {
        Some(value) => value,
        None => return Ok(None),
    };
    let text = match value.as_str() {
        Some(text) => text,
        None => return Err(KeyFault::Shape.at(alloc, Section::Events, event.name())),
    };
    match read_body(alloc, text, event, names, dim) {
        Ok(body) => Ok(Some(body)),
        Err(fault) => Err(fault),
    }
}

/// The bodies of a table whose keys are all known.
fn all_bodies(alloc: Global, table: &Table, names: &Names, dim: Dim) -> Result<Bodies, SceneFault>
    ensures gives { Gives (λ bodies. bodies) result (all_bodies dim (names_view names.now) (table_view table.now)) }
    ensures fit { IfOk result (AllFit dim (length names.now.vertex) (length names.now.cell) (length names.now.global)) }
{
    let mut bodies = Bodies::none();
    for event in Event::ALL {
        let found = match body_in(alloc, table, event, names, dim) {
            Ok(found) => found,
            Err(fault) => return Err(fault),
        };
        if let Some(body) = found {
            bodies.set(event, body);
        }
    }
    Ok(bodies)
}

/// The bodies of the events.
pub(crate) fn bodies_in(
    alloc: Global,
    table: &Table,
    names: &Names,
    dim: Dim,
) -> Result<Bodies, SceneFault>
    ensures gives { Gives (λ bodies. bodies) result (bodies_in dim (names_view names.now) (table_view table.now)) }
    ensures fit { IfOk result (AllFit dim (length names.now.vertex) (length names.now.cell) (length names.now.global)) }
{
    let value = match value_at(table, "events") {
        Some(value) => value,
        None => return Ok(Bodies::none()),
    };
    let events = match value.as_table() {
        Some(events) => events,
        None => return Err(KeyFault::Shape.at(alloc, Section::Document, "events")),
    };
    match Section::Events.unknown_in(events) {
        Some(key) => Err(KeyFault::Unknown.at(alloc, Section::Events, key)),
        None => all_bodies(alloc, events, names, dim),
    }
}
