//! Reading a scenario.
ghost use Rattle.std.specs.Prelude.{◌≡◌, ◌<◌, ◌↔◌, length};
ghost use Rattle.toml.specs.View.{table_view};
ghost use Rattle.pe_base.specs.Limits.{scenario_bytes};
ghost use Rattle.pe_scene.specs.declared.fault.SceneFault.{SceneFault as TheFault};
ghost use Rattle.pe_scene.specs.Said.{known_in, said_in, scenario_of};
ghost use Rattle.pe_scene.specs.SaidView.{said_of};
ghost use Rattle.pe_scene.specs.Faults.{Gives};

use crate::fault::{KeyFault, SceneFault};
use crate::fields::fields_in;
use crate::scenario::Scenario;
use crate::section::Section;
use crate::settings::{Settings, settings_in};
use crate::table::bodies_in;
use crate::texts::trace_in;
use pe_base::limits::SCENARIO_BYTES;
use std::alloc::Global;
use toml::Table;

/// What a document says whose keys are all known.
fn known_in(alloc: Global, table: &Table) -> Result<Scenario, SceneFault>
    ensures { Gives said_of result (known_in (table_view table.now)) }
{
    let Settings { setup, traversals } = settings_in(alloc, table)?;
    let trace = trace_in(alloc, table)?;
    let names = fields_in(alloc, table)?;
    let bodies = bodies_in(alloc, table, &names, setup.dim)?;
    Ok(Scenario {
        setup,
        traversals,
        trace,
        names,
        bodies,
    })
}

/// What a document says.
fn said_in(alloc: Global, table: &Table) -> Result<Scenario, SceneFault>
    ensures { Gives said_of result (said_in (table_view table.now)) }
{
    match Section::Document.unknown_in(table) {
        Some(key) => Err(KeyFault::Unknown.at(alloc, Section::Document, key)),
        None => known_in(alloc, table),
    }
}

/// The scenario of some bytes, or the first cause of its refusal.
///
/// The causes are looked for in this order: too many bytes; no TOML document; a key that is not listed; the
/// numbers `dim`, `traversals`, `max_level`, `start_level` and `max_cells`; the events to trace; the names of
/// fields; the bodies of the events, in the order of the events.
#[tactic(auto, unfolding(crate::specs::Said::scenario_of))]
pub fn read_scenario(alloc: Global, bytes: &[u8]) -> Result<Scenario, SceneFault>
    ensures said { Gives said_of result (scenario_of bytes.now) }
    ensures too_long { (result ≡ Err SceneFault.TooLong) ↔ (scenario_bytes < length bytes.now) }
{
    if bytes.len() as u64 > SCENARIO_BYTES {
        return Err(SceneFault::TooLong);
    }
    match toml::table_from_slice(alloc, bytes) {
        Ok(table) => said_in(alloc, &table),
        Err(fault) if fault.is_memory() => Err(SceneFault::Memory),
        Err(_) => Err(SceneFault::NotToml),
    }
}
