//! The settings of a scenario: what its numbers say.
ghost use Rattle.std.specs.Prelude.{◌≡◌, ◌≤◌, IfOk};
ghost use Rattle.toml.specs.View.{table_view};
ghost use Rattle.pe_scene.specs.Numbers.{range_of};
ghost use Rattle.pe_scene.specs.Settings.{number_in, settings_in};
ghost use Rattle.pe_scene.specs.SettingsView.{settings_view};
ghost use Rattle.pe_scene.specs.Faults.{Gives};

use crate::fault::{KeyFault, SceneFault};
use crate::number::Number;
use crate::section::{Section, value_at};
use pe_base::limits::MOST_LEVELS;
use pe_base::{Dim, Setup};
use std::alloc::Global;
use toml::Table;

/// What the numbers of a scenario say.
#[derive(Drop)]
pub(crate) struct Settings {
    pub(crate) setup: Setup,
    pub(crate) traversals: u64,
}

/// The number that a document says, where the grid may have so many levels.
fn number_in(alloc: Global, table: &Table, number: Number, levels: u64) -> Result<u64, SceneFault>
    requires { 1 ≤ levels }
    ensures gives { Gives (λ n. n) result (number_in levels number (table_view table.now)) }
    ensures bounds { IfOk result (λ n. ((range_of levels number).low ≤ n) × (n ≤ (range_of levels number).high)) }
{
    let key = number.key();
    let range = number.range(levels);
    let value = match value_at(table, key) {
        Some(value) => value,
        None => {
            return match range.default {
                Some(number) => Ok(number),
                None => Err(KeyFault::Missing.at(alloc, Section::Document, key)),
            };
        }
    };
    let found = match value.as_integer() {
        Some(found) => found,
        None => return Err(KeyFault::Shape.at(alloc, Section::Document, key)),
    };
    match range.within(found) {
        Some(number) => Ok(number),
        None => Err(KeyFault::Range.at(alloc, Section::Document, key)),
    }
}

/// The settings of a document. A grid starts with no more levels than it may have.
pub(crate) fn settings_in(alloc: Global, table: &Table) -> Result<Settings, SceneFault>
    ensures { Gives settings_view result (settings_in (table_view table.now)) }
{
    let levels = u64::from(MOST_LEVELS);
    let axes = number_in(alloc, table, Number::Dim, levels)?;
    let traversals = number_in(alloc, table, Number::Traversals, levels)?;
    let max_level = number_in(alloc, table, Number::MaxLevel, levels)?;
    let start_level = number_in(alloc, table, Number::StartLevel, max_level)?;
    let max_cells = number_in(alloc, table, Number::MaxCells, max_level)?;
    let dim = match Dim::new(axes as u8) {
        Some(dim) => dim,
        None => unreachable!(),
    };
    let setup = Setup {
        dim,
        max_level: max_level as u8,
        start_level: start_level as u8,
        max_cells,
    };
    Ok(Settings { setup, traversals })
}
