//! What a scenario says.
ghost use Rattle.std.specs.Prelude.{length};
ghost use Rattle.pe_scene.specs.Bodies.{AllFit};

use crate::bodies::Bodies;
use crate::trace::Trace;
use pe_base::{Names, Setup};

/// What a scenario says.
#[derive(Debug, Drop)]
pub struct Scenario {
    /// The dimension, the levels and the greatest number of cells.
    pub setup: Setup,
    /// How many traversals to make.
    pub traversals: u64,
    /// The events whose lines are printed.
    pub trace: Trace,
    /// The names of the fields.
    pub names: Names,
    /// The bodies of the events.
    pub bodies: Bodies,
    ghost fit: { AllFit setup.dim (length names.vertex) (length names.cell) (length names.global) bodies },
}
