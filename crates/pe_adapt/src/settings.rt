ghost use Rattle.std.specs.Prelude.{◌≡◌, ◌≤◌, ◌^◌};
ghost use Rattle.pe_base.specs.Tree.Dim.{IsDim};
ghost use Rattle.pe_base.specs.Tree.Ways.{way_of};
ghost use Rattle.pe_base.specs.Acts.Moments.{IsTraversal};
ghost use Rattle.pe_adapt.specs.Streams.{AreStreams};

use pe_base::{Dim, Setup, Way};

/// What is set for a traversal.
#[derive(Clone, Copy, Debug, PartialEq, Eq)]
pub struct Settings {
    /// The settings of the grid.
    pub setup: Setup,
    /// The traversal's number, from 1.
    pub traversal: u64,
    /// Its way.
    pub way: Way,
    /// The stack of vertices that is the input: 8 or 9.
    pub input: u8,
    /// The stack of vertices that is the output: the other of the two.
    pub output: u8,
    /// The stack of cells that is the input: 0 or 1.
    pub cell_input: u8,
    /// The stack of cells that is the output: the other of the two.
    pub cell_output: u8,
    ghost number: { IsTraversal traversal },
    ghost turned: { way ≡ way_of traversal },
    ghost streams: { AreStreams input output cell_input cell_output },
}

/// What is set for a traversal, with these stacks for its input.
pub fn settings_at(setup: &Setup, traversal: u64, input: u8, cell_input: u8) -> Settings
    requires traversal { IsTraversal traversal }
    requires input { 8 ≤ input }
    requires last { input ≤ 9 }
    requires cell_input { cell_input ≤ 1 }
    ensures setup { result.setup ≡ setup.now }
    ensures traversal { result.traversal ≡ traversal }
    ensures input { result.input ≡ input }
    ensures cell_input { result.cell_input ≡ cell_input }
{
    Settings {
        setup: *setup,
        traversal,
        way: Way::of(traversal),
        input,
        output: 17 - input,
        cell_input,
        cell_output: 1 - cell_input,
    }
}

/// The dimension, which is known when the walk is compiled.
#[inline(always)]
pub fn dim_in<const AXES: u8>(settings: &Settings) -> Dim
    requires { settings.now.setup.dim ≡ AXES }
    ensures { result ≡ settings.now.setup.dim }
{
    match Dim::new(AXES) {
        Some(dim) => dim,
        None => settings.setup.dim,
    }
}

/// The number of corners of a cell, which is known when the walk is compiled.
#[inline(always)]
pub fn corners_in<const AXES: u8>(settings: &Settings) -> u8
    requires { settings.now.setup.dim ≡ AXES }
    ensures value { result ≡ 2 ^ settings.now.setup.dim }
    ensures range { IsDim settings.now.setup.dim }
{
    dim_in::<AXES>(settings).corners()
}
