ghost use Rattle.std.specs.Prelude.{◌≡◌, ◌^◌};
ghost use Rattle.pe_base.specs.Tree.Dim.{IsDim};

use pe_base::{Dim, Way};

/// What a walk over the cells of a grid goes by.
#[derive(Clone, Copy, Debug, PartialEq, Eq)]
pub struct TourSettings {
    /// The number of axes.
    pub dim: Dim,
    /// The way along the curve.
    pub way: Way,
    /// The number of the traversal, from 1: in the first one all cells are born.
    pub traversal: u64,
}

/// The dimension, which is known when the walk is compiled.
#[inline(always)]
pub(crate) fn dim_in<const AXES: u8>(settings: &TourSettings) -> Dim
    requires { settings.now.dim ≡ AXES }
    ensures { result ≡ settings.now.dim }
{
    match Dim::new(AXES) {
        Some(dim) => dim,
        None => settings.dim,
    }
}

/// The number of corners of a cell, which is known when the walk is compiled.
#[inline(always)]
pub(crate) fn corners_in<const AXES: u8>(settings: &TourSettings) -> u8
    requires { settings.now.dim ≡ AXES }
    ensures value { result ≡ 2 ^ settings.now.dim }
    ensures range { IsDim settings.now.dim }
{
    dim_in::<AXES>(settings).corners()
}

/// The number of children of a cell, which is known when the walk is compiled.
#[inline(always)]
pub(crate) fn parts_in<const AXES: u8>(settings: &TourSettings) -> u8
    requires { settings.now.dim ≡ AXES }
    ensures value { result ≡ 3 ^ settings.now.dim }
    ensures range { IsDim settings.now.dim }
{
    dim_in::<AXES>(settings).parts()
}
