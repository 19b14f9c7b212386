//! What the functions of the program share.
use pe_base::{Dim, Way};
use std::alloc::Global;

/// The memory, the dimension of the grid and the way of the walk.
#[derive(Drop)]
pub(super) struct Setting {
    pub(super) alloc: Global,
    pub(super) dim: Dim,
    pub(super) way: Way,
}
