//! One corner of a cell, loaded or stored.
#![tactic(auto)]

mod corner;
mod counted;
mod fire;
mod kinds;
mod load;
mod progress;
mod settings;
mod slot;
mod spot;
mod stop;
mod store;
mod tallies;
mod walked;

pub use corner::{load_corner, store_corner};
pub use kinds::{ages_of, corner_ages};
pub use progress::Progress;
pub use settings::{Settings, corners_in, dim_in, settings_at};
pub use slot::{load_in_slot, store_in_slot};
pub use spot::{Spot, corner_place};
pub use stop::{Inner, WalkStop};
pub use store::put_down;
pub use walked::WalkedCell;
