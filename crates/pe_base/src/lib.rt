//! The words of the grid: dimensions, places, the ways of a traversal, events, states and kinds,
//! and the definitions that every contract above is written in.
#![tactic(auto)]

mod boxed;
mod dim;
mod effects;
mod event;
mod fields;
mod kind;
pub mod laws;
pub mod limits;
mod list;
mod order;
mod place;
mod setup;
mod state;
mod stop;
mod tally;
mod text;
mod way;

pub use boxed::Boxed;
pub use dim::Dim;
pub use effects::Effects;
pub use event::{Event, Sort};
pub use fields::Fields;
pub use kind::Kind;
pub use list::List;
pub use order::order_of_places;
pub use place::{Digits, Place};
pub use setup::{Names, Setup};
pub use state::State;
pub use stop::Stop;
pub use tally::Tally;
pub use text::Text;
pub use way::Way;
