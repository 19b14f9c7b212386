use pe_access::{CellState, Row};
use pe_base::Place;
use pe_states::Ages;

/// What is known of the cell that is walked, beside its records.
#[derive(Clone, Copy, Debug, PartialEq, Eq)]
pub struct WalkedCell {
    /// Its place.
    pub place: Place,
    /// Its state, which tells the routes of its corners.
    pub state: CellState,
    /// The routes of the row of children that it is in.
    pub row: Row,
    /// The ages that give the kinds of its corners.
    pub ages: Ages,
}
