use pe_base::{Fields, Place};
use pe_stacks::{CellRec, Corners, Vertex};

/// What an event lends to a body: the numbers of the whole grid, and what the event sees.
#[derive(Drop)]
pub enum View<'a> {
    /// At an event of the traversal as a whole.
    Plain {
        /// The number of the traversal, 1 to 1,000,000,000.
        t: u64,
        globals: &'a mut Fields,
    },
    /// At an event of a vertex.
    Vertex {
        t: u64,
        /// The greatest level that a cell may have.
        max_level: u8,
        at: Place,
        globals: &'a mut Fields,
        vertex: &'a mut Vertex<Fields>,
        /// The corners of the parent cell.
        parents: &'a mut Corners<Fields>,
        parent: &'a mut CellRec<Fields>,
    },
    /// At an event of a cell.
    Cell {
        t: u64,
        max_level: u8,
        at: Place,
        globals: &'a mut Fields,
        cell: &'a mut CellRec<Fields>,
        corners: &'a mut Corners<Fields>,
        parents: &'a mut Corners<Fields>,
        parent: &'a mut CellRec<Fields>,
    },
}
