ghost use Rattle.std.specs.Prelude.{◌≡◌, ◌+◌, ◌<◌, false, not};
ghost use Rattle.std.specs.Borrow.{Lends, sem};
ghost use Rattle.pe_stacks.specs.Grid.{input_stack, cell_input_stack};

use crate::CellRec;
use pe_base::Dim;

/// The handle of a grid, whose vertices and cells lie in depots.
///
/// It holds the dimension, the number of finished traversals, which of the two stream stacks is the input,
/// and the root's record. No call takes memory. A grid is ended by `close`.
pub struct Grid<C> {
    dim: Dim,
    finished: u64,
    swapped: bool,
    root: CellRec<C>,
}

impl<C> Grid<C> {
    ghost use Rattle.pe_stacks.specs.contracts.grid.Grid.{the_row};
    ghost use Rattle.pe_stacks.specs.contracts.record.CellRec.{the_row as cell_row};

    /// A grid before its first traversal, with the root's payload. The input stacks are 8 for vertices and 0 for cells.
    pub fn fresh(dim: Dim, root: C) -> Grid<C>
        ensures { result ≡ record {
          dim = dim;
          finished = 0;
          swapped = false;
          root = record { payload = root };
        } }
    {
        Grid::resume(dim, 0, root)
    }

    /// A grid after that many traversals, with the root's payload. The input stacks are 8 for vertices and 0 for cells.
    pub fn resume(dim: Dim, finished: u64, root: C) -> Grid<C>
        ensures { result ≡ record {
          dim = dim;
          finished = finished;
          swapped = false;
          root = record { payload = root };
        } }
    {
        Grid {
            dim,
            finished,
            swapped: false,
            root: CellRec::new(root),
        }
    }

    /// The dimension.
    pub fn dim(&self) -> Dim
        ensures { result ≡ self.now.dim }
    {
        self.dim
    }

    /// The number of finished traversals.
    pub fn finished(&self) -> u64
        ensures { result ≡ self.now.finished }
    {
        self.finished
    }

    /// The vertex stack that is the input of the next traversal: 8 or 9, of which the other is its output.
    pub fn input(&self) -> u8
        ensures { result ≡ input_stack self.now.swapped }
    {
        if self.swapped { 9 } else { 8 }
    }

    /// The cell stack that is the input of the next traversal: 0 or 1, of which the other is its output.
    pub fn cell_input(&self) -> u8
        ensures { result ≡ cell_input_stack self.now.swapped }
    {
        if self.swapped { 1 } else { 0 }
    }

    /// The root's record.
    pub fn root(&self) -> &CellRec<C>
        ensures { result.now ≡ self.now.root }
    {
        &self.root
    }

    /// The root's record, to be changed in place. Nothing else of the grid changes.
    pub fn root_mut(&mut self) -> &mut CellRec<C>
        ensures value { result.now ≡ self.old.root }
        ensures* writes_back { sem 𝓛 (Lends (the_row C.row) (cell_row C.row) self.entry result
            (λ w. record self.old { root = w })) }
    {
        &mut self.root
    }

    /// The grid after one more traversal: its output is now the input, for vertices and for cells.
    pub fn advanced(self) -> Grid<C>
        requires { self.finished < 1000000000 }
        ensures { result ≡ record self { finished = self.finished + 1; swapped = not self.swapped } }
    {
        let Grid {
            dim,
            finished,
            swapped,
            root,
        } = self;
        Grid {
            dim,
            finished: finished + 1,
            swapped: !swapped,
            root,
        }
    }

    /// Ends the grid and hands back the root's record.
    pub fn close(self) -> CellRec<C>
        ensures { result ≡ self.root }
    {
        let Grid {
            dim: _,
            finished: _,
            swapped: _,
            root,
        } = self;
        root
    }
}
