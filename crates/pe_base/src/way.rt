ghost use Rattle.std.specs.Prelude.{◌≡◌};
ghost use Rattle.pe_base.specs.Tree.Ways.{way_of};

/// The direction of a traversal along the curve.
#[derive(Clone, Copy, Debug, PartialEq, Eq)]
pub enum Way {
    /// Along the curve.
    Forward,
    /// Against the curve: the same cells in reversed order.
    Inverted,
}

impl Way {
    /// The way of a traversal, by its number: odd numbers go forward, even ones inverted.
    pub fn of(traversal: u64) -> Way
        ensures { result ≡ way_of traversal }
    {
        if traversal % 2 == 1 {
            Way::Forward
        } else {
            Way::Inverted
        }
    }
}
