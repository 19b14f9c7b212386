ghost use Rattle.std.specs.Prelude.{◌≡◌};
ghost use Rattle.pe_base.specs.Life.Numbers.{kind_number};

/// What a vertex or a cell is to one traversal.
///
/// The order is that of the kinds' numbers, 0 to 3, in the event language.
#[derive(Clone, Copy, Debug, PartialEq, Eq)]
pub enum Kind {
    /// Stored before the traversal and after it.
    Kept,
    /// Stored after the traversal only.
    Born,
    /// Stored before the traversal only.
    Dying,
    /// Stored neither before nor after: made anew for each cell that touches it.
    Hanging,
}

impl Kind {
    /// The number of the kind, 0 to 3.
    pub fn number(self) -> u8
        ensures { result ≡ kind_number self }
    {
        self as u8
    }
}
