ghost use Rattle.std.specs.Prelude.{◌≡◌};
ghost use Rattle.pe_base.specs.Life.Numbers.{state_number};

/// The state of a vertex, which says whether the cells around it are refined.
///
/// The order is that of the states' numbers, 0 to 5, in the event language and in saved streams.
#[derive(Clone, Copy, Debug, PartialEq, Eq)]
pub enum State {
    /// The cells around it are not refined on its account.
    Unrefined,
    /// It is to refine from the next traversal on.
    RefinementTriggered,
    /// It refines in this traversal.
    Refining,
    /// The cells around it are refined.
    Refined,
    /// It is to erase from the next traversal on.
    EraseTriggered,
    /// It erases in this traversal.
    Erasing,
}

impl State {
    /// The number of the state, 0 to 5.
    pub fn number(self) -> u8
        ensures { result ≡ state_number self }
    {
        self as u8
    }
}
