/// Why an event stopped the run.
#[derive(Clone, Copy, Debug, PartialEq, Eq)]
pub enum Stop {
    /// A result was out of range.
    Overflow,
    /// A divisor was zero.
    Division,
    /// The sink took less than it was given.
    Sink,
    /// There was no memory.
    Memory,
}
