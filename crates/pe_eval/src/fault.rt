ghost use Rattle.std.specs.Prelude.{◌≡◌};
ghost use Rattle.pe_eval.specs.Stops.{stop_of};

use pe_base::Stop;

/// Why an expression has no value.
#[derive(Clone, Copy, Debug, PartialEq, Eq)]
pub enum Fault {
    /// A result is out of range.
    Overflow,
    /// A divisor is zero.
    Division,
}

impl Fault {
    /// The fault as a run gives it.
    pub fn stop(self) -> Stop
        ensures { result ≡ stop_of self }
    {
        match self {
            Fault::Overflow => Stop::Overflow,
            Fault::Division => Stop::Division,
        }
    }
}
