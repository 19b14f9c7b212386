ghost use Rattle.std.specs.Prelude.{◌≡◌};
ghost use Rattle.pe_check.specs.Answers.{fault_at};

use std::alloc::{AllocError, AllocFailed};

/// Why a body is refused: the cause, and the offset of the first word of the first name that is refused.
#[derive(Clone, Copy, Debug, PartialEq, Eq)]
pub enum CheckFault {
    /// The name speaks of nothing.
    UnknownName { at: u64 },
    /// What the name speaks of is not seen by this event.
    NotHere { at: u64 },
    /// A cell has no corner of this number.
    Corner { at: u64 },
    /// The name is assigned and may not be.
    ReadOnly { at: u64 },
    /// There was no memory.
    Memory,
}

impl From<AllocError> for CheckFault {
    ghost use Rattle.std.specs.Prelude.{◌≡◌};
    ghost use Rattle.pe_check.specs.declared.cause.CheckFault.TheVariants.{Memory};

    ghost from_gives = { λ _ fault. fault ≡ Memory };

    fn from(_error: AllocError) -> CheckFault {
        CheckFault::Memory
    }
}

impl<T: Drop> From<AllocFailed<T>> for CheckFault {
    ghost use Rattle.std.specs.Prelude.{◌≡◌};
    ghost use Rattle.pe_check.specs.declared.cause.CheckFault.TheVariants.{Memory};

    ghost from_gives = { λ _ fault. fault ≡ Memory };

    fn from(_failed: AllocFailed<T>) -> CheckFault {
        CheckFault::Memory
    }
}

/// Why a name is refused.
#[derive(Clone, Copy, Debug, PartialEq, Eq)]
pub enum Cause {
    UnknownName,
    NotHere,
    Corner,
    ReadOnly,
}

impl Cause {
    /// The fault of a name at an offset.
    pub(crate) fn at(self, at: u64) -> CheckFault
        ensures { result ≡ fault_at self at }
    {
        match self {
            Cause::UnknownName => CheckFault::UnknownName { at },
            Cause::NotHere => CheckFault::NotHere { at },
            Cause::Corner => CheckFault::Corner { at },
            Cause::ReadOnly => CheckFault::ReadOnly { at },
        }
    }
}
