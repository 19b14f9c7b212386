//! Jobs, and why words name none.
ghost use Rattle.std.specs.Prelude.{◌≡◌};
ghost use Rattle.clap.specs.Words.{kind_of};
ghost use Rattle.pe_words.specs.Words.{refusal};
ghost use Rattle.pe_words.specs.declared.job.WordsFault.TheVariants.{Memory};

use clap::Error;
use clap::error::ErrorKind;
use pe_base::Text;
use std::alloc::AllocError;

/// What the words ask for.
#[derive(Debug, Drop)]
pub enum Job {
    /// The grid of a scenario is walked.
    Run {
        /// The scenario's name. It is not empty, and does not begin with a hyphen.
        scenario: Text,
    },
}

/// Why words give no job.
#[derive(Clone, Copy, Debug, PartialEq, Eq)]
pub enum WordsFault {
    /// They name none.
    NoJob,
    /// Want of memory.
    Memory,
}

impl From<AllocError> for WordsFault {
    ghost from_gives = { λ _ fault. fault ≡ Memory };

    fn from(_: AllocError) -> WordsFault {
        WordsFault::Memory
    }
}

impl From<Error> for WordsFault {
    ghost from_gives = { λ error fault. fault ≡ refusal (kind_of error) };

    fn from(error: Error) -> WordsFault {
        match error.kind() {
            ErrorKind::OutOfMemory => WordsFault::Memory,
            _ => WordsFault::NoJob,
        }
    }
}
