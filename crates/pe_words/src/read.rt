//! Reading the words.
ghost use Rattle.std.specs.Prelude.{map, string_bytes};
ghost use Rattle.pe_words.specs.Words.{IsRead, job_of};

use crate::job::{Job, WordsFault};
use crate::run::read_run;
use std::alloc::Global;

/// The job that the words name, which are those after the program's name, or why there is none.
///
/// The first word is the job's. The others are read by the job's own command, as `clap` reads them.
#[tactic(auto, unfolding(crate::specs::Words::job_of))]
pub fn read_words(alloc: Global, words: &[String]) -> Result<Job, WordsFault>
    ensures read { IsRead (job_of (map string_bytes words.now)) result }
{
    match words {
        [] => Err(WordsFault::NoJob),
        [job, rest @ ..] => match job.as_str() {
            "run" => read_run(alloc, rest),
            _ => Err(WordsFault::NoJob),
        },
    }
}
