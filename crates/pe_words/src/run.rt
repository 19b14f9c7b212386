//! The words of the job `run`.
ghost use Rattle.std.specs.Prelude.{◌≡◌, IfOk, map, string_bytes};
ghost use Rattle.clap.specs.Words.{app_of, found_of, rows_of};
ghost use Rattle.pe_words.specs.Words.{IsRead, run_app, run_in, run_of};

use crate::job::{Job, WordsFault};
use crate::name::name_in;
use clap::{Arg, ArgMatches, Command};
use std::alloc::{AllocError, Global};

/// The job that the words after `run` name.
pub(crate) fn read_run(alloc: Global, words: &[String]) -> Result<Job, WordsFault>
    ensures read { IsRead (run_of (map string_bytes words.now)) result }
{
    let matches = command(alloc)?.try_get_matches_from(words)?;
    run_in(alloc, &matches)
}

// The command of the words after `run`.
fn command<'a>(alloc: Global) -> Result<Command<'a>, AllocError>
    ensures { IfOk result (λ command. app_of command ≡ run_app) }
{
    let scenario = Arg::new(alloc, "scenario").required(true);
    Command::new(alloc, "run")
        .no_binary_name(true)
        .disable_help_flag(true)
        .disable_version_flag(true)
        .arg(scenario)
}

// The job that the command's matches name.
fn run_in(alloc: Global, matches: &ArgMatches<'_>) -> Result<Job, WordsFault>
    ensures read { IsRead (run_in (rows_of (found_of matches.now))) result }
{
    let scenario = name_in(alloc, matches, "scenario")?;
    Ok(Job::Run { scenario })
}
