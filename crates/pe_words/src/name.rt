//! Names among what a command finds in the words.
ghost use Rattle.std.specs.Prelude.{◌≡◌};
ghost use Rattle.clap.specs.Words.{found_of, rows_of};
ghost use Rattle.pe_words.specs.Words.{IsRead, is_name, name_in, name_of};

use crate::job::WordsFault;
use clap::ArgMatches;
use pe_base::Text;
use std::alloc::Global;

/// The name that was found for an argument which has to have one.
pub(crate) fn name_in(alloc: Global, matches: &ArgMatches<'_>, id: &str) -> Result<Text, WordsFault>
    ensures read { IsRead (name_in id.now (rows_of (found_of matches.now))) result }
{
    match matches.get_str(id) {
        Some(word) => name_of(alloc, word),
        None => Err(WordsFault::NoJob),
    }
}

// A word as a name.
fn name_of(alloc: Global, word: &str) -> Result<Text, WordsFault>
    ensures read { IsRead (name_of word.now) result }
{
    if !is_name(word) {
        return Err(WordsFault::NoJob);
    }
    Ok(Text::new(String::from_str(alloc, word)?))
}

// A name is not empty, and does not begin as an option does.
fn is_name(word: &str) -> bool
    ensures { result ≡ is_name word.now }
{
    match word.as_bytes() {
        [] => false,
        [first, ..] => *first != b'-',
    }
}
