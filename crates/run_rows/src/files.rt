//! A toy job that reads two files, each of at most four bytes.
ghost use Rattle.std.specs.Prelude.{◌≡◌, ◌≤◌, Some, None, IfOk, IfErr};
ghost use Rattle.std.specs.Option.{option_map};
ghost use Rattle.pe_run.specs.declared.refusal.Stage.TheVariants.{Scenario};
ghost use Rattle.pe_run.specs.Stages.{IsGiven, GivesNone, Gives, Refuses};
ghost use Rattle.run_rows.specs.Files.{two_files, refusal_of};

use pe_io::{Got, Shelf};

/// Why a file was not read.
#[derive(Clone, Copy, Debug, PartialEq, Eq)]
pub enum Unread {
    /// The shelf gives nothing.
    NotHeld,
    /// The file has more than four bytes.
    TooMany,
    /// Want of memory.
    Memory,
}

/// Reads two files, the second one only where the first one is not refused.
pub fn two_files<H: Shelf>(
    first: &str,
    second: &str,
    shelf: &mut H,
) -> Result<(Vec<u8>, Vec<u8>), Unread>
    ensures given { IfOk result (λ files. Gives (H.contents shelf.old) (H.faults shelf.old) (H.faults shelf.new) (H.last_failed shelf.new)
        (two_files first.now second.now) (files.0.items, files.1.items)) }
    ensures refused { IfErr result (λ unread. Refuses (H.contents shelf.old) (H.faults shelf.old) (H.faults shelf.new) (H.last_failed shelf.new)
        (two_files first.now second.now) (refusal_of unread)) }
{
    let head = few(get(first, shelf)?)?;
    let tail = few(get(second, shelf)?)?;
    Ok((head, tail))
}

// The bytes under a name, or `None` where there are more than four.
fn get<H: Shelf>(name: &str, shelf: &mut H) -> Result<Option<Vec<u8>>, Unread>
    ensures given { IfOk result (λ given. IsGiven (H.contents shelf.old) name.now 4 (option_map (λ bytes. bytes.items) given)) }
    ensures none { IfErr result (λ unread. GivesNone (H.contents shelf.old) Scenario name.now (H.faults shelf.old) (H.faults shelf.new) (H.last_failed shelf.new) (refusal_of unread)) }
    ensures contents { H.contents shelf.new ≡ H.contents shelf.old }
    ensures faults { H.faults shelf.old ≤ H.faults shelf.new }
{
    match shelf.get(name, 4) {
        Got::Whole(bytes) => Ok(Some(bytes)),
        Got::Longer => Ok(None),
        Got::Absent | Got::Failed => Err(Unread::NotHeld),
        Got::Memory => Err(Unread::Memory),
    }
}

// The bytes, unless there were more than four.
fn few(given: Option<Vec<u8>>) -> Result<Vec<u8>, Unread>
    ensures few { IfOk result (λ bytes. given ≡ Some bytes) }
    ensures many { IfErr result (λ unread. (given ≡ None) × (unread ≡ Unread.TooMany)) }
{
    match given {
        Some(bytes) => Ok(bytes),
        None => Err(Unread::TooMany),
    }
}
