//! What a stage gets from the shelf.
ghost use Rattle.std.specs.Prelude.{◌≡◌, ◌+◌, ◌≤◌, IfOk, IfErr};
ghost use Rattle.std.specs.Option.{option_map};
ghost use Rattle.pe_run.specs.Stages.{IsGiven, GivesNone};

use crate::refusal::{Refusal, Stage};
use pe_io::{Got, Shelf};

/// The bytes under a name, or `None` where there are more than `limit`. The shelf is called once.
pub fn get<H: Shelf>(
    shelf: &mut H,
    stage: Stage,
    name: &str,
    limit: u64,
) -> Result<Option<Vec<u8>>, Refusal>
    ensures given { IfOk result (λ given. IsGiven (H.contents shelf.old) name.now limit (option_map (λ bytes. bytes.items) given)) }
    ensures none { IfErr result (GivesNone (H.contents shelf.old) stage name.now (H.faults shelf.old) (H.faults shelf.new) (H.last_failed shelf.new)) }
    ensures contents { H.contents shelf.new ≡ H.contents shelf.old }
    ensures faults { H.faults shelf.old ≤ H.faults shelf.new }
    ensures calls { H.calls shelf.new ≤ H.calls shelf.old + 1 }
{
    match shelf.get(name, limit) {
        Got::Whole(bytes) => Ok(Some(bytes)),
        Got::Longer => Ok(None),
        Got::Absent | Got::Failed => Err(Refusal::NoShelf(stage)),
        Got::Memory => Err(Refusal::Memory),
    }
}
