ghost use Rattle.std.specs.Prelude.{◌≡◌, ◌^◌, ◌<◌, ◌≤◌, OnOk, OnErr, IfErr};
ghost use Rattle.pe_base.specs.Walk.Touches.{tally_cell};
ghost use Rattle.pe_adapt.specs.declared.stop.Inner.TheVariants.{CellLimit as ByLimit};

use pe_adapt::{Inner, Progress, Settings};
use pe_base::Place;

/// Counts a cell. One more than may be walked halts the walk.
pub(crate) fn count_cell(
    settings: &Settings,
    at: &Place,
    progress: &mut Progress,
) -> Result<(), Inner>
    requires { progress.old.tally.cells < 2 ^ 63 }
    ensures tally { progress.new.tally ≡ tally_cell at.now progress.old.tally }
    ensures within { OnOk result (progress.new.tally.cells ≤ settings.now.setup.max_cells) }
    ensures past { OnErr result (settings.now.setup.max_cells < progress.new.tally.cells) }
    ensures halt { IfErr result (λ halt. halt ≡ ByLimit) }
    ensures place { OnErr result (progress.new.at ≡ at.now) }
{
    progress.tally.cells += 1;
    progress.tally.deepest = progress.tally.deepest.max(at.level);
    if progress.tally.cells > settings.setup.max_cells {
        progress.at = *at;
        return Err(Inner::CellLimit);
    }
    Ok(())
}
