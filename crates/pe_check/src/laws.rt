ghost use Rattle.pe_check.specs.Wider.{FitsWiden};

/// A body that fits an event fits every event of the same sort that has no fewer numbers: in the same
/// dimension, and in any dimension where the event has no place.
///
/// So a body that was checked for the names of a scenario may run where eight numbers of each kind are lent.
pub fn fits_widen()
    ensures { FitsWiden }
{}
