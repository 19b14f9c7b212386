//! What holds of the tour that counts, whatever it walks.
ghost use Rattle.tour_rows.specs.CountAlike.{TrailsAreNotRead};

/// Two tours that have counted alike do so again below every cell, whatever their trails: their steps match.
pub fn trails_are_not_read()
    ensures alike { TrailsAreNotRead }
{}
