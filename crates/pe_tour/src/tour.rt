ghost use Rattle.std.specs.Prelude.{◌≡◌, ℕ, ◌≤◌, ◌^◌, false, true, is_some, Ok, IfSome};
ghost use Rattle.pe_base.specs.declared.kind.Kind.TheVariants.{Born};
ghost use Rattle.pe_tour.specs.Sights.{Between, Amid, Open, loading, storing, failed, between_of, amid_of, open_of};
ghost use Rattle.pe_tour.specs.Walker.{Walker, IsLawful};
ghost use Rattle.pe_tour.specs.Moves.{plan_of, settings_of, MayWalk, MayTouch, MayMove, Counts, TouchesOn, Moves, Comes, GoesOff, GivesUp, four_on, loads_of, stores_from};

use crate::{CellAt, TourSettings};
use pe_states::Ages;

/// A walk over the cells of a grid: what is done where a cell is counted, its corners are loaded and stored, and it is entered and left.
///
/// A `Hand` has the corners of a cell, a `Record` is a cell's own. The cell that is walked has both, and so has the cell
/// above it, its parent.
///
/// Each call makes the moves of one of the walk's steps, or fails, and then the whole walk fails. What the walk owes besides,
/// as what is out and what may still be counted, it says itself, and the laws say how these hang together.
pub trait Tour {
    /// The corners of a cell.
    type Hand;

    /// The record of a cell.
    type Record;

    /// Why a call fails.
    type Stop;

    /// The walk as its calls see it.
    ghost walk: { Walker Self Self.Hand Self.Record Self.Stop };

    /// What the walk goes by.
    fn settings(&self) -> TourSettings
        ensures { result ≡ settings_of walk self.now };

    /// No corners.
    fn empty(&self) -> Self::Hand
        ensures { walk.IsEmpty (plan_of walk self.now) result };

    /// Ends what has no corners.
    fn close(&self, hand: Self::Hand)
        requires { walk.IsEmpty (plan_of walk self.now) hand };

    /// Counts a cell.
    fn count(
        &mut self,
        at: &CellAt,
        own: &Self::Hand,
        above: &Self::Hand,
        parent: &Self::Record,
    ) -> Result<(), Self::Stop>
        requires may { MayWalk walk at.now (λ plan. (walk.steps plan).count at.now.place) (between_of self.old above.now parent.now) }
        requires empty { walk.IsEmpty (plan_of walk self.old) own.now }
        ensures { Counts walk (λ plan. (walk.steps plan).count at.now.place) result
            (between_of self.old above.now parent.now) (amid_of self.new own.now above.now parent.now) };

    /// Loads four corners, from `k + 3` down to `k`. All behind them are loaded, and none before them is.
    fn load_four(
        &mut self,
        at: &CellAt,
        k: u8,
        own: &mut Self::Hand,
        above: &mut Self::Hand,
        parent: &mut Self::Record,
    ) -> Result<(), Self::Stop>
        requires may { MayTouch walk at.now (loading (four_on k)) (loads_of walk at.now.place (four_on k)) (amid_of self.old own.old above.old parent.old) }
        requires corners { four_on k ≤ 2 ^ (settings_of walk self.old).dim }
        ensures { TouchesOn walk (loads_of walk at.now.place (four_on k)) (loads_of walk at.now.place k) (loading (four_on k)) (loading k) result
            (amid_of self.old own.old above.old parent.old) (amid_of self.new own.new above.new parent.new) };

    /// Makes the record of a cell that is born. All its corners are loaded.
    fn make(
        &mut self,
        at: &CellAt,
        own: &Self::Hand,
        above: &Self::Hand,
        parent: &Self::Record,
    ) -> Result<Self::Record, Self::Stop>
        requires may { MayTouch walk at.now (loading 0) (λ plan. (walk.steps plan).comes at.now.place) (amid_of self.old own.now above.now parent.now) }
        requires born { at.now.kind ≡ Born }
        ensures { Comes walk (λ plan. (walk.steps plan).comes at.now.place) result (amid_of self.old own.now above.now parent.now) self.new };

    /// Fetches the record of a cell that there is. All its corners are loaded.
    fn fetch(
        &mut self,
        at: &CellAt,
        own: &Self::Hand,
        above: &Self::Hand,
        parent: &Self::Record,
    ) -> Self::Record
        requires may { MayTouch walk at.now (loading 0) (λ plan. (walk.steps plan).comes at.now.place) (amid_of self.old own.now above.now parent.now) }
        requires there { at.now.kind ≡ Born → ⊥ }
        ensures { Comes walk (λ plan. (walk.steps plan).comes at.now.place) (Ok result) (amid_of self.old own.now above.now parent.now) self.new };

    /// Enters a cell.
    fn enter(
        &mut self,
        at: &CellAt,
        own: &mut Self::Hand,
        its: &mut Self::Record,
        above: &mut Self::Hand,
        parent: &mut Self::Record,
    ) -> Result<(), Self::Stop>
        requires may { MayMove walk at.now (λ plan. (walk.steps plan).enter at.now.place) (open_of self.old own.old its.old above.old parent.old) }
        ensures { Moves walk (λ plan. (walk.steps plan).enter at.now.place) result
            (open_of self.old own.old its.old above.old parent.old) (open_of self.new own.new its.new above.new parent.new) };

    /// Whether the children of a cell are walked: if so, by the ages of its corners.
    fn below(&self, own: &Self::Hand, its: &Self::Record) -> Option<Ages>
        requires entered { (from : Between Self Self.Hand Self.Record) × (above : Self.Hand) × (parent : Self.Record) × walk.Entered false from (open_of self.now own.now its.now above parent) }
        ensures goes_on { (above : Self.Hand) (parent : Self.Record) → (walk.steps (plan_of walk self.now)).goes_on (walk.opened (open_of self.now own.now its.now above parent)) ≡ is_some result }
        ensures aged { IfSome result (walk.AreAges (between_of self.now own.now its.now)) };

    /// Leaves a cell.
    fn leave(
        &mut self,
        at: &CellAt,
        own: &mut Self::Hand,
        its: &mut Self::Record,
        above: &mut Self::Hand,
        parent: &mut Self::Record,
    ) -> Result<(), Self::Stop>
        requires may { MayMove walk at.now (λ plan. (walk.steps plan).leave at.now.place) (open_of self.old own.old its.old above.old parent.old) }
        ensures { Moves walk (λ plan. (walk.steps plan).leave at.now.place) result
            (open_of self.old own.old its.old above.old parent.old) (open_of self.new own.new its.new above.new parent.new) };

    /// Puts the record of a cell that was left where it goes. On an error it is given up.
    fn put(
        &mut self,
        at: &CellAt,
        its: Self::Record,
        own: &Self::Hand,
        above: &Self::Hand,
        parent: &Self::Record,
    ) -> Result<(), Self::Stop>
        requires may { MayMove walk at.now (λ plan. (walk.steps plan).goes at.now.place) (open_of self.old own.now its above.now parent.now) }
        ensures { GoesOff walk (λ plan. (walk.steps plan).goes at.now.place) result (open_of self.old own.now its above.now parent.now) self.new };

    /// Stores four corners, from `k` up to `k + 3`. All before them are stored, and none behind them is.
    fn store_four(
        &mut self,
        at: &CellAt,
        k: u8,
        own: &mut Self::Hand,
        above: &mut Self::Hand,
        parent: &mut Self::Record,
    ) -> Result<(), Self::Stop>
        requires may { MayTouch walk at.now (storing k) (stores_from walk at.now.place k self.old) (amid_of self.old own.old above.old parent.old) }
        requires corners { four_on k ≤ 2 ^ (settings_of walk self.old).dim }
        ensures { TouchesOn walk (stores_from walk at.now.place k self.old) (stores_from walk at.now.place (four_on k) self.new) (storing k) (storing (four_on k)) result
            (amid_of self.old own.old above.old parent.old) (amid_of self.new own.new above.new parent.new) };

    /// Gives up a record, where a call has failed.
    fn forget(&mut self, its: Self::Record)
        requires entered { (from : Between Self Self.Hand Self.Record) × (own : Self.Hand) × (above : Self.Hand) × (parent : Self.Record) × walk.Entered true from (open_of self.old own its above parent) }
        ensures gives_up { GivesUp walk self.old self.new }
        ensures within { (from : Between Self Self.Hand Self.Record) (own above : Self.Hand) (parent : Self.Record)
            → walk.Entered true from (open_of self.old own its above parent) → walk.Within failed from (amid_of self.new own above parent) };

    /// Gives up the corners that are in hand, where a call has failed.
    fn give_up(&mut self, own: &mut Self::Hand)
        requires within { (from : Between Self Self.Hand Self.Record) × (above : Self.Hand) × (parent : Self.Record) × walk.Within failed from (amid_of self.old own.old above parent) }
        ensures gives_up { GivesUp walk self.old self.new }
        ensures ready { (from : Between Self Self.Hand Self.Record) (above : Self.Hand) (parent : Self.Record)
            → walk.Within failed from (amid_of self.old own.old above parent) → walk.Ready true from (between_of self.new above parent) }
        ensures empty { walk.IsEmpty (plan_of walk self.new) own.new };

    /// What the walk owes hangs together.
    ghost lawful: { IsLawful walk };
}
