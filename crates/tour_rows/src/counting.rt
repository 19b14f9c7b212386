ghost use Rattle.std.specs.Prelude.{◌≡◌};
ghost use Rattle.tour_rows.specs.Counting.{noted, one_more, passed};

use pe_base::Place;
use pe_states::Ages;
use pe_tour::{CellAt, Tour, TourSettings};

/// A tour of a regular grid, which counts the cells and the corners that are loaded and stored.
#[derive(Clone, Copy, Debug, PartialEq, Eq)]
pub struct Counting {
    /// What the tour goes by.
    pub settings: TourSettings,
    /// The number of cells.
    pub cells: u64,
    /// The number of corners that are loaded.
    pub loads: u64,
    /// The number of corners that are stored.
    pub stores: u64,
    /// A number by the places of all cells, in the order in which they are counted.
    pub trail: u64,
}

/// Why the tour fails: it never does. No value is of this type.
pub enum Never {}

// Four more, one after another, up to the greatest number.
fn four_more(number: u64) -> u64
    ensures { result ≡ one_more (one_more (one_more (one_more number))) }
{
    number
        .saturating_add(1)
        .saturating_add(1)
        .saturating_add(1)
        .saturating_add(1)
}

// A trail that a number is added to.
fn noted(trail: u64, number: u64) -> u64
    ensures { result ≡ noted trail number }
{
    trail.wrapping_mul(31).wrapping_add(number)
}

/// A trail that a place is added to.
pub fn passed(trail: u64, place: &Place) -> u64
    ensures { result ≡ passed trail place.now }
{
    let [x, y, z, w] = place.pos;
    noted(noted(noted(noted(trail, x), y), z), w)
}

impl Tour for Counting {
    type Hand = ();

    type Record = u8;

    type Stop = Never;

    ghost use Rattle.tour_rows.specs.Counting.{counting, counting_lawful};

    ghost walk = { counting };

    fn settings(&self) -> TourSettings {
        self.settings
    }

    fn empty(&self) {}

    fn close(&self, _hand: ()) {}

    fn count(&mut self, at: &CellAt, _own: &(), _above: &(), _parent: &u8) -> Result<(), Never> {
        self.cells = self.cells.saturating_add(1);
        self.trail = passed(self.trail, &at.place);
        Ok(())
    }

    fn load_four(
        &mut self,
        _at: &CellAt,
        _k: u8,
        _own: &mut (),
        _above: &mut (),
        _parent: &mut u8,
    ) -> Result<(), Never> {
        self.loads = four_more(self.loads);
        Ok(())
    }

    fn make(&mut self, _at: &CellAt, _own: &(), _above: &(), parent: &u8) -> Result<u8, Never> {
        Ok(parent.saturating_sub(1))
    }

    fn fetch(&mut self, _at: &CellAt, _own: &(), _above: &(), parent: &u8) -> u8 {
        parent.saturating_sub(1)
    }

    fn enter(
        &mut self,
        _at: &CellAt,
        _own: &mut (),
        _its: &mut u8,
        _above: &mut (),
        _parent: &mut u8,
    ) -> Result<(), Never> {
        Ok(())
    }

    fn below(&self, _own: &(), its: &u8) -> Option<Ages> {
        if *its > 0 {
            Some(Ages::new(0xffff, 0xffff))
        } else {
            None
        }
    }

    fn leave(
        &mut self,
        _at: &CellAt,
        _own: &mut (),
        _its: &mut u8,
        _above: &mut (),
        _parent: &mut u8,
    ) -> Result<(), Never> {
        Ok(())
    }

    fn put(
        &mut self,
        _at: &CellAt,
        _its: u8,
        _own: &(),
        _above: &(),
        _parent: &u8,
    ) -> Result<(), Never> {
        Ok(())
    }

    fn store_four(
        &mut self,
        _at: &CellAt,
        _k: u8,
        _own: &mut (),
        _above: &mut (),
        _parent: &mut u8,
    ) -> Result<(), Never> {
        self.stores = four_more(self.stores);
        Ok(())
    }

    fn forget(&mut self, _its: u8) {}

    fn give_up(&mut self, _own: &mut ()) {}

    ghost lawful = { counting_lawful };
}
