ghost use Rattle.std.specs.Prelude.{◌≡◌, ◌<◌, slice_get, slice_set, Some};
ghost use Rattle.pe_base.specs.Acts.Payloads.{zeros};

/// The payload of a vertex, of a cell, or of the whole grid: eight signed numbers.
#[derive(Clone, Copy, Debug, PartialEq, Eq)]
pub struct Fields {
    /// The numbers, of which a scenario names the first few.
    pub a: [i64; 8],
}

impl Fields {
    /// Eight zeros.
    pub fn zero() -> Fields
        ensures { result.a ≡ zeros }
    {
        Fields { a: [0; 8] }
    }

    /// The number at an index below 8.
    pub fn get(&self, i: u8) -> i64
        requires { i < 8 }
        ensures { slice_get self.now.a i ≡ Some result }
    {
        self.a[i as usize]
    }

    /// Sets the number at an index below 8.
    pub fn set(&mut self, i: u8, x: i64)
        requires { i < 8 }
        ensures { self.new.a ≡ slice_set self.old.a i x }
    {
        self.a[i as usize] = x;
    }
}
