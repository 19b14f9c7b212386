ghost use Rattle.std.specs.Prelude.{◌≡◌, ℕ, ◌+◌, ◌-◌, ◌^◌, ◌<◌, ◌≤◌, IfErr, is_ok, slice_index, if◌then◌else◌};
ghost use Rattle.pe_stacks.specs.Holdings.{stack_count, stack_at, len_at, pushed};

use pe_stacks::Depot;
use std::alloc::AllocError;
use std::marker::PhantomData;

/// A depot over another one's stacks, of which only so many pushes may ever ask for memory.
///
/// A stack has room only up to the greatest length that it has had, its peak, and `clear` keeps the peaks.
/// Each push that makes a stack longer than its peak asks for memory and uses up a grant, and is refused
/// where none is left. So a push may be refused wherever any depot may refuse one. `reserve` uses up no
/// grant: it asks the depot beneath, and raises the peak.
#[derive(Drop)]
pub struct Scarce<R, D: Depot<R>> {
    depot: D,
    peaks: [u64; 256],
    grants: u64,
    of: PhantomData<R>,
    ghost longest: { (s : ℕ) → len_at (D.holds depot) s ≤ slice_index peaks s },
    ghost roomy: { (s : ℕ) → slice_index peaks s ≤ len_at (D.holds depot) s + D.room depot s },
}

impl<R, D: Depot<R>> Scarce<R, D> {
    /// A depot whose stacks have no room yet, and are granted memory that often, together.
    pub fn new(depot: D, grants: u64) -> Scarce<R, D>
        ensures depot { result.depot ≡ depot }
        ensures peaks { (s : ℕ) → slice_index result.peaks s ≡ len_at (D.holds depot) s }
        ensures grants { result.grants ≡ grants }
    {
        let mut peaks = [0; 256];
        for s in 0..depot.stacks() {
            peaks[s as usize] = depot.len(s);
        }
        Scarce {
            depot,
            peaks,
            grants,
            of: PhantomData,
        }
    }

    /// How often memory will still be granted.
    pub fn grants(&self) -> u64
        ensures { result ≡ self.now.grants }
    {
        self.grants
    }

    // Puts a record that is out on top of a stack that is at its peak. It uses up a grant, and is refused
    // where none is left.
    fn push_granted(&mut self, s: u8, r: R) -> Result<(), R>
        requires stack { s < stack_count (D.holds self.old.depot) }
        requires out { 0 < (D.holds self.old.depot).out }
        requires count { (stack_at (D.holds self.old.depot) s).pushes < 2 ^ 63 }
        requires longest { slice_index self.old.peaks s ≡ len_at (D.holds self.old.depot) s }
        ensures handed { IfErr result (λ back. back ≡ r) }
        ensures holds { D.holds self.new.depot ≡ (if is_ok result then pushed (D.holds self.old.depot) s r else D.holds self.old.depot) }
        ensures peaks { (t : ℕ) → slice_index self.old.peaks t ≤ slice_index self.new.peaks t }
        ensures grants { self.old.grants ≡ self.new.grants + (if is_ok result then 1 else 0) }
    {
        if self.grants == 0 {
            return Err(r);
        }
        match self.depot.push(s, r) {
            Ok(()) => {
                self.grants -= 1;
                self.peaks[s as usize] = self.depot.len(s);
                Ok(())
            }
            Err(back) => Err(back),
        }
    }
}

impl<R, D: Depot<R>> Depot<R> for Scarce<R, D> {
    ghost holds = { λ it. D.holds it.depot };

    ghost room = { λ it s. slice_index it.peaks s - len_at (D.holds it.depot) s };

    ghost balance = { λ it. D.balance it.depot };

    ghost peak = { λ it. D.peak it.depot };

    fn stacks(&self) -> u8 {
        self.depot.stacks()
    }

    fn len(&self, s: u8) -> u64 {
        self.depot.len(s)
    }

    fn spare(&self, s: u8) -> u64 {
        self.peaks[s as usize] - self.depot.len(s)
    }

    fn pushes(&self, s: u8) -> u64 {
        self.depot.pushes(s)
    }

    fn pops(&self, s: u8) -> u64 {
        self.depot.pops(s)
    }

    fn fresh(&self) -> u64 {
        self.depot.fresh()
    }

    fn spent(&self) -> u64 {
        self.depot.spent()
    }

    fn out(&self) -> u64 {
        self.depot.out()
    }

    fn most(&self) -> u64 {
        self.depot.most()
    }

    fn lend(&mut self, r: R) -> R {
        self.depot.lend(r)
    }

    fn give_up(&mut self, r: R) {
        self.depot.give_up(r)
    }

    fn push(&mut self, s: u8, r: R) -> Result<(), R> {
        if self.spare(s) > 0 {
            self.push_spare(s, r);
            return Ok(());
        }
        self.push_granted(s, r)
    }

    fn push_spare(&mut self, s: u8, r: R) {
        self.depot.push_spare(s, r)
    }

    fn pop(&mut self, s: u8) -> R {
        self.depot.pop(s)
    }

    fn reserve(&mut self, s: u8, n: u64) -> Result<(), AllocError> {
        let peak = self.peaks[s as usize];
        let Some(longest) = self.depot.len(s).checked_add(n) else {
            return Err(AllocError);
        };
        self.depot.reserve(s, n)?;
        self.peaks[s as usize] = peak.max(longest);
        Ok(())
    }

    // The peaks stay.
    fn clear(&mut self) {
        self.depot.clear()
    }
}
