ghost use Rattle.std.specs.Prelude.{◌≡◌, ◌≢◌, ◌+◌, ◌*◌, ◌-◌, ◌^◌, ◌<◌, ◌≤◌, OnOk, length};
ghost use Rattle.pe_stacks.specs.Holdings.{stack_count, len_at, CountsWithin, RaisesCounts};

use pe_stacks::Depot;
use std::alloc::AllocError;

/// A record of ten words.
pub type Words = [u64; 10];

/// Lends records and pushes them on a stack.
pub fn load<D: Depot<Words>>(depot: &mut D, s: u8, records: &[Words]) -> Result<(), AllocError>
    requires stack { s < stack_count (D.holds depot.old) }
    requires counts { CountsWithin (D.holds depot.old) (2 ^ 62) }
    requires few { length records.now ≤ 2 ^ 60 }
    ensures stacks { stack_count (D.holds depot.new) ≡ stack_count (D.holds depot.old) }
    ensures counts { RaisesCounts (D.holds depot.old) (D.holds depot.new) (2 * length records.now) }
    ensures ok { OnOk result (len_at (D.holds depot.new) s ≡ len_at (D.holds depot.old) s + length records.now) }
{
    for words in records {
        let r = depot.lend(*words);
        match depot.push(s, r) {
            Ok(()) => {}
            Err(r) => {
                depot.give_up(r);
                return Err(AllocError);
            }
        }
    }
    Ok(())
}

/// Moves records from the top of a stack to the top of another one.
pub fn transfer<D: Depot<Words>>(
    depot: &mut D,
    from: u8,
    to: u8,
    count: u64,
) -> Result<(), AllocError>
    requires from { from < stack_count (D.holds depot.old) }
    requires to { to < stack_count (D.holds depot.old) }
    requires apart { from ≢ to }
    requires counts { CountsWithin (D.holds depot.old) (2 ^ 62) }
    requires few { count ≤ 2 ^ 60 }
    requires full { count ≤ len_at (D.holds depot.old) from }
    ensures stacks { stack_count (D.holds depot.new) ≡ stack_count (D.holds depot.old) }
    ensures counts { RaisesCounts (D.holds depot.old) (D.holds depot.new) (2 * count) }
    ensures ok { OnOk result (len_at (D.holds depot.new) to ≡ len_at (D.holds depot.old) to + count) }
{
    for _done in 0..count {
        let r = depot.pop(from);
        match depot.push(to, r) {
            Ok(()) => {}
            Err(r) => {
                depot.give_up(r);
                return Err(AllocError);
            }
        }
    }
    Ok(())
}

/// Pops records from a stack and gives them up. Returns a word made of all of them.
pub fn unload<D: Depot<Words>>(depot: &mut D, s: u8, count: u64) -> u64
    requires stack { s < stack_count (D.holds depot.old) }
    requires counts { CountsWithin (D.holds depot.old) (2 ^ 62) }
    requires few { count ≤ 2 ^ 60 }
    requires full { count ≤ len_at (D.holds depot.old) s }
    ensures stacks { stack_count (D.holds depot.new) ≡ stack_count (D.holds depot.old) }
    ensures counts { RaisesCounts (D.holds depot.old) (D.holds depot.new) (2 * count) }
    ensures left { len_at (D.holds depot.new) s + count ≡ len_at (D.holds depot.old) s }
{
    let mut all = 0;
    for _done in 0..count {
        let r = depot.pop(s);
        all ^= r[0];
        depot.give_up(r);
    }
    all
}
