ghost use Rattle.std.specs.Prelude.{◌≡◌, ℕ, ◌+◌, ◌^◌, ◌<◌, ◌≤◌, IfErr, OnOk, IsOk, is_ok, slice_get, Some, if◌then◌else◌};
ghost use Rattle.pe_stacks.specs.Holdings.{Holdings, KeepsRoom, stack_count, stack_at, items_at, len_at, total_len, lent, given_up, pushed, popped, cleared};

use std::alloc::AllocError;

/// Numbered stacks of records.
///
/// A record is out from its `lend` or `pop` until its `push` or `give_up`. A vertex depot has ten stacks:
/// 0 to 7 are the temporary stacks, `2 i + b` for axis i and parity b, and 8 and 9 are the two streams.
/// A cell depot has the two streams alone, 0 and 1. No call changes the number of stacks.
pub trait Depot<R> {
    /// What lies on the stacks, and the counts.
    ghost holds: { Self → Holdings R };

    /// How many records each stack takes before it asks for memory.
    ghost room: { Self → ℕ → ℕ };

    /// The number of stacks.
    fn stacks(&self) -> u8
        ensures { result ≡ stack_count (holds self.now) };

    /// The number of records on a stack.
    fn len(&self, s: u8) -> u64
        requires { s < stack_count (holds self.now) }
        ensures { result ≡ len_at (holds self.now) s };

    /// How many records a stack takes before it asks for memory.
    fn spare(&self, s: u8) -> u64
        requires { s < stack_count (holds self.now) }
        ensures { result ≡ room self.now s };

    /// How often a stack was pushed.
    fn pushes(&self, s: u8) -> u64
        requires { s < stack_count (holds self.now) }
        ensures { result ≡ (stack_at (holds self.now) s).pushes };

    /// How often a stack was popped.
    fn pops(&self, s: u8) -> u64
        requires { s < stack_count (holds self.now) }
        ensures { result ≡ (stack_at (holds self.now) s).pops };

    /// How many records were ever lent.
    fn fresh(&self) -> u64
        ensures { result ≡ (holds self.now).fresh };

    /// How many records were ever given up.
    fn spent(&self) -> u64
        ensures { result ≡ (holds self.now).spent };

    /// How many records are out.
    fn out(&self) -> u64
        ensures { result ≡ (holds self.now).out };

    /// How many records were out at most.
    fn most(&self) -> u64
        ensures { result ≡ (holds self.now).most };

    /// Counts a fresh record as out, and hands it back. Takes no memory.
    fn lend(&mut self, r: R) -> R
        requires count { (holds self.old).fresh < 2 ^ 63 }
        ensures handed { result ≡ r }
        ensures holds { holds self.new ≡ lent (holds self.old) }
        ensures room { KeepsRoom (holds self.old) (room self.old) (holds self.new) (room self.new) };

    /// Consumes a record that is out. Takes no memory.
    fn give_up(&mut self, r: R)
        requires out { 0 < (holds self.old).out }
        ensures holds { holds self.new ≡ given_up (holds self.old) }
        ensures room { KeepsRoom (holds self.old) (room self.old) (holds self.new) (room self.new) };

    /// Puts a record that is out on top of a stack. An `Err` is want of memory, which never comes while
    /// there is spare: it hands the record back, and leaves everything as it was.
    fn push(&mut self, s: u8, r: R) -> Result<(), R>
        requires stack { s < stack_count (holds self.old) }
        requires out { 0 < (holds self.old).out }
        requires count { (stack_at (holds self.old) s).pushes < 2 ^ 63 }
        ensures handed { IfErr result (λ back. back ≡ r) }
        ensures holds { holds self.new ≡ (if is_ok result then pushed (holds self.old) s r else holds self.old) }
        ensures room { KeepsRoom (holds self.old) (room self.old) (holds self.new) (room self.new) }
        ensures memory { 0 < room self.old s → IsOk result };

    /// Puts a record that is out on top of a stack that has room for it. Takes no memory.
    fn push_spare(&mut self, s: u8, r: R)
        requires stack { s < stack_count (holds self.old) }
        requires out { 0 < (holds self.old).out }
        requires count { (stack_at (holds self.old) s).pushes < 2 ^ 63 }
        requires spare { 0 < room self.old s }
        ensures holds { holds self.new ≡ pushed (holds self.old) s r }
        ensures room { KeepsRoom (holds self.old) (room self.old) (holds self.new) (room self.new) };

    /// Takes the record on top of a stack, which is then out. Takes no memory.
    fn pop(&mut self, s: u8) -> R
        requires stack { s < stack_count (holds self.old) }
        requires full { 0 < len_at (holds self.old) s }
        requires count { (stack_at (holds self.old) s).pops < 2 ^ 63 }
        ensures handed { slice_get (items_at (holds self.old) s) 0 ≡ Some result }
        ensures holds { holds self.new ≡ popped (holds self.old) s }
        ensures room { KeepsRoom (holds self.old) (room self.old) (holds self.new) (room self.new) };

    /// Makes room for `n` more records on a stack. An `Err` is want of memory, which never comes while
    /// there is that room. All lists and counts stay, whatever the answer.
    fn reserve(&mut self, s: u8, n: u64) -> Result<(), AllocError>
        requires stack { s < stack_count (holds self.old) }
        ensures holds { holds self.new ≡ holds self.old }
        ensures room { KeepsRoom (holds self.old) (room self.old) (holds self.new) (room self.new) }
        ensures reserved { OnOk result (n ≤ room self.new s) }
        ensures memory { n ≤ room self.old s → IsOk result };

    /// Gives up every record on every stack. Takes no memory.
    fn clear(&mut self)
        ensures holds { holds self.new ≡ cleared (holds self.old) }
        ensures room { KeepsRoom (holds self.old) (room self.old) (holds self.new) (room self.new) };

    /// Every record that was lent was given up, is out or lies on a stack.
    ghost balance: { (depot : Self) → (holds depot).fresh ≡ (holds depot).spent + (holds depot).out + total_len (holds depot).stacks };

    /// No more records are out than were out at most.
    ghost peak: { (depot : Self) → (holds depot).out ≤ (holds depot).most };
}

/// A depot that lets the records on its stacks be read.
pub trait Shown<R>: Depot<R> {
    /// The record that lies `i` records below the top of a stack. Takes no memory.
    fn look(&self, s: u8, i: u64) -> &R
        requires stack { s < stack_count (Self.holds self.now) }
        requires held { i < len_at (Self.holds self.now) s }
        ensures { slice_get (items_at (Self.holds self.now) s) i ≡ Some result.now };
}
