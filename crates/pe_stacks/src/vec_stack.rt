ghost use Rattle.std.specs.Prelude.{◌≡◌, ◌+◌, ◌^◌, ◌<◌, ◌≤◌, IfErr, OnOk, IsOk, is_ok, slice_get, Some, if◌then◌else◌, vec_len};

use std::alloc::{AllocError, Global};

/// A stack of a `VecDepot`, the top at the vector's end.
#[derive(Drop)]
pub(crate) struct VecStack<R> {
    pub(crate) items: Vec<R>,
    pub(crate) pushes: u64,
    pub(crate) pops: u64,
}

impl<R> VecStack<R> {
    ghost use Rattle.pe_stacks.specs.Holdings.{new_stack, pushed_on, popped_from, emptied};
    ghost use Rattle.pe_stacks.specs.VecStack.{stack_of, spare_of, capacity_of};

    pub(crate) fn new(alloc: Global) -> VecStack<R>
        ensures { stack_of result ≡ new_stack }
    {
        VecStack {
            items: Vec::new(alloc),
            pushes: 0,
            pops: 0,
        }
    }

    #[inline(always)]
    pub(crate) fn spare(&self) -> u64
        ensures { result ≡ spare_of self.now }
    {
        (self.items.capacity() - self.items.len()) as u64
    }

    pub(crate) fn push(&mut self, r: R) -> Result<(), R>
        requires { self.old.pushes < 2 ^ 63 }
        ensures handed { IfErr result (λ back. back ≡ r) }
        ensures holds { stack_of self.new ≡ (if is_ok result then pushed_on (stack_of self.old) r else stack_of self.old) }
        ensures room { capacity_of self.old ≤ capacity_of self.new }
        ensures memory { 0 < spare_of self.old → IsOk result }
    {
        match self.items.push(r) {
            Ok(()) => {
                self.pushes += 1;
                Ok(())
            }
            Err(refused) => Err(refused.value),
        }
    }

    #[inline(always)]
    pub(crate) fn push_spare(&mut self, r: R)
        requires count { self.old.pushes < 2 ^ 63 }
        requires spare { 0 < spare_of self.old }
        ensures holds { stack_of self.new ≡ pushed_on (stack_of self.old) r }
        ensures room { capacity_of self.old ≤ capacity_of self.new }
    {
        self.pushes += 1;
        self.items.push_reserved(r);
    }

    #[inline(always)]
    pub(crate) fn pop(&mut self) -> R
        requires full { 0 < vec_len self.old.items }
        requires count { self.old.pops < 2 ^ 63 }
        ensures handed { slice_get (stack_of self.old).items 0 ≡ Some result }
        ensures holds { stack_of self.new ≡ popped_from (stack_of self.old) }
        ensures room { capacity_of self.old ≤ capacity_of self.new }
    {
        self.pops += 1;
        self.items.take_last()
    }

    pub(crate) fn reserve(&mut self, n: u64) -> Result<(), AllocError>
        ensures holds { stack_of self.new ≡ stack_of self.old }
        ensures room { capacity_of self.old ≤ capacity_of self.new }
        ensures reserved { OnOk result (n ≤ spare_of self.new) }
        ensures memory { n ≤ spare_of self.old → IsOk result }
    {
        self.items.reserve(n as usize)
    }

    pub(crate) fn look(&self, i: u64) -> &R
        requires { i < vec_len self.now.items }
        ensures { slice_get (stack_of self.now).items i ≡ Some result.now }
    {
        &self.items[self.items.len() - 1 - i as usize]
    }
}

impl<R: Drop> VecStack<R> {
    ghost use Rattle.pe_stacks.specs.Holdings.{emptied};
    ghost use Rattle.pe_stacks.specs.VecStack.{stack_of, capacity_of};

    pub(crate) fn clear(&mut self)
        ensures holds { stack_of self.new ≡ emptied (stack_of self.old) }
        ensures room { capacity_of self.new ≡ capacity_of self.old }
    {
        self.items.clear();
    }
}
