ghost use Rattle.std.specs.Prelude.{◌≡◌, ◌+◌, ◌≤◌, map, replicate, IfOk, vec_len};
ghost use Rattle.pe_stacks.specs.Holdings.{new_stack, new_holdings, total_len, emptied};
ghost use Rattle.pe_stacks.specs.VecStack.{stack_of, capacity_of};

use crate::vec_stack::VecStack;
use crate::{Depot, Shown};
use std::alloc::{AllocError, Global};

/// A depot that keeps each stack in a vector.
#[derive(Drop)]
pub struct VecDepot<R> {
    stacks: Vec<VecStack<R>>,
    fresh: u64,
    spent: u64,
    out: u64,
    most: u64,
    ghost few: { vec_len stacks ≤ 255 },
    ghost balanced: { fresh ≡ spent + out + total_len (map stack_of stacks.items) },
    ghost peaked: { out ≤ most },
}

impl<R: Drop> VecDepot<R> {
    ghost use Rattle.pe_stacks.specs.VecDepot.{holdings_of};

    /// A depot of that many stacks, which are empty, with all counts 0.
    pub fn new(alloc: Global, stacks: u8) -> Result<VecDepot<R>, AllocError>
        ensures { IfOk result (λ depot. holdings_of depot ≡ new_holdings stacks) }
    {
        Ok(VecDepot {
            stacks: new_stacks(alloc, stacks)?,
            fresh: 0,
            spent: 0,
            out: 0,
            most: 0,
        })
    }
}

fn new_stacks<R: Drop>(alloc: Global, count: u8) -> Result<Vec<VecStack<R>>, AllocError>
    ensures { IfOk result (λ stacks. map stack_of stacks.items ≡ replicate count new_stack) }
{
    let mut stacks = Vec::new(alloc);
    for _stack in 0..count {
        stacks.push(VecStack::new(alloc))?;
    }
    Ok(stacks)
}

fn clear_all<R: Drop>(stacks: &mut Vec<VecStack<R>>)
    ensures holds { map stack_of stacks.new.items ≡ map emptied (map stack_of stacks.old.items) }
    ensures room { map capacity_of stacks.new.items ≡ map capacity_of stacks.old.items }
    ensures len { vec_len stacks.new ≡ vec_len stacks.old }
{
    for stack in stacks.iter_mut() {
        stack.clear();
    }
}

impl<R: Drop> Depot<R> for VecDepot<R> {
    ghost use Rattle.std.proofs.Common.{rules};
    ghost use Rattle.pe_stacks.specs.VecDepot.{holdings_of, room_of};

    ghost holds = { holdings_of };

    ghost room = { room_of };

    ghost balance = { λ depot. depot.balanced };

    ghost peak = { λ depot. depot.peaked };

    fn stacks(&self) -> u8 {
        self.stacks.len() as u8
    }

    fn len(&self, s: u8) -> u64 {
        self.stacks[s as usize].items.len() as u64
    }

    #[inline(always)]
    fn spare(&self, s: u8) -> u64 {
        self.stacks[s as usize].spare()
    }

    fn pushes(&self, s: u8) -> u64 {
        self.stacks[s as usize].pushes
    }

    fn pops(&self, s: u8) -> u64 {
        self.stacks[s as usize].pops
    }

    fn fresh(&self) -> u64 {
        self.fresh
    }

    fn spent(&self) -> u64 {
        self.spent
    }

    fn out(&self) -> u64 {
        self.out
    }

    fn most(&self) -> u64 {
        self.most
    }

    #[inline(always)]
    fn lend(&mut self, r: R) -> R {
        self.fresh += 1;
        self.out += 1;
        self.most = self.most.max(self.out);
        r
    }

    #[inline(always)]
    fn give_up(&mut self, _r: R) {
        self.spent += 1;
        self.out -= 1;
    }

    fn push(&mut self, s: u8, r: R) -> Result<(), R> {
        match self.stacks[s as usize].push(r) {
            Ok(()) => {
                self.out -= 1;
                Ok(())
            }
            Err(back) => Err(back),
        }
    }

    #[inline(always)]
    fn push_spare(&mut self, s: u8, r: R) {
        self.out -= 1;
        self.stacks[s as usize].push_spare(r);
    }

    // It is counted first, so that the record moves once, from its stack to where it is wanted.
    #[inline(always)]
    fn pop(&mut self, s: u8) -> R {
        let out = self.out + 1;
        self.out = out;
        self.most = self.most.max(out);
        self.stacks[s as usize].pop()
    }

    fn reserve(&mut self, s: u8, n: u64) -> Result<(), AllocError> {
        self.stacks[s as usize].reserve(n)
    }

    fn clear(&mut self) {
        clear_all(&mut self.stacks);
        self.spent = self.fresh - self.out;
    }
}

impl<R: Drop> Shown<R> for VecDepot<R> {
    fn look(&self, s: u8, i: u64) -> &R {
        self.stacks[s as usize].look(i)
    }
}
