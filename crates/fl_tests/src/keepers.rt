//! Makers whose keepers are not made, are another node's, or break.
ghost use Rattle.std.specs.Prelude.{◌≡◌, Contains, ⊤};
ghost use Rattle.fl_jobs.specs.declared.answer.Refusal.TheVariants.{Memory};
ghost use Rattle.fl_makers.specs.Making.{nothing_kept};
ghost use Rattle.fl_system.specs.declared.answer.Fault.TheVariants.{Refused};

use fl_jobs::answer::Refusal;
use fl_labels::name::NodeNumber;
use fl_makers::maker::MakesKeepers;
use fl_store::mem::MemKeeper;
use fl_system::answer::Fault;
use std::alloc::{AllocError, Global};

/// Makes keepers in memory, but none where the first of these is of the node: then that is why, and
/// the next is the first.
#[derive(Drop)]
pub struct RefusingMaker<'a> {
    pub refusals: &'a [(NodeNumber, Fault)],
}

impl MakesKeepers for RefusingMaker<'_> {
    type K = MemKeeper;

    ghost making = { record {
      makes = λ _ number keeper. keeper.kept ≡ nothing_kept number;
      finds = λ _ number k. k ≡ nothing_kept number;
      unmade = λ maker number fault. Contains maker.refusals.now (number, fault);
      refuses = λ maker number fault. Contains maker.refusals.now (number, fault);
      again = λ number k. k ≡ nothing_kept number;
    } };

    ghost told = { λ _ _ _ why. why };

    fn make(&mut self, alloc: Global, number: NodeNumber) -> Result<MemKeeper, Fault> {
        if let [(node, fault), rest @ ..] = self.refusals {
            if *node == number {
                self.refusals = rest;
                return Err(*fault);
            }
        }
        Ok(MemKeeper::new(alloc, number))
    }

    fn take_back(&mut self, _number: NodeNumber, _keeper: MemKeeper, _fault: Fault) {}

    fn close(&mut self, _number: NodeNumber, _keeper: MemKeeper) {}
}

/// Makes keepers of one node, whichever it is asked for.
#[derive(Clone, Copy)]
pub struct OneNodeMaker {
    pub node: NodeNumber,
}

impl MakesKeepers for OneNodeMaker {
    type K = MemKeeper;

    ghost making = { record {
      makes = λ maker _ keeper. keeper.kept ≡ nothing_kept maker.node;
      finds = λ maker _ k. k ≡ nothing_kept maker.node;
      unmade = λ _ _ _. ⊥;
      refuses = λ _ _ _. ⊥;
      again = λ _ _. ⊤;
    } };

    ghost told = { λ _ _ _ none. absurd none };

    fn make(&mut self, alloc: Global, number: NodeNumber) -> Result<MemKeeper, Fault> {
        Ok(MemKeeper::new(alloc, self.node))
    }

    fn take_back(&mut self, _number: NodeNumber, _keeper: MemKeeper, _fault: Fault) {}

    fn close(&mut self, _number: NodeNumber, _keeper: MemKeeper) {}
}

/// Makes keepers in memory. Those of the nodes up to this number break at their first save.
#[derive(Clone, Copy)]
pub struct BreakingMaker {
    pub last: NodeNumber,
}

impl MakesKeepers for BreakingMaker {
    type K = MemKeeper;

    ghost making = { record {
      makes = λ _ number keeper. keeper.kept ≡ nothing_kept number;
      finds = λ _ number k. k ≡ nothing_kept number;
      unmade = λ _ _ _. ⊥;
      refuses = λ _ _ _. ⊥;
      again = λ number k. k ≡ nothing_kept number;
    } };

    ghost told = { λ _ _ _ none. absurd none };

    fn make(&mut self, alloc: Global, number: NodeNumber) -> Result<MemKeeper, Fault> {
        let mut keeper = MemKeeper::new(alloc, number);
        if number <= self.last {
            keeper.break_at(1, false);
        }
        Ok(keeper)
    }

    fn take_back(&mut self, _number: NodeNumber, _keeper: MemKeeper, _fault: Fault) {}

    fn close(&mut self, _number: NodeNumber, _keeper: MemKeeper) {}
}

/// Makes keepers in which nothing is kept, of nodes that were booted so many times.
#[derive(Clone, Copy)]
pub struct BootedMaker {
    pub boot: u32,
}

impl MakesKeepers for BootedMaker {
    type K = MemKeeper;

    ghost making = { record {
      makes = λ maker number keeper.
          keeper.kept ≡ record (nothing_kept number) { boot = maker.boot };
      finds = λ maker number k. k ≡ record (nothing_kept number) { boot = maker.boot };
      unmade = λ _ _ fault. fault ≡ Refused Memory;
      refuses = λ _ _ fault. fault ≡ Refused Memory;
      again = λ _ _. ⊤;
    } };

    ghost told = { λ _ _ _ why. why };

    fn make(&mut self, alloc: Global, number: NodeNumber) -> Result<MemKeeper, Fault> {
        match MemKeeper::with(alloc, number, self.boot, &[]) {
            Ok(keeper) => Ok(keeper),
            Err(AllocError) => Err(Fault::Refused(Refusal::Memory)),
        }
    }

    fn take_back(&mut self, _number: NodeNumber, _keeper: MemKeeper, _fault: Fault) {}

    fn close(&mut self, _number: NodeNumber, _keeper: MemKeeper) {}
}
