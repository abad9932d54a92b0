//! A maker of keepers in memory.
ghost use Rattle.fl_makers.specs.MemMaking.{mem_making};

use crate::maker::MakesKeepers;
use fl_labels::name::NodeNumber;
use fl_store::mem::MemKeeper;
use fl_system::answer::Fault;
use std::alloc::Global;

/// Makes keepers in memory, in which nothing is kept yet: one for each node that it is asked for.
#[derive(Clone, Copy, Debug, PartialEq, Eq)]
pub struct MemMaker;

impl MakesKeepers for MemMaker {
    type K = MemKeeper;

    ghost making = { mem_making };

    ghost told = { λ _ _ _ none. absurd none };

    /// Takes no memory.
    fn make(&mut self, alloc: Global, number: NodeNumber) -> Result<MemKeeper, Fault> {
        Ok(MemKeeper::new(alloc, number))
    }

    fn take_back(&mut self, _number: NodeNumber, _keeper: MemKeeper, _fault: Fault) {}

    fn close(&mut self, _number: NodeNumber, _keeper: MemKeeper) {}
}
