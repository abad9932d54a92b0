//! What a group reaches.
ghost use Rattle.std.specs.Prelude.{◌≡◌, ◌↔◌, ◌⊎◌, None, IfOk, OnOk, OnErr};
ghost use Rattle.std.specs.BTreeMap.{get};
ghost use Rattle.fl_closure.specs.parts.Block.{place_cmp};

use crate::block::Block;
use crate::place::Place;
use std::alloc::{AllocError, Global};
use std::collections::BTreeMap;

/// The capabilities that a group reaches, each by its bit at its place.
///
/// The place that came last stands apart from the others. Names rise, so most of what comes is
/// there, and many a row has no other place.
#[derive(Debug, Drop)]
pub struct Row {
    last: Block,
    others: BTreeMap<Place, u32>,
    ghost apart: { get place_cmp others last.place ≡ None },
}

impl Row {
    ghost use Rattle.std.specs.Prelude.{◌≡◌, ◌↔◌, ◌⊎◌, IfOk, OnOk, OnErr};
    ghost use Rattle.fl_labels.specs.declared.cap.Cap.{Cap};
    ghost use Rattle.fl_closure.specs.parts.Block.{IsIn, AreIn};
    ghost use Rattle.fl_closure.specs.parts.Row.{bits_in};
    ghost use Rattle.fl_closure.specs.parts.Bits.{Has, Joins, Parts, IsNew, IsSameBits};

    /// What is in the block. Takes no memory.
    pub fn new(alloc: Global, block: Block) -> Row
        ensures { (c : Cap) → Has (bits_in result) c ↔ IsIn block c }
    {
        Row {
            last: block,
            others: BTreeMap::new(alloc),
        }
    }

    /// The bits at a place. A glance at the last one, and else a search by order.
    pub fn bits_at(&self, place: Place) -> u32
        ensures { result ≡ bits_in self.now place }
    {
        if self.last.place == place {
            return self.last.bits;
        }
        self.others.get(&place).copied().unwrap_or(0)
    }

    /// Adds a block, and answers which of its bits are new here. An error leaves the row. Costs
    /// what `bits_at` does, and as much again for a new place.
    pub fn add(&mut self, block: Block) -> Result<u32, AllocError>
        ensures ok { OnOk result (Joins (bits_in self.old) block (bits_in self.new)) }
        ensures new { IfOk result (IsNew (bits_in self.old) block) }
        ensures err { OnErr result (IsSameBits (bits_in self.old) (bits_in self.new)) }
    {
        if self.last.place == block.place {
            let new = block.bits & !self.last.bits;
            self.last.bits |= block.bits;
            return Ok(new);
        }
        let Some(bits) = self.others.get_mut(&block.place) else {
            self.others.insert(self.last.place, self.last.bits)?;
            self.last = block;
            return Ok(block.bits);
        };
        let new = block.bits & !*bits;
        *bits |= block.bits;
        Ok(new)
    }

    /// Takes a block out. Costs what `bits_at` does; takes no memory.
    pub fn take(&mut self, block: Block)
        ensures { Parts (bits_in self.old) block (bits_in self.new) }
    {
        if self.last.place == block.place {
            self.last.bits &= !block.bits;
        } else if let Some(bits) = self.others.get_mut(&block.place) {
            *bits &= !block.bits;
        }
    }

    /// Adds the blocks of the row to a list. Fails only where there is not enough memory.
    pub fn push_to(&self, blocks: &mut Vec<Block>) -> Result<(), AllocError>
        ensures { OnOk result ((c : Cap) → AreIn blocks.new.items c
            ↔ (AreIn blocks.old.items c ⊎ Has (bits_in self.now) c)) }
    {
        blocks.try_reserve(self.others.len())?;
        blocks.push(self.last)?;
        for (place, bits) in &self.others {
            blocks.push(Block {
                place: *place,
                bits: *bits,
            })?;
        }
        Ok(())
    }
}
