//! Rows of capabilities.
ghost use Rattle.std.specs.Prelude.{◌≡◌, ◌↔◌, ◌⊎◌, IfOk, OnOk, OnErr, MatchOption};
ghost use Rattle.std.specs.List.{Contains};
ghost use Rattle.fl_labels.specs.Found.{Tells};
ghost use Rattle.fl_labels.specs.declared.name.Name.{Name};
ghost use Rattle.fl_labels.specs.declared.cap.Cap.{Cap};
ghost use Rattle.fl_closure.specs.declared.rows.Owner.{Owner};
ghost use Rattle.fl_closure.specs.declared.rows.Owner.TheVariants.{Everybody, Group};
ghost use Rattle.fl_closure.specs.parts.Block.{AreIn};
ghost use Rattle.fl_closure.specs.parts.Bits.{Joins, Parts, IsNew, IsSameBits};
ghost use Rattle.fl_closure.specs.parts.Rows.{bits_among, bits_at, Holds, At, OfOne, OfEach, Adds, Takes, IsSameRows, ComesUpon};
ghost use Rattle.fl_closure.specs.parts.Noted.{Continues, Loses};

use crate::block::{Block, marks, place_of};
use crate::place::Place;
use crate::row::Row;
use crate::witness::Witness;
use fl_labels::cap::Cap;
use fl_labels::name::Name;
use std::alloc::{AllocError, Global};
use std::collections::HashMap;

/// Whose a row is.
#[derive(Clone, Copy, Debug)]
pub enum Owner {
    /// Who may use the group.
    Group(Name),
    /// Everybody, so also who owns nothing.
    Everybody,
}

/// Capabilities that are new in a row.
#[derive(Clone, Copy, Debug)]
pub struct Note {
    pub owner: Owner,
    pub block: Block,
}

/// A row of capabilities for each group, and one for everybody, which each question looks into. A
/// row has the bits of the capabilities by their places.
#[derive(Debug, Drop)]
pub struct Rows {
    groups: HashMap<Name, Row>,
    everybody: HashMap<Place, u32>,
    alloc: Global,
}

// Adds a block to everybody's row, and answers which of its bits are new there. An error leaves the
// row.
fn add_to_all(row: &mut HashMap<Place, u32>, block: Block) -> Result<u32, AllocError>
    ensures ok { OnOk result (Joins (bits_among row.old) block (bits_among row.new)) }
    ensures new { IfOk result (IsNew (bits_among row.old) block) }
    ensures err { OnErr result (IsSameBits (bits_among row.old) (bits_among row.new)) }
{
    let Some(bits) = row.get_mut(&block.place) else {
        row.insert(block.place, block.bits)?;
        return Ok(block.bits);
    };
    let new = block.bits & !*bits;
    *bits |= block.bits;
    Ok(new)
}

// Takes a block out of everybody's row.
fn take_from_all(row: &mut HashMap<Place, u32>, block: Block)
    ensures { Parts (bits_among row.old) block (bits_among row.new) }
{
    if let Some(bits) = row.get_mut(&block.place) {
        *bits &= !block.bits;
    }
}

impl Rows {
    /// Nothing in any row. Takes no memory.
    pub fn new(alloc: Global) -> Self
        ensures { (owner : Owner) (c : Cap) → ¬ Holds result owner c }
    {
        Rows {
            groups: HashMap::new(alloc),
            everybody: HashMap::new(alloc),
            alloc,
        }
    }

    // The bits of the owner's row at a place.
    fn bits_at(&self, owner: Owner, place: Place) -> u32
        ensures { result ≡ bits_at self.now owner place }
    {
        match owner {
            Owner::Group(name) => match self.groups.get(&name) {
                Some(row) => row.bits_at(place),
                None => 0,
            },
            Owner::Everybody => self.everybody.get(&place).copied().unwrap_or(0),
        }
    }

    /// Whether the owner's row has the capability. A search by hash, and then for a group one by
    /// order.
    pub fn has(&self, owner: Owner, cap: Cap) -> bool
        ensures { Tells result (Holds self.now owner cap) }
    {
        marks(self.bits_at(owner, place_of(cap)), cap)
    }

    /// What the owner's row has at the place of the capability, where it has that. Costs what `has`
    /// does.
    pub fn witness(&self, owner: Owner, cap: Cap) -> Option<Witness>
        ensures { MatchOption result (¬ Holds self.now owner cap) (ComesUpon self.now owner cap) }
    {
        let place = place_of(cap);
        let bits = self.bits_at(owner, place);
        if !marks(bits, cap) {
            return None;
        }
        let block = Block { place, bits };
        Some(Witness { owner, block })
    }

    // Adds a block to the owner's row, and answers which of its bits are new there. An error leaves
    // the rows.
    fn add(&mut self, owner: Owner, block: Block) -> Result<u32, AllocError>
        ensures ok { OnOk result (Adds self.old (At owner block) self.new) }
        ensures new { IfOk result (IsNew (bits_at self.old owner) block) }
        ensures err { OnErr result (IsSameRows self.old self.new) }
    {
        let Owner::Group(name) = owner else {
            return add_to_all(&mut self.everybody, block);
        };
        if let Some(row) = self.groups.get_mut(&name) {
            return row.add(block);
        }
        self.groups.insert(name, Row::new(self.alloc, block))?;
        Ok(block.bits)
    }

    // Takes a block out of the owner's row.
    fn take(&mut self, owner: Owner, block: Block)
        ensures { Takes self.old (At owner block) self.new }
    {
        match owner {
            Owner::Group(name) => {
                if let Some(row) = self.groups.get_mut(&name) {
                    row.take(block);
                }
            }
            Owner::Everybody => take_from_all(&mut self.everybody, block),
        }
    }

    /// The capability and the row of the group, as blocks. A search by hash, and a copy of the row.
    /// Fails only where there is not enough memory.
    pub fn blocks_with(&self, cap: Cap, name: Name) -> Result<Vec<Block>, AllocError>
        ensures { IfOk result (λ blocks. (c : Cap) → AreIn blocks.items c
            ↔ ((c ≡ cap) ⊎ Holds self.now (Group name) c)) }
    {
        let mut blocks = Vec::new(self.alloc);
        blocks.push(Block::only(cap))?;
        if let Some(row) = self.groups.get(&name) {
            row.push_to(&mut blocks)?;
        }
        Ok(blocks)
    }

    /// What the owner's row lacks of these blocks. For each block a search as `has` makes. Fails
    /// only where there is not enough memory.
    pub fn lacking(&self, owner: Owner, blocks: &[Block]) -> Result<Vec<Block>, AllocError>
        ensures { IfOk result (λ lacking. (c : Cap) → AreIn lacking.items c
            ↔ (AreIn blocks.now c × ¬ Holds self.now owner c)) }
    {
        let mut lacking = Vec::new(self.alloc);
        for block in blocks {
            let bits = block.bits & !self.bits_at(owner, block.place);
            if bits != 0 {
                lacking.push(Block {
                    place: block.place,
                    bits,
                })?;
            }
        }
        Ok(lacking)
    }

    /// Adds a block to the owner's row, and notes what is new there: after an error too, so that it
    /// can be taken out again. A search as `has` makes. Fails only where there is not enough
    /// memory.
    pub fn note(
        &mut self,
        owner: Owner,
        block: Block,
        news: &mut Vec<Note>,
    ) -> Result<(), AllocError>
        ensures ok { OnOk result (Adds self.old (At owner block) self.new) }
        ensures news { Continues news.old.items self.old news.new.items self.new }
    {
        news.try_reserve(1)?;
        let bits = self.add(owner, block)?;
        if bits != 0 {
            let block = Block {
                place: block.place,
                bits,
            };
            news.push(Note { owner, block })?;
        }
        Ok(())
    }

    /// Adds blocks to the owner's row, each as `note` does.
    pub fn note_all(
        &mut self,
        owner: Owner,
        blocks: &[Block],
        news: &mut Vec<Note>,
    ) -> Result<(), AllocError>
        ensures ok { OnOk result (Adds self.old (OfOne owner blocks.now) self.new) }
        ensures news { Continues news.old.items self.old news.new.items self.new }
    {
        for block in blocks {
            self.note(owner, *block, news)?;
        }
        Ok(())
    }

    /// The same to the row of each of these groups.
    pub fn note_each(
        &mut self,
        names: &[Name],
        blocks: &[Block],
        news: &mut Vec<Note>,
    ) -> Result<(), AllocError>
        ensures ok { OnOk result (Adds self.old (OfEach names.now blocks.now) self.new) }
        ensures news { Continues news.old.items self.old news.new.items self.new }
    {
        news.try_reserve(names.len())?;
        for name in names {
            self.note_all(Owner::Group(*name), blocks, news)?;
        }
        Ok(())
    }

    /// Takes out what was noted. Takes no memory.
    pub fn take_all(&mut self, notes: &[Note])
        ensures { Loses self.old notes.now self.new }
    {
        for note in notes {
            self.take(note.owner, note.block);
        }
    }
}
