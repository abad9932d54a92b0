//! What a set of capabilities was once, and what happened to it since then, in pieces that are
//! shared.
ghost use Rattle.std.specs.Prelude.{◌≡◌, IfOk, OnOk, OnErr};
ghost use Rattle.std.specs.List.{flat_map};
ghost use Rattle.std.specs.Arc.{arc_slice_items};
ghost use Rattle.fl_labels.specs.SetBy as set;
ghost use Rattle.fl_bench.specs.parts.Changes.{after};

use crate::change::{Change, apply_all};
use fl_labels::cap::Cap;
use fl_labels::cap_set::CapSet;
use std::alloc::{AllocError, Global};
use std::marker::Model;
use std::sync::ArcSlice;

// How many pieces are made one block, and how many blocks one group.
const MANY: usize = 64;

// Pieces that stand behind one another, oldest first.
type Block = ArcSlice<ArcSlice<Change>>;

/// A set of capabilities, kept as what it was once and its changes since then. These stand in
/// pieces, oldest first. Of the older pieces 64 each are a block, and of the older blocks 64 each a
/// group. A copy shares all of this.
#[derive(Drop)]
pub struct History {
    // what the set was at first
    first: ArcSlice<Cap>,
    groups: Vec<ArcSlice<Block>>,
    blocks: Vec<Block>,
    pieces: Vec<ArcSlice<Change>>,
}

impl Model for History {
    ghost use Rattle.std.specs.Prelude.{◌++◌};
    ghost use Rattle.std.specs.List.{flat_map};
    ghost use Rattle.std.specs.Arc.{arc_slice_items};
    ghost use Rattle.fl_labels.specs.SetBy as set;
    ghost use Rattle.fl_labels.specs.Cap.{cap_cmp};
    ghost use Rattle.fl_labels.specs.CapOrder.{coded_cap};

    ghost Value = { set.SetBy cap_cmp };

    ghost coded = { set.code coded_cap };

    ghost use Rattle.fl_bench.specs.parts.Changes.{after};

    ghost view = { λ a.
        let blocks = flat_map arc_slice_items a.groups.items ++ a.blocks.items in
        let pieces = flat_map arc_slice_items blocks ++ a.pieces.items in
        after (set.of_list (arc_slice_items a.first)) (flat_map arc_slice_items pieces) };
}

// Does to the set what happened in these pieces, in turn.
fn apply_pieces(caps: &mut CapSet, pieces: &[ArcSlice<Change>]) -> Result<(), AllocError>
    ensures { OnOk result (caps.new ≡ after caps.old (flat_map arc_slice_items pieces.now)) }
{
    for piece in pieces {
        apply_all(caps, piece.as_slice())?;
    }
    Ok(())
}

// Does to the set what happened in the pieces of these blocks, in turn.
fn apply_blocks(caps: &mut CapSet, blocks: &[Block]) -> Result<(), AllocError>
    ensures { let pieces = flat_map arc_slice_items blocks.now in
        OnOk result (caps.new ≡ after caps.old (flat_map arc_slice_items pieces)) }
{
    for block in blocks {
        apply_pieces(caps, block.as_slice())?;
    }
    Ok(())
}

// Does to the set what happened in the blocks of these groups, in turn.
fn apply_groups(caps: &mut CapSet, groups: &[ArcSlice<Block>]) -> Result<(), AllocError>
    ensures { let pieces = flat_map arc_slice_items (flat_map arc_slice_items groups.now) in
        OnOk result (caps.new ≡ after caps.old (flat_map arc_slice_items pieces)) }
{
    for group in groups {
        apply_blocks(caps, group.as_slice())?;
    }
    Ok(())
}

impl History {
    /// Of the set of these capabilities, before anything happens to it. Shares them, and takes no
    /// memory.
    pub fn begun_with(alloc: Global, first: ArcSlice<Cap>) -> Self
        ensures { result ≡ set.of_list (arc_slice_items first) }
    {
        History {
            first,
            groups: Vec::new(alloc),
            blocks: Vec::new(alloc),
            pieces: Vec::new(alloc),
        }
    }

    // With all blocks in groups. An error leaves it.
    fn close_group(&mut self, alloc: Global) -> Result<(), AllocError>
        ensures { self.new ≡ self.old }
    {
        let group = ArcSlice::from_clones(alloc, &self.blocks)?;
        self.groups.reserve_exact(1)?;
        self.groups.push(group)?;
        self.blocks.clear();
        Ok(())
    }

    // With all pieces in blocks. An error leaves the set.
    fn close_block(&mut self, alloc: Global) -> Result<(), AllocError>
        ensures { self.new ≡ self.old }
    {
        if self.blocks.len() >= MANY {
            self.close_group(alloc)?;
        }
        let block = ArcSlice::from_clones(alloc, &self.pieces)?;
        self.blocks.reserve_exact(1)?;
        self.blocks.push(block)?;
        self.pieces.clear();
        Ok(())
    }

    /// Adds a piece. Fails only where there is not enough memory, and then leaves the set.
    pub fn add(&mut self, alloc: Global, piece: ArcSlice<Change>) -> Result<(), AllocError>
        ensures ok { OnOk result (self.new ≡ after self.old (arc_slice_items piece)) }
        ensures err { OnErr result (self.new ≡ self.old) }
    {
        if self.pieces.len() >= MANY {
            self.close_block(alloc)?;
        }
        self.pieces.reserve_exact(1)?;
        self.pieces.push(piece)?;
        Ok(())
    }

    /// The same once more, which shares all pieces. Fails only where there is not enough memory, or
    /// a piece is shared too often. Copies three lists: of at most 64 pieces, of at most 64 blocks,
    /// and of a group for each 4,096 pieces before.
    pub fn copy(&self) -> Result<Self, AllocError>
        ensures { IfOk result (λ made. made ≡ self.now) }
    {
        Ok(History {
            first: self.first.clone()?,
            groups: self.groups.clone()?,
            blocks: self.blocks.clone()?,
            pieces: self.pieces.clone()?,
        })
    }

    /// The set itself. Fails only where there is not enough memory. Does each change once more.
    pub fn to_set(&self, alloc: Global) -> Result<CapSet, AllocError>
        ensures { IfOk result (λ made. made ≡ self.now) }
    {
        let mut caps = CapSet::from_vec(Vec::from_slice(alloc, self.first.as_slice())?)?;
        apply_groups(&mut caps, &self.groups)?;
        apply_blocks(&mut caps, &self.blocks)?;
        apply_pieces(&mut caps, &self.pieces)?;
        Ok(caps)
    }
}
