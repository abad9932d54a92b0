//! Capabilities by thirty-two.
ghost use Rattle.std.specs.Prelude.{◌≡◌, ◌<◌, ◌↔◌, ◌⊎◌, Some, IfOk, OnOk};
ghost use Rattle.std.specs.List.{Contains};
ghost use Rattle.fl_labels.specs.Found.{Tells};
ghost use Rattle.fl_labels.specs.declared.name.Name.{Name};
ghost use Rattle.fl_labels.specs.declared.cap.Cap.{Cap};
ghost use Rattle.fl_labels.specs.declared.cap.Cap.TheVariants.{Use};
ghost use Rattle.fl_closure.specs.parts.Block.{place_of, bit_of, Marks, IsIn, AreIn};

use crate::place::Place;
use fl_labels::cap::Cap;
use fl_labels::name::Name;
use std::alloc::{AllocError, Global};

/// Some of the capabilities at a place, each by its bit.
#[derive(Clone, Copy, Debug)]
pub struct Block {
    pub place: Place,
    pub bits: u32,
}

/// Where the capability stands.
pub fn place_of(cap: Cap) -> Place
    ensures { result ≡ place_of cap }
{
    let name = cap.name();
    Place {
        node: name.node,
        part: name.seq / 32 * 32 + cap.rank() as u32,
    }
}

/// Which bit of its place the capability has, from 0.
pub fn bit_of(cap: Cap) -> u32
    ensures { result ≡ bit_of cap }
{
    cap.name().seq % 32
}

/// Whether the bits have that of the capability.
pub fn marks(bits: u32, cap: Cap) -> bool
    ensures { Tells result (Marks bits cap) }
{
    (bits >> bit_of(cap)) & 1 == 1
}

impl Block {
    /// The capability alone.
    pub fn only(cap: Cap) -> Block
        ensures { (c : Cap) → IsIn result c ↔ (c ≡ cap) }
    {
        Block {
            place: place_of(cap),
            bits: 1 << bit_of(cap),
        }
    }

    /// Whether the capability is one of these.
    pub fn has(self, cap: Cap) -> bool
        ensures { Tells result (IsIn self cap) }
    {
        self.place == place_of(cap) && marks(self.bits, cap)
    }

    // The group whose use is here and has this bit. A use has the rank 3.
    fn used_at(self, bit: u32) -> Option<Name>
        requires { bit < 32 }
        ensures { (name : Name) → (result ≡ Some name)
            ↔ (IsIn self (Use name) × (bit_of (Use name) ≡ bit)) }
    {
        let seq = self.place.part / 32 * 32 + bit;
        if (self.bits >> bit) & 1 == 0 || self.place.part % 32 != 3 || seq == 0 {
            return None;
        }
        let node = self.place.node;
        Some(Name { node, seq })
    }

    // Adds the groups whose uses are here to a list.
    fn push_used(self, names: &mut Vec<Name>) -> Result<(), AllocError>
        ensures { OnOk result ((name : Name) → Contains names.new.items name
            ↔ (Contains names.old.items name ⊎ IsIn self (Use name))) }
    {
        for bit in 0..32 {
            if let Some(name) = self.used_at(bit) {
                names.push(name)?;
            }
        }
        Ok(())
    }
}

/// The groups whose uses are in the blocks. Thirty-two steps for each block. Fails only where
/// there is not enough memory.
pub fn used(alloc: Global, blocks: &[Block]) -> Result<Vec<Name>, AllocError>
    ensures { IfOk result (λ names. (name : Name) →
        Contains names.items name ↔ AreIn blocks.now (Use name)) }
{
    let mut names = Vec::new(alloc);
    for block in blocks {
        block.push_used(&mut names)?;
    }
    Ok(names)
}
