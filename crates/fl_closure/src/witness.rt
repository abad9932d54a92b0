//! What questions come upon.
ghost use Rattle.fl_labels.specs.Found.{Tells};
ghost use Rattle.fl_labels.specs.SetBy.{In};
ghost use Rattle.fl_closure.specs.Witness.{Owns, Shows};

use crate::block::Block;
use crate::rows::Owner;
use fl_labels::cap::Cap;
use fl_labels::cap_set::CapSet;

/// Capabilities that a question came upon, with who reaches them: up to 32 that stand together.
/// What it shows stays true as operations are added.
#[derive(Clone, Copy, Debug)]
pub struct Witness {
    pub(crate) owner: Owner,
    pub(crate) block: Block,
}

// Whether who owns these is this owner.
fn owns(owned: &CapSet, owner: Owner) -> bool
    ensures { Tells result (Owns (In owned.now) owner) }
{
    match owner {
        Owner::Everybody => true,
        Owner::Group(group) => owned.contains(Cap::Use(group)),
    }
}

impl Witness {
    /// Whether the capability is one of these, and who owns the others reaches it. A glance, and
    /// where it is one of what a group reaches, a binary search in what is owned.
    pub fn shows(&self, owned: &CapSet, cap: Cap) -> bool
        ensures { Tells result (Shows self.now (In owned.now) cap) }
    {
        self.block.has(cap) && owns(owned, self.owner)
    }
}
