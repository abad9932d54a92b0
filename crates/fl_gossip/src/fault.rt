//! Why operations are not taken.
ghost use Rattle.std.specs.Prelude.{◌≡◌};

use fl_labels::name::Name;
use std::alloc::{AllocError, AllocFailed};

/// Why operations are not taken.
#[derive(Clone, Copy, Debug, PartialEq, Eq)]
pub enum GossipFault {
    /// An operation of the node's own number whose name no operation of the set has.
    Impostor(Name),
    /// An operation of the set has the name, and is another one.
    Clash(Name),
    /// There was not enough memory for the new operations.
    Memory,
}

impl From<AllocError> for GossipFault {
    ghost use Rattle.fl_gossip.specs.declared.fault.GossipFault.TheVariants.{Memory};

    ghost from_gives = { λ _ e. e ≡ Memory };

    fn from(_: AllocError) -> Self {
        GossipFault::Memory
    }
}

impl<T: Drop> From<AllocFailed<T>> for GossipFault {
    ghost use Rattle.fl_gossip.specs.declared.fault.GossipFault.TheVariants.{Memory};

    ghost from_gives = { λ _ e. e ≡ Memory };

    fn from(_: AllocFailed<T>) -> Self {
        GossipFault::Memory
    }
}
