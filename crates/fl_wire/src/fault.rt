//! Why bytes are not read as a packet.
ghost use Rattle.std.specs.Prelude.{◌≡◌};

use fl_ops::fault::BadField;
use std::alloc::{AllocError, AllocFailed};

/// Why bytes are not read as a packet.
#[derive(Clone, Copy, Debug, PartialEq, Eq)]
pub enum ReadFault {
    /// The place of the first byte of the first field that is cut off, out of its range or against
    /// a rule, or of the first byte after the end.
    BadPacket { place: usize },
    /// There was not enough memory for the sets and the payload.
    Memory,
}

impl From<BadField> for ReadFault {
    ghost use Rattle.fl_wire.specs.declared.fault.ReadFault.TheVariants.{BadPacket};

    ghost from_gives = { λ f e. e ≡ BadPacket f.place };

    fn from(field: BadField) -> Self {
        ReadFault::BadPacket { place: field.place }
    }
}

impl From<AllocError> for ReadFault {
    ghost use Rattle.fl_wire.specs.declared.fault.ReadFault.TheVariants.{Memory};

    ghost from_gives = { λ _ e. e ≡ Memory };

    fn from(_: AllocError) -> Self {
        ReadFault::Memory
    }
}

impl<T: Drop> From<AllocFailed<T>> for ReadFault {
    ghost use Rattle.fl_wire.specs.declared.fault.ReadFault.TheVariants.{Memory};

    ghost from_gives = { λ _ e. e ≡ Memory };

    fn from(_: AllocFailed<T>) -> Self {
        ReadFault::Memory
    }
}
