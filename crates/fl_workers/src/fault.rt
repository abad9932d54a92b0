//! Why a batch was not begun.
use std::alloc::AllocError;
use thiserror::Error;

/// Why a batch was not begun: no job of it was started.
#[derive(Clone, Copy, Debug, PartialEq, Eq, Error)]
pub enum CrewFault {
    /// There was not enough memory.
    #[error("not enough memory")]
    Memory,
    /// The crew is stopped, and is to be restarted.
    #[error("the crew is stopped")]
    Stopped,
}

impl From<AllocError> for CrewFault {
    ghost use Rattle.std.specs.Prelude.{◌≡◌};
    ghost use Rattle.fl_workers.specs.declared.fault.CrewFault.{CrewFault};

    ghost from_gives = { λ _ e. e ≡ CrewFault.Memory };

    fn from(_error: AllocError) -> Self {
        CrewFault::Memory
    }
}
