//! Why words are not read.
ghost use Rattle.std.specs.Prelude.{◌≡◌};
ghost use Rattle.fl_script.specs.declared.unread.Unread.TheVariants.{Memory};

use std::alloc::AllocError;

/// Why words are not read.
#[derive(Clone, Copy)]
pub enum Unread {
    /// They spell nothing of what was to be read.
    Bad,
    /// There was not enough memory.
    Memory,
}

impl From<AllocError> for Unread {
    ghost from_gives = { λ _ e. e ≡ Memory };

    fn from(_: AllocError) -> Unread {
        Unread::Memory
    }
}
