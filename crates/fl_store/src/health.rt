//! How a keeper in memory serves.
ghost use Rattle.std.specs.Prelude.{◌≡◌};

/// How long a keeper in memory serves.
#[derive(Clone, Copy, Debug, PartialEq, Eq)]
pub enum Health {
    /// It breaks at no save.
    Sound,
    /// It serves this many saves more, and breaks at the next one.
    BreaksAfter {
        /// How many saves it serves before.
        saves: u64,
        /// Whether the batch of the save at which it breaks is kept.
        keeps: bool,
    },
    /// It is broken until it is mended.
    Broken,
}

impl Health {
    ghost use Rattle.fl_store.specs.MemKeeping.{is_broken_at};

    /// Whether it is broken.
    pub fn is_broken(self) -> bool
        ensures { result ≡ is_broken_at self }
    {
        matches!(self, Health::Broken)
    }
}
