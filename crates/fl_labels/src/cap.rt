//! Capabilities.
ghost use Rattle.std.specs.Prelude.{◌≡◌, ◌∷◌, [], refl};
ghost use Rattle.std.specs.Ordering.{as_partial_cmp};
ghost use Rattle.fl_labels.specs.Cap.{cap_name, cap_rank, cap_cmp, is_use};
ghost use Rattle.fl_labels.specs.Text.{cap_sign};

use crate::name::Name;
use std::cmp::Ordering;
use std::fmt;

/// What may be done with a tag (add, remove) or a group (use, grow). Ordered by name, then in the
/// order of the variants.
#[derive(Clone, Copy, Debug, PartialEq, Eq, Hash)]
pub enum Cap {
    /// To add the tag, `+1.4`.
    Plus(Name),
    /// To remove the tag, `-1.4`.
    Minus(Name),
    /// To use the group, `*1.4`.
    Use(Name),
    /// To grow the group, `^1.4`.
    Grow(Name),
}

impl Cap {
    /// The tag or group.
    pub fn name(self) -> Name
        ensures { result ≡ cap_name self }
    {
        match self {
            Cap::Plus(name) | Cap::Minus(name) | Cap::Use(name) | Cap::Grow(name) => name,
        }
    }

    /// Its place among the four of its name, from 1.
    pub fn rank(self) -> u8
        ensures { result ≡ cap_rank self }
    {
        match self {
            Cap::Plus(_) => 1,
            Cap::Minus(_) => 2,
            Cap::Use(_) => 3,
            Cap::Grow(_) => 4,
        }
    }

    /// Whether it is the use of a group.
    pub fn is_use(self) -> bool
        ensures { result ≡ is_use self }
    {
        match self {
            Cap::Use(_) => true,
            Cap::Plus(_) | Cap::Minus(_) | Cap::Grow(_) => false,
        }
    }

    /// The sign that its text begins with: `+`, `-`, `*` or `^`.
    pub fn sign(self) -> &'static str
        ensures { result.now ≡ cap_sign self ∷ [] }
    {
        match self {
            Cap::Plus(_) => "+",
            Cap::Minus(_) => "-",
            Cap::Use(_) => "*",
            Cap::Grow(_) => "^",
        }
    }
}

impl fmt::Display for Cap {
    ghost use Rattle.std.specs.Prelude.{Some};
    ghost use Rattle.fl_labels.specs.Text.{cap_text};

    ghost output = { λ c. Some (cap_text c) };

    fn fmt<W: fmt::Write>(&self, f: &mut fmt::Formatter<W>) -> fmt::Result {
        write!(f, "{}{}", self.sign(), self.name())
    }
}

impl Ord for Cap {
    ghost use Rattle.fl_labels.specs.CapOrder.{cap_total, cap_tied};

    ghost cmp = { cap_cmp };

    ghost total = { cap_total };

    ghost matches_partial_cmp = { λ _ _. refl };

    ghost matches_eq = { cap_tied };

    fn cmp(&self, other: &Self) -> Ordering {
        match self.name().cmp(&other.name()) {
            Ordering::Equal => self.rank().cmp(&other.rank()),
            unlike => unlike,
        }
    }
}

impl PartialOrd for Cap {
    ghost use Rattle.fl_labels.specs.CapOrder.{cap_partial};

    ghost partial_cmp = { as_partial_cmp cap_cmp };

    ghost laws = { cap_partial };

    fn partial_cmp(&self, other: &Self) -> Option<Ordering> {
        Some(self.cmp(other))
    }
}
