//! Names that stand next to each other.
ghost use Rattle.std.specs.Prelude.{◌≤◌, ◌<◌, ◌^◌};

use fl_labels::name::Name;

/// Names of one node with consecutive numbers: from the first name to the one with the last number.
#[derive(Clone, Copy, Debug, PartialEq, Eq)]
pub struct Span {
    pub first: Name,
    /// The number of the last name, not below that of the first.
    pub last: u32,
    pub ghost rises: { first.seq ≤ last },
    pub ghost last_in_range: { last < 2 ^ 32 },
}
