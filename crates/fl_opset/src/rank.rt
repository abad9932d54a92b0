//! Names as numbers.
ghost use Rattle.std.specs.Prelude.{◌≡◌};
ghost use Rattle.fl_opset.specs.Rank.{name_rank, last_rank};

use crate::span::Span;
use fl_labels::name::Name;

// By how much the ranks of one number at two neighbouring nodes differ.
const NODE: u64 = 0x1_0000_0000;

/// The rank of a name. Names are ordered by it. Those of a node stand next to each other, and
/// between two nodes one rank is nobody's.
pub fn rank(name: Name) -> u64
    ensures { result ≡ name_rank name }
{
    u64::from(name.node - 1) * NODE + u64::from(name.seq)
}

/// The rank of the last name of a span.
pub fn last_rank_of(span: &Span) -> u64
    ensures { result ≡ last_rank span.now }
{
    u64::from(span.first.node - 1) * NODE + u64::from(span.last)
}
