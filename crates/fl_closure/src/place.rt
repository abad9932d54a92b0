//! Where capabilities stand in a row.
ghost use Rattle.std.specs.Prelude.{◌<◌, ◌^◌};

use fl_labels::name::NodeNumber;

/// Where capabilities of one kind and one node stand together: those whose numbers, divided by 32,
/// are the same.
#[derive(Clone, Copy, Debug, PartialEq, Eq, PartialOrd, Ord, Hash)]
pub struct Place {
    /// The least of the numbers, and the rank of the kind. First, since it tells most places apart.
    pub part: u32,
    pub node: NodeNumber,
    pub ghost node_in_range: { (0 < node) × (node < 2 ^ 32) },
}
