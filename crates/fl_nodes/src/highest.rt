//! Up to which number something is saved.
ghost use Rattle.std.specs.Prelude.{◌≤◌};
ghost use Rattle.fl_nodes.specs.parts.Highest.{IsUpTo};

use fl_labels::name::NodeNumber;
use fl_opset::set::OpSet;

/// The greatest of this number and those of the nodes that made the operations.
pub(crate) fn raised(highest: NodeNumber, saved: &OpSet) -> NodeNumber
    ensures at_least { highest ≤ result }
    ensures covers { IsUpTo result saved.now }
{
    match saved.last_node() {
        Some(last) => highest.max(last),
        None => highest,
    }
}
