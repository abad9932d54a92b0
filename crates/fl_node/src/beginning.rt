// The name of a node's next operation.
ghost use Rattle.std.specs.Prelude.{◌<◌, MatchOption};
ghost use Rattle.fl_system.specs.Naming.{IsLast, IsNextAfter};

use fl_labels::name::{Name, NodeNumber};
use fl_opset::set::OpSet;

/// The name after the last one of the node, or none where no sequence number is left. A binary
/// search.
pub fn next_name(saved: &OpSet, node: NodeNumber) -> Option<Name>
    requires { 0 < node }
    ensures { MatchOption result (IsLast saved.now node 4294967295)
        (λ name. IsNextAfter saved.now node name) }
{
    let seq = saved.last_of(node).checked_add(1)?;
    Some(Name { node, seq })
}
