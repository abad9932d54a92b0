//! What the nodes of a world and a newcomer have against one another.
ghost use Rattle.std.specs.Prelude.{◌≡◌};
ghost use Rattle.std.specs.BTreeMap.{IsOrdered};
ghost use Rattle.std.specs.Ordering.{nat_cmp};
ghost use Rattle.fl_gossip.specs.Meeting.{FindsLeast, OfSome};
ghost use Rattle.fl_joining.specs.Against.{ClashesWith, StraysWith};

use fl_gossip::meeting::{least_clash, least_stray, lesser};
use fl_labels::name::{Name, NodeNumber};
use fl_node::node::Node;
use fl_opset::set::OpSet;
use fl_store::keeper::Keeper;
use std::collections::BTreeMap;

/// The least name under which an operation of the set and one of these nodes clash, or none. Costs,
/// for each node, a search for each operation of the set or the node's own, whichever has fewer
/// with that operation's number. Takes no memory.
pub fn least_clash_with<K: Keeper>(
    all: &BTreeMap<NodeNumber, Node<K>>,
    saved: &OpSet,
) -> Option<Name>
    ensures least { FindsLeast (OfSome (ClashesWith saved.now) all.now.entries) result }
    ensures ordered { IsOrdered nat_cmp all.now }
{
    let mut least = None;
    for (_, node) in all {
        least = lesser(least, least_clash(saved, node.saved()));
    }
    least
}

// The least name of an operation of a newcomer that has the number of this node and is not saved
// there, or the other way round.
fn stray_between<K: Keeper>(
    other: NodeNumber,
    node: &Node<K>,
    number: NodeNumber,
    saved: &OpSet,
) -> Option<Name>
    ensures { FindsLeast (StraysWith number saved.now (other, node.now)) result }
{
    let theirs = node.saved();
    let brought = least_stray(saved, theirs, other);
    let awaited = least_stray(theirs, saved, number);
    lesser(brought, awaited)
}

/// The least name of an operation of a newcomer of this number, which has saved these, that has the
/// number of one of these nodes and is not saved there; or the other way round. None where there is
/// no such operation. Costs, for each node, a search for each operation of the one that has the
/// number of the other. Takes no memory.
pub fn least_stray_with<K: Keeper>(
    all: &BTreeMap<NodeNumber, Node<K>>,
    number: NodeNumber,
    saved: &OpSet,
) -> Option<Name>
    ensures least { FindsLeast (OfSome (StraysWith number saved.now) all.now.entries) result }
    ensures ordered { IsOrdered nat_cmp all.now }
{
    let mut least = None;
    for (other, node) in all {
        least = lesser(least, stray_between(*other, node, number, saved));
    }
    least
}
