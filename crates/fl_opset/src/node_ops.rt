//! The operations of one node.
ghost use Rattle.std.specs.Prelude.{◌≡◌, ◌≢◌, ◌≤◌, ◌<◌, [], length, OnErr, IfOk, IfSome, IfNone};
ghost use Rattle.std.specs.List.{All, Any, Contains, HoldsAt};
ghost use Rattle.std.specs.List.Sorted.{IsStrictlySortedBy, IsSearchInRange, IsBinarySearchResult};
ghost use Rattle.std.specs.Ordering.{nat_cmp};
ghost use Rattle.fl_ops.specs.declared.op.Op.{Op};
ghost use Rattle.fl_ops.specs.OpOrder.{op_cmp};
ghost use Rattle.fl_opset.specs.ByNode.{all_ops, node_order, AreByNode};

use fl_labels::name::NodeNumber;
use fl_ops::op::Op;
use std::alloc::{AllocError, Global};

/// The operations that one node made, rising; maybe none.
#[derive(Debug, Drop)]
pub struct NodeOps {
    pub(crate) node: NodeNumber,
    pub(crate) ops: Vec<Op>,
}

impl NodeOps {
    /// The number of the node.
    pub fn node(&self) -> NodeNumber
        ensures { result ≡ self.now.node }
    {
        self.node
    }

    /// The operations, rising.
    pub fn ops(&self) -> &[Op]
        ensures { result.now ≡ self.now.ops.items }
    {
        &self.ops
    }
}

/// The place of a node's entry, or the place at which it would stand. The last entry is asked
/// first, since most is added there; else a binary search.
pub(crate) fn find(nodes: &[NodeOps], node: NodeNumber) -> Result<usize, usize>
    ensures bound { IsSearchInRange result (length nodes.now) }
    ensures position { IsStrictlySortedBy node_order nodes.now
        → IsBinarySearchResult (λ it. nat_cmp it.node node) nodes.now result }
{
    let Some(last) = nodes.last() else {
        return Err(0);
    };
    if last.node < node {
        return Err(nodes.len());
    }
    if last.node == node {
        return Ok(nodes.len() - 1);
    }
    nodes.binary_search_by(|it| it.node.cmp(&node))
}

/// The operations of a node, rising. A search for its entry.
pub(crate) fn ops_of(nodes: &[NodeOps], node: NodeNumber) -> &[Op]
    requires { AreByNode nodes.now }
    ensures rise { IsStrictlySortedBy op_cmp result.now }
    ensures only { (op : Op) → Contains result.now op
        → Contains (all_ops nodes.now) op × (op.name.node ≡ node) }
    ensures all { (op : Op) → Contains (all_ops nodes.now) op → op.name.node ≡ node
        → Contains result.now op }
{
    match find(nodes, node) {
        Ok(place) => &nodes[place].ops,
        Err(_) => &[],
    }
}

/// The greatest node that has an operation, or none. Passes over the entries at the end that have
/// none.
pub(crate) fn last_node(nodes: &[NodeOps]) -> Option<NodeNumber>
    requires { AreByNode nodes.now }
    ensures some { IfSome result (λ last.
        All (λ op. op.name.node ≤ last) (all_ops nodes.now)
        × Any (λ op. op.name.node ≡ last) (all_ops nodes.now)) }
    ensures none { IfNone result (all_ops nodes.now ≡ []) }
{
    let last = nodes.iter().rev().find(|it| !it.ops.is_empty())?;
    Some(last.node)
}

/// The place of a node's entry. Where there is none, one without operations is put in, and the
/// entries behind it move. An error says that there was no memory for it, and leaves the entries.
pub(crate) fn entry(
    nodes: &mut Vec<NodeOps>,
    alloc: Global,
    node: NodeNumber,
) -> Result<usize, AllocError>
    requires { AreByNode nodes.old.items }
    ensures by_node { AreByNode nodes.new.items }
    ensures same { all_ops nodes.new.items ≡ all_ops nodes.old.items }
    ensures bound { IfOk result (λ place. place < length nodes.new.items) }
    ensures here { IfOk result (λ place. HoldsAt (λ it. it.node ≡ node) nodes.new.items place) }
    ensures kept { All (Contains nodes.new.items) nodes.old.items }
    ensures lacking { OnErr result (All (λ op. op.name.node ≢ node) (all_ops nodes.old.items)) }
{
    match find(nodes, node) {
        Ok(place) => Ok(place),
        Err(place) => {
            let none = NodeOps {
                node,
                ops: Vec::new(alloc),
            };
            nodes.insert(place, none)?;
            Ok(place)
        }
    }
}
