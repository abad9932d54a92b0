//! Operations by node, put together.
ghost use Rattle.std.specs.Prelude.{◌≡◌, ◌+◌, ◌≤◌, ◌<◌, ◌^◌, OnOk, OnErr, IfOk, length, vec_len, vec_capacity, true};
ghost use Rattle.std.specs.List.{All};
ghost use Rattle.std.specs.List.Sorted.{IsStrictlySortedBy};
ghost use Rattle.std.specs.Set.{sorted_merge};
ghost use Rattle.fl_ops.specs.OpOrder.{op_cmp};
ghost use Rattle.fl_opset.specs.ByNode.{all_ops, AreByNode};
ghost use Rattle.fl_opset.specs.parts.Room.{HasRoom};

use crate::merging::{gap_for, insert_at, merged};
use crate::node_ops::{NodeOps, entry, find};
use fl_labels::sorted::arrange;
use fl_ops::op::Op;
use std::alloc::{AllocError, Global};

// Adds operations to others, which have room for them. Where they fit in one gap, they are copied
// in there; else one walk over both makes a new vector, or both are sorted in place where there is
// no memory for that.
fn join(own: &mut Vec<Op>, more: &[Op])
    requires own { IsStrictlySortedBy op_cmp own.old.items }
    requires more { IsStrictlySortedBy op_cmp more.now }
    requires room { vec_len own.old + length more.now ≤ vec_capacity own.old }
    ensures { own.new.items ≡ sorted_merge op_cmp true own.old.items more.now }
{
    if let Some(place) = gap_for(own, more) {
        let Ok(()) = insert_at(own, place, more) else {
            unreachable!("there is room");
        };
    } else if let Ok(ops) = merged(*own.allocator(), own, more) {
        *own = ops;
    } else {
        let Ok(()) = own.extend_from_slice(more) else {
            unreachable!("there is room");
        };
        arrange(own);
    }
}

// Adds operations, as `join` does, and answers how many are new.
fn receive(own: &mut Vec<Op>, more: &[Op]) -> usize
    requires own { IsStrictlySortedBy op_cmp own.old.items }
    requires more { IsStrictlySortedBy op_cmp more.now }
    requires room { vec_len own.old + length more.now ≤ vec_capacity own.old }
    ensures merged { own.new.items ≡ sorted_merge op_cmp true own.old.items more.now }
    ensures count { length own.new.items ≡ length own.old.items + result }
{
    let before = own.len();
    join(own, more);
    own.len() - before
}

// Puts in an entry for each node of the others that has none, and makes room for what they have.
fn make_room(nodes: &mut Vec<NodeOps>, alloc: Global, others: &[NodeOps]) -> Result<(), AllocError>
    requires first { AreByNode nodes.old.items }
    requires second { AreByNode others.now }
    ensures by_node { AreByNode nodes.new.items }
    ensures same { all_ops nodes.new.items ≡ all_ops nodes.old.items }
    ensures ok { OnOk result (All (HasRoom nodes.new.items) others.now) }
{
    for other in others {
        let place = entry(nodes, alloc, other.node)?;
        nodes[place].ops.reserve(other.ops.len())?;
    }
    Ok(())
}

// Adds the operations of the others, for which there is room. Answers how many are new.
fn receive_all(nodes: &mut Vec<NodeOps>, others: &[NodeOps]) -> usize
    requires first { AreByNode nodes.old.items }
    requires second { AreByNode others.now }
    requires room { All (HasRoom nodes.old.items) others.now }
    requires few { length (all_ops others.now) < 2 ^ 64 }
    ensures by_node { AreByNode nodes.new.items }
    ensures merged { all_ops nodes.new.items
        ≡ sorted_merge op_cmp true (all_ops nodes.old.items) (all_ops others.now) }
    ensures count { length (all_ops nodes.new.items)
        ≡ length (all_ops nodes.old.items) + result }
{
    let mut added = 0;
    for other in others {
        let Ok(place) = find(nodes, other.node) else {
            unreachable!("there is an entry with room");
        };
        added += receive(&mut nodes[place].ops, &other.ops);
    }
    added
}

/// Adds the operations of the others, which are by node too. Answers how many are new. An error
/// says that there was no memory for them, and leaves the operations.
///
/// Room is made for all of them before the first one comes. Searches twice for the node of each
/// entry of the others. Where what comes fits in one gap of that node's own operations, those above
/// move, once; else they are walked once, into a new vector, or sorted in place where there is no
/// memory for that. The operations of other nodes are not touched.
pub fn merge_nodes(nodes: &mut Vec<NodeOps>, others: &[NodeOps]) -> Result<usize, AllocError>
    requires first { AreByNode nodes.old.items }
    requires second { AreByNode others.now }
    requires few { length (all_ops others.now) < 2 ^ 64 }
    ensures by_node { AreByNode nodes.new.items }
    ensures ok { OnOk result (all_ops nodes.new.items
        ≡ sorted_merge op_cmp true (all_ops nodes.old.items) (all_ops others.now)) }
    ensures count { IfOk result (λ added. length (all_ops nodes.new.items)
        ≡ length (all_ops nodes.old.items) + added) }
    ensures err { OnErr result (all_ops nodes.new.items ≡ all_ops nodes.old.items) }
{
    make_room(nodes, *nodes.allocator(), others)?;
    Ok(receive_all(nodes, others))
}

/// Adds the operations of the others, as [`merge_nodes`] does, to so many. Answers how many there
/// are then. An error says that there was no memory for them, or that there could be more than a
/// `usize` counts, and leaves the operations.
pub fn merge_nodes_counted(
    nodes: &mut Vec<NodeOps>,
    count: usize,
    others: &[NodeOps],
    more: usize,
) -> Result<usize, AllocError>
    requires first { AreByNode nodes.old.items }
    requires second { AreByNode others.now }
    requires first_counted { count ≡ length (all_ops nodes.old.items) }
    requires second_counted { more ≡ length (all_ops others.now) }
    ensures by_node { AreByNode nodes.new.items }
    ensures ok { OnOk result (all_ops nodes.new.items
        ≡ sorted_merge op_cmp true (all_ops nodes.old.items) (all_ops others.now)) }
    ensures count { IfOk result (λ count. count ≡ length (all_ops nodes.new.items)) }
    ensures err { OnErr result (all_ops nodes.new.items ≡ all_ops nodes.old.items) }
{
    if more > usize::MAX - count {
        return Err(AllocError);
    }
    let added = merge_nodes(nodes, others)?;
    Ok(count + added)
}

/// Operations that rise, by node. A binary search for the end of each node's among them, and a
/// vector for each. An error says that there was no memory for it.
pub fn by_node_of(alloc: Global, ops: &[Op]) -> Result<Vec<NodeOps>, AllocError>
    requires { IsStrictlySortedBy op_cmp ops.now }
    ensures by_node { IfOk result (λ nodes. AreByNode nodes.items) }
    ensures whole { IfOk result (λ nodes. all_ops nodes.items ≡ ops.now) }
{
    let mut nodes = Vec::new(alloc);
    let mut rest = ops;
    while let Some(first) = rest.first() {
        let node = first.name.node;
        let end = rest.partition_point(|op| op.name.node <= node);
        let (run, after) = rest.split_at(end);
        let ops = Vec::from_slice(alloc, run)?;
        nodes.push(NodeOps { node, ops })?;
        rest = after;
    }
    Ok(nodes)
}
