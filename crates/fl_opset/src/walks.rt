//! Walks over the operations of each node.
ghost use Rattle.std.specs.Prelude.{◌≡◌, ◌<◌, ◌≤◌, ◌++◌, ◌&&◌, [], true, OnOk, OnErr, IfOk, length, take, nat_le};
ghost use Rattle.std.specs.List.{flat_map, filter};
ghost use Rattle.std.specs.List.Sorted.{IsStrictlySortedBy};
ghost use Rattle.fl_labels.specs.Found.{Tells, Within};
ghost use Rattle.fl_ops.specs.Registry.{Listed};
ghost use Rattle.fl_sink.specs.Sink.{Puts};
ghost use Rattle.fl_opset.specs.ByNode.{all_ops, node_order, AreByNode};
ghost use Rattle.fl_opset.specs.Rank.{least_rank, greatest_rank};
ghost use Rattle.fl_opset.specs.RegistryText.{op_line};
ghost use Rattle.fl_opset.specs.Spans.{fit};
ghost use Rattle.fl_opset.specs.Windows.{is_lacking};
ghost use Rattle.fl_opset.specs.Without.{is_outside};
ghost use Rattle.fl_opset.specs.parts.Kept.{AddNames};

use crate::intervals::Intervals;
use crate::lacking::add_lacking;
use crate::node_ops::{NodeOps, ops_of};
use crate::span::Span;
use crate::spans::{self, add_names};
use crate::text;
use fl_labels::name::NodeNumber;
use fl_labels::sorted::first_outside;
use fl_ops::op::Op;
use fl_sink::sink::{Sink, WriteFault};
use fl_sink::writer::Writer;
use std::alloc::{AllocError, Global};

/// The operations of each node again. An error says that there was no memory for them.
pub fn copy_of(alloc: Global, nodes: &[NodeOps]) -> Result<Vec<NodeOps>, AllocError>
    requires { AreByNode nodes.now }
    ensures same { IfOk result (λ made. all_ops made.items ≡ all_ops nodes.now) }
    ensures by_node { IfOk result (λ made. AreByNode made.items) }
{
    let mut made = Vec::with_capacity(alloc, nodes.len())?;
    for it in nodes {
        let ops = Vec::from_slice(alloc, &it.ops)?;
        made.push(NodeOps { node: it.node, ops })?;
    }
    Ok(made)
}

/// Copies the operations of all nodes to the end of a list. An error says that there was no memory
/// for them, comes only where there are some, and may leave some of them copied.
pub fn append_to(nodes: &[NodeOps], list: &mut Vec<Op>) -> Result<(), AllocError>
    ensures ok { OnOk result (list.new.items ≡ list.old.items ++ all_ops nodes.now) }
    ensures wants { OnErr result (0 < length (all_ops nodes.now)) }
{
    for it in nodes {
        list.extend_from_slice(&it.ops)?;
    }
    Ok(())
}

/// The spans of the names of all operations. One walk.
pub fn spans_of(alloc: Global, nodes: &[NodeOps]) -> Result<Vec<Span>, AllocError>
    ensures { IfOk result (λ spans. AddNames (all_ops nodes.now) [] spans.items) }
{
    let mut spans = Vec::new(alloc);
    for it in nodes {
        add_names(&mut spans, &it.ops)?;
    }
    Ok(spans)
}

/// Adds the names of all operations to spans, as [`spans::add_near_names`] does those of each node,
/// unless that could move more than so many spans in all. An error says that some are not added:
/// for that, or for want of memory.
pub fn add_near_names(
    spans: &mut Vec<Span>,
    nodes: &[NodeOps],
    most: usize,
) -> Result<(), AllocError>
    requires { fit least_rank greatest_rank spans.old.items ≡ true }
    ensures ok { OnOk result (AddNames (all_ops nodes.now) spans.old.items spans.new.items) }
    ensures fits { fit least_rank greatest_rank spans.new.items ≡ true }
{
    let mut left = most;
    for it in nodes {
        left = spans::add_near_names(spans, &it.ops, left)?;
    }
    Ok(())
}

/// Puts the line of each operation into the sink.
pub fn write_lines<W: Writer>(
    nodes: &[NodeOps],
    sink: &mut Sink,
    output: &mut W,
) -> Result<(), WriteFault>
    ensures puts { let text = flat_map op_line (all_ops nodes.now) in
        Puts (W.contents output.old) (W.contents output.new) sink.old text sink.new result }
    ensures cause { OnErr result (W.has_failed output.new) }
{
    for it in nodes {
        text::write_lines(&it.ops, sink, output)?;
    }
    Ok(())
}

/// Puts the line of each operation into the sink, but of those. Compares each with each of those.
pub fn write_lines_but<W: Writer>(
    nodes: &[NodeOps],
    those: &[Op],
    sink: &mut Sink,
    output: &mut W,
) -> Result<(), WriteFault>
    ensures puts { let text = flat_map op_line
        (filter (is_outside those.now) (all_ops nodes.now)) in
        Puts (W.contents output.old) (W.contents output.new) sink.old text sink.new result }
    ensures cause { OnErr result (W.has_failed output.new) }
{
    for it in nodes {
        text::write_lines_but(&it.ops, those, sink, output)?;
    }
    Ok(())
}

// The entries of the nodes from one number to another. Two binary searches.
fn nodes_between(nodes: &[NodeOps], first: NodeNumber, last: NodeNumber) -> &[NodeOps]
    requires { IsStrictlySortedBy node_order nodes.now }
    ensures { result.now ≡ filter (λ it. nat_le first it.node && nat_le it.node last) nodes.now }
{
    let (front, _) = nodes.split_at(nodes.partition_point(|it| it.node <= last));
    let (_, between) = front.split_at(front.partition_point(|it| it.node < first));
    between
}

/// The first operations that the window lacks, rising: as many as are wanted at most. Two binary
/// searches find its nodes, and no other one is looked at, nor one behind the last one wanted; for
/// each of them it costs what [`add_lacking`] does. An error says that there was no memory for
/// them, and comes only where there are some.
pub fn lacking_of(
    alloc: Global,
    nodes: &[NodeOps],
    window: &Intervals,
    most: usize,
) -> Result<Vec<Op>, AllocError>
    requires { AreByNode nodes.now }
    ensures ok { IfOk result (λ lacking.
        lacking.items ≡ take most (filter (is_lacking window.now) (all_ops nodes.now))) }
    ensures wants { OnErr result
        (0 < length (take most (filter (is_lacking window.now) (all_ops nodes.now)))) }
{
    let mut lacking = Vec::new(alloc);
    for it in nodes_between(nodes, window.from.node, window.to.node) {
        if lacking.len() == most {
            return Ok(lacking);
        }
        add_lacking(&it.ops, window, most, &mut lacking)?;
    }
    Ok(lacking)
}

/// Whether each operation of the others is one of these. For each node of the others a binary
/// search, and a walk along its operations here and there; takes no memory.
pub fn has_each(nodes: &[NodeOps], others: &[NodeOps]) -> bool
    requires these { AreByNode nodes.now }
    requires those { AreByNode others.now }
    ensures { Tells result (Within (Listed (all_ops others.now)) (Listed (all_ops nodes.now))) }
{
    for other in others {
        if first_outside(&other.ops, ops_of(nodes, other.node)).is_some() {
            return false;
        }
    }
    true
}
