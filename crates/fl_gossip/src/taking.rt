//! What is taken of a packet.
ghost use Rattle.std.specs.Prelude.{◌≡◌, MatchResult};
ghost use Rattle.std.specs.List.{All};
ghost use Rattle.std.specs.List.Sorted.{IsStrictlySortedBy};
ghost use Rattle.fl_labels.specs.SetBy.{In};
ghost use Rattle.fl_ops.specs.OpOrder.{op_cmp};
ghost use Rattle.fl_ops.specs.Registry.{Listed};
ghost use Rattle.fl_wire.specs.NameOrder.{by_name};
ghost use Rattle.fl_gossip.specs.Taking.{ops_of, Offends, AreTaken, Refuses};
ghost use Rattle.fl_gossip.specs.parts.Ahead.{NotBelow, IsAhead, IsNewAmong};
ghost use Rattle.fl_gossip.specs.parts.Starving.{HasNew, Stops};

use crate::ahead::{begins_with, from_name, has_other};
use crate::fault::GossipFault;
use fl_labels::name::{Name, NodeNumber};
use fl_ops::op::Op;
use fl_opset::set::OpSet;
use fl_wire::packet::Packet;
use std::alloc::Global;

// The operations that a packet brings.
fn operations(packet: &Packet) -> &[Op]
    ensures ops { result.now ≡ ops_of packet.now }
    ensures rise { IsStrictlySortedBy by_name result.now }
{
    match packet {
        Packet::Full(batch) | Packet::Delta(batch) => batch.ops.as_slice(),
        _ => &[],
    }
}

// Whether an operation that a node may take is new. The members from its name on are enough to
// tell.
fn is_new(members: &[Op], me: NodeNumber, op: &Op) -> Result<bool, GossipFault>
    requires rise { IsStrictlySortedBy op_cmp members.now }
    requires from { All (NotBelow op.now.name) members.now }
    ensures { MatchResult result
        (IsNewAmong me (Listed members.now) op.now)
        (Offends me (Listed members.now) op.now) }
{
    if !begins_with(members, op.name) {
        if op.name.node == me {
            return Err(GossipFault::Impostor(op.name));
        }
        return Ok(true);
    }
    if has_other(members, op) {
        return Err(GossipFault::Clash(op.name));
    }
    Ok(false)
}

// The members of the name's node from that name on: among those that are left of this node's, or
// among all, where that is another node.
fn ahead<'a>(saved: &'a OpSet, node: Option<NodeNumber>, left: &'a [Op], name: Name) -> &'a [Op]
    requires { IsStrictlySortedBy op_cmp left.now }
    ensures { IsAhead saved.now node left.now name result.now }
{
    if node == Some(name.node) {
        return from_name(left, name);
    }
    from_name(saved.of_node(name.node), name)
}

// Those of the operations that the set lacks, or the first reason to stop: an operation that may not
// be taken, or no memory for one that is new.
fn gather(alloc: Global, saved: &OpSet, me: NodeNumber, ops: &[Op]) -> Result<Vec<Op>, GossipFault>
    requires { IsStrictlySortedBy by_name ops.now }
    ensures { MatchResult result (λ new. AreTaken me saved.now ops.now new.items)
        (Stops me (In saved.now) ops.now) }
{
    let mut new = Vec::new(alloc);
    let mut node = None;
    let mut rest: &[Op] = &[];
    for op in ops {
        rest = ahead(saved, node, rest, op.name);
        node = Some(op.name.node);
        if is_new(rest, me, op)? {
            new.push(*op)?;
        }
    }
    Ok(new)
}

// Why operations, of which one is new, are not taken where there is no memory for it: the least that
// may not be taken, if there is one. Takes no memory.
fn refusal(saved: &OpSet, me: NodeNumber, ops: &[Op]) -> GossipFault
    requires rise { IsStrictlySortedBy by_name ops.now }
    requires new { HasNew (In saved.now) ops.now }
    ensures { Refuses me (In saved.now) ops.now result }
{
    let mut node = None;
    let mut rest: &[Op] = &[];
    for op in ops {
        rest = ahead(saved, node, rest, op.name);
        node = Some(op.name.node);
        if let Err(fault) = is_new(rest, me, op) {
            return fault;
        }
    }
    GossipFault::Memory
}

/// The operations of a packet that the set lacks, rising; of a packet without operations, none.
///
/// For the least name of an operation that may not be taken: `Impostor` where its node is `me` and
/// the set has no operation of that name, and `Clash` where the set has another operation of that
/// name. `Memory` only where each may be taken, and there was not enough for one that the set lacks:
/// where it lacks none of the packet's, nothing is allocated.
///
/// Looks up the members of a node where the packet's operations come to another one, and goes
/// through them with the packet, by a search for each operation, in steps that double from where
/// the one before ended. Where there is no memory it does so once more, and then takes none.
pub fn take(
    alloc: Global,
    saved: &OpSet,
    me: NodeNumber,
    packet: &Packet,
) -> Result<Vec<Op>, GossipFault>
    ensures { MatchResult result (λ new. AreTaken me saved.now (ops_of packet.now) new.items)
        (Refuses me (In saved.now) (ops_of packet.now)) }
{
    let ops = operations(packet);
    match gather(alloc, saved, me, ops) {
        Err(GossipFault::Memory) => Err(refusal(saved, me, ops)),
        gathered => gathered,
    }
}
