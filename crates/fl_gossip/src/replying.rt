//! What is answered to a window.
ghost use Rattle.std.specs.Prelude.{◌≡◌, ◌<◌, ◌≤◌, ◌*◌, ◌++◌, length, take, vec_len, IfOk, OnOk, OnErr};
ghost use Rattle.std.specs.List.Sorted.{IsStrictlySortedBy};
ghost use Rattle.fl_labels.specs.Found.{Tells};
ghost use Rattle.fl_labels.specs.SetBy.{In};
ghost use Rattle.fl_opset.specs.ByNode.{all_ops};
ghost use Rattle.fl_opset.specs.Catching.{HaveNoClash};
ghost use Rattle.fl_opset.specs.Windows.{lacking};
ghost use Rattle.fl_wire.specs.NameOrder.{by_name};
ghost use Rattle.fl_gossip.specs.Replying.{IsDelta, AreInDeltas};
ghost use Rattle.fl_gossip.specs.Taking.{ops_of};
ghost use Rattle.fl_gossip.specs.parts.Filling.{AreFilled, filled};
ghost use Rattle.fl_gossip.specs.parts.Nothing.{IsOfNothing};

use fl_ops::op::Op;
use fl_opset::intervals::Intervals;
use fl_opset::node_ops::NodeOps;
use fl_opset::rank::rank;
use fl_opset::set::OpSet;
use fl_wire::batch::{Batch, MOST_OPS, OpList};
use fl_wire::packet::Packet;
use std::alloc::{AllocError, Global};
use std::mem::replace;

// The ranks of the first name of all, 1.1, and of the last.
const LEAST_RANK: u64 = 1;

const GREATEST_RANK: u64 = 18_446_744_069_414_584_319;

// The delta of these operations.
fn delta_of(ops: Vec<Op>) -> Packet
    requires some { 0 < vec_len ops }
    requires few { vec_len ops ≤ 64 }
    requires rise { IsStrictlySortedBy by_name ops.items }
    ensures { IsDelta result × (ops_of result ≡ ops.items) }
{
    let ops = OpList::from_vec(ops);
    Packet::Delta(Batch { ops })
}

// Copies operations behind those that wait, fewer than 64, and makes a delta of each 64. An error
// says that there was no memory for it, and comes only where there are operations.
fn fill(deltas: &mut Vec<Packet>, waiting: &mut Vec<Op>, ops: &[Op]) -> Result<(), AllocError>
    requires full { AreFilled deltas.old.items waiting.old.items }
    requires rise { IsStrictlySortedBy by_name
        (filled deltas.old.items waiting.old.items ++ ops.now) }
    ensures full { OnOk result (AreFilled deltas.new.items waiting.new.items) }
    ensures whole { OnOk result (filled deltas.new.items waiting.new.items
        ≡ filled deltas.old.items waiting.old.items ++ ops.now) }
    ensures wants { OnErr result
        (0 < length (filled deltas.old.items waiting.old.items ++ ops.now)) }
{
    let mut rest = ops;
    while rest.len() >= MOST_OPS - waiting.len() {
        let (front, back) = rest.split_at(MOST_OPS - waiting.len());
        waiting.extend_from_slice(front)?;
        let full = replace(waiting, Vec::new(*waiting.allocator()));
        deltas.push(delta_of(full))?;
        rest = back;
    }
    waiting.extend_from_slice(rest)
}

// With one more delta of what waits, if something does; without that it takes no memory. An error
// says that there was none.
fn finished(deltas: Vec<Packet>, waiting: Vec<Op>) -> Result<Vec<Packet>, AllocError>
    requires full { AreFilled deltas.items waiting.items }
    requires rise { IsStrictlySortedBy by_name (filled deltas.items waiting.items) }
    ensures ok { IfOk result (λ packets.
        AreInDeltas (filled deltas.items waiting.items) packets.items) }
    ensures wants { OnErr result (0 < length (filled deltas.items waiting.items)) }
{
    let mut packets = deltas;
    if waiting.is_empty() {
        return Ok(packets);
    }
    packets.push(delta_of(waiting))?;
    Ok(packets)
}

// Whether the window is over all names and has none, so that it lacks each operation.
fn is_of_nothing(window: &Intervals) -> bool
    ensures { Tells result (IsOfNothing window.now) }
{
    window.spans.as_slice().is_empty()
        && rank(window.from) == LEAST_RANK
        && rank(window.to) == GREATEST_RANK
}

// The first of the nodes' operations, as many as are wanted at most, as [`reply`] has them. Copies
// no other one, and looks at no node behind the last one wanted. An error says that there was no
// memory for them, and comes only where there are some.
fn first_of(alloc: Global, nodes: &[NodeOps], most: usize) -> Result<Vec<Packet>, AllocError>
    requires { IsStrictlySortedBy by_name (all_ops nodes.now) }
    ensures ok { IfOk result (λ packets.
        AreInDeltas (take most (all_ops nodes.now)) packets.items) }
    ensures wants { OnErr result (0 < length (take most (all_ops nodes.now))) }
{
    let mut deltas = Vec::new(alloc);
    let mut waiting = Vec::new(alloc);
    let mut left = most;
    for entry in nodes {
        if left == 0 {
            return finished(deltas, waiting);
        }
        let ops = entry.ops();
        let (front, _) = ops.split_at(ops.len().min(left));
        fill(&mut deltas, &mut waiting, front)?;
        left -= front.len();
    }
    finished(deltas, waiting)
}

// The first of what the window lacks, as many as are wanted at most, as [`reply`] has it. An error
// says that there was no memory for it, and comes only where there is something.
fn reply_of(
    alloc: Global,
    saved: &OpSet,
    window: &Intervals,
    most: usize,
) -> Result<Vec<Packet>, AllocError>
    requires { HaveNoClash (In saved.now) (In saved.now) }
    ensures ok { IfOk result (λ packets.
        AreInDeltas (take most (lacking saved.now window.now)) packets.items) }
    ensures wants { OnErr result (0 < length (take most (lacking saved.now window.now))) }
{
    if is_of_nothing(window) {
        return first_of(alloc, saved.by_node(), most);
    }
    let mut deltas = Vec::new(alloc);
    let mut waiting = Vec::new(alloc);
    let ops = saved.lacking(alloc, window, most)?;
    fill(&mut deltas, &mut waiting, &ops)?;
    finished(deltas, waiting)
}

/// What the window lacks of the set, which has each name once: deltas of 64 operations, the last
/// one shorter, rising. Linear in what is lacking, which is copied once where the window has
/// nothing, and else twice, after two searches a span. An error says that there was no memory for
/// it, and comes only where something is lacking.
pub fn reply(alloc: Global, saved: &OpSet, window: &Intervals) -> Result<Vec<Packet>, AllocError>
    requires { HaveNoClash (In saved.now) (In saved.now) }
    ensures ok { IfOk result (λ packets. AreInDeltas (lacking saved.now window.now) packets.items) }
    ensures wants { OnErr result (0 < length (lacking saved.now window.now)) }
{
    reply_of(alloc, saved, window, saved.len())
}

/// The first packets of what [`reply`] answers, so many at most. They are the same packets, by
/// [`crate::laws::law_front`]. Linear in what they hold, which is copied as often as there, after
/// two searches for each span before the last of it: no operation behind that is copied, and no
/// node behind that of the last one is looked at. An error says that there was no memory for them,
/// and comes only where there are some.
pub fn reply_front(
    alloc: Global,
    saved: &OpSet,
    window: &Intervals,
    most: usize,
) -> Result<Vec<Packet>, AllocError>
    requires { HaveNoClash (In saved.now) (In saved.now) }
    ensures ok { IfOk result (λ packets.
        AreInDeltas (take (64 * most) (lacking saved.now window.now)) packets.items) }
    ensures wants { OnErr result (0 < length (take (64 * most) (lacking saved.now window.now))) }
{
    let wanted = most.saturating_mul(MOST_OPS).min(saved.len());
    reply_of(alloc, saved, window, wanted)
}
