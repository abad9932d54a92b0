//! Sets of operations, their windows, and what nodes tell each other by them.
ghost use Rattle.std.specs.Prelude.{◌<◌, IfOk};
ghost use Rattle.fl_labels.specs.SetBy.{In};
ghost use Rattle.fl_opset.specs.Catching.{HaveNoClash};

use crate::bytes::bytes_of;
use crate::packets::push_packet;
use crate::rows::parts;
use fl_gossip::fault::GossipFault;
use fl_gossip::replying::{reply, reply_front};
use fl_gossip::taking::take;
use fl_labels::name::{Name, NodeNumber};
use fl_ops::op::{Body, Op, Policy};
use fl_opset::intervals::Intervals;
use fl_opset::set::OpSet;
use fl_sealed_packets::ours::least_not_ours;
use fl_wire::packet::Packet;
use fl_wire::reading::decode;
use std::alloc::{AllocError, Global};

const TAG: Op = Op {
    name: Name { node: 1, seq: 1 },
    body: Body::MakeTag(Policy::Export),
};

const WIDE: Op = Op {
    name: Name {
        node: 70_000,
        seq: 1,
    },
    body: Body::Open(Name { node: 1, seq: 2 }),
};

fn group(seq: u32) -> Op
    requires { 0 < seq }
{
    Op {
        name: Name { node: 1, seq },
        body: Body::MakeGroup,
    }
}

// So many groups of node 1, each second one where they are odd.
fn groups(alloc: Global, end: u32, odd: bool) -> Result<Vec<Op>, AllocError> {
    let mut ops = Vec::new(alloc);
    for seq in 1..end {
        if !odd || seq % 2 == 1 {
            ops.push(group(seq))?;
        }
    }
    Ok(ops)
}

// The operations of the set of this name.
fn listed(alloc: Global, name: &str) -> Result<Vec<Op>, AllocError> {
    match name {
        "tag" => Vec::from_slice(alloc, &[TAG]),
        "gap" => Vec::from_slice(alloc, &[TAG, group(3)]),
        "whole" => Vec::from_slice(alloc, &[TAG, group(2), group(3)]),
        "wide" => Vec::from_slice(alloc, &[TAG, WIDE]),
        "64" => groups(alloc, 65, false),
        "odd" => groups(alloc, 1026, true),
        "all" => groups(alloc, 1026, false),
        _ => Ok(Vec::new(alloc)),
    }
}

// Adds an operation whose name is not there.
fn put(ops: &mut OpSet, op: Op) -> Result<(), AllocError>
    requires { HaveNoClash (In ops.old) (In ops.old) }
    ensures { HaveNoClash (In ops.new) (In ops.new) }
{
    if ops.clash(&op).is_some() {
        return Ok(());
    }
    ops.add(op)?;
    Ok(())
}

// The set of this name, which has each name once.
fn named(alloc: Global, name: &str) -> Result<OpSet, AllocError>
    ensures { IfOk result (λ ops. HaveNoClash (In ops) (In ops)) }
{
    let list = listed(alloc, name)?;
    let mut ops = OpSet::new(alloc);
    for op in &list {
        put(&mut ops, *op)?;
    }
    Ok(ops)
}

/// What is asked of a set, which is known by a word, and of another one: the answer.
pub fn say(alloc: Global, out: &mut String, what: &str, rest: &str) -> Result<(), AllocError> {
    let (first, second) = parts(rest);
    let saved = named(alloc, first)?;
    match what {
        "windows" => windows(alloc, out, &saved),
        "copy" => compare(out, &saved.copy(alloc)?, &saved),
        "take" => take_all(alloc, out, &saved, second),
        "front" => push_front(alloc, out, &saved, second),
        "ours" => ours(alloc, out, &saved, second),
        _ => answer_other(alloc, out, &saved, second),
    }
}

// What the set replies to the other one, which takes it.
fn answer_other(
    alloc: Global,
    out: &mut String,
    saved: &OpSet,
    name: &str,
) -> Result<(), AllocError>
    requires { HaveNoClash (In saved.now) (In saved.now) }
{
    let mut other = named(alloc, name)?;
    let windows = other.have(alloc)?;
    answer_all(alloc, out, saved, &windows, &mut other)?;
    compare(out, &other, saved)
}

fn compare(out: &mut String, first: &OpSet, second: &OpSet) -> Result<(), AllocError> {
    let is_same = first.len() == second.len() && first.has_each(second);
    out.push_str(if is_same { "all" } else { "not all" })
}

fn windows(alloc: Global, out: &mut String, ops: &OpSet) -> Result<(), AllocError> {
    for window in ops.have(alloc)? {
        push_window(alloc, out, window)?;
    }
    Ok(())
}

// The ends of a window, how many spans it has, and its bytes.
fn push_window(alloc: Global, out: &mut String, window: Intervals) -> Result<(), AllocError> {
    let spans = window.spans.as_slice().len();
    write!(out, "{}-{} {spans} ", window.from, window.to)?;
    push_packet(alloc, out, &Packet::Have(window), &[])?;
    out.push(';')
}

fn answer_all(
    alloc: Global,
    out: &mut String,
    saved: &OpSet,
    windows: &[Intervals],
    other: &mut OpSet,
) -> Result<(), AllocError>
    requires { HaveNoClash (In saved.now) (In saved.now) }
{
    for window in windows {
        answer(alloc, out, saved, window, other)?;
    }
    Ok(())
}

// The bytes of what the first set replies to a window, which the other one, of node 2, takes.
fn answer(
    alloc: Global,
    out: &mut String,
    saved: &OpSet,
    window: &Intervals,
    other: &mut OpSet,
) -> Result<(), AllocError>
    requires { HaveNoClash (In saved.now) (In saved.now) }
{
    let packets = reply(alloc, saved, window)?;
    take_each(alloc, out, &packets, other)
}

// The first packets, so many at most, of what the set replies to each window of another one.
fn push_front(alloc: Global, out: &mut String, saved: &OpSet, rest: &str) -> Result<(), AllocError>
    requires { HaveNoClash (In saved.now) (In saved.now) }
{
    let (name, digits) = parts(rest);
    let other = named(alloc, name)?;
    for window in other.have(alloc)? {
        for packet in reply_front(alloc, saved, &window, digits.parse().unwrap_or(0))? {
            push_packet(alloc, out, &packet, &[])?;
        }
        out.push(';')?;
    }
    Ok(())
}

fn take_each(
    alloc: Global,
    out: &mut String,
    packets: &[Packet],
    other: &mut OpSet,
) -> Result<(), AllocError> {
    for packet in packets {
        push_packet(alloc, out, packet, &[])?;
        take_new(alloc, other, packet)?;
    }
    out.push(';')
}

fn take_new(alloc: Global, ops: &mut OpSet, packet: &Packet) -> Result<(), AllocError> {
    match take(alloc, ops, 2, packet) {
        Ok(new) => add_all(ops, &new),
        Err(_) => Ok(()),
    }
}

fn add_all(ops: &mut OpSet, new: &[Op]) -> Result<(), AllocError> {
    for op in new {
        ops.add(*op)?;
    }
    Ok(())
}

/// The windows of sets.
pub const WINDOWS: &str = "\
windows none => 1.1-4294967295.4294967295 0 f2020000000100000001ffffffffffffffff0000;
windows all => 1.1-4294967295.4294967295 1 \
f2020000000100000001ffffffffffffffff0001000000010000000100000401;
windows gap => 1.1-4294967295.4294967295 2 \
f2020000000100000001ffffffffffffffff0002000000010000000100000001000000010000000300000003;
windows wide => 1.1-4294967295.4294967295 2 \
f2020000000100000001ffffffffffffffff0002000000010000000100000001000111700000000100000001;
windows odd => 1.1-1.1023 512 6164 ;1.1024-4294967295.4294967295 1 \
f2020000000100000400ffffffffffffffff0001000000010000040100000401;";

// What the node of a number takes of the packet of these bytes: how many operations, and the first
// and the last of them; or the name for which it takes none.
fn take_all(alloc: Global, out: &mut String, saved: &OpSet, rest: &str) -> Result<(), AllocError> {
    let (number, digits) = parts(rest);
    let bytes = bytes_of(alloc, digits)?;
    match decode(alloc, &bytes) {
        Ok(packet) => take_one(alloc, out, saved, number.parse().unwrap_or(0), &packet),
        Err(_) => out.push_str("no packet"),
    }
}

fn take_one(
    alloc: Global,
    out: &mut String,
    saved: &OpSet,
    number: NodeNumber,
    packet: &Packet,
) -> Result<(), AllocError> {
    match take(alloc, saved, number, packet) {
        Ok(new) => push_new(out, &new),
        Err(GossipFault::Impostor(name)) => write!(out, "impostor {name}"),
        Err(GossipFault::Clash(name)) => write!(out, "clash {name}"),
        Err(GossipFault::Memory) => Err(AllocError),
    }
}

fn push_new(out: &mut String, new: &[Op]) -> Result<(), AllocError> {
    write!(out, "{}", new.len())?;
    if let (Some(first), Some(last)) = (new.first(), new.last()) {
        write!(out, " {} {}", first.name, last.name)?;
    }
    Ok(())
}

/// What a node takes of a packet to a set. For one name that offends it takes nothing else either.
pub const TAKEN: &str = "\
take gap 2 f203030201000000010000000101 0202000000010000000202020000000100000003 => 1 1.2 1.2
take tag 1 f203010201000000010000000101 => 0
take tag 2 f2020000000100000001ffffffffffffffff0000 => 0
take gap 2 f20302020200000001000000020201000000010000000301 => clash 1.3
take gap 2 f20102020200000001000000020201000000010000000301 => clash 1.3
take tag 2 f2030202020000000100000001 02020000000100000002 => clash 1.1
take tag 2 f2030202020000000100000002 02020000000200000009 => impostor 2.9
take tag 2 f2030202020000000100000001 02020000000200000009 => clash 1.1
take wide 1 f2030202020000000100000002 02020001117000000001 => impostor 1.2
take none 1 f20340 64*0202000000020000% => 64 2.1 2.64";

// The least name of a number that the window of these bytes has and the set has not.
fn ours(alloc: Global, out: &mut String, saved: &OpSet, rest: &str) -> Result<(), AllocError>
    requires { HaveNoClash (In saved.now) (In saved.now) }
{
    let (number, digits) = parts(rest);
    let bytes = bytes_of(alloc, digits)?;
    match &decode(alloc, &bytes) {
        Ok(Packet::Have(window)) => push_ours(out, number.parse().unwrap_or(0), saved, window),
        _ => out.push_str("no window"),
    }
}

fn push_ours(
    out: &mut String,
    number: NodeNumber,
    saved: &OpSet,
    window: &Intervals,
) -> Result<(), AllocError>
    requires { HaveNoClash (In saved.now) (In saved.now) }
{
    match least_not_ours(number, saved, window) {
        Some(name) => write!(out, "{name}"),
        None => out.push_str("none"),
    }
}

/// Which name of a number a window has that a set has not: none, one too many, or the least.
pub const OURS: &str = "\
ours none 1 f2020000000100000001ffffffffffffffff0000 => none
ours gap 1 f2020000000100000001ffffffffffffffff0002 00000001000000010000000100000001000000030000\
0003 => none
ours whole 1 f2020000000100000001ffffffffffffffff0001 000000010000000200000003 => none
ours whole 1 f2020000000100000001ffffffffffffffff0001 000000010000000100000004 => 1.4
ours gap 1 f2020000000100000001ffffffffffffffff0001 000000010000000100000004 => 1.2
ours gap 1 f2020000000100000001ffffffffffffffff0002 00000001000000010000000100000001000000030000\
0005 => 1.4
ours tag 1 f2020000000100000001ffffffffffffffff0003 00000001000000010000000100000001000000030000\
0003000000010000000500000005 => 1.3
ours tag 1 f2020000000100000001ffffffffffffffff0002 00000001000000010000000100000002000000010000\
0009 => none
ours tag 2 f2020000000100000001ffffffffffffffff0002 00000001000000010000000100000002000000010000\
0009 => 2.1
ours none 1 f2020000000100000001ffffffffffffffff0001 00000001000000070000000c => 1.7
ours wide 70000 f2020000000100000001ffffffffffffffff0001 000111700000000100000002 => 70000.2
ours all 1 f2020000000100000001ffffffffffffffff0001 000000010000000200000401 => none
ours all 1 f2020000000100000001ffffffffffffffff0001 000000010000000200000402 => 1.1026
ours odd 1 f2020000000100000001ffffffffffffffff0001 00000001000001ff00000402 => 1.512";

/// What one set replies to another, which then has all of it or not.
pub const REPLIES: &str = "\
reply whole gap => f2030102020000000100000002;all
reply tag none => f203010201000000010000000101;all
reply wide tag => f20301020500011170000000010000000100000002;all
reply tag whole => ;not all
copy whole => all
reply 64 none => 643 ;all
reply all odd => 643 643 643 643 643 643 643 633 ;f2030102020000000100000400;all";

/// The first packets of such replies, so many at most.
pub const FRONTS: &str = "\
front all none 0 => ;
front none none 1 => ;
front all none 2 => 643 643 ;
front 64 none 2 => 643 ;
front all none 18446744073709551615 => 643 643 643 643 643 643 643 643 \
643 643 643 643 643 643 643 643 f2030102020000000100000401;
front all gap 1 => 643 ;
front all odd 1 => 643 ;f2030102020000000100000400;
front all odd 8 => 643 643 643 643 643 643 643 633 ;f2030102020000000100000400;";
