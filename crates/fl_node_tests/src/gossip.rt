//! Tests of nodes that tell each other.
use crate::opened::{given, opened};
use fl_jobs::answer::Refusal;
use fl_labels::name::Name;
use fl_node::node::Node;
use fl_ops::op::Body;
use fl_store::mem::MemKeeper;
use fl_system::answer::Fault;
use fl_wire::packet::Packet;
use fl_wire::reading::decode;
use std::alloc::Global;
use std::test::Fail;

// The first packet of these.
fn first_of(packets: Vec<Packet>) -> Result<Packet, Fail> {
    match packets.into_iter().next() {
        Some(packet) => Ok(packet),
        None => Err(Fail::from("no packet")),
    }
}

// What the teller answers to the listener's summary.
fn told(
    alloc: Global,
    teller: &Node<MemKeeper>,
    listener: &Node<MemKeeper>,
) -> Result<Packet, Fail> {
    match &first_of(given(listener.summary(alloc))?)? {
        Packet::Have(window) => first_of(given(teller.reply(alloc, window))?),
        _ => Err(Fail::from("no window")),
    }
}

// Whether the group that the node makes is 1.1, and saved.
fn saves_a_group(node: &mut Node<MemKeeper>) -> bool {
    node.begin(Body::MakeGroup, None) == Ok(Name { node: 1, seq: 1 }) && node.save() == Ok(())
}

// Whether the node takes one operation, and publishes it.
fn takes_one(alloc: Global, node: &mut Node<MemKeeper>, delta: &Packet) -> bool {
    node.check(alloc, delta) == Ok(1)
        && node.receive(alloc, delta) == Ok(1)
        && node.save() == Ok(())
        && node.publish(alloc) == Ok(1)
}

// Whether the listener takes what the teller answers to its summary, once, and both have the same.
fn teaches(
    alloc: Global,
    teller: &mut Node<MemKeeper>,
    listener: &mut Node<MemKeeper>,
) -> Result<bool, Fail> {
    let delta = told(alloc, teller, listener)?;
    Ok(
        takes_one(alloc, listener, &delta)
            && teller.publish(alloc) == Ok(1)
            && listener.published() == teller.published()
            && listener.receive(alloc, &delta) == Ok(0),
    )
}

#[test]
fn gossip_teaches_a_group(rt: HostRuntime) -> Result<(), Fail> {
    let alloc = rt.alloc();
    let mut teller = opened(alloc, MemKeeper::new(alloc, 1), 1)?;
    let mut listener = opened(alloc, MemKeeper::new(alloc, 2), 2)?;
    assert!(rt; saves_a_group(&mut teller));
    assert!(rt; teaches(alloc, &mut teller, &mut listener)?);
    Ok(())
}

/// The group 1.1, as a packet.
const GROUP: &[u8] = b"\xf2\x03\x01\x02\x02\x00\x00\x00\x01\x00\x00\x00\x01";

/// Deltas of two operations, and what node 2 answers, which has published the group 1.1: that
/// another tag is 1.1, beside the group 1.2, and that a group is 2.9, beside that one.
const OFFENDING: [(&[u8], Fault); 2] = [
    (
        b"\xf2\x03\x02\x02\x01\x00\x00\x00\x01\x00\x00\x00\x01\x01\
\x02\x02\x00\x00\x00\x01\x00\x00\x00\x02",
        Fault::Clash(Name { node: 1, seq: 1 }),
    ),
    (
        b"\xf2\x03\x02\x02\x02\x00\x00\x00\x01\x00\x00\x00\x02\
\x02\x02\x00\x00\x00\x02\x00\x00\x00\x09",
        Fault::Impostor(Name { node: 2, seq: 9 }),
    ),
];

// The node receives this, saves and publishes it.
fn learns(alloc: Global, node: &mut Node<MemKeeper>, bytes: &[u8]) -> Result<(), Fail> {
    given(node.receive(alloc, &decode(alloc, bytes)?))?;
    given(node.save())?;
    given(node.publish(alloc))?;
    Ok(())
}

// Whether the node refuses the packet so, where it is checked and where it is received.
fn refuses(
    alloc: Global,
    node: &mut Node<MemKeeper>,
    bytes: &[u8],
    fault: Fault,
) -> Result<bool, Fail> {
    let packet = decode(alloc, bytes)?;
    Ok(node.check(alloc, &packet) == Err(fault) && node.receive(alloc, &packet) == Err(fault))
}

// Whether all that the node saved and published is the group 1.1.
fn has_one_group(alloc: Global, node: &Node<MemKeeper>) -> Result<bool, Fail> {
    let mut text = Vec::new(alloc);
    given(node.text(&mut text))??;
    Ok(text.as_slice() == b"1.1 group\n".as_slice() && node.saved().len() == 1)
}

// Whether the node refuses what offends, each time for its cause, and has what it had.
fn takes_nothing(alloc: Global, node: &mut Node<MemKeeper>) -> Result<bool, Fail> {
    for (bytes, fault) in &OFFENDING {
        if !refuses(alloc, node, bytes, *fault)? || !has_one_group(alloc, node)? {
            return Ok(false);
        }
    }
    Ok(true)
}

#[test]
fn takes_nothing_beside_what_offends(rt: HostRuntime) -> Result<(), Fail> {
    let alloc = rt.alloc();
    let mut node = opened(alloc, MemKeeper::new(alloc, 2), 2)?;
    learns(alloc, &mut node, GROUP)?;
    assert!(rt; takes_nothing(alloc, &mut node)?);
    assert!(rt; node.save() == Err(Fault::Refused(Refusal::Busy)));
    Ok(())
}
