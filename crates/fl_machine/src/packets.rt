//! Packets that go from a node, and that come to it, as bytes.
ghost use Rattle.std.specs.Prelude.{◌≡◌, ℕ, Bool, List};
ghost use Rattle.fl_machine.specs.Shown.{Shows};
ghost use Rattle.fl_machine.specs.parts.Responding.{Responds, ShowsSaying};
ghost use Rattle.fl_machine_calls.specs.Saying.{arrivals};
ghost use Rattle.fl_machine_model.specs.Acts.{Replies, Sends, Tell};
ghost use Rattle.fl_machine_turns.specs.Answer.{answered, answered_of};
ghost use Rattle.fl_machine_turns.specs.Coming.{BeginsToTake, IsCheck, Takes, unread_line};
ghost use Rattle.fl_machine_turns.specs.Completing.{Begins, Completes};
ghost use Rattle.fl_machine_turns.specs.Saying.{Says};
ghost use Rattle.fl_machine_turns.specs.Settings.{settings_of};
ghost use Rattle.fl_machine_turns.specs.Turn.{Tells};
ghost use Rattle.fl_message.specs.declared.message.Data.{Data};
ghost use Rattle.fl_node.specs.Desks.{IsDeskOf};
ghost use Rattle.fl_seal.specs.declared.seal.Key.{Key};
ghost use Rattle.fl_sealed_packets.specs.Coming.{Brings};
ghost use Rattle.fl_system.specs.State.{NodeState};
ghost use Rattle.fl_wire.specs.declared.packet.Packet.TheVariants as packets;

use crate::response::{Response, refused, starved};
use fl_calls::response::counted;
use fl_jobs::answer::Reply as JobReply;
use fl_machine_calls::calls::{answer_window, bring, receive, tell as tell_once};
use fl_machine_calls::completing::take;
use fl_node::node::Node;
use fl_opset::intervals::Intervals;
use fl_seal::seal::Key;
use fl_sealed_packets::coming::read_packet;
use fl_sealed_packets::going::each_to_send;
use fl_sealed_packets::ours::least_not_ours;
use fl_store::keeper::Keeper;
use fl_system::answer::Fault;
use fl_system::reply::Reply;
use fl_wire::fault::ReadFault;
use fl_wire::packet::Packet;
use std::alloc::Global;

/// So many packets are told at most in answer to a window. What more is lacking comes with the
/// answer to the next one.
pub const MOST_TOLD: usize = 64;

// The packets are told, as far as there is memory for their bytes.
fn told<'a>(alloc: Global, keys: &[Key], packets: &[Packet]) -> Response<'a>
    ensures { (n : NodeState) → ShowsSaying keys.now n answered (Sends packets.now) result }
{
    match each_to_send(alloc, keys, packets) {
        Ok(all) => Response::Told(all),
        Err(_) => starved(),
    }
}

/// Tells what the node has saved, in windows.
#[inline(never)]
pub fn tell<'a, K: Keeper>(alloc: Global, node: &Node<K>, keys: &[Key]) -> Response<'a>
    ensures { let number = node.now.node.number in Responds K.custody keys.now node.now
        (λ s. Says answered (Begins number s Tell)) result 0 node.now }
{
    match tell_once(alloc, node) {
        Ok(packets) => told(alloc, keys, &packets),
        Err(fault) => refused(fault),
    }
}

// Why the bytes bring no packet.
fn unread<'a>(fault: ReadFault) -> Response<'a>
    ensures { (keys : List Key) (n : NodeState) → Shows keys n result (unread_line fault) }
{
    match fault {
        ReadFault::BadPacket { place } => Response::BadPacket(place as u64),
        ReadFault::Memory => starved(),
    }
}

// Answers a window by its first packets, unless it has a name of this node that it never saved.
fn bring_window<'a, K: Keeper>(
    alloc: Global,
    node: &Node<K>,
    keys: &[Key],
    window: &Intervals,
) -> Response<'a>
    ensures { (guards : Bool) (bytes : List ℕ) → Brings keys.now bytes (packets.Have window.now)
        → let settings = settings_of node.now.node.number keys.now guards in
        Responds K.custody keys.now node.now
        (λ s. Takes settings s bytes (Completes settings.number s)) result 0 node.now }
{
    if let Some(name) = least_not_ours(node.number(), node.saved(), window) {
        return refused(Fault::Impostor(name));
    }
    match answer_window(alloc, node, window, MOST_TOLD) {
        Ok(packets) => told(alloc, keys, &packets),
        Err(fault) => refused(fault),
    }
}

// What is responded where a message came, and how much was admitted: one that is refused is
// dropped.
fn arrived<'a>(reply: Reply) -> (Response<'a>, u64)
    ensures shows { (d : Data) (keys : List Key) (n : NodeState)
        → Shows keys n result.0 (answered_of (packets.Data d) (Replies reply)) }
    ensures count { result.1 ≡ arrivals reply }
{
    match &reply {
        Reply::Refused(fault) => (Response::Dropped(*fault), 0),
        Reply::Job(JobReply::Arrived(_)) => (Response::Reply(reply), 1),
        _ => (Response::Reply(reply), 0),
    }
}

/// Has the packet of these bytes come to the node: a window is answered, operations are taken,
/// saved and published, and a message is handed to its receiver. Says too how much was admitted.
#[inline(never)]
pub fn bring_packet<'a, K: Keeper>(
    alloc: Global,
    node: &mut Node<K>,
    keys: &[Key],
    bytes: &[u8],
) -> (Response<'a>, u64)
    requires { IsDeskOf node.old.node 1 }
    ensures { (guards : Bool)
        → let settings = settings_of node.old.node.number keys.now guards in
        Responds K.custody keys.now node.old
        (λ s. Takes settings s bytes.now (Completes settings.number s)) result.0 result.1
        node.new }
{
    let packet = match read_packet(alloc, keys, bytes) {
        Ok(packet) => packet,
        Err(fault) => return (unread(fault), 0),
    };
    match &packet {
        Packet::Have(window) => (bring_window(alloc, node, keys, window), 0),
        Packet::Full(_) => (Response::Reply(take(alloc, node, &packet)), 0),
        Packet::Delta(_) => (Response::Reply(take(alloc, node, &packet)), 0),
        Packet::Data(message) => arrived(bring(alloc, node, message)),
    }
}

/// Has the packet of these bytes come to the node, where it is one of operations: what is new is to
/// be saved and published by further lines.
#[inline(never)]
pub fn begin_to_bring<'a, K: Keeper>(
    alloc: Global,
    node: &mut Node<K>,
    keys: &[Key],
    bytes: &[u8],
) -> Response<'a>
    ensures { (guards : Bool)
        → let settings = settings_of node.old.node.number keys.now guards in
        Responds K.custody keys.now node.old
        (λ s. BeginsToTake settings s bytes.now (Begins settings.number s)) result 0 node.new }
{
    let packet = match read_packet(alloc, keys, bytes) {
        Ok(packet) => packet,
        Err(fault) => return unread(fault),
    };
    match &packet {
        Packet::Full(_) => Response::Reply(receive(alloc, node, &packet)),
        Packet::Delta(_) => Response::Reply(receive(alloc, node, &packet)),
        Packet::Have(_) | Packet::Data(_) => Response::Unknown,
    }
}

/// What the packet of these bytes would bring to the node, were it to come now.
#[inline(never)]
pub fn check<'a, K: Keeper>(
    alloc: Global,
    node: &Node<K>,
    keys: &[Key],
    bytes: &[u8],
) -> Response<'a>
    ensures { (guards : Bool)
        → let settings = settings_of node.now.node.number keys.now guards in
        Responds K.custody keys.now node.now
        (λ s. Tells s (IsCheck settings s bytes.now)) result 0 node.now }
{
    let packet = match read_packet(alloc, keys, bytes) {
        Ok(packet) => packet,
        Err(fault) => return unread(fault),
    };
    match node.check(alloc, &packet) {
        Ok(count) => Response::Checked(counted(&packet, count)),
        Err(fault) => refused(fault),
    }
}
