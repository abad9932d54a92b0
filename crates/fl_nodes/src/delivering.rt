//! What the nodes of a world tell each other, and the packets that come to them.
ghost use Rattle.std.specs.Prelude.{◌≡◌, ◌≢◌, Some, None, MatchOption};
ghost use Rattle.fl_system.specs.declared.answer.Fault.TheVariants.{KeeperFailed};
ghost use Rattle.fl_system.specs.declared.event.Event.TheVariants as event;
ghost use Rattle.fl_system.specs.WorldSteps.{Step};
ghost use Rattle.fl_nodes.specs.Goes.{Goes};
ghost use Rattle.fl_nodes.specs.parts.Delivering.{packet_of};

use crate::highest::raised;
use crate::nodes::Nodes;
use crate::sending::send_all;
use fl_labels::name::NodeNumber;
use fl_notes::bringing::{bring, receive};
use fl_store::keeper::Keeper;
use fl_system::reply::Reply;
use fl_system::sent::Sent;
use fl_wire::packet::Packet;
use std::alloc::Global;

// The packet of this number, counted from 1, or none where fewer were sent.
fn packet_at(sent: &[Sent], number: u64) -> Option<&Sent>
    ensures { MatchOption result (packet_of sent.now number ≡ None)
        (λ packet. packet_of sent.now number ≡ Some packet.now) }
{
    let before = number.checked_sub(1)?;
    sent.get(before as usize)
}

impl<K: Keeper> Nodes<K> {
    /// Has the node send what it has saved, as `Node::summary` has it, and answers the number of
    /// the first packet and how many there are, or why not: `NoSuch` where the node is not there.
    ///
    /// Refused with `Memory` too where there is no room for the packets, and then none is sent;
    /// never with `KeeperFailed`. Costs what `Node::summary` does.
    pub fn tell(&mut self, alloc: Global, number: NodeNumber) -> Reply
        ensures goes { Goes K.custody self.old self.new
            (λ w w'. Step w (event.Tell number) result w') }
        ensures cause { result ≢ Reply.Refused KeeperFailed }
    {
        let Some(node) = self.all.get(&number) else {
            return Reply::NoSuch;
        };
        match node.summary(alloc) {
            Ok(told) => send_all(alloc, number, told, &mut self.sent),
            Err(fault) => Reply::Refused(fault),
        }
    }

    /// Has the packet of this number, counted from 1, come to the node of this number; it may come
    /// again. `NoSuch` where either is not there.
    ///
    /// - Operations are received as `Node::receive` has it: `Taking` says how many are new, and
    ///   `Took(0)` that none is.
    /// - A window is answered as `Node::reply` has it, in packets that are sent.
    /// - A message arrives as `Node::arrive` has it, and is noted with its sender as it was when it
    ///   sent.
    ///
    /// Refused with `Memory` too where there is no room for a copy of the message, for what would
    /// be noted, or for the packets; then nothing changes. Never with `KeeperFailed`. Beside the
    /// node's own costs, a message is copied; and so are the labels of its receiver, and what that
    /// owns, where one of them has changed since it was noted last.
    pub fn deliver(&mut self, alloc: Global, packet: u64, number: NodeNumber) -> Reply
        ensures goes { Goes K.custody self.old self.new
            (λ w w'. Step w (event.Deliver packet number) result w') }
        ensures cause { result ≢ Reply.Refused KeeperFailed }
    {
        let Some(node) = self.all.get_mut(&number) else {
            return Reply::NoSuch;
        };
        let Some(sent) = packet_at(&self.sent, packet) else {
            return Reply::NoSuch;
        };
        let answer = match &sent.packet {
            Packet::Full(_) => receive(alloc, node, &sent.packet),
            Packet::Delta(_) => receive(alloc, node, &sent.packet),
            Packet::Have(window) => match node.reply(alloc, window) {
                Ok(told) => send_all(alloc, number, told, &mut self.sent),
                Err(fault) => Reply::Refused(fault),
            },
            Packet::Data(message) => bring(alloc, node, &sent.sender, message, &mut self.audit),
        };
        self.highest = raised(self.highest, node.saved());
        answer
    }
}
